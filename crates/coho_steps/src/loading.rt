ghost use Rattle.std.specs.Prelude.{◌≡◌, ◌≤◌, length, OnOk};
ghost use Rattle.coho_io.specs.Causes.{NoneFell};
ghost use Rattle.coho_steps.specs.Loading.{FitLength, Present, ReadText, FitOrder, Test, Accept, Load, order};
ghost use Rattle.coho_steps.specs.Stops.{Meets, Settles, HasReadCause, OnlyReads};
ghost use Rattle.coho_steps.specs.Told.{OfFiles};

use crate::reading::read_front;
use crate::{Cause, Stop};
use coho_io::Files;
use limits::{GREATEST_ORDER, LONGEST_TEXT};
use pc_group::{Consistent, Presentation, Refused, check};
use pc_text::{TextFault, read_presentation};
use std::alloc::Global;

// The text is not too long.
fn fit_length(text: &[u8]) -> Result<(), Stop<'static>>
    ensures step { Settles (λ _. tt) (FitLength text.now) result }
    ensures length { OnOk result (length text.now ≤ LONGEST_TEXT) }
{
    if text.len() > LONGEST_TEXT {
        return Err(Stop::Refused(Cause::Length));
    }
    Ok(())
}

// The presentation of a text.
fn present(alloc: Global, text: &[u8]) -> Result<Presentation, Stop<'static>>
    requires { length text.now ≤ LONGEST_TEXT }
    ensures { Settles (λ p. p) (Present text.now) result }
{
    match read_presentation(alloc, text) {
        Ok(presentation) => Ok(presentation),
        Err(TextFault::At { kind, line, column }) => {
            Err(Stop::Refused(Cause::Text { kind, line, column }))
        }
        Err(TextFault::Memory) => Err(Stop::Memory),
    }
}

// The presentation of a text that is not too long.
fn read_text(alloc: Global, text: &[u8]) -> Result<Presentation, Stop<'static>>
    ensures { Settles (λ p. p) (ReadText text.now) result }
{
    fit_length(text)?;
    present(alloc, text)
}

// The order is not too great.
fn fit_order(presentation: &Presentation) -> Result<(), Stop<'static>>
    ensures step { Settles (λ _. tt) (FitOrder presentation.now) result }
    ensures order { OnOk result (order presentation.now ≤ GREATEST_ORDER) }
{
    let prime = u64::from(presentation.prime().value());
    match prime.checked_pow(presentation.gens()) {
        Some(order) if order <= GREATEST_ORDER => Ok(()),
        _ => Err(Stop::Refused(Cause::Order)),
    }
}

// The presentation, where no consistency test is false.
fn pass_tests(alloc: Global, presentation: Presentation) -> Result<Consistent, Stop<'static>>
    requires { order presentation ≤ GREATEST_ORDER }
    ensures { Settles (λ c. c) (Test presentation) result }
{
    match check(alloc, presentation) {
        Ok(consistent) => Ok(consistent),
        Err(Refused::Fault { name, .. }) => Err(Stop::Refused(Cause::Inconsistent(name))),
        Err(Refused::Memory { .. }) => Err(Stop::Memory),
    }
}

/// The presentation, where its order is not too great and no consistency test is false.
pub fn accept(alloc: Global, presentation: Presentation) -> Result<Consistent, Stop<'static>>
    ensures { Settles (λ c. c) (Accept presentation) result }
{
    fit_order(&presentation)?;
    pass_tests(alloc, presentation)
}

/// The consistent presentation of a file, with which each command on a file begins.
pub fn load<'a, F: Files>(
    alloc: Global,
    files: &mut F,
    path: &'a str,
) -> Result<Consistent, Stop<'a>>
    ensures step { OfFiles (F.content files.old)
        (λ seen. Meets (λ c. c) (Load path.now) seen seen result) }
    ensures reads { OnlyReads (HasReadCause (λ p. p ≡ path.now))
        (F.content files.old) (F.content files.new)
        (F.read_faults files.old) (F.read_faults files.new) result }
    ensures later_writes { NoneFell (F.write_faults files.old) (F.write_faults files.new) }
{
    let text = read_front(alloc, files, path)?;
    let presentation = read_text(alloc, &text)?;
    accept(alloc, presentation)
}
