//! The lines of the parameters of a report, of their bound and of the verdict.

ghost use Rattle.std.specs.Prelude.{◌≡◌, cond, codes, map, All, IfOk, IfSome, Some};
ghost use Rattle.gc_poly.specs.Polynomials.{IsOverGenerators};
ghost use Rattle.coho_report.specs.Lines.{ended, parameter_lines, relation_lines};

use crate::lines::polynomial_line;
use crate::parameters::Parameters;
use gc_poly::{Gens, Poly};
use group_table::Memory;
use std::alloc::{AllocError, Global};

// A line of its own.
fn line_of(alloc: Global, text: &str) -> Result<Vec<u8>, AllocError>
    ensures { IfOk result (λ line. line.items ≡ ended text.now) }
{
    let mut line = String::from_str(alloc, text)?;
    line.push('\n')?;
    Ok(line.into_bytes())
}

// The texts of the polynomials.
fn polynomial_lines(alloc: Global, gens: &Gens, forms: &[Poly]) -> Result<Vec<Vec<u8>>, Memory>
    requires { All (IsOverGenerators gens.now) forms.now }
    ensures { IfOk result (λ lines. map (λ l. l.items) lines.items
        ≡ relation_lines gens.now.degrees forms.now) }
{
    let mut lines = Vec::new(alloc);
    for i in 0..forms.len() {
        lines.push(polynomial_line(alloc, gens, &forms[i])?)?;
    }
    Ok(lines)
}

// The lines of parameters that were found.
fn found_lines(alloc: Global, gens: &Gens, found: &Parameters) -> Result<Vec<Vec<u8>>, Memory>
    requires { All (IsOverGenerators gens.now) found.now }
    ensures { IfOk result (λ lines. map (λ l. l.items) lines.items
        ≡ parameter_lines gens.now.degrees (Some found.now)) }
{
    let count = found.forms().len();
    let bound = found.bound();
    let mut lines = Vec::new(alloc);
    lines.push(format!(in alloc; "parameters {count}\n")?.into_bytes())?;
    lines.append(&mut polynomial_lines(alloc, gens, found.forms())?)?;
    lines.push(format!(in alloc; "bound {bound}\n")?.into_bytes())?;
    Ok(lines)
}

/// The lines of the parameters and their bound.
pub(crate) fn parameter_lines(
    alloc: Global,
    gens: &Gens,
    parameters: &Option<Parameters>,
) -> Result<Vec<Vec<u8>>, Memory>
    requires { IfSome parameters.now (All (IsOverGenerators gens.now)) }
    ensures { IfOk result (λ lines. map (λ l. l.items) lines.items
        ≡ parameter_lines gens.now.degrees parameters.now) }
{
    if let Some(found) = parameters {
        return found_lines(alloc, gens, found);
    }
    let mut lines = Vec::new(alloc);
    lines.push(line_of(alloc, "parameters none")?)?;
    lines.push(line_of(alloc, "bound none")?)?;
    Ok(lines)
}

/// The line of the verdict.
pub(crate) fn verdict_line(alloc: Global, complete: bool) -> Result<Vec<u8>, AllocError>
    ensures { IfOk result (λ line. line.items
        ≡ ended (codes (cond complete "verdict complete" "verdict not complete"))) }
{
    if complete {
        return line_of(alloc, "verdict complete");
    }
    line_of(alloc, "verdict not complete")
}
