//! The answers to `ring`, `value` and `sample`, on their presentation.

ghost use Rattle.std.specs.Prelude.{◌≡◌, ◌≤◌};
ghost use Rattle.coho_steps.specs.Lines.{contents};
ghost use Rattle.coho_steps.specs.Stops.{Settles};
ghost use Rattle.coho_words.specs.Words.{IsPlace, stage_files};
ghost use Rattle.power_commutator.specs.Presentations.{Presentation};
ghost use Rattle.ring_answers.specs.Answers.{AnswerRing, AnswerSample, AnswerValue, TellReport};
ghost use Rattle.stage_answers.specs.Resolving.{IsResolutionTo};
ghost use Rattle.stage_answers.specs.StageFiles.{AreTaken, IsFrontSaved};
ghost use Rattle.stage_answers.specs.Works.{Works};

use crate::evaluating::{basis_value, fit_elements, value_lines};
use crate::reporting::{report_of, sample_lines};
use coho_io::Files;
use coho_report::report_lines;
use coho_steps::Stop;
use coho_words::StageFiles;
use limits::GREATEST_DEGREE;
use min_res::Resolution;
use pc_group::Consistent;
use stage_answers::{find_stages, resolution_of};
use std::alloc::Global;

// The degree through which the ring of a product is described.
const SAMPLE_DEGREE: u32 = 4;

// The lines of the report on the ring.
fn ring_lines<'a>(alloc: Global, resolution: &Resolution, n: u32) -> Result<Vec<Vec<u8>>, Stop<'a>>
    requires low { 1 ≤ n }
    requires high { n ≤ GREATEST_DEGREE }
    requires last { resolution.now.last ≡ n }
    ensures { (P : Presentation) → IsResolutionTo P n resolution.now
        → Settles (λ lines. contents lines.items) (TellReport P n) result }
{
    let report = report_of(alloc, resolution, n)?;
    Ok(report_lines(alloc, &report)?)
}

/// The lines of the answer to `ring`, with stage files.
pub fn answer_ring<'a, F: Files>(
    alloc: Global,
    consistent: &Consistent,
    n: u32,
    named: StageFiles<'a>,
    files: &mut F,
) -> Result<Vec<Vec<u8>>, Stop<'a>>
    requires low { 1 ≤ n }
    requires high { n ≤ GREATEST_DEGREE }
    ensures { Works (λ lines. contents lines.items) (AnswerRing consistent.now n (stage_files named.entry))
        (stage_files named.entry).from (stage_files named.entry).save
        (IsFrontSaved consistent.now n (stage_files named.entry))
        (AreTaken consistent.now n (stage_files named.entry).from)
        (F.content files.old) (F.content files.new) (F.read_faults files.old) (F.read_faults files.new)
        (F.write_faults files.old) (F.write_faults files.new) result }
{
    match find_stages(alloc, consistent, n, named, files) {
        Ok(resolution) => ring_lines(alloc, &resolution, n),
        Err(stop) => Err(stop),
    }
}

/// The line of the answer to `value`.
pub fn answer_value<'a>(
    alloc: Global,
    consistent: &Consistent,
    class: u16,
    elements: &[u16],
) -> Result<Vec<Vec<u8>>, Stop<'a>>
    requires { IsPlace class elements.now }
    ensures { Settles (λ lines. contents lines.items) (AnswerValue consistent.now class elements.now) result }
{
    fit_elements(consistent, elements)?;
    let resolution = resolution_of(alloc, consistent, elements.len() as u32)?;
    let value = basis_value(alloc, &resolution, class, elements)?;
    Ok(value_lines(alloc, value)?)
}

/// The lines of the answer to `sample`.
pub fn answer_sample<'a>(
    alloc: Global,
    consistent: &Consistent,
    k: u32,
) -> Result<Vec<Vec<u8>>, Stop<'a>>
    ensures { Settles (λ lines. contents lines.items) (AnswerSample consistent.now k) result }
{
    let resolution = resolution_of(alloc, consistent, SAMPLE_DEGREE)?;
    let report = report_of(alloc, &resolution, SAMPLE_DEGREE)?;
    Ok(sample_lines(alloc, k, &report)?)
}
