//! The answers to `group`, `resolve` and `check`, on their presentation.

ghost use Rattle.std.specs.Prelude.{◌≡◌, ◌≤◌, None, Some};
ghost use Rattle.coho_steps.specs.Lines.{contents};
ghost use Rattle.coho_steps.specs.Stops.{Settles};
ghost use Rattle.stage_answers.specs.Answers.{AnswerCheck, AnswerGroup, AnswerResolve, TellCount};
ghost use Rattle.stage_answers.specs.Works.{Works};

use crate::answers::{group_lines, record_lines, stage_lines};
use crate::layers::radical_dimensions;
use crate::resolution_of;
use crate::stage_files::count_records;
use coho_io::Files;
use coho_steps::Stop;
use limits::GREATEST_DEGREE;
use pc_group::Consistent;
use std::alloc::Global;

/// The lines of the answer to `group`.
pub fn answer_group<'a>(alloc: Global, consistent: &Consistent) -> Result<Vec<Vec<u8>>, Stop<'a>>
    ensures { Settles (λ lines. contents lines.items) (AnswerGroup consistent.now) result }
{
    let dimensions = radical_dimensions(alloc, consistent)?;
    Ok(group_lines(alloc, consistent, &dimensions)?)
}

/// The lines of the answer to `resolve`.
pub fn answer_resolve<'a>(
    alloc: Global,
    consistent: &Consistent,
    n: u32,
) -> Result<Vec<Vec<u8>>, Stop<'a>>
    requires { n ≤ GREATEST_DEGREE }
    ensures { Settles (λ lines. contents lines.items) (AnswerResolve consistent.now n) result }
{
    let resolution = resolution_of(alloc, consistent, n)?;
    Ok(stage_lines(alloc, &resolution)?)
}

// The line that tells how many records there are.
fn check_lines<'a>(alloc: Global, count: u32) -> Result<Vec<Vec<u8>>, Stop<'a>>
    ensures { Settles (λ lines. contents lines.items) (TellCount count) result }
{
    Ok(record_lines(alloc, count)?)
}

/// The line of the answer to `check`.
pub fn answer_check<'a, F: Files>(
    alloc: Global,
    consistent: &Consistent,
    stages: &'a str,
    files: &mut F,
) -> Result<Vec<Vec<u8>>, Stop<'a>>
    ensures { Works (λ lines. contents lines.items) (AnswerCheck consistent.now stages.now)
        (Some stages.now) None (λ old left. left ≡ old) (λ files. ⊥)
        (F.content files.old) (F.content files.new) (F.read_faults files.old) (F.read_faults files.new)
        (F.write_faults files.old) (F.write_faults files.new) result }
{
    match count_records(alloc, consistent, stages, files) {
        Ok(count) => check_lines(alloc, count),
        Err(stop) => Err(stop),
    }
}
