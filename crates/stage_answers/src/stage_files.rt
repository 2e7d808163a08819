//! The stages of a file's group, with a stage file to take them from and one to save them to.

ghost use Rattle.std.specs.Prelude.{◌≡◌, ◌≤◌, IfOk, IsSome, None, Some};
ghost use Rattle.limits.specs.declared.TheConstants.{GREATEST_DEGREE};
ghost use Rattle.stage_answers.specs.Resolving.{IsResolutionTo};
ghost use Rattle.stage_answers.specs.Works.{Works};
ghost use Rattle.stage_answers.specs.StageFiles.{AreTaken, FindStages, IsFrontSaved, WalkFile};
ghost use Rattle.stage_answers.specs.Stopping.{HasPath, IsStopAt};
ghost use Rattle.coho_words.specs.Words.{stage_files};

use crate::layers::algebra_of;
use coho_io::Files;
use coho_steps::{Cause, FilePart, Stop};
use coho_words::StageFiles;
use limits::GREATEST_DEGREE;
use min_res::Resolution;
use pc_group::Consistent;
use stage_walk::{StagesFault, stages, taken_stages};
use std::alloc::Global;

// The path that is named.
fn named_path<'a>(path: Option<&'a str>) -> &'a str
    requires { IsSome path }
    ensures { path.entry ≡ Some result }
{
    match path {
        Some(path) => path,
        None => unreachable!(),
    }
}

// The program's stop at a fault.
fn stop_at<'a>(fault: StagesFault, named: StageFiles<'a>) -> Stop<'a>
    requires { HasPath named fault }
    ensures { IsStopAt named.entry fault result }
{
    match fault {
        StagesFault::Read => Stop::Read(named_path(named.from)),
        StagesFault::Write => Stop::Save(named_path(named.save)),
        StagesFault::Header => Stop::Refused(Cause::StageFile(FilePart::Header)),
        StagesFault::Presentation => Stop::Refused(Cause::StageFile(FilePart::Presentation)),
        StagesFault::Record { number } => Stop::Refused(Cause::StageFile(FilePart::Record(number))),
        StagesFault::TooLarge { degree, dimension } => {
            Stop::Refused(Cause::Stage { degree, dimension })
        }
        StagesFault::Memory => Stop::Memory,
    }
}

/// The minimal resolution of a consistent presentation's group, to degree n: its stages are taken from the
/// one file as far as it goes, and the others are computed; all are saved to the other file.
pub fn find_stages<'a, F: Files>(
    alloc: Global,
    consistent: &Consistent,
    n: u32,
    named: StageFiles<'a>,
    files: &mut F,
) -> Result<Resolution, Stop<'a>>
    requires { n ≤ GREATEST_DEGREE }
    ensures found { IfOk result (IsResolutionTo consistent.now n) }
    ensures works { Works (λ _. tt) (FindStages consistent.now n (stage_files named.entry))
        (stage_files named.entry).from (stage_files named.entry).save
        (IsFrontSaved consistent.now n (stage_files named.entry))
        (AreTaken consistent.now n (stage_files named.entry).from)
        (F.content files.old) (F.content files.new) (F.read_faults files.old) (F.read_faults files.new)
        (F.write_faults files.old) (F.write_faults files.new) result }
{
    let algebra = algebra_of(alloc, consistent)?;
    match stages(alloc, consistent, algebra, n, named.from, named.save, files) {
        Ok(resolution) => Ok(resolution),
        Err(fault) => Err(stop_at(fault, named)),
    }
}

/// The number of records of a stage file that are those of a consistent presentation's group.
pub fn count_records<'a, F: Files>(
    alloc: Global,
    consistent: &Consistent,
    path: &'a str,
    files: &mut F,
) -> Result<u32, Stop<'a>>
    ensures { Works (λ count. count) (WalkFile consistent.now GREATEST_DEGREE path.now)
        (Some path.now) None (λ old left. left ≡ old) (λ files. ⊥)
        (F.content files.old) (F.content files.new) (F.read_faults files.old) (F.read_faults files.new)
        (F.write_faults files.old) (F.write_faults files.new) result }
{
    let algebra = algebra_of(alloc, consistent)?;
    match taken_stages(alloc, consistent, algebra, GREATEST_DEGREE, path, files) {
        Ok(resolution) => Ok(resolution.last()),
        Err(fault) => Err(stop_at(
            fault,
            StageFiles {
                from: Some(path),
                save: None,
            },
        )),
    }
}
