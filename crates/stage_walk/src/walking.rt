//! The walk over a stage file that nobody vouches for.

ghost use Rattle.std.specs.Prelude.{◌≡◌, ◌≤◌, ⊤, IfErr, IfOk, OnOk};
ghost use Rattle.coho_io.specs.Causes.{NoneFell};
ghost use Rattle.limits.specs.declared.TheConstants.{GREATEST_DEGREE};
ghost use Rattle.stage_walk.specs.Asked.{AfterWalk, asked_from};
ghost use Rattle.stage_walk.specs.Dimensions.{Fit};
ghost use Rattle.stage_walk.specs.Faults.{IsNumbered, IsWalkStop};
ghost use Rattle.stage_walk.specs.Turns.{IsHeaderAnswer, IsHeaderStop, IsRecordsStop, OfBytes, TakesRecords};

use crate::StagesFault;
use crate::pieces::read_to;
use crate::records::take_record;
use coho_io::Files;
use group_algebra::Algebra;
use min_res::Resolution;
use pc_group::Consistent;
use stage_file::{HeaderAnswer, header, read_header};
use std::alloc::Global;

const HEADER: usize = 40;

// Compares the front of a file with the honest header. False where the file ends inside it.
fn has_header<F: Files>(
    alloc: Global,
    honest: &[u8; 40],
    files: &mut F,
    path: &str,
) -> Result<bool, StagesFault>
    ensures answer { IfOk result
        (λ whole. OfBytes (F.content files.old) path.now (IsHeaderAnswer honest.now whole)) }
    ensures refused { IfErr result (IsHeaderStop honest.now path.now (F.content files.old)
        (F.read_faults files.old) (F.read_faults files.new)) }
    ensures content { F.content files.new ≡ F.content files.old }
    ensures later { NoneFell (F.read_faults files.old) (F.read_faults files.new) }
    ensures later_writes { NoneFell (F.write_faults files.old) (F.write_faults files.new) }
{
    let mut front = Vec::new(alloc);
    read_to(&mut front, files, path, 0, HEADER)?;
    match read_header(&front, honest) {
        HeaderAnswer::Match => Ok(true),
        HeaderAnswer::Cut => Ok(false),
        HeaderAnswer::Format => Err(StagesFault::Header),
        HeaderAnswer::Presentation => Err(StagesFault::Presentation),
    }
}

// Takes up the records of a file, to degree n or to the end of the file.
fn take_records<F: Files>(
    alloc: Global,
    resolution: &mut Resolution,
    n: u32,
    files: &mut F,
    path: &str,
) -> Result<(), StagesFault>
    requires first { resolution.old.last ≡ 0 }
    requires degree { n ≤ GREATEST_DEGREE }
    requires there { OfBytes (F.content files.old) path.now (λ bytes. ⊤) }
    ensures group { resolution.new.group ≡ resolution.old.group }
    ensures computed { resolution.new.computed ≡ resolution.old.computed }
    ensures last { resolution.new.last ≤ n }
    ensures fit { Fit resolution.old.group resolution.new.last }
    ensures taken { OnOk result
        (TakesRecords resolution.old.group n path.now (F.content files.old) resolution.new.last) }
    ensures refused { IfErr result (IsRecordsStop resolution.old.group n path.now (F.content files.old)
        (F.read_faults files.old) (F.read_faults files.new)) }
    ensures content { F.content files.new ≡ F.content files.old }
    ensures later { NoneFell (F.read_faults files.old) (F.read_faults files.new) }
    ensures later_writes { NoneFell (F.write_faults files.old) (F.write_faults files.new) }
{
    let mut at = HEADER as u64;
    while resolution.last() < n {
        let Some(len) = take_record(alloc, resolution, files, path, at)? else {
            return Ok(());
        };
        at += len as u64;
    }
    Ok(())
}

/// The stages that the records of a file are taken up as, to degree n: each record is verified by products
/// before the next is read, and nothing is computed. The last degree is the number of records that the walk
/// over the file takes. A file that ends, also inside a record, is taken to its last whole record; a record
/// that is not the honest one is refused. `TooLarge` and `Write` never come.
pub fn taken_stages<F: Files>(
    alloc: Global,
    c: &Consistent,
    a: Algebra,
    n: u32,
    path: &str,
    files: &mut F,
) -> Result<Resolution, StagesFault>
    requires { n ≤ GREATEST_DEGREE }
    ensures group { IfOk result (λ r. r.group ≡ a) }
    ensures computed { IfOk result (λ r. r.computed ≡ 0) }
    ensures last { IfOk result (λ r. r.last ≤ n) }
    ensures fit { IfOk result (λ r. Fit a r.last) }
    ensures taken { IfOk result (λ r. AfterWalk (asked_from a c.now n path.now) (F.content files.old)
        (λ count. r.last ≡ count)) }
    ensures refused { IfErr result (IsWalkStop (asked_from a c.now n path.now) (F.content files.old)
        (F.read_faults files.old) (F.read_faults files.new)) }
    ensures numbered { IfErr result (IsNumbered a n) }
    ensures content { F.content files.new ≡ F.content files.old }
    ensures later { NoneFell (F.read_faults files.old) (F.read_faults files.new) }
    ensures later_writes { NoneFell (F.write_faults files.old) (F.write_faults files.new) }
{
    let honest = header(alloc, c.presentation())?;
    let mut resolution = Resolution::start(alloc, a)?;
    if has_header(alloc, &honest, files, path)? {
        take_records(alloc, &mut resolution, n, files, path)?;
    }
    Ok(resolution)
}
