//! The stages of a group to a degree, with a file to take them from and a file to save them to.

ghost use Rattle.std.specs.Prelude.{◌≡◌, ◌≤◌, ◌+◌, IfErr, IfOk, OnOk, None};
ghost use Rattle.coho_io.specs.Causes.{NoneFell};
ghost use Rattle.limits.specs.declared.TheConstants.{GREATEST_DEGREE};
ghost use Rattle.stage_walk.specs.Asked.{AfterWalk, asked};
ghost use Rattle.stage_walk.specs.Dimensions.{Fit};
ghost use Rattle.stage_walk.specs.Faults.{IsNumbered, IsStagesFault, IsWalkStop};
ghost use Rattle.stage_walk.specs.Saved.{Leaves, SavesAll};

use crate::StagesFault;
use crate::saving::save_stages;
use crate::walking::taken_stages;
use coho_io::Files;
use group_algebra::Algebra;
use min_res::Resolution;
use pc_group::Consistent;
use stage_file::header;
use std::alloc::Global;

// The stages of the file that is named, and that of degree 0 where none is.
fn first_stages<F: Files>(
    alloc: Global,
    c: &Consistent,
    a: Algebra,
    n: u32,
    from: Option<&str>,
    files: &mut F,
) -> Result<Resolution, StagesFault>
    requires { n ≤ GREATEST_DEGREE }
    ensures group { IfOk result (λ r. r.group ≡ a) }
    ensures computed { IfOk result (λ r. r.computed ≡ 0) }
    ensures last { IfOk result (λ r. r.last ≤ n) }
    ensures fit { IfOk result (λ r. Fit a r.last) }
    ensures taken { IfOk result (λ r. AfterWalk (asked a c.now n from.entry None) (F.content files.old)
        (λ count. r.last ≡ count)) }
    ensures refused { IfErr result (IsWalkStop (asked a c.now n from.entry None) (F.content files.old)
        (F.read_faults files.old) (F.read_faults files.new)) }
    ensures numbered { IfErr result (IsNumbered a n) }
    ensures content { F.content files.new ≡ F.content files.old }
    ensures later { NoneFell (F.read_faults files.old) (F.read_faults files.new) }
    ensures later_writes { NoneFell (F.write_faults files.old) (F.write_faults files.new) }
{
    match from {
        Some(path) => taken_stages(alloc, c, a, n, path, files),
        None => Ok(Resolution::start(alloc, a)?),
    }
}

/// The stages of a group's minimal resolution to degree n, where a is the algebra of the group of c. Where a
/// file `from` is named, those of its records are verified by products and taken up, and the others alone are
/// computed; a record that is not the honest one is refused, with its number. Where a file `save` is named,
/// it is made anew, after all of `from` was read, and gains the header and one record after the other.
///
/// `Read` and `Write` come where a call on that file failed. `TooLarge` comes exactly at the first degree
/// to n in which the order of the group times the rank is above the limit; the file then has the records
/// before it.
pub fn stages<F: Files>(
    alloc: Global,
    c: &Consistent,
    a: Algebra,
    n: u32,
    from: Option<&str>,
    save: Option<&str>,
    files: &mut F,
) -> Result<Resolution, StagesFault>
    requires { n ≤ GREATEST_DEGREE }
    ensures group { IfOk result (λ r. r.group ≡ a) }
    ensures last { IfOk result (λ r. r.last ≡ n) }
    ensures fit { OnOk result (Fit a n) }

    // Where files are told, the stages that were not taken were computed, and no others.
    ensures computed { IfOk result (λ r. AfterWalk (asked a c.now n from.entry save.entry)
        (F.content files.old) (λ count. r.computed + count ≡ n)) }

    // The file to save to, where files are told; all others stay.
    ensures saved { OnOk result (SavesAll (asked a c.now n from.entry save.entry)
        (F.content files.old) (F.content files.new)) }
    ensures left { IfErr result (Leaves (asked a c.now n from.entry save.entry)
        (F.content files.old) (F.content files.new)) }

    // Which fault comes when.
    ensures refused { IfErr result (IsStagesFault (asked a c.now n from.entry save.entry)
        (F.content files.old) (F.read_faults files.old) (F.read_faults files.new)
        (F.write_faults files.old) (F.write_faults files.new)) }
    ensures numbered { IfErr result (IsNumbered a n) }
    ensures later { NoneFell (F.read_faults files.old) (F.read_faults files.new) }
    ensures later_writes { NoneFell (F.write_faults files.old) (F.write_faults files.new) }
{
    let honest = header(alloc, c.presentation())?;
    let mut resolution = first_stages(alloc, c, a, n, from, files)?;
    save_stages(alloc, &mut resolution, n, &honest, files, save)?;
    Ok(resolution)
}
