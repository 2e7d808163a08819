//! Stages computed where they are not there, and saved.

ghost use Rattle.std.specs.Prelude.{◌≡◌, ◌≤◌, ◌<◌, ◌+◌, max, suc, IfErr, OnErr, OnOk, Some};
ghost use Rattle.coho_io.specs.Causes.{NoneFell};
ghost use Rattle.coho_io.specs.Content.{AppendsFrontOrStays, AppendsPiece};
ghost use Rattle.limits.specs.declared.TheConstants.{GREATEST_DEGREE};
ghost use Rattle.stage_walk.specs.Asked.{path_of};
ghost use Rattle.stage_walk.specs.Dimensions.{Fit};
ghost use Rattle.stage_walk.specs.Growing.{Gains, GainsFront, Holds, HoldsFront, IsStageStop, IsStagesStop};
ghost use Rattle.stage_walk.specs.Growing.{IsTooLarge, IsWriteStop, LeavesStage, LeavesStages, file_with};
ghost use Rattle.stage_walk.specs.Growing.{record_of};

use crate::StagesFault;
use coho_io::{Fault, Files};
use limits::GREATEST_DIMENSION;
use min_res::{ResFault, Resolution};
use stage_file::write_record;
use std::alloc::Global;

// Appends a piece to a file.
fn append<F: Files>(files: &mut F, path: &str, piece: &[u8]) -> Result<(), StagesFault>
    ensures ok { OnOk result (AppendsPiece (F.content files.old) (F.content files.new) path.now piece.now) }
    ensures err { OnErr result
        (AppendsFrontOrStays (F.content files.old) (F.content files.new) path.now piece.now) }
    ensures cause { IfErr result
        (IsWriteStop (Some path.now) (F.write_faults files.old) (F.write_faults files.new)) }
    ensures later { NoneFell (F.read_faults files.old) (F.read_faults files.new) }
    ensures later_writes { NoneFell (F.write_faults files.old) (F.write_faults files.new) }
{
    match files.append(path, piece) {
        Ok(()) => Ok(()),
        Err(Fault::Failed) => Err(StagesFault::Write),
        Err(Fault::Memory) => Err(StagesFault::Memory),
    }
}

// Makes the file with its header, where one is named.
fn begin<F: Files>(files: &mut F, save: Option<&str>, header: &[u8; 40]) -> Result<(), StagesFault>
    ensures held { OnOk result
        (Holds (path_of save.entry) header.now (F.content files.old) (F.content files.new)) }
    ensures front { OnErr result
        (HoldsFront (path_of save.entry) header.now (F.content files.old) (F.content files.new)) }
    ensures cause { IfErr result
        (IsWriteStop (path_of save.entry) (F.write_faults files.old) (F.write_faults files.new)) }
    ensures later { NoneFell (F.read_faults files.old) (F.read_faults files.new) }
    ensures later_writes { NoneFell (F.write_faults files.old) (F.write_faults files.new) }
{
    let Some(path) = save else {
        return Ok(());
    };
    match files.create(path) {
        Ok(()) => append(files, path, header),
        Err(Fault::Failed) => Err(StagesFault::Write),
        Err(Fault::Memory) => Err(StagesFault::Memory),
    }
}

// Appends the record of the stage of degree d, where a file is named.
fn append_record<F: Files>(
    alloc: Global,
    resolution: &Resolution,
    d: u32,
    files: &mut F,
    save: Option<&str>,
) -> Result<(), StagesFault>
    requires from { 1 ≤ d }
    requires to { d ≤ resolution.now.last }
    requires degree { d ≤ GREATEST_DEGREE }
    requires fit { Fit resolution.now.group resolution.now.last }
    ensures gained { OnOk result (Gains (path_of save.entry) (record_of resolution.now.group d)
        (F.content files.old) (F.content files.new)) }
    ensures front { OnErr result (GainsFront (path_of save.entry) (record_of resolution.now.group d)
        (F.content files.old) (F.content files.new)) }
    ensures cause { IfErr result
        (IsWriteStop (path_of save.entry) (F.write_faults files.old) (F.write_faults files.new)) }
    ensures later { NoneFell (F.read_faults files.old) (F.read_faults files.new) }
    ensures later_writes { NoneFell (F.write_faults files.old) (F.write_faults files.new) }
{
    let Some(path) = save else {
        return Ok(());
    };
    let bytes = write_record(alloc, resolution.stage_at(d))?;
    append(files, path, &bytes)
}

// Computes the stage after the last.
fn compute(resolution: &mut Resolution) -> Result<(), StagesFault>
    requires before { resolution.old.last < GREATEST_DEGREE }
    requires fit { Fit resolution.old.group resolution.old.last }
    ensures group { resolution.new.group ≡ resolution.old.group }
    ensures grown { OnOk result (resolution.new.last ≡ suc resolution.old.last) }
    ensures computed { OnOk result (resolution.new.computed ≡ suc resolution.old.computed) }
    ensures fit { Fit resolution.old.group resolution.new.last }
    ensures kept { OnErr result (resolution.new ≡ resolution.old) }
    ensures refused { IfErr result (IsTooLarge resolution.old.group (suc resolution.old.last)) }
{
    match resolution.extend(GREATEST_DIMENSION) {
        Ok(()) => Ok(()),
        Err(ResFault::TooLarge { degree, dimension }) => {
            Err(StagesFault::TooLarge { degree, dimension })
        }
        Err(ResFault::Memory) => Err(StagesFault::Memory),
    }
}

// Computes the stage of degree d, where it is not there, and appends its record, where a file is named.
fn save_stage<F: Files>(
    alloc: Global,
    resolution: &mut Resolution,
    d: u32,
    files: &mut F,
    save: Option<&str>,
) -> Result<(), StagesFault>
    requires from { 1 ≤ d }
    requires next { d ≤ resolution.old.last + 1 }
    requires degree { d ≤ GREATEST_DEGREE }
    requires fit { Fit resolution.old.group resolution.old.last }
    ensures group { resolution.new.group ≡ resolution.old.group }
    ensures last { OnOk result (resolution.new.last ≡ max resolution.old.last d) }
    ensures computed { OnOk result
        (resolution.new.computed + resolution.old.last ≡ resolution.old.computed + resolution.new.last) }
    ensures fit { OnOk result (Fit resolution.old.group resolution.new.last) }
    ensures gained { OnOk result (Gains (path_of save.entry) (record_of resolution.old.group d)
        (F.content files.old) (F.content files.new)) }
    ensures refused { IfErr result (IsStageStop resolution.old.group d (path_of save.entry)
        (F.write_faults files.old) (F.write_faults files.new)) }
    ensures left { IfErr result (LeavesStage (path_of save.entry) (record_of resolution.old.group d)
        (F.content files.old) (F.content files.new)) }
    ensures later { NoneFell (F.read_faults files.old) (F.read_faults files.new) }
    ensures later_writes { NoneFell (F.write_faults files.old) (F.write_faults files.new) }
{
    if resolution.last() < d {
        compute(resolution)?;
    }
    append_record(alloc, resolution, d, files, save)
}

/// The stages to degree n: those of the resolution, and from there on computed ones. Where a file is named,
/// it is made with this header and the records of all of them.
pub(crate) fn save_stages<F: Files>(
    alloc: Global,
    resolution: &mut Resolution,
    n: u32,
    header: &[u8; 40],
    files: &mut F,
    save: Option<&str>,
) -> Result<(), StagesFault>
    requires last { resolution.old.last ≤ n }
    requires degree { n ≤ GREATEST_DEGREE }
    requires fit { Fit resolution.old.group resolution.old.last }
    ensures group { resolution.new.group ≡ resolution.old.group }
    ensures last { OnOk result (resolution.new.last ≡ n) }
    ensures computed { OnOk result
        (resolution.new.computed + resolution.old.last ≡ resolution.old.computed + n) }
    ensures fit { OnOk result (Fit resolution.old.group n) }
    ensures saved { OnOk result (Holds (path_of save.entry) (file_with header.now resolution.old.group n)
        (F.content files.old) (F.content files.new)) }
    ensures refused { IfErr result (IsStagesStop resolution.old.group n (path_of save.entry)
        (F.write_faults files.old) (F.write_faults files.new)) }
    ensures left { IfErr result (LeavesStages (path_of save.entry)
        (file_with header.now resolution.old.group n) (F.content files.old) (F.content files.new)) }
    ensures later { NoneFell (F.read_faults files.old) (F.read_faults files.new) }
    ensures later_writes { NoneFell (F.write_faults files.old) (F.write_faults files.new) }
{
    begin(files, save, header)?;
    for i in 0..n {
        save_stage(alloc, resolution, i + 1, files, save)?;
    }
    Ok(())
}
