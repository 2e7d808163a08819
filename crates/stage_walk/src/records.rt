//! One record of a stage file, read and taken up.

ghost use Rattle.std.specs.Prelude.{◌≡◌, ◌≤◌, ◌<◌, ◌^◌, ℕ, suc, length, IfErr, IfOk, OnErr, Some};
ghost use Rattle.coho_io.specs.Causes.{NoneFell};
ghost use Rattle.coho_io.specs.Content.{Content, file};
ghost use Rattle.limits.specs.declared.TheConstants.{GREATEST_DEGREE};
ghost use Rattle.group_table.specs.Prime.{prime_value};
ghost use Rattle.p_groups.specs.PGroups.{PGroup};
ghost use Rattle.stage_file.specs.Honest.{IsShapeAt, IsVerdict};
ghost use Rattle.stage_file.specs.Views.{IsOver, reading_of};
ghost use Rattle.stage_records.specs.Readings.{AreBytes, read_record};
ghost use Rattle.stage_walk.specs.Pieces.{IsReadStop, IsRecordPart, range_at};
ghost use Rattle.stage_walk.specs.Turns.{IsTurn, IsTurnStop};

use crate::StagesFault;
use crate::pieces::read_to;
use coho_io::Files;
use min_res::{AdoptFault, Resolution};
use stage_file::{Record, Shape, next_record, record_len};
use std::alloc::Global;

// The length with which bytes begin, where there are four and it is in its range.
fn length_of(bytes: &[u8]) -> Option<usize>
    ensures { result ≡ range_at bytes.now }
{
    if bytes.len() < 4 {
        return None;
    }
    match record_len(&[bytes[0], bytes[1], bytes[2], bytes[3]]) {
        Some(len) => Some(len as usize),
        None => None,
    }
}

// What stands at a place of a file where a record is due: the four bytes of its length, and where this is in
// its range as many more.
fn read_bytes<F: Files>(
    alloc: Global,
    files: &mut F,
    path: &str,
    at: u64,
) -> Result<Vec<u8>, StagesFault>
    requires low { at ≤ 2 ^ 40 }
    ensures short { IfOk result (λ bytes. length bytes.items ≤ 2 ^ 25) }
    ensures part { (told : Content) → F.content files.old ≡ Some told
        → IfOk result (λ bytes. IsRecordPart (file told path.now) at bytes.items) }
    ensures content { F.content files.new ≡ F.content files.old }
    ensures later { NoneFell (F.read_faults files.old) (F.read_faults files.new) }
    ensures later_writes { NoneFell (F.write_faults files.old) (F.write_faults files.new) }
    ensures cause { IfErr result
        (IsReadStop path.now (F.read_faults files.old) (F.read_faults files.new)) }
{
    let mut bytes = Vec::new(alloc);
    read_to(&mut bytes, files, path, at, 4)?;
    if let Some(len) = length_of(&bytes) {
        read_to(&mut bytes, files, path, at, 4 + len)?;
    }
    Ok(bytes)
}

// The shape of the record after the last stage.
fn shape_after(resolution: &Resolution) -> Shape
    requires { resolution.now.last < GREATEST_DEGREE }
    ensures { IsShapeAt resolution.now.group resolution.now.last result }
{
    let group = resolution.algebra().group();
    let last = resolution.last();
    Shape {
        p: group.prime(),
        order: group.order(),
        degree: last as u16 + 1,
        previous: resolution.stage_at(last).kernel().rows() as u32,
    }
}

// The record at the front of bytes, each of which is below 256, as the verdict on it asks.
fn next_of<'a>(bytes: &'a [u8], shape: &Shape) -> Record<'a>
    ensures bytes { AreBytes bytes.now }
    ensures reading { reading_of result ≡ read_record shape.now bytes.now }
    ensures prime { IsOver (prime_value shape.now.p) result }
    ensures verdict { (G : PGroup) (d : ℕ) → suc d ≤ GREATEST_DEGREE → IsShapeAt G d shape.now
        → IsVerdict G d shape.now bytes.now }
{
    next_record(bytes, shape)
}

/// Takes up the record at a place of a file, where it is the one of the stage after the last, and says how
/// many bytes it has; `None` where the file ends or the record is cut.
pub(crate) fn take_record<F: Files>(
    alloc: Global,
    resolution: &mut Resolution,
    files: &mut F,
    path: &str,
    at: u64,
) -> Result<Option<usize>, StagesFault>
    requires before { resolution.old.last < GREATEST_DEGREE }
    requires low { at ≤ 2 ^ 40 }
    ensures group { resolution.new.group ≡ resolution.old.group }
    ensures computed { resolution.new.computed ≡ resolution.old.computed }
    ensures turn { IfOk result
        (IsTurn resolution.old resolution.new path.now at (F.content files.old)) }
    ensures refused { IfErr result (IsTurnStop resolution.old resolution.new path.now at (F.content files.old)
        (F.read_faults files.old) (F.read_faults files.new)) }
    ensures kept { OnErr result (resolution.new ≡ resolution.old) }
    ensures content { F.content files.new ≡ F.content files.old }
    ensures later { NoneFell (F.read_faults files.old) (F.read_faults files.new) }
    ensures later_writes { NoneFell (F.write_faults files.old) (F.write_faults files.new) }
{
    let bytes = read_bytes(alloc, files, path, at)?;
    let number = resolution.last() + 1;
    match next_of(&bytes, &shape_after(resolution)) {
        Record::Cut => Ok(None),
        Record::Malformed(_) => Err(StagesFault::Record { number }),
        Record::Whole(parts) => match resolution.adopt(&parts) {
            Ok(()) => Ok(Some(bytes.len())),
            Err(AdoptFault::False { .. }) => Err(StagesFault::Record { number }),
            Err(AdoptFault::Memory) => Err(StagesFault::Memory),
        },
    }
}
