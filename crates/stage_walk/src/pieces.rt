//! A part of a stage file.

ghost use Rattle.std.specs.Prelude.{◌≡◌, ◌≤◌, ◌<◌, ◌^◌, length, IfErr, OnOk, Some};
ghost use Rattle.coho_io.specs.Causes.{NoneFell};
ghost use Rattle.coho_io.specs.Content.{Content, file};
ghost use Rattle.coho_io.specs.Pieces.{IsFrontFrom, IsPart};
ghost use Rattle.stage_walk.specs.Pieces.{IsReadStop};

use crate::StagesFault;
use coho_io::{Fault, Files};

/// Reads on behind what was read of a file from a place on, to a length or to the end of the file.
pub(crate) fn read_to<F: Files>(
    bytes: &mut Vec<u8>,
    files: &mut F,
    path: &str,
    from: u64,
    len: usize,
) -> Result<(), StagesFault>
    requires room { length bytes.old.items < len }
    requires low { from ≤ 2 ^ 40 }
    requires short { len ≤ 2 ^ 25 }
    ensures bound { length bytes.new.items ≤ len }
    ensures part { (told : Content) → F.content files.old ≡ Some told
        → IsFrontFrom (file told path.now) from bytes.old.items
        → OnOk result (IsPart (file told path.now) from len bytes.new.items) }
    ensures content { F.content files.new ≡ F.content files.old }
    ensures later { NoneFell (F.read_faults files.old) (F.read_faults files.new) }
    ensures later_writes { NoneFell (F.write_faults files.old) (F.write_faults files.new) }
    ensures cause { IfErr result
        (IsReadStop path.now (F.read_faults files.old) (F.read_faults files.new)) }
{
    match coho_io::read_to(bytes, files, path, from, len) {
        Ok(()) => Ok(()),
        Err(Fault::Failed) => Err(StagesFault::Read),
        Err(Fault::Memory) => Err(StagesFault::Memory),
    }
}
