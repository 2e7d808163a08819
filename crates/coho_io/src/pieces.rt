//! A part of a file, read in pieces.

ghost use Rattle.std.specs.Prelude.{◌≡◌, ◌≤◌, ◌+◌, ◌<◌, ◌^◌, length, IfOk, IfErr, OnOk, Some};
ghost use Rattle.coho_io.specs.Causes.{NoneFell};
ghost use Rattle.coho_io.specs.Content.{Content, file};
ghost use Rattle.coho_io.specs.Pieces.{IsFrontFrom, IsPart, IsReadFault, ReadsMore};

use crate::{Fault, Files};

const PIECE: usize = 4_096;

// Reads one more piece behind what was read of a file from a place on, to a length at most, and says how many
// bytes the piece had.
fn read_more<F: Files>(
    bytes: &mut Vec<u8>,
    files: &mut F,
    path: &str,
    from: u64,
    len: usize,
) -> Result<usize, Fault>
    requires room { length bytes.old.items < len }
    requires low { from ≤ 2 ^ 40 }
    requires short { len ≤ 2 ^ 25 }
    ensures grown { IfOk result (λ count. length bytes.new.items ≡ length bytes.old.items + count) }
    ensures bound { length bytes.new.items ≤ len }
    ensures more { (told : Content) → F.content files.old ≡ Some told
        → IfOk result (ReadsMore (file told path.now) from bytes.old.items bytes.new.items) }
    ensures content { F.content files.new ≡ F.content files.old }
    ensures later { NoneFell (F.read_faults files.old) (F.read_faults files.new) }
    ensures later_writes { NoneFell (F.write_faults files.old) (F.write_faults files.new) }
    ensures cause { IfErr result
        (IsReadFault path.now (F.read_faults files.old) (F.read_faults files.new)) }
{
    let mut piece = [0u8; PIECE];
    let room = PIECE.min(len - bytes.len());
    match files.read_at(path, from + bytes.len() as u64, &mut piece[..room]) {
        Ok(count) => match bytes.extend_from_slice(&piece[..count]) {
            Ok(()) => Ok(count),
            Err(_) => Err(Fault::Memory),
        },
        Err(Fault::Failed) => Err(Fault::Failed),
        Err(Fault::Memory) => Err(Fault::Memory),
    }
}

/// Reads on behind what was read of a file from the place `from` on, until there are `len` bytes or the file ends.
/// A missing file is a fault.
pub fn read_to<F: Files>(
    bytes: &mut Vec<u8>,
    files: &mut F,
    path: &str,
    from: u64,
    len: usize,
) -> Result<(), Fault>
    requires room { length bytes.old.items < len }
    requires low { from ≤ 2 ^ 40 }
    requires short { len ≤ 2 ^ 25 }
    ensures bound { length bytes.new.items ≤ len }
    ensures part { (told : Content) → F.content files.old ≡ Some told
        → IsFrontFrom (file told path.now) from bytes.old.items
        → OnOk result (IsPart (file told path.now) from len bytes.new.items) }
    ensures content { F.content files.new ≡ F.content files.old }
    ensures later { NoneFell (F.read_faults files.old) (F.read_faults files.new) }
    ensures later_writes { NoneFell (F.write_faults files.old) (F.write_faults files.new) }
    ensures cause { IfErr result
        (IsReadFault path.now (F.read_faults files.old) (F.read_faults files.new)) }
{
    while bytes.len() < len {
        let count = read_more(bytes, files, path, from, len)?;
        if count == 0 {
            return Ok(());
        }
    }
    Ok(())
}
