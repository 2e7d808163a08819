ghost use Rattle.std.specs.Prelude.{◌≡◌, ◌≤◌, ◌+◌, length, IfOk, Some};
ghost use Rattle.coho_io.specs.Causes.{NoneFell};
ghost use Rattle.coho_io.specs.Content.{Content};
ghost use Rattle.coho_steps.specs.Loading.{ReadFront};
ghost use Rattle.coho_steps.specs.Stops.{Meets, IsReadStop, OnlyReads};

use crate::Stop;
use coho_io::{Fault, Files, read_to};
use limits::LONGEST_TEXT;
use std::alloc::Global;

// As far as a text is read: one byte more than it may have.
const READ_LIMIT: usize = LONGEST_TEXT + 1;

/// Reads a file to its end, or to one byte more than a text may have.
pub fn read_front<'a, F: Files>(
    alloc: Global,
    files: &mut F,
    path: &'a str,
) -> Result<Vec<u8>, Stop<'a>>
    ensures step { (told : Content) → F.content files.old ≡ Some told
        → Meets (λ text. text.items) (ReadFront path.now) told told result }
    ensures bound { IfOk result (λ text. length text.items ≤ LONGEST_TEXT + 1) }
    ensures reads { OnlyReads (IsReadStop path.now)
        (F.content files.old) (F.content files.new)
        (F.read_faults files.old) (F.read_faults files.new) result }
    ensures later_writes { NoneFell (F.write_faults files.old) (F.write_faults files.new) }
{
    let mut text = Vec::new(alloc);
    match read_to(&mut text, files, path, 0, READ_LIMIT) {
        Ok(()) => Ok(text),
        Err(Fault::Failed) => Err(Stop::Read(path)),
        Err(Fault::Memory) => Err(Stop::Memory),
    }
}
