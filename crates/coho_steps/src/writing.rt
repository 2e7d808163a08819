ghost use Rattle.std.specs.Prelude.{◌≡◌, ◌≢◌, ◌≤◌, ◌⊎◌, OnOk, OnErr, IfErr};
ghost use Rattle.std.specs.List.{concat};
ghost use Rattle.std.specs.Io.KnownBytes.{Appends};
ghost use Rattle.coho_io.specs.Bytes.{AppendsFront};
ghost use Rattle.coho_steps.specs.Refusals.{memory_refused};
ghost use Rattle.coho_steps.specs.Stops.{told, IsWriteStop};
ghost use Rattle.coho_steps.specs.Told.{Tells};
ghost use Rattle.coho_steps.specs.Lines.{contents};

use crate::{Status, Stop};
use coho_io::{Fault, Sink};
use std::alloc::Global;

/// Writes the lines of an answer, each by one call.
pub fn write_lines<O: Sink>(out: &mut O, lines: &[Vec<u8>]) -> Result<(), Stop<'static>>
    ensures ok { OnOk result
        (Appends (O.written out.old) (O.written out.new) (concat (contents lines.now))) }
    ensures err { OnErr result
        (AppendsFront (O.written out.old) (O.written out.new) (concat (contents lines.now))) }
    ensures later { O.faults out.old ≤ O.faults out.new }
    ensures cause { IfErr result (IsWriteStop (O.faults out.old) (O.faults out.new)) }
{
    for line in lines {
        match out.write(line) {
            Ok(()) => {}
            Err(Fault::Failed) => return Err(Stop::Write),
            Err(Fault::Memory) => return Err(Stop::Memory),
        }
    }
    Ok(())
}

// Tells that memory was wanting. A fault of that is let go.
fn report_memory<E: Sink>(err: &mut E)
    ensures { AppendsFront (E.written err.old) (E.written err.new) memory_refused.line }
{
    let _ = err.write(b"coho: out of memory\n");
}

/// Writes the line of a stop, and answers its status.
pub fn report<E: Sink>(alloc: Global, stop: Stop<'_>, err: &mut E) -> Status
    ensures told { result ≢ Status.Memory → (result ≡ (told stop.entry).status)
        × Tells (E.written err.old) (E.written err.new) (E.faults err.old) (E.faults err.new)
        (told stop.entry).line }
    ensures memory { result ≡ Status.Memory
        → AppendsFront (E.written err.old) (E.written err.new) (told stop.entry).line
        ⊎ AppendsFront (E.written err.old) (E.written err.new) memory_refused.line }
{
    match stop.line(alloc) {
        Ok(line) => match err.write(line.as_bytes()) {
            Ok(()) | Err(Fault::Failed) => stop.status(),
            Err(Fault::Memory) => Status::Memory,
        },
        Err(_) => {
            report_memory(err);
            Status::Memory
        }
    }
}
