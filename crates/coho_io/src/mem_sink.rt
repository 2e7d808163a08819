ghost use Rattle.std.specs.Prelude.{◌≡◌, ℕ, List, length, OnOk, OnErr, IsErrOf, None, Some};
ghost use Rattle.coho_io.specs.MemSink.{taken_next, no_bytes, listed, counted, wrote, cut_short};

use crate::calls::taken_at;
use crate::{Fault, Sink};
use group_table::Memory;
use std::alloc::Global;
use std::marker::Model;

/// A sink in memory, with a list of the writes that are to fail.
#[derive(Drop)]
pub struct MemSink {
    bytes: Vec<u8>,
    calls: u64,
    failing: Vec<(u64, usize)>,
    faults: u64,
}

impl Model for MemSink {
    ghost use Rattle.coho_io.specs.MemSink.{SinkState};

    ghost Value = { SinkState };

    ghost view = { λ s. record {
      bytes = s.bytes.items;
      calls = s.calls;
      failing = s.failing.items;
      faults = s.faults;
    } };
}

impl MemSink {
    /// An empty sink, all of whose writes succeed.
    pub fn new(alloc: Global) -> MemSink
        ensures { result ≡ no_bytes }
    {
        MemSink {
            bytes: Vec::new(alloc),
            calls: 0,
            failing: Vec::new(alloc),
            faults: 0,
        }
    }

    /// The bytes that were written.
    pub fn bytes(&self) -> &[u8]
        ensures { result.now ≡ self.now.bytes }
    {
        &self.bytes
    }

    /// Has a write fail, by its number from 1 on, after it took the first `taken` bytes of its piece.
    /// What is listed last for a number counts.
    pub fn fail_at(&mut self, call: u64, taken: usize) -> Result<(), Memory>
        ensures ok { OnOk result (self.new ≡ listed self.old call taken) }
        ensures err { OnErr result (self.new ≡ self.old) }
    {
        self.failing.push((call, taken))?;
        Ok(())
    }
}

impl Sink for MemSink {
    ghost written = { λ s. Some s.bytes };

    ghost faults = { λ s. s.faults };

    fn write(&mut self, piece: &[u8]) -> Result<(), Fault>
        ensures ok { OnOk result
            ((taken_next self.old ≡ None) × (self.new ≡ wrote self.old piece.now)) }
        ensures failed { IsErrOf result Fault.Failed → (taken : ℕ)
            × (taken_next self.old ≡ Some taken)
            × (self.new ≡ cut_short self.old piece.now taken) }
        ensures memory { IsErrOf result Fault.Memory → self.new ≡ counted self.old }
    {
        self.calls = self.calls.saturating_add(1);
        match taken_at(&self.failing, self.calls) {
            None => {
                self.bytes.extend_from_slice(piece)?;
                Ok(())
            }
            Some(taken) => {
                let end = taken.min(piece.len());
                self.bytes.extend_from_slice(&piece[..end])?;
                self.faults = self.faults.saturating_add(1);
                Err(Fault::Failed)
            }
        }
    }

    fn faults(&self) -> u64 {
        self.faults
    }
}
