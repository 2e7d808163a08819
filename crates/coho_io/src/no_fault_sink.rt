ghost use Rattle.std.specs.Prelude.{◌≡◌, ◌++◌, [], OnOk, OnErr, IsErrOf, Some};

use crate::{Fault, Sink};
use std::alloc::Global;
use std::marker::Model;

/// A sink in memory of which no write fails.
#[derive(Drop)]
pub struct NoFaultSink {
    bytes: Vec<u8>,
}

impl Model for NoFaultSink {
    ghost use Rattle.std.specs.Prelude.{List, ℕ};

    ghost Value = { List ℕ };

    ghost view = { λ s. s.bytes.items };
}

impl NoFaultSink {
    /// An empty sink.
    pub fn new(alloc: Global) -> NoFaultSink
        ensures { result ≡ [] }
    {
        NoFaultSink {
            bytes: Vec::new(alloc),
        }
    }

    /// The bytes that were written.
    pub fn bytes(&self) -> &[u8]
        ensures { result.now ≡ self.now }
    {
        &self.bytes
    }
}

impl Sink for NoFaultSink {
    ghost written = { λ s. Some s };

    ghost faults = { λ _. 0 };

    fn write(&mut self, piece: &[u8]) -> Result<(), Fault>
        ensures ok { OnOk result (self.new ≡ self.old ++ piece.now) }
        ensures failed { IsErrOf result Fault.Failed → ⊥ }
        ensures err { OnErr result (self.new ≡ self.old) }
    {
        self.bytes.extend_from_slice(piece)?;
        Ok(())
    }

    fn faults(&self) -> u64 {
        0
    }
}
