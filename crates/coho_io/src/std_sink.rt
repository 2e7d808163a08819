ghost use Rattle.std.specs.Prelude.{None};

use crate::streams::write_whole;
use crate::{Fault, Sink};
use std::io::{Stderr, Stdout, Write};

/// A real stream. It tells no bytes.
#[derive(Drop)]
pub struct StdSink<W> {
    stream: W,
    faults: u64,
}

impl StdSink<Stdout> {
    /// Standard output.
    pub fn stdout(runtime: &HostRuntime) -> StdSink<Stdout> {
        StdSink {
            stream: runtime.stdout(),
            faults: 0,
        }
    }
}

impl StdSink<Stderr> {
    /// Standard error.
    pub fn stderr(runtime: &HostRuntime) -> StdSink<Stderr> {
        StdSink {
            stream: runtime.stderr(),
            faults: 0,
        }
    }
}

impl<W: Write> Sink for StdSink<W> {
    ghost written = { λ _. None };

    ghost faults = { λ s. s.faults };

    fn write(&mut self, piece: &[u8]) -> Result<(), Fault> {
        match write_whole(&mut self.stream, piece) {
            Ok(()) => Ok(()),
            Err(_) => {
                self.faults = self.faults.saturating_add(1);
                Err(Fault::Failed)
            }
        }
    }

    fn faults(&self) -> u64 {
        self.faults
    }
}
