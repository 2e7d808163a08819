ghost use Rattle.std.specs.Prelude.{◌≡◌, ◌++◌, IfOk, string_bytes};
ghost use Rattle.coho_steps.specs.declared.stop.Stop.TheVariants.{Memory as WantOfMemory};
ghost use Rattle.coho_steps.specs.Stops.{told};

use crate::{Cause, Status};
use group_table::Memory;
use std::alloc::{AllocError, AllocFailed, Global};

/// Where a run stops short of its answer.
#[derive(Clone, Copy)]
pub enum Stop<'a> {
    /// The run is refused.
    Refused(Cause),
    /// Reading the file at this path failed.
    Read(&'a str),
    /// Writing the answer failed.
    Write,
    /// Writing the file at this path failed.
    Save(&'a str),
    /// Want of memory.
    Memory,
}

impl<'a> From<AllocError> for Stop<'a> {
    ghost from_gives = { λ _ s. s ≡ WantOfMemory };

    fn from(_: AllocError) -> Self {
        Stop::Memory
    }
}

impl<'a, T: Drop> From<AllocFailed<T>> for Stop<'a> {
    ghost from_gives = { λ _ s. s ≡ WantOfMemory };

    fn from(_: AllocFailed<T>) -> Self {
        Stop::Memory
    }
}

impl<'a> From<Memory> for Stop<'a> {
    ghost from_gives = { λ _ s. s ≡ WantOfMemory };

    fn from(_: Memory) -> Self {
        Stop::Memory
    }
}

impl<'a> Stop<'a> {
    pub fn status(&self) -> Status
        ensures { result ≡ (told self.now).status }
    {
        match self {
            Stop::Refused(cause) => cause.status(),
            Stop::Read(_) => Status::Read,
            Stop::Write | Stop::Save(_) => Status::Write,
            Stop::Memory => Status::Memory,
        }
    }

    /// The line on err.
    pub fn line(&self, alloc: Global) -> Result<String, AllocError>
        ensures { IfOk result (λ text. string_bytes text ≡ (told self.now).line) }
    {
        match self {
            Stop::Refused(cause) => cause.line(alloc),
            Stop::Read(path) => format!(in alloc; "coho: read failed: {path}\n"),
            Stop::Write => String::from_str(alloc, "coho: write failed\n"),
            Stop::Save(path) => format!(in alloc; "coho: write failed: {path}\n"),
            Stop::Memory => String::from_str(alloc, "coho: out of memory\n"),
        }
    }
}
