//! Why the parts of a stage are not adopted.

ghost use Rattle.min_res.specs.declared.adopt_fault.AdoptFault.TheVariants as fault;
ghost use Rattle.std.specs.Prelude.{◌≡◌};

use group_table::Memory as OutOfMemory;
use std::alloc::AllocFailed;
use thiserror::Error;

/// Why the parts of a stage are not adopted.
#[derive(Clone, Copy, Debug, PartialEq, Eq, Error)]
pub enum AdoptFault {
    /// They are not the next stage: the first check that fails, by its number, and its first row.
    #[error("check {check} fails at row {row}")]
    False {
        /// The number of the check, from 1 to 6.
        check: u8,
        /// The row, from 0.
        row: u32,
    },
    /// Want of memory.
    #[error("out of memory")]
    Memory,
}

impl From<OutOfMemory> for AdoptFault {
    ghost from_gives = { λ _ e. e ≡ fault.Memory };

    fn from(_: OutOfMemory) -> Self {
        AdoptFault::Memory
    }
}

impl<T: Drop> From<AllocFailed<T>> for AdoptFault {
    ghost from_gives = { λ _ e. e ≡ fault.Memory };

    fn from(_: AllocFailed<T>) -> Self {
        AdoptFault::Memory
    }
}
