//! Why a resolution is not extended.

ghost use Rattle.min_res.specs.declared.fault.ResFault.TheVariants as fault;
ghost use Rattle.std.specs.Prelude.{◌≡◌};

use group_table::Memory as OutOfMemory;
use std::alloc::AllocFailed;
use thiserror::Error;

/// Why a resolution is not extended.
#[derive(Clone, Copy, Debug, PartialEq, Eq, Error)]
pub enum ResFault {
    /// The free module of this degree has a dimension above the limit.
    #[error("the free module of degree {degree} has dimension {dimension}")]
    TooLarge {
        /// The degree.
        degree: u32,
        /// The dimension: the order of the group times the rank.
        dimension: u64,
    },
    /// Want of memory.
    #[error("out of memory")]
    Memory,
}

impl From<OutOfMemory> for ResFault {
    ghost from_gives = { λ _ e. e ≡ fault.Memory };

    fn from(_: OutOfMemory) -> Self {
        ResFault::Memory
    }
}

impl<T: Drop> From<AllocFailed<T>> for ResFault {
    ghost from_gives = { λ _ e. e ≡ fault.Memory };

    fn from(_: AllocFailed<T>) -> Self {
        ResFault::Memory
    }
}
