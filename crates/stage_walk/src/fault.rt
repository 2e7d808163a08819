//! Why there are no stages.

ghost use Rattle.stage_walk.specs.declared.fault.StagesFault.TheVariants as fault;
ghost use Rattle.std.specs.Prelude.{◌≡◌};

use group_table::Memory as OutOfMemory;
use std::alloc::AllocError;
use thiserror::Error;

/// Why there are no stages to the degree that was asked for.
#[derive(Clone, Copy, Debug, PartialEq, Eq, Error)]
pub enum StagesFault {
    /// The file to take stages from could not be read.
    #[error("the file of stages could not be read")]
    Read,
    /// One of the first eight bytes of that file is another.
    #[error("the file has another format")]
    Header,
    /// That file is the one of another presentation.
    #[error("the file is that of another presentation")]
    Presentation,
    /// A record of that file is not the honest one.
    #[error("record {number} is not the honest one")]
    Record {
        /// The number of the record, which is the degree of its stage.
        number: u32,
    },
    /// The free module of this degree has a dimension above the limit.
    #[error("the free module of degree {degree} has dimension {dimension}")]
    TooLarge {
        /// The degree.
        degree: u32,
        /// The dimension: the order of the group times the rank.
        dimension: u64,
    },
    /// The file to save stages to could not be written.
    #[error("the file of stages could not be written")]
    Write,
    /// Want of memory.
    #[error("out of memory")]
    Memory,
}

impl From<OutOfMemory> for StagesFault {
    ghost from_gives = { λ _ e. e ≡ fault.Memory };

    fn from(_: OutOfMemory) -> Self {
        StagesFault::Memory
    }
}

impl From<AllocError> for StagesFault {
    ghost from_gives = { λ _ e. e ≡ fault.Memory };

    fn from(_: AllocError) -> Self {
        StagesFault::Memory
    }
}
