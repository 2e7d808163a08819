//! Why a text gave no polynomial.

ghost use Rattle.std.specs.Prelude.{◌≡◌};
ghost use Rattle.polynomial_reader.specs.declared.fault.PolyFault.TheVariants.{Memory};

use group_table::Memory;
use std::alloc::{AllocError, AllocFailed};

/// The first fault of a text, columns counted from 1 in bytes, or want of memory.
#[derive(Clone, Copy, Debug, PartialEq, Eq)]
pub enum PolyFault {
    /// No text goes on with the byte at this column, or ends there.
    Syntax(u32),
    /// The name at this column is no generator's.
    UnknownName(u32),
    /// A term has this degree, and a later one that degree.
    Mixed(u32, u32),
    /// A term has this degree, above `GREATEST_DEGREE`.
    TooHigh(u32),
    /// Want of memory.
    Memory,
}

impl From<Memory> for PolyFault {
    ghost from_gives = { λ _ e. e ≡ Memory };

    fn from(_: Memory) -> PolyFault {
        PolyFault::Memory
    }
}

impl From<AllocError> for PolyFault {
    ghost from_gives = { λ _ e. e ≡ Memory };

    fn from(_: AllocError) -> PolyFault {
        PolyFault::Memory
    }
}

impl<T: Drop> From<AllocFailed<T>> for PolyFault {
    ghost from_gives = { λ _ e. e ≡ Memory };

    fn from(_: AllocFailed<T>) -> PolyFault {
        PolyFault::Memory
    }
}
