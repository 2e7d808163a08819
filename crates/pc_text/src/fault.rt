//! Faults of a presentation text, and of one of its lines.

ghost use Rattle.std.specs.Prelude.{◌≡◌};
ghost use Rattle.pc_text.specs.declared.fault.LineStop.TheVariants.{Fault, Memory};
ghost use Rattle.pc_text.specs.Kinds.{kind_name};

use std::alloc::{AllocError, AllocFailed};

/// The kinds of faults of a presentation text.
#[derive(Clone, Copy, Debug, PartialEq, Eq)]
pub enum Kind {
    BadHeader,
    BadPrime,
    BadCount,
    BadLine,
    BadGenerator,
    BadPower,
    BadOrder,
    BadWord,
    Repeated,
}

impl Kind {
    /// The name of the kind.
    pub fn name(self) -> &'static str
        ensures { result.now ≡ kind_name self }
    {
        match self {
            Kind::BadHeader => "BadHeader",
            Kind::BadPrime => "BadPrime",
            Kind::BadCount => "BadCount",
            Kind::BadLine => "BadLine",
            Kind::BadGenerator => "BadGenerator",
            Kind::BadPower => "BadPower",
            Kind::BadOrder => "BadOrder",
            Kind::BadWord => "BadWord",
            Kind::Repeated => "Repeated",
        }
    }
}

/// Why a text gave no presentation: its first fault, with line and column counted from 1
/// (columns in bytes), or want of memory.
#[derive(Clone, Copy, Debug, PartialEq, Eq)]
pub enum TextFault {
    At { kind: Kind, line: u32, column: u32 },
    Memory,
}

/// A fault of a line, at a column that counts from 1.
#[derive(Clone, Copy, Debug, PartialEq, Eq)]
pub struct LineFault {
    pub kind: Kind,
    pub column: usize,
}

/// Why a line gave no relation.
#[derive(Debug, Drop)]
pub enum LineStop {
    Fault(LineFault),
    Memory,
}

impl From<LineFault> for LineStop {
    ghost from_gives = { λ fault e. e ≡ Fault fault };

    fn from(fault: LineFault) -> LineStop {
        LineStop::Fault(fault)
    }
}

impl From<AllocError> for LineStop {
    ghost from_gives = { λ _ e. e ≡ Memory };

    fn from(_: AllocError) -> LineStop {
        LineStop::Memory
    }
}

impl<T: Drop> From<AllocFailed<T>> for LineStop {
    ghost from_gives = { λ _ e. e ≡ Memory };

    fn from(_: AllocFailed<T>) -> LineStop {
        LineStop::Memory
    }
}
