//! What shows that a table is not that of a group with the identity 0.

ghost use Rattle.group_table.specs.declared.table_fault.TableFault.TheVariants as fault;
ghost use Rattle.std.specs.Prelude.{◌≡◌};

use crate::Memory as OutOfMemory;
use thiserror::Error;

/// Where a table first shows that it is not that of a group with the identity 0.
#[derive(Clone, Copy, Debug, PartialEq, Eq, Error)]
pub enum TableFault {
    /// 0 is no unit for this element.
    #[error("0 is not a unit for {0}")]
    NotUnit(u16),
    /// The row of this element has an entry twice.
    #[error("row {0} has an entry twice")]
    NotLatin(u16),
    /// These three elements do not associate.
    #[error("({0}*{1})*{2} is not {0}*({1}*{2})")]
    NotAssociative(u16, u16, u16),
    /// Want of memory.
    #[error("out of memory")]
    Memory,
}

impl From<OutOfMemory> for TableFault {
    ghost from_gives = { λ _ e. e ≡ fault.Memory };

    fn from(_: OutOfMemory) -> Self {
        TableFault::Memory
    }
}
