//! Why a report is not composed.

ghost use Rattle.std.specs.Prelude.{◌≡◌, ◌+◌, ◌<◌, ◌^◌, min, suc};
ghost use Rattle.coho_report.specs.declared.fault.ReportFault.TheVariants as fault;
ghost use Rattle.coho_report.specs.Refusals.{of_subgroup};

use group_table::Memory as OutOfMemory;
use min_res::ResFault;
use std::alloc::{AllocError, AllocFailed};
use thiserror::Error;

/// Why a report is not composed.
#[derive(Clone, Copy, Debug, PartialEq, Eq, Error)]
pub enum ReportFault {
    /// The free module of this degree over a listed subgroup has a dimension above the limit.
    #[error("the free module of degree {degree} of subgroup {subgroup} has dimension {dimension}")]
    TooLarge {
        /// The number of the subgroup in the list, counted from 1, or `u32::MAX` where it is greater.
        subgroup: u32,
        /// The degree.
        degree: u32,
        /// The dimension: the order of the subgroup times the rank.
        dimension: u64,
    },
    /// Want of memory.
    #[error("out of memory")]
    Memory,
}

/// The fault of the stages of the subgroup at a place of the list, counted from 0.
pub(crate) fn of_subgroup(place: usize, fault: ResFault) -> ReportFault
    requires { place + 1 < 2 ^ 64 }
    ensures { result ≡ of_subgroup (min (suc place) 4294967295) fault }
{
    match fault {
        ResFault::TooLarge { degree, dimension } => ReportFault::TooLarge {
            subgroup: (place + 1).min(u32::MAX as usize) as u32,
            degree,
            dimension,
        },
        ResFault::Memory => ReportFault::Memory,
    }
}

impl From<OutOfMemory> for ReportFault {
    ghost from_gives = { λ _ e. e ≡ fault.Memory };

    fn from(_: OutOfMemory) -> Self {
        ReportFault::Memory
    }
}

impl<T: Drop> From<AllocFailed<T>> for ReportFault {
    ghost from_gives = { λ _ e. e ≡ fault.Memory };

    fn from(_: AllocFailed<T>) -> Self {
        ReportFault::Memory
    }
}

impl From<AllocError> for ReportFault {
    ghost from_gives = { λ _ e. e ≡ fault.Memory };

    fn from(_: AllocError) -> Self {
        ReportFault::Memory
    }
}
