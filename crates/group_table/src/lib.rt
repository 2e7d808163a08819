//! Groups of prime power order by their multiplication tables, their primes, and the refusal for want of
//! memory.
#![tactic(auto)]

ghost use Rattle.std.specs.Prelude.{◌≡◌, ◌≢◌, ◌↔◌, ℕ, IfSome, IsNone};
ghost use Rattle.group_table.specs.declared.Prime.{Prime};
ghost use Rattle.group_table.specs.Prime.{prime_value};

use std::alloc::{AllocError, AllocFailed};

mod first_faults;
mod group;
mod table;
mod table_fault;

pub use group::Group;
pub use table_fault::TableFault;

/// Want of memory.
#[derive(Clone, Copy, Debug, PartialEq, Eq)]
pub struct Memory;

impl From<AllocError> for Memory {
    fn from(_: AllocError) -> Self {
        Memory
    }
}

impl<T: Drop> From<AllocFailed<T>> for Memory {
    fn from(_: AllocFailed<T>) -> Self {
        Memory
    }
}

/// The characteristic p of the field of coefficients, and the prime of the group's order.
#[derive(Clone, Copy, Debug, PartialEq, Eq)]
pub enum Prime {
    P2,
    P3,
    P5,
    P7,
}

impl Prime {
    /// The prime of a number, where it is 2, 3, 5 or 7.
    pub fn of(v: u32) -> Option<Prime>
        ensures some { IfSome result (λ p. prime_value p ≡ v) }
        ensures none { IsNone result → (p : Prime) → prime_value p ≢ v }
    {
        match v {
            2 => Some(Prime::P2),
            3 => Some(Prime::P3),
            5 => Some(Prime::P5),
            7 => Some(Prime::P7),
            _ => None,
        }
    }

    /// Its number.
    pub fn value(self) -> u8
        ensures { result ≡ prime_value self }
    {
        match self {
            Prime::P2 => 2,
            Prime::P3 => 3,
            Prime::P5 => 5,
            Prime::P7 => 7,
        }
    }
}

#[cfg(test)]
mod tests;
