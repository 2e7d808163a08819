//! Multiplication tables on the numbers below p^n.

ghost use Rattle.group_table.specs.Prime.{prime_value};
ghost use Rattle.group_table.specs.Tables.{GroupTable, IsTable, order, product};
ghost use Rattle.std.specs.Prelude.{◌≡◌, ◌<◌, ◌≤◌, IfOk};

use crate::{Memory, Prime};
use std::alloc::Global;
use std::marker::Model;

/// A multiplication table on the numbers below p^n, by rows.
#[derive(Debug, Drop)]
pub(crate) struct Table {
    prime: Prime,
    rank: u32,
    size: u16,
    entries: Vec<u16>,
}

impl Model for Table {
    ghost use Rattle.group_table.specs.Prime.{prime_value};
    ghost use Rattle.group_table.specs.Tables.{GroupTable, IsTable, order};
    ghost use Rattle.std.specs.Prelude.{◌≡◌, ◌≤◌};

    ghost Value = { GroupTable };

    ghost view = { λ t. record { p = prime_value t.prime; n = t.rank; entries = t.entries.items } };

    ghost invariant = { λ t.
        let G : GroupTable = record { p = prime_value t.prime; n = t.rank; entries = t.entries.items } in
        (t.size ≡ order G) × (t.size ≤ 256) × IsTable G };
}

impl Table {
    pub(crate) fn new(prime: Prime, rank: u32, entries: Vec<u16>) -> Table
        requires small { order (record { p = prime_value prime; n = rank; entries = entries.items }) ≤ 256 }
        requires table { IsTable (record { p = prime_value prime; n = rank; entries = entries.items }) }
        ensures { result ≡ record { p = prime_value prime; n = rank; entries = entries.items } }
    {
        let size = (prime.value() as u16).pow(rank);
        Table {
            prime,
            rank,
            size,
            entries,
        }
    }

    pub(crate) fn order(&self) -> u16
        ensures value { result ≡ order self.now }
        ensures small { result ≤ 256 }
        ensures table { IsTable self.now }
    {
        self.size
    }

    pub(crate) fn prime(&self) -> Prime
        ensures { prime_value result ≡ self.now.p }
    {
        self.prime
    }

    pub(crate) fn rank(&self) -> u32
        ensures { result ≡ self.now.n }
    {
        self.rank
    }

    pub(crate) fn mul(&self, a: u16, b: u16) -> u16
        requires left { a < order self.now }
        requires right { b < order self.now }
        ensures value { result ≡ product self.now a b }
        ensures below { result < order self.now }
    {
        self.entries[a as usize * self.size as usize + b as usize]
    }

    pub(crate) fn try_clone(&self, alloc: Global) -> Result<Table, Memory>
        ensures { IfOk result (λ t. t ≡ self.now) }
    {
        let entries = Vec::from_slice(alloc, &self.entries)?;
        Ok(Table {
            prime: self.prime,
            rank: self.rank,
            size: self.size,
            entries,
        })
    }
}
