//! Groups of prime power order by their multiplication tables.

ghost use Rattle.group_table.specs.Prime.{prime_value};
ghost use Rattle.group_table.specs.TableFaults.{IsFirstFault};
ghost use Rattle.group_table.specs.Tables.{GroupTable, IsTable, IsGroupTable, IsInverse, order, product};
ghost use Rattle.group_table.specs.Tables.{power};
ghost use Rattle.std.specs.Prelude.{◌≡◌, ◌*◌, ◌^◌, ◌<◌, ◌≤◌, ◌↔◌, ℕ, All, IsTrue, IfOk, IfErr, vec_len};

use crate::first_faults::{first_not_associative, first_not_latin, first_not_unit};
use crate::table::Table;
use crate::{Memory, Prime, TableFault};
use std::alloc::Global;
use std::marker::Model;

/// A group on the numbers below p^n with the identity 0, where p^n is at most 256.
#[derive(Debug, Drop)]
pub struct Group {
    table: Table,
}

impl Model for Group {
    ghost use Rattle.group_table.specs.TableFaults.{IsFirstFault};
    ghost use Rattle.group_table.specs.Tables.{GroupTable, IsGroupTable};

    ghost Value = { GroupTable };

    ghost view = { λ g. g.table };

    ghost invariant = { λ g. IsGroupTable g.table };
}

impl Group {
    /// The group with this table by rows, where the table is a group's; else the first place that shows that
    /// it is not: the unit is looked at before the rows, and these before associativity.
    pub fn from_table(alloc: Global, p: Prime, n: u32, table: Vec<u16>) -> Result<Group, TableFault>
        requires small { prime_value p ^ n ≤ 256 }
        requires size { vec_len table ≡ prime_value p ^ n * prime_value p ^ n }
        requires entries { All (λ e. e < prime_value p ^ n) table.items }
        ensures group { IfOk result (λ g. g ≡ record { p = prime_value p; n = n; entries = table.items }) }
        ensures law { IfOk result IsGroupTable }
        ensures fault { IfErr result (IsFirstFault
            (record { p = prime_value p; n = n; entries = table.items })) }
    {
        let table = Table::new(p, n, table);
        if let Some(a) = first_not_unit(&table) {
            return Err(TableFault::NotUnit(a));
        }
        if let Some(a) = first_not_latin(alloc, &table)? {
            return Err(TableFault::NotLatin(a));
        }
        if let Some((a, b, c)) = first_not_associative(&table) {
            return Err(TableFault::NotAssociative(a, b, c));
        }
        Ok(Group { table })
    }

    /// The group with this table by rows, for a caller who knows that the table is a group's.
    pub fn from_law(prime: Prime, rank: u32, entries: Vec<u16>) -> Group
        requires small { order (record { p = prime_value prime; n = rank; entries = entries.items }) ≤ 256 }
        requires table { IsTable (record { p = prime_value prime; n = rank; entries = entries.items }) }
        requires law { IsGroupTable (record { p = prime_value prime; n = rank; entries = entries.items }) }
        ensures { result ≡ record { p = prime_value prime; n = rank; entries = entries.items } }
    {
        Group {
            table: Table::new(prime, rank, entries),
        }
    }

    /// How many elements the group has: p^n.
    pub fn order(&self) -> u16
        ensures value { result ≡ order self.now }
        ensures small { result ≤ 256 }
        ensures law { IsGroupTable self.now }
    {
        self.table.order()
    }

    /// The prime p.
    pub fn prime(&self) -> Prime
        ensures { prime_value result ≡ self.now.p }
    {
        self.table.prime()
    }

    /// The exponent n of the order p^n.
    pub fn rank(&self) -> u32
        ensures { result ≡ self.now.n }
    {
        self.table.rank()
    }

    /// The product of two elements.
    pub fn mul(&self, a: u16, b: u16) -> u16
        requires left { a < order self.now }
        requires right { b < order self.now }
        ensures value { result ≡ product self.now a b }
        ensures below { result < order self.now }
    {
        self.table.mul(a, b)
    }

    /// The inverse of an element.
    pub fn inv(&self, a: u16) -> u16
        requires { a < order self.now }
        ensures { IsInverse self.now a result }
    {
        for b in 0..self.order() {
            if self.mul(a, b) == 0 {
                return b;
            }
        }
        unreachable!()
    }

    /// An element to the power e.
    pub fn power(&self, a: u16, e: u32) -> u16
        requires { a < order self.now }
        ensures value { result ≡ power self.now a e }
        ensures below { result < order self.now }
    {
        let mut result = 0;
        for _i in 0..e {
            result = self.mul(result, a);
        }
        result
    }

    /// The conjugate of x by g, which is g^-1 x g.
    pub fn conj(&self, x: u16, g: u16) -> u16
        requires element { x < order self.now }
        requires by { g < order self.now }
        ensures value { (h : ℕ) → IsInverse self.now g h
            → result ≡ product self.now (product self.now h x) g }
        ensures moved { product self.now g result ≡ product self.now x g }
        ensures below { result < order self.now }
    {
        let _ = &self.table;
        self.mul(self.mul(self.inv(g), x), g)
    }

    /// Whether two elements commute.
    pub fn commute(&self, a: u16, b: u16) -> bool
        requires left { a < order self.now }
        requires right { b < order self.now }
        ensures { IsTrue result ↔ (product self.now a b ≡ product self.now b a) }
    {
        self.mul(a, b) == self.mul(b, a)
    }

    /// An equal group.
    pub fn try_clone(&self, alloc: Global) -> Result<Group, Memory>
        ensures { IfOk result (λ g. g ≡ self.now) }
    {
        Ok(Group {
            table: self.table.try_clone(alloc)?,
        })
    }
}
