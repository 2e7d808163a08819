ghost use Rattle.std.specs.Prelude.{◌≡◌, ◌≢◌, ℕ, ◌+◌, ◌-◌, ◌*◌, ◌%◌, ◌<◌, ◌≤◌, length, map, IfOk, replicate};
ghost use Rattle.std.specs.Prelude.{slice_set};
ghost use Rattle.group_table.specs.Prime.{prime_value};
ghost use Rattle.linear_algebra.specs.Rows.{entry, add_multiple, pivot, IsRow};
ghost use Rattle.linear_algebra.specs.Kernels.{unit_row};
ghost use Rattle.fp_rows.specs.Refs.{entries_of, modulus_of};
ghost use Rattle.fp_rows.specs.Entries.{entries_left};
ghost use Rattle.fp_rows.specs.Parts.{GainsPart};
ghost use Rattle.std.specs.Int.{bit_at};

use crate::cells::Cells;
use crate::entries::Entries;
use crate::row_ref::RowRef;
use group_table::{Memory, Prime};
use std::alloc::Global;
use std::marker::Model;

/// An owned list of numbers below p. For p = 2 it is packed.
#[derive(Drop)]
pub struct Row {
    prime: Prime,
    cells: Cells,
}

impl Model for Row {
    ghost use Rattle.std.specs.Prelude.{length};
    ghost use Rattle.group_table.specs.Prime.{prime_value};
    ghost use Rattle.fp_rows.specs.Values.{RowValue, IsStored};
    ghost use Rattle.fp_rows.specs.Cells.{cells_of};

    ghost Value = { RowValue };

    ghost view = { λ a. record { p = prime_value a.prime; entries = cells_of a.cells } };

    ghost invariant = { λ a. IsStored (prime_value a.prime) a.cells };
}

impl Row {
    /// The row of `len` zeros.
    pub fn zero(alloc: Global, p: Prime, len: usize) -> Result<Row, Memory>
        ensures { IfOk result (λ r. r ≡ record { p = prime_value p; entries = replicate len 0 }) }
    {
        let cells = Cells::zero(alloc, p, len)?;
        Ok(Row { prime: p, cells })
    }

    /// The row with these numbers.
    #[tactic(auto, using(crate::proofs::RefLemmas::ref_is_row))]
    pub(crate) fn copy_of(alloc: Global, r: RowRef<'_>) -> Result<Row, Memory>
        ensures { IfOk result (λ v. v ≡ record { p = modulus_of r.entry; entries = entries_of r.entry }) }
    {
        let cells = Cells::copy_of(alloc, r.modulus, r.entries)?;
        Ok(Row {
            prime: r.modulus,
            cells,
        })
    }

    /// How many numbers it has.
    pub fn len(&self) -> usize
        ensures count { result ≡ length self.now.entries }
        ensures row { IsRow self.now.p (length self.now.entries) self.now.entries }
    {
        self.cells.len()
    }

    /// The prime.
    pub(crate) fn prime(&self) -> Prime
        ensures value { prime_value result ≡ self.now.p }
        ensures row { IsRow self.now.p (length self.now.entries) self.now.entries }
    {
        self.prime
    }

    /// The number at place i, which is below the length.
    pub fn get(&self, i: usize) -> u8
        requires { i < length self.now.entries }
        ensures value { result ≡ entry self.now.entries i }
        ensures below { result < self.now.p }
    {
        self.cells.get(i)
    }

    /// Writes a number below p at place i, which is below the length.
    pub fn set(&mut self, i: usize, v: u8)
        requires inside { i < length self.old.entries }
        requires below { v < self.old.p }
        ensures { self.new ≡ record self.old { entries = slice_set self.old.entries i v } }
    {
        self.cells.set(self.prime, i, v);
    }

    /// Writes 0 everywhere.
    pub fn clear(&mut self)
        ensures { self.new ≡ record self.old { entries = replicate (length self.old.entries) 0 } }
    {
        self.cells.clear(self.prime);
    }

    /// Writes 1 at place i, which is below the length, and 0 elsewhere.
    pub fn set_unit(&mut self, i: usize)
        requires { i < length self.old.entries }
        ensures { self.new ≡ record self.old { entries = unit_row (length self.old.entries) i } }
    {
        self.cells.clear(self.prime);
        self.cells.set(self.prime, i, 1);
    }

    /// The row, borrowed.
    pub fn view(&self) -> RowRef<'_>
        ensures entries { entries_of result ≡ self.now.entries }
        ensures modulus { modulus_of result ≡ self.now.p }
    {
        RowRef::over(self.prime, self.cells.view())
    }

    /// Adds c times a row of the same length over the same prime, where c is below p.
    pub fn add(&mut self, c: u8, r: RowRef<'_>)
        requires factor { c < self.old.p }
        requires same_prime { modulus_of r ≡ self.old.p }
        requires same_length { length (entries_of r) ≡ length self.old.entries }
        ensures { self.new ≡ record self.old {
          entries = add_multiple self.old.p c self.old.entries
              (entries_of r.entry);
        } }
    {
        self.cells.add(self.prime, c, r.entries);
    }

    /// Adds c times a whole row, whose numbers are below p.
    pub(crate) fn add_row(&mut self, c: u8, r: &Row)
        requires factor { c < self.old.p }
        requires row { IsRow self.old.p (length self.old.entries) r.now.entries }
        ensures { self.new ≡ record self.old
            { entries = add_multiple self.old.p c self.old.entries r.now.entries } }
    {
        self.cells.add_cells(self.prime, c, &r.cells);
    }

    /// The place of the first number that is not 0, and the length where each is 0.
    pub(crate) fn first(&self) -> usize
        ensures { result ≡ pivot self.now.entries }
    {
        self.cells.first()
    }

    /// Multiplies each number by c, which is not 0.
    pub(crate) fn scale(&mut self, c: u8)
        requires factor { c < self.old.p }
        requires not_zero { c ≢ 0 }
        ensures { self.new ≡ record self.old { entries = map (λ x. c * x % self.old.p) self.old.entries } }
    {
        self.cells.scale(self.prime, c);
    }

    /// Adds the first `len` bits of a word, modulo 2, at the places from `at` on. For p = 2.
    pub fn add_word(&mut self, at: usize, len: usize, x: u64)
        requires prime { self.old.p ≡ 2 }
        requires within { at + len ≤ length self.old.entries }
        requires count { len ≤ 64 }
        ensures prime { self.new.p ≡ self.old.p }
        ensures same_length { length self.new.entries ≡ length self.old.entries }
        ensures inside { (j : ℕ) → at ≤ j → j < at + len
            → entry self.new.entries j ≡ (entry self.old.entries j + bit_at x (j - at)) % 2 }
        ensures before { (j : ℕ) → j < at → entry self.new.entries j ≡ entry self.old.entries j }
        ensures after { (j : ℕ) → at + len ≤ j → entry self.new.entries j ≡ entry self.old.entries j }
    {
        self.cells.add_word(at, len, x);
    }

    /// Adds c times a row over the same prime to the numbers from place `at` on, where c is below p.
    pub fn add_part(&mut self, at: usize, c: u8, r: RowRef<'_>)
        requires factor { c < self.old.p }
        requires same_prime { modulus_of r ≡ self.old.p }
        requires within { at + length (entries_of r) ≤ length self.old.entries }
        ensures prime { self.new.p ≡ self.old.p }
        ensures gains { GainsPart self.old.p at c (entries_of r.entry) self.old.entries self.new.entries }
    {
        self.cells.add_part(self.prime, at, c, r.entries);
    }

    /// The numbers, one after the other.
    pub fn iter(&self) -> Entries<'_>
        ensures { entries_left result ≡ self.now.entries }
    {
        self.view().iter()
    }
}

impl<'a> IntoIterator for &'a Row {
    ghost use Rattle.std.specs.Prelude.{◌≡◌};
    ghost use Rattle.fp_rows.specs.Entries.{entries_left};

    type Item = u8;

    type IntoIter = Entries<'a>;

    ghost into_iter_gives = { λ r it. entries_left it ≡ r.now.entries };

    fn into_iter(self) -> Entries<'a> {
        self.iter()
    }
}
