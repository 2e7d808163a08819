ghost use Rattle.std.specs.Prelude.{◌≡◌, ℕ, ◌<◌, length};
ghost use Rattle.group_table.specs.Prime.{prime_value};
ghost use Rattle.linear_algebra.specs.Rows.{entry};
ghost use Rattle.fp_rows.specs.Numbers.{numbers_of};

use crate::arithmetic::add_product;
use crate::entries::Entries;
use crate::numbers::Numbers;
use group_table::Prime;

/// A borrowed list of numbers below p. Contracts read the list by `entries_of`, and p by `modulus_of`.
#[derive(Clone, Copy)]
pub struct RowRef<'a> {
    pub(crate) modulus: Prime,
    pub(crate) entries: Numbers<'a>,
    pub ghost below: { (j : ℕ) → j < length (numbers_of entries)
        → entry (numbers_of entries) j < prime_value modulus },
    pub ghost above_one: { 1 < prime_value modulus },
}

impl<'a> RowRef<'a> {
    ghost use Rattle.std.specs.Prelude.{◌≡◌, ◌↔◌, ℕ, ◌+◌, ◌%◌, ◌<◌, ◌≤◌, length, slice_range, IsTrue};
    ghost use Rattle.group_table.specs.Prime.{prime_value};
    ghost use Rattle.linear_algebra.specs.Modular.{sum_below};
    ghost use Rattle.linear_algebra.specs.Rows.{entry, pairing, IsRow};
    ghost use Rattle.fp_rows.specs.Numbers.{numbers_of};
    ghost use Rattle.fp_rows.specs.Refs.{entries_of, modulus_of};
    ghost use Rattle.fp_rows.specs.Parts.{IsZero, IsNextPlace};
    ghost use Rattle.fp_rows.specs.Entries.{entries_left};
    ghost use Rattle.std.specs.Int.{bit_at};

    pub(crate) fn over(modulus: Prime, entries: Numbers<'a>) -> RowRef<'a>
        requires { (j : ℕ) → j < length (numbers_of entries)
            → entry (numbers_of entries) j < prime_value modulus }
        ensures entries { entries_of result ≡ numbers_of entries.entry }
        ensures modulus { modulus_of result ≡ prime_value modulus }
    {
        RowRef { modulus, entries }
    }

    /// How many numbers it has.
    pub fn len(&self) -> usize
        ensures count { result ≡ length (entries_of self.now) }
        ensures row { IsRow (modulus_of self.now) (length (entries_of self.now)) (entries_of self.now) }
    {
        self.entries.len()
    }

    /// The number at place i, which is below the length.
    pub fn get(&self, i: usize) -> u8
        requires { i < length (entries_of self.now) }
        ensures value { result ≡ entry (entries_of self.now) i }
        ensures below { result < modulus_of self.now }
    {
        self.entries.get(i)
    }

    /// The `len` numbers from place `from` on, which are a part of the list.
    pub fn part(&self, from: usize, len: usize) -> RowRef<'a>
        requires { from + len ≤ length (entries_of self.now) }
        ensures entries { entries_of result ≡ slice_range (entries_of self.now) from (from + len) }
        ensures modulus { modulus_of result ≡ modulus_of self.now }
    {
        let entries = self.entries.part(from, len);
        RowRef {
            modulus: self.modulus,
            entries,
        }
    }

    /// The `len` numbers from place `from` on as the bits of a word, whose other bits are 0. For p = 2.
    pub fn word(&self, from: usize, len: usize) -> u64
        requires prime { modulus_of self.now ≡ 2 }
        requires within { from + len ≤ length (entries_of self.now) }
        requires count { len ≤ 64 }
        ensures bits { (b : ℕ) → b < len → bit_at result b ≡ entry (entries_of self.now) (from + b) }
        ensures rest { (b : ℕ) → b < 64 → len ≤ b → bit_at result b ≡ 0 }
    {
        self.entries.word(from, len)
    }

    /// Whether each number is 0.
    pub fn is_zero(&self) -> bool
        ensures { IsTrue result ↔ IsZero (entries_of self.now) }
    {
        self.entries.is_zero()
    }

    /// The first place from place `from` on at which the number is not 0, and the length where there is none.
    /// The place is at most the length.
    pub fn next_place(&self, from: usize) -> usize
        requires { from ≤ length (entries_of self.now) }
        ensures { IsNextPlace (entries_of self.now) from result }
    {
        self.entries.next_place(from)
    }

    /// The sum of the products of its numbers and the numbers of the other row at their places, modulo p.
    /// Numbers of the other row past its length don't count.
    pub fn pairing(&self, other: RowRef<'_>) -> u8
        requires same_modulus { modulus_of other ≡ modulus_of self.now }
        requires within { length (entries_of self.now) ≤ length (entries_of other) }
        ensures value { result
            ≡ pairing (modulus_of self.now) (entries_of self.now) (entries_of other.entry) }
        ensures below { result < modulus_of self.now }
    {
        let mut sum = 0u8;
        for i in 0..self.len() {
            sum = add_product(self.modulus, sum, self.get(i), other.get(i));
        }
        sum
    }

    /// The sum of its numbers, modulo p.
    pub fn sum(&self) -> u8
        ensures value { result
            ≡ sum_below (length (entries_of self.now)) (entry (entries_of self.now)) % modulus_of self.now }
        ensures below { result < modulus_of self.now }
    {
        let mut sum = 0u8;
        let mut i = self.next_place(0);
        while i < self.len() {
            sum = add_product(self.modulus, sum, 1, self.get(i));
            i = self.next_place(i + 1);
        }
        sum
    }

    /// The numbers, one after the other.
    pub fn iter(&self) -> Entries<'a>
        ensures { entries_left result ≡ entries_of self.now }
    {
        Entries::over(*self)
    }
}

impl<'a> IntoIterator for RowRef<'a> {
    ghost use Rattle.std.specs.Prelude.{◌≡◌};
    ghost use Rattle.fp_rows.specs.Entries.{entries_left};
    ghost use Rattle.fp_rows.specs.Refs.{entries_of};

    type Item = u8;

    type IntoIter = Entries<'a>;

    ghost into_iter_gives = { λ r it. entries_left it ≡ entries_of r };

    fn into_iter(self) -> Entries<'a> {
        self.iter()
    }
}
