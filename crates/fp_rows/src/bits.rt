//! Lists of numbers below 2, packed into words of 64 places.

ghost use Rattle.std.specs.Prelude.{◌≡◌, ◌+◌, ◌-◌, ◌%◌, ◌*◌, ◌<◌, ◌≤◌, ◌^◌, ℕ, length, replicate};
ghost use Rattle.std.specs.Prelude.{slice_range, slice_set, IfOk};
ghost use Rattle.linear_algebra.specs.Rows.{entry, add_multiple, pivot};
ghost use Rattle.fp_rows.specs.Bits.{bits_of};
ghost use Rattle.std.specs.Int.{bit_at};

use crate::bits_ref::BitsRef;
use crate::words::{
    add_low_bits, add_places, add_words, copy_of_places, first_place, flip, place_at, zero_words,
};
use group_table::Memory;
use std::alloc::Global;
use std::marker::Model;

/// An owned list of numbers below 2, which begins with its first word.
#[derive(Drop)]
pub(crate) struct Bits {
    words: Vec<u64>,
    len: usize,
}

impl Model for Bits {
    ghost use Rattle.std.specs.Prelude.{ℕ, List};
    ghost use Rattle.fp_rows.specs.Places.{places};
    ghost use Rattle.fp_rows.specs.Packed.{IsPacked};

    ghost Value = { List ℕ };

    ghost view = { λ b. places b.words.items 0 b.len };

    ghost invariant = { λ b. IsPacked b.words.items b.len };
}

impl Bits {
    /// `len` zeros.
    pub(crate) fn zero(alloc: Global, len: usize) -> Result<Bits, Memory>
        ensures { IfOk result (λ b. b ≡ replicate len 0) }
    {
        let words = zero_words(alloc, len)?;
        Ok(Bits { words, len })
    }

    /// The numbers of a borrowed list.
    pub(crate) fn copy_of(alloc: Global, r: BitsRef<'_>) -> Result<Bits, Memory>
        ensures { IfOk result (λ b. b ≡ bits_of r.entry) }
    {
        let words = copy_of_places(alloc, r.words, r.from, r.len)?;
        Ok(Bits { words, len: r.len })
    }

    pub(crate) fn len(&self) -> usize
        ensures count { result ≡ length self.now }
        ensures below { (j : ℕ) → j < length self.now → entry self.now j < 2 }
    {
        self.len
    }

    pub(crate) fn get(&self, i: usize) -> u8
        requires { i < length self.now }
        ensures value { result ≡ entry self.now i }
        ensures below { result < 2 }
    {
        place_at(&self.words, i)
    }

    pub(crate) fn set(&mut self, i: usize, v: u8)
        requires inside { i < length self.old }
        requires below { v < 2 }
        ensures { self.new ≡ slice_set self.old i v }
    {
        if place_at(&self.words, i) != v {
            flip(&mut self.words, i);
        }
    }

    pub(crate) fn clear(&mut self)
        ensures { self.new ≡ replicate (length self.old) 0 }
    {
        self.words.fill(0);
    }

    pub(crate) fn view(&self) -> BitsRef<'_>
        ensures { bits_of result ≡ self.now }
    {
        let len = self.len;
        BitsRef {
            words: self.words.as_slice(),
            from: 0,
            len,
        }
    }

    /// Adds a borrowed list of the same length, which may begin anywhere.
    pub(crate) fn add(&mut self, r: BitsRef<'_>)
        requires { length (bits_of r) ≡ length self.old }
        ensures { self.new ≡ add_multiple 2 1 self.old (bits_of r.entry) }
    {
        add_places(&mut self.words, r.words, r.from, r.len);
    }

    /// Adds another list of the same length, word by word.
    pub(crate) fn add_whole(&mut self, r: &Bits)
        requires { length r.now ≡ length self.old }
        ensures { self.new ≡ add_multiple 2 1 self.old r.now }
    {
        add_words(&mut self.words, &r.words);
    }

    /// The place of the first 1, and the length where there is none.
    pub(crate) fn first(&self) -> usize
        ensures { result ≡ pivot self.now }
    {
        let len = self.len;
        first_place(&self.words, len)
    }

    /// Adds the first `len` bits of a word at the places from `at` on.
    pub(crate) fn add_word(&mut self, at: usize, len: usize, x: u64)
        requires within { at + len ≤ length self.old }
        requires count { len ≤ 64 }
        ensures same_length { length self.new ≡ length self.old }
        ensures inside { (j : ℕ) → at ≤ j → j < at + len
            → entry self.new j ≡ (entry self.old j + bit_at x (j - at)) % 2 }
        ensures before { (j : ℕ) → j < at → entry self.new j ≡ entry self.old j }
        ensures after { (j : ℕ) → at + len ≤ j → entry self.new j ≡ entry self.old j }
    {
        add_low_bits(&mut self.words, at, len, x);
    }
}
