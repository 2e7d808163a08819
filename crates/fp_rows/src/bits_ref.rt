ghost use Rattle.std.specs.Prelude.{◌+◌, ◌*◌, ◌<◌, ◌≤◌, ◌^◌, length};

use crate::words::{bits_from, place_at};

/// A borrowed part of words, which may begin inside a word.
#[derive(Clone, Copy)]
pub(crate) struct BitsRef<'a> {
    pub(crate) words: &'a [u64],
    pub(crate) from: usize,
    pub(crate) len: usize,
    pub(crate) ghost within: { from + len ≤ 64 * length words.now },
    pub(crate) ghost small: { from + len < 2 ^ 64 },
}

impl<'a> BitsRef<'a> {
    ghost use Rattle.std.specs.Prelude.{◌≡◌, ◌+◌, ◌<◌, ◌≤◌, ℕ, length, slice_range};
    ghost use Rattle.linear_algebra.specs.Rows.{entry};
    ghost use Rattle.fp_rows.specs.Bits.{bits_of};
    ghost use Rattle.std.specs.Int.{bit_at};

    pub(crate) fn len(&self) -> usize
        ensures count { result ≡ length (bits_of self.now) }
        ensures below { (j : ℕ) → j < length (bits_of self.now) → entry (bits_of self.now) j < 2 }
    {
        self.len
    }

    pub(crate) fn get(&self, i: usize) -> u8
        requires { i < length (bits_of self.now) }
        ensures value { result ≡ entry (bits_of self.now) i }
        ensures below { result < 2 }
    {
        place_at(self.words, self.from + i)
    }

    pub(crate) fn part(&self, from: usize, len: usize) -> BitsRef<'a>
        requires { from + len ≤ length (bits_of self.now) }
        ensures { bits_of result ≡ slice_range (bits_of self.now) from (from + len) }
    {
        BitsRef {
            words: self.words,
            from: self.from + from,
            len,
        }
    }

    /// The `len` numbers from place `from` on as the bits of a word, whose other bits are 0.
    pub(crate) fn word(&self, from: usize, len: usize) -> u64
        requires within { from + len ≤ length (bits_of self.now) }
        requires count { len ≤ 64 }
        ensures bits { (b : ℕ) → b < len → bit_at result b ≡ entry (bits_of self.now) (from + b) }
        ensures rest { (b : ℕ) → b < 64 → len ≤ b → bit_at result b ≡ 0 }
    {
        bits_from(self.words, self.from + from, len)
    }
}
