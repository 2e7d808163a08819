ghost use Rattle.std.specs.Prelude.{◌≡◌, ◌↔◌, ◌+◌, ◌<◌, ◌≤◌, ℕ, length, IsTrue};
ghost use Rattle.std.specs.Int.{bit_at};
ghost use Rattle.linear_algebra.specs.Rows.{entry};
ghost use Rattle.fp_rows.specs.Bits.{bits_of};
ghost use Rattle.fp_rows.specs.Parts.{IsZero, IsNextPlace};

use crate::bits_ref::BitsRef;

/// A borrowed list of small numbers, a byte each, or below 2 and packed.
#[derive(Clone, Copy)]
pub(crate) enum Numbers<'a> {
    Bytes(&'a [u8]),
    Bits(BitsRef<'a>),
}

// The `len` numbers from place `from` on as the bits of a word, whose other bits are 0.
fn word_of_bytes(s: &[u8], from: usize, len: usize) -> u64
    requires within { from + len ≤ length s.now }
    requires count { len ≤ 64 }
    requires below { (j : ℕ) → j < length s.now → entry s.now j < 2 }
    ensures bits { (b : ℕ) → b < len → bit_at result b ≡ entry s.now (from + b) }
    ensures rest { (b : ℕ) → b < 64 → len ≤ b → bit_at result b ≡ 0 }
{
    let mut x = 0u64;
    for b in 0..len {
        if s[from + b] == 1 {
            x |= 1 << b;
        }
    }
    x
}

// Whether each number is 0, up to 64 at a time.
fn are_zero(b: BitsRef<'_>) -> bool
    ensures { IsTrue result ↔ IsZero (bits_of b.entry) }
{
    let mut done = 0;
    while done < b.len() {
        let count = if b.len() - done < 64 {
            b.len() - done
        } else {
            64
        };
        if b.word(done, count) != 0 {
            return false;
        }
        done += count;
    }
    true
}

// The first place from place `from` on at which the number is not 0, up to 64 places at a time.
fn next_bit(b: BitsRef<'_>, from: usize) -> usize
    requires { from ≤ length (bits_of b) }
    ensures { IsNextPlace (bits_of b.entry) from result }
{
    let mut done = from;
    while done < b.len() {
        let count = if b.len() - done < 64 {
            b.len() - done
        } else {
            64
        };
        let word = b.word(done, count);
        if word != 0 {
            return done + word.trailing_zeros() as usize;
        }
        done += count;
    }
    done
}

// The first place from place `from` on at which the number is not 0.
fn next_byte(s: &[u8], from: usize) -> usize
    requires { from ≤ length s.now }
    ensures { IsNextPlace s.now from result }
{
    for i in from..s.len() {
        if s[i] != 0 {
            return i;
        }
    }
    s.len()
}

impl<'a> Numbers<'a> {
    ghost use Rattle.std.specs.Prelude.{◌≡◌, ◌↔◌, ◌+◌, ◌<◌, ◌≤◌, ℕ, length, slice_range, IsTrue};
    ghost use Rattle.std.specs.Int.{bit_at};
    ghost use Rattle.linear_algebra.specs.Rows.{entry};
    ghost use Rattle.fp_rows.specs.Numbers.{numbers_of};
    ghost use Rattle.fp_rows.specs.Parts.{IsZero, IsNextPlace};

    pub(crate) fn len(&self) -> usize
        ensures { result ≡ length (numbers_of self.now) }
    {
        match self {
            Numbers::Bytes(s) => s.len(),
            Numbers::Bits(b) => b.len(),
        }
    }

    pub(crate) fn get(&self, i: usize) -> u8
        requires { i < length (numbers_of self.now) }
        ensures { result ≡ entry (numbers_of self.now) i }
    {
        match self {
            Numbers::Bytes(s) => s[i],
            Numbers::Bits(b) => b.get(i),
        }
    }

    pub(crate) fn part(&self, from: usize, len: usize) -> Numbers<'a>
        requires { from + len ≤ length (numbers_of self.now) }
        ensures { numbers_of result ≡ slice_range (numbers_of self.now) from (from + len) }
    {
        match self {
            Numbers::Bytes(s) => Numbers::Bytes(&s[from..from + len]),
            Numbers::Bits(b) => Numbers::Bits(b.part(from, len)),
        }
    }

    /// The `len` numbers from place `from` on, which are below 2, as the bits of a word, whose other bits are
    /// 0.
    pub(crate) fn word(&self, from: usize, len: usize) -> u64
        requires within { from + len ≤ length (numbers_of self.now) }
        requires count { len ≤ 64 }
        requires below { (j : ℕ) → j < length (numbers_of self.now) → entry (numbers_of self.now) j < 2 }
        ensures bits { (b : ℕ) → b < len → bit_at result b ≡ entry (numbers_of self.now) (from + b) }
        ensures rest { (b : ℕ) → b < 64 → len ≤ b → bit_at result b ≡ 0 }
    {
        match self {
            Numbers::Bytes(s) => word_of_bytes(s, from, len),
            Numbers::Bits(b) => b.word(from, len),
        }
    }

    /// Whether each number is 0.
    pub(crate) fn is_zero(&self) -> bool
        ensures { IsTrue result ↔ IsZero (numbers_of self.now) }
    {
        match self {
            Numbers::Bytes(s) => s.iter().all(|x| *x == 0),
            Numbers::Bits(b) => are_zero(*b),
        }
    }

    /// The first place from place `from` on at which the number is not 0, and the length where there is none.
    pub(crate) fn next_place(&self, from: usize) -> usize
        requires { from ≤ length (numbers_of self.now) }
        ensures { IsNextPlace (numbers_of self.now) from result }
    {
        match self {
            Numbers::Bytes(s) => next_byte(s, from),
            Numbers::Bits(b) => next_bit(*b, from),
        }
    }
}
