//! Short rows, which need no allocator.

ghost use Rattle.std.specs.Prelude.{◌≡◌, ◌<◌, ◌≤◌, ◌+◌, ◌*◌, ◌/◌, ◌%◌, ℕ, length, replicate, slice_range};
ghost use Rattle.group_table.specs.Prime.{prime_value};
ghost use Rattle.linear_algebra.specs.Rows.{entry, add_multiple, IsRow};
ghost use Rattle.fp_rows.specs.Numbers.{numbers_of};
ghost use Rattle.fp_rows.specs.Places.{place, places};
ghost use Rattle.fp_rows.specs.Short.{short_cells_of, HasRoom, IsShort};
ghost use Rattle.fp_rows.specs.Refs.{entries_of, modulus_of};

use crate::bits_ref::BitsRef;
use crate::cells::add_to_bytes;
use crate::numbers::Numbers;
use crate::row_ref::RowRef;
use crate::words::{add_places, flip};
use group_table::Prime;
use std::marker::Model;

/// Room for 256 numbers: a byte for each, or numbers below 2, packed.
#[derive(Drop)]
pub enum ShortCells {
    Bytes([u8; 256]),
    Bits([u64; 4]),
}

/// A list of at most 256 numbers below p, which needs no allocator.
#[derive(Drop)]
pub struct ShortRow {
    prime: Prime,
    len: usize,
    cells: ShortCells,
}

impl Model for ShortRow {
    ghost use Rattle.group_table.specs.Prime.{prime_value};
    ghost use Rattle.fp_rows.specs.Values.{RowValue};
    ghost use Rattle.fp_rows.specs.Short.{short_cells_of, IsShort};

    ghost Value = { RowValue };

    ghost view = { λ r. record { p = prime_value r.prime; entries = short_cells_of r.cells r.len } };

    ghost invariant = { λ r. IsShort (prime_value r.prime) r.len r.cells };
}

// Adds numbers below 2, a byte each, at the first places of the words.
fn add_bytes_to_words(words: &mut [u64], s: &[u8])
    requires room { length s.now ≤ 64 * length words.old }
    requires below { (j : ℕ) → j < length s.now → entry s.now j < 2 }
    ensures same_length { length words.new ≡ length words.old }
    ensures sums { (j : ℕ) → j < length s.now → place words.new j ≡ (place words.old j + entry s.now j) % 2 }
{
    for (i, x) in s.iter().enumerate() {
        if *x == 1 {
            flip(words, i);
        }
    }
}

// Adds numbers below 2 at the first places of the words, which are as many as they need.
fn add_to_words(words: &mut [u64], r: Numbers<'_>)
    requires count { length words.old ≡ (length (numbers_of r) + 63) / 64 }
    requires below { (j : ℕ) → j < length (numbers_of r) → entry (numbers_of r) j < 2 }
    ensures same_length { length words.new ≡ length words.old }
    ensures sums { (j : ℕ) → j < length (numbers_of r.entry)
        → place words.new j ≡ (place words.old j + entry (numbers_of r.entry) j) % 2 }
{
    match r {
        Numbers::Bytes(s) => add_bytes_to_words(words, s),
        Numbers::Bits(s) => add_places(words, s.words, s.from, s.len),
    }
}

// Adds c times numbers below 2 at the first `len` places of the words.
fn add_to_places(c: u8, words: &mut [u64], len: usize, r: Numbers<'_>)
    requires factor { c < 2 }
    requires room { len ≤ 64 * length words.old }
    requires same_length { length (numbers_of r) ≡ len }
    requires below { (j : ℕ) → j < length (numbers_of r) → entry (numbers_of r) j < 2 }
    ensures same_length { length words.new ≡ length words.old }
    ensures sum { places words.new 0 len ≡ add_multiple 2 c (places words.old 0 len) (numbers_of r.entry) }
{
    if c == 1 {
        add_to_words(&mut words[..len.div_ceil(64)], r);
    }
}

// Adds c times the numbers to the first `len` bytes.
fn add_to_first(p: Prime, c: u8, bytes: &mut [u8], len: usize, r: Numbers<'_>)
    requires factor { c < prime_value p }
    requires room { len ≤ length bytes.old }
    requires row { IsRow (prime_value p) len (slice_range bytes.old 0 len) }
    requires added { IsRow (prime_value p) len (numbers_of r) }
    ensures same_length { length bytes.new ≡ length bytes.old }
    ensures sum { slice_range bytes.new 0 len
        ≡ add_multiple (prime_value p) c (slice_range bytes.old 0 len) (numbers_of r.entry) }
{
    add_to_bytes(p, c, &mut bytes[..len], r);
}

impl ShortCells {
    // Zeros, packed where p is 2.
    fn zero(p: Prime, len: usize) -> ShortCells
        requires { len ≤ 256 }
        ensures short { IsShort (prime_value p) len result }
        ensures zeros { short_cells_of result len ≡ replicate len 0 }
    {
        let _ = len;
        match p {
            Prime::P2 => ShortCells::Bits([0; 4]),
            _ => ShortCells::Bytes([0; 256]),
        }
    }

    // Adds c times the numbers to the first `len`.
    fn add(&mut self, p: Prime, len: usize, c: u8, r: Numbers<'_>)
        requires factor { c < prime_value p }
        requires short { IsShort (prime_value p) len self.old }
        requires added { IsRow (prime_value p) len (numbers_of r) }
        ensures sum { short_cells_of self.new len
            ≡ add_multiple (prime_value p) c (short_cells_of self.old len) (numbers_of r.entry) }
        ensures room { HasRoom (prime_value p) len self.new }
    {
        match self {
            ShortCells::Bytes(bytes) => add_to_first(p, c, bytes, len, r),
            ShortCells::Bits(words) => add_to_places(c, words, len, r),
        }
    }

    // The first `len` numbers, borrowed.
    fn view(&self, p: Prime, len: usize) -> Numbers<'_>
        requires few { len ≤ 256 }
        requires room { HasRoom (prime_value p) len self.now }
        ensures { numbers_of result ≡ short_cells_of self.now len }
    {
        let _ = p;
        match self {
            ShortCells::Bytes(bytes) => Numbers::Bytes(&bytes[..len]),
            ShortCells::Bits(words) => Numbers::Bits(BitsRef {
                words: words.as_slice(),
                from: 0,
                len,
            }),
        }
    }
}

impl ShortRow {
    /// The row of `len` zeros, at most 256.
    pub fn zero(p: Prime, len: usize) -> ShortRow
        requires { len ≤ 256 }
        ensures { result ≡ record { p = prime_value p; entries = replicate len 0 } }
    {
        let cells = ShortCells::zero(p, len);
        ShortRow {
            prime: p,
            len,
            cells,
        }
    }

    /// Adds c times a row of the same length over the same prime, where c is below p.
    pub fn add(&mut self, c: u8, r: RowRef<'_>)
        requires factor { c < self.old.p }
        requires same_prime { modulus_of r ≡ self.old.p }
        requires same_length { length (entries_of r) ≡ length self.old.entries }
        ensures { self.new ≡ record self.old
            { entries = add_multiple self.old.p c self.old.entries (entries_of r.entry) } }
    {
        self.cells.add(self.prime, self.len, c, r.entries);
    }

    /// The row, borrowed.
    pub fn view(&self) -> RowRef<'_>
        ensures entries { entries_of result ≡ self.now.entries }
        ensures modulus { modulus_of result ≡ self.now.p }
    {
        RowRef::over(self.prime, self.cells.view(self.prime, self.len))
    }
}
