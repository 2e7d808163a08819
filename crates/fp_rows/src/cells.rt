//! Owned lists of small numbers.

ghost use Rattle.std.specs.Prelude.{◌≡◌, ◌≢◌, ◌+◌, ◌-◌, ◌*◌, ◌%◌, ◌<◌, ◌≤◌, ℕ, length, map, replicate};
ghost use Rattle.std.specs.Prelude.{slice_set, IfOk};
ghost use Rattle.group_table.specs.Prime.{prime_value};
ghost use Rattle.linear_algebra.specs.Rows.{entry, add_multiple, pivot, IsRow};
ghost use Rattle.fp_rows.specs.Bits.{bits_of};
ghost use Rattle.fp_rows.specs.Cells.{cells_of, IsPackedFor};
ghost use Rattle.fp_rows.specs.Numbers.{numbers_of};
ghost use Rattle.fp_rows.specs.Parts.{GainsPart};
ghost use Rattle.std.specs.Int.{bit_at};

use crate::arithmetic::{add_times, pivot_of, scale};
use crate::bits::Bits;
use crate::bits_ref::BitsRef;
use crate::numbers::Numbers;
use group_table::{Memory, Prime};
use std::alloc::Global;

/// A byte for each number, or numbers below 2, packed.
#[derive(Drop)]
pub(crate) enum Cells {
    Bytes(Vec<u8>),
    Bits(Bits),
}

// Adds numbers below 2, a byte each.
fn add_bytes_to_bits(b: &mut Bits, s: &[u8])
    requires below { (j : ℕ) → j < length s.now → entry s.now j < 2 }
    requires same_length { length s.now ≡ length b.old }
    ensures { b.new ≡ add_multiple 2 1 b.old s.now }
{
    for (i, x) in s.iter().enumerate() {
        let sum = b.get(i) + *x;
        b.set(i, sum % 2);
    }
}

// Adds c times numbers below 2.
fn add_bits_to_bytes(p: Prime, c: u8, v: &mut [u8], s: BitsRef<'_>)
    requires factor { c < prime_value p }
    requires row { IsRow (prime_value p) (length v.old) v.old }
    requires same_length { length (bits_of s) ≡ length v.old }
    ensures { v.new ≡ add_multiple (prime_value p) c v.old (bits_of s.entry) }
{
    let m = p.value();
    for (i, x) in v.iter_mut().enumerate() {
        let sum = *x + c * s.get(i);
        *x = sum % m;
    }
}

// Adds numbers below 2.
fn add_to_bits(b: &mut Bits, r: Numbers<'_>)
    requires below { (j : ℕ) → j < length (numbers_of r) → entry (numbers_of r) j < 2 }
    requires same_length { length (numbers_of r) ≡ length b.old }
    ensures { b.new ≡ add_multiple 2 1 b.old (numbers_of r.entry) }
{
    match r {
        Numbers::Bytes(s) => add_bytes_to_bits(b, s),
        Numbers::Bits(s) => b.add(s),
    }
}

/// Adds c times the numbers.
pub(crate) fn add_to_bytes(p: Prime, c: u8, v: &mut [u8], r: Numbers<'_>)
    requires factor { c < prime_value p }
    requires row { IsRow (prime_value p) (length v.old) v.old }
    requires added { IsRow (prime_value p) (length v.old) (numbers_of r) }
    ensures { v.new ≡ add_multiple (prime_value p) c v.old (numbers_of r.entry) }
{
    if c != 0 {
        match r {
            Numbers::Bytes(s) => add_times(p, c, v, s),
            Numbers::Bits(s) => add_bits_to_bytes(p, c, v, s),
        }
    }
}

// Adds an owned list of numbers below 2, word by word where it is packed.
fn add_cells_to_bits(b: &mut Bits, r: &Cells)
    requires below { (j : ℕ) → j < length (cells_of r.now) → entry (cells_of r.now) j < 2 }
    requires same_length { length (cells_of r.now) ≡ length b.old }
    ensures { b.new ≡ add_multiple 2 1 b.old (cells_of r.now) }
{
    match r {
        Cells::Bits(s) => b.add_whole(s),
        Cells::Bytes(s) => add_bytes_to_bits(b, s),
    }
}

// Adds numbers below 2 from place `at` on, up to 64 at a time.
fn add_at(b: &mut Bits, at: usize, r: Numbers<'_>)
    requires below { (j : ℕ) → j < length (numbers_of r) → entry (numbers_of r) j < 2 }
    requires within { at + length (numbers_of r) ≤ length b.old }
    ensures { GainsPart 2 at 1 (numbers_of r.entry) b.old b.new }
{
    let _len = b.len();
    let mut done = 0;
    while done < r.len() {
        let count = if r.len() - done < 64 {
            r.len() - done
        } else {
            64
        };
        let word = r.word(done, count);
        if word != 0 {
            b.add_word(at + done, count, word);
        }
        done += count;
    }
}

// Adds c times the numbers from place `at` on.
fn add_part_to_bytes(p: Prime, c: u8, v: &mut [u8], at: usize, r: Numbers<'_>)
    requires factor { c < prime_value p }
    requires row { IsRow (prime_value p) (length v.old) v.old }
    requires added { IsRow (prime_value p) (length (numbers_of r)) (numbers_of r) }
    requires within { at + length (numbers_of r) ≤ length v.old }
    ensures { GainsPart (prime_value p) at c (numbers_of r.entry) v.old v.new }
{
    add_to_bytes(p, c, &mut v[at..at + r.len()], r);
}

// The numbers of a borrowed list of numbers below 2, packed.
fn packed_copy(alloc: Global, r: Numbers<'_>) -> Result<Cells, Memory>
    requires row { IsRow 2 (length (numbers_of r)) (numbers_of r) }
    ensures same { IfOk result (λ c. cells_of c ≡ numbers_of r.entry) }
    ensures packed { IfOk result (IsPackedFor 2) }
{
    let mut b = Bits::zero(alloc, r.len())?;
    add_to_bits(&mut b, r);
    Ok(Cells::Bits(b))
}

// `len` zeros, a byte each.
fn zero_bytes(alloc: Global, len: usize) -> Result<Vec<u8>, Memory>
    ensures { IfOk result (λ v. v.items ≡ replicate len 0) }
{
    let bytes = vec![in alloc; 0u8; len]?;
    Ok(bytes)
}

// The numbers of a borrowed list, a byte each.
fn byte_copy(alloc: Global, p: Prime, r: Numbers<'_>) -> Result<Cells, Memory>
    requires odd { prime_value p ≢ 2 }
    requires row { IsRow (prime_value p) (length (numbers_of r)) (numbers_of r) }
    ensures same { IfOk result (λ c. cells_of c ≡ numbers_of r.entry) }
    ensures packed { IfOk result (IsPackedFor (prime_value p)) }
{
    match r {
        Numbers::Bytes(s) => {
            let mut v = Vec::new(alloc);
            v.extend_from_slice(s)?;
            Ok(Cells::Bytes(v))
        }
        Numbers::Bits(s) => {
            let mut v = zero_bytes(alloc, s.len())?;
            add_bits_to_bytes(p, 1, &mut v, s);
            Ok(Cells::Bytes(v))
        }
    }
}

impl Cells {
    /// `len` zeros, packed where p is 2.
    pub(crate) fn zero(alloc: Global, p: Prime, len: usize) -> Result<Cells, Memory>
        ensures zeros { IfOk result (λ c. cells_of c ≡ replicate len 0) }
        ensures packed { IfOk result (IsPackedFor (prime_value p)) }
    {
        match p {
            Prime::P2 => {
                let bits = Bits::zero(alloc, len)?;
                Ok(Cells::Bits(bits))
            }
            _ => {
                let bytes = zero_bytes(alloc, len)?;
                Ok(Cells::Bytes(bytes))
            }
        }
    }

    /// The numbers of a borrowed list, packed where p is 2.
    pub(crate) fn copy_of(alloc: Global, p: Prime, r: Numbers<'_>) -> Result<Cells, Memory>
        requires row { IsRow (prime_value p) (length (numbers_of r)) (numbers_of r) }
        ensures same { IfOk result (λ c. cells_of c ≡ numbers_of r.entry) }
        ensures packed { IfOk result (IsPackedFor (prime_value p)) }
    {
        match p {
            Prime::P2 => packed_copy(alloc, r),
            _ => byte_copy(alloc, p, r),
        }
    }

    pub(crate) fn len(&self) -> usize
        ensures { result ≡ length (cells_of self.now) }
    {
        match self {
            Cells::Bytes(v) => v.len(),
            Cells::Bits(b) => b.len(),
        }
    }

    pub(crate) fn get(&self, i: usize) -> u8
        requires { i < length (cells_of self.now) }
        ensures { result ≡ entry (cells_of self.now) i }
    {
        match self {
            Cells::Bytes(v) => v[i],
            Cells::Bits(b) => b.get(i),
        }
    }

    pub(crate) fn set(&mut self, p: Prime, i: usize, x: u8)
        requires inside { i < length (cells_of self.old) }
        requires below { x < prime_value p }
        requires packed { IsPackedFor (prime_value p) self.old }
        ensures set { cells_of self.new ≡ slice_set (cells_of self.old) i x }
        ensures packed { IsPackedFor (prime_value p) self.new }
    {
        let _ = p;
        match self {
            Cells::Bytes(v) => v[i] = x,
            Cells::Bits(b) => b.set(i, x),
        }
    }

    pub(crate) fn clear(&mut self, p: Prime)
        requires packed { IsPackedFor (prime_value p) self.old }
        ensures zeros { cells_of self.new ≡ replicate (length (cells_of self.old)) 0 }
        ensures packed { IsPackedFor (prime_value p) self.new }
    {
        let _ = p;
        match self {
            Cells::Bytes(v) => v.fill(0),
            Cells::Bits(b) => b.clear(),
        }
    }

    pub(crate) fn view(&self) -> Numbers<'_>
        ensures { numbers_of result ≡ cells_of self.now }
    {
        match self {
            Cells::Bytes(v) => Numbers::Bytes(v.as_slice()),
            Cells::Bits(b) => Numbers::Bits(b.view()),
        }
    }

    /// Adds c times the numbers.
    #[tactic(auto, using(crate::proofs::BitLemmas::nothing_added))]
    pub(crate) fn add(&mut self, p: Prime, c: u8, r: Numbers<'_>)
        requires factor { c < prime_value p }
        requires packed { IsPackedFor (prime_value p) self.old }
        requires row { IsRow (prime_value p) (length (cells_of self.old)) (cells_of self.old) }
        requires added { IsRow (prime_value p) (length (cells_of self.old)) (numbers_of r) }
        ensures sum { cells_of self.new ≡ add_multiple (prime_value p) c (cells_of self.old)
            (numbers_of r.entry) }
        ensures packed { IsPackedFor (prime_value p) self.new }
    {
        if c == 0 {
            return;
        }
        match self {
            Cells::Bytes(v) => add_to_bytes(p, c, v, r),
            Cells::Bits(b) => add_to_bits(b, r),
        }
    }

    /// Adds c times another list.
    #[tactic(auto, using(crate::proofs::BitLemmas::nothing_added))]
    pub(crate) fn add_cells(&mut self, p: Prime, c: u8, r: &Cells)
        requires factor { c < prime_value p }
        requires packed { IsPackedFor (prime_value p) self.old }
        requires row { IsRow (prime_value p) (length (cells_of self.old)) (cells_of self.old) }
        requires added { IsRow (prime_value p) (length (cells_of self.old)) (cells_of r.now) }
        ensures sum { cells_of self.new ≡ add_multiple (prime_value p) c (cells_of self.old)
            (cells_of r.now) }
        ensures packed { IsPackedFor (prime_value p) self.new }
    {
        if c == 0 {
            return;
        }
        match self {
            Cells::Bytes(v) => add_to_bytes(p, c, v, r.view()),
            Cells::Bits(b) => add_cells_to_bits(b, r),
        }
    }

    /// Adds c times the numbers from place `at` on.
    #[tactic(auto, using(crate::proofs::PartLemmas::no_part))]
    pub(crate) fn add_part(&mut self, p: Prime, at: usize, c: u8, r: Numbers<'_>)
        requires factor { c < prime_value p }
        requires packed { IsPackedFor (prime_value p) self.old }
        requires row { IsRow (prime_value p) (length (cells_of self.old)) (cells_of self.old) }
        requires added { IsRow (prime_value p) (length (numbers_of r)) (numbers_of r) }
        requires within { at + length (numbers_of r) ≤ length (cells_of self.old) }
        ensures gains { GainsPart (prime_value p) at c (numbers_of r.entry) (cells_of self.old)
            (cells_of self.new) }
        ensures packed { IsPackedFor (prime_value p) self.new }
    {
        if c == 0 {
            return;
        }
        match self {
            Cells::Bytes(v) => add_part_to_bytes(p, c, v, at, r),
            Cells::Bits(b) => add_at(b, at, r),
        }
    }

    /// Adds the first `len` bits of a word at the places from `at` on. For p = 2.
    pub(crate) fn add_word(&mut self, at: usize, len: usize, x: u64)
        requires packed { IsPackedFor 2 self.old }
        requires within { at + len ≤ length (cells_of self.old) }
        requires count { len ≤ 64 }
        ensures packed { IsPackedFor 2 self.new }
        ensures same_length { length (cells_of self.new) ≡ length (cells_of self.old) }
        ensures inside { (j : ℕ) → at ≤ j → j < at + len
            → entry (cells_of self.new) j ≡ (entry (cells_of self.old) j + bit_at x (j - at)) % 2 }
        ensures before { (j : ℕ) → j < at → entry (cells_of self.new) j ≡ entry (cells_of self.old) j }
        ensures after { (j : ℕ) → at + len ≤ j → entry (cells_of self.new) j ≡ entry (cells_of self.old) j }
    {
        match self {
            Cells::Bytes(_) => unreachable!(),
            Cells::Bits(b) => b.add_word(at, len, x),
        }
    }

    /// The place of the first number that is not 0, and the length where each is 0.
    pub(crate) fn first(&self) -> usize
        ensures { result ≡ pivot (cells_of self.now) }
    {
        match self {
            Cells::Bytes(v) => pivot_of(v),
            Cells::Bits(b) => b.first(),
        }
    }

    /// Multiplies each number by c, which is not 0.
    pub(crate) fn scale(&mut self, p: Prime, c: u8)
        requires factor { c < prime_value p }
        requires not_zero { c ≢ 0 }
        requires packed { IsPackedFor (prime_value p) self.old }
        requires row { IsRow (prime_value p) (length (cells_of self.old)) (cells_of self.old) }
        ensures scaled { cells_of self.new ≡ map (λ x. c * x % prime_value p) (cells_of self.old) }
        ensures packed { IsPackedFor (prime_value p) self.new }
    {
        match self {
            Cells::Bytes(v) => scale(p, c, v),
            Cells::Bits(_) => {}
        }
    }
}
