//! Lists of numbers below 2 in words of 64 places.

ghost use Rattle.std.specs.Prelude.{◌≡◌, ◌≢◌, ℕ, ◌+◌, ◌-◌, ◌*◌, ◌/◌, ◌%◌, ◌^◌, ◌<◌, ◌≤◌, length, replicate};
ghost use Rattle.std.specs.Prelude.{slice_index_or, IfOk};
ghost use Rattle.std.specs.Int.{bit_at};
ghost use Rattle.fp_rows.specs.Places.{place};

use group_table::Memory;
use std::alloc::Global;

/// The number at place i.
pub(crate) fn place_at(words: &[u64], i: usize) -> u8
    requires { i / 64 < length words.now }
    ensures value { result ≡ place words.now i }
    ensures below { result < 2 }
{
    let word = words[i / 64];
    ((word >> (i % 64)) & 1) as u8
}

/// Exchanges 0 and 1 at place i.
pub(crate) fn flip(words: &mut [u64], i: usize)
    requires { i / 64 < length words.old }
    ensures same_length { length words.new ≡ length words.old }
    ensures here { place words.new i ≡ 1 - place words.old i }
    ensures others { (j : ℕ) → j ≢ i → place words.new j ≡ place words.old j }
{
    words[i / 64] ^= 1 << (i % 64);
}

/// Adds words to the first words: at each place the number of src.
pub(crate) fn add_words(dst: &mut [u64], src: &[u64])
    requires { length src.now ≤ length dst.old }
    ensures same_length { length dst.new ≡ length dst.old }
    ensures sums { (j : ℕ) → place dst.new j ≡ (place dst.old j + place src.now j) % 2 }
{
    for (i, x) in src.iter().enumerate() {
        dst[i] ^= *x;
    }
}

// Word k, and 0 past the last word.
fn word_or_zero(words: &[u64], k: usize) -> u64
    ensures { result ≡ slice_index_or words.now k 0 }
{
    if k < words.len() { words[k] } else { 0 }
}

/// The 64 numbers from place `at` on, with 0 past the last word.
pub(crate) fn word_from(words: &[u64], at: usize) -> u64
    ensures { (b : ℕ) → b < 64 → bit_at result b ≡ place words.now (at + b) }
{
    let k = at / 64;
    let shift = at % 64;
    let low = word_or_zero(words, k);
    if shift == 0 {
        return low;
    }
    let high = word_or_zero(words, k + 1);
    (low >> shift) | (high << (64 - shift))
}

// The word with 0 from bit `count` on.
fn lowest(word: u64, count: usize) -> u64
    ensures kept { (b : ℕ) → b < 64 → b < count → bit_at result b ≡ bit_at word b }
    ensures zero { (b : ℕ) → b < 64 → count ≤ b → bit_at result b ≡ 0 }
    ensures small { count ≤ 64 → result < 2 ^ count }
{
    if count < 64 {
        word & ((1 << count) - 1)
    } else {
        word
    }
}

// Adds at each of the first `len` places the number of src: whole words, and then the lowest bits of one.
fn add_first_places(dst: &mut [u64], src: &[u64], len: usize)
    requires words { length dst.old ≡ (len + 63) / 64 }
    requires whole { len / 64 ≤ length src.now }
    ensures same_length { length dst.new ≡ length dst.old }
    ensures sums { (j : ℕ) → j < len → place dst.new j ≡ (place dst.old j + place src.now j) % 2 }
    ensures rest { (j : ℕ) → len ≤ j → place dst.new j ≡ place dst.old j }
{
    let whole = len / 64;
    add_words(dst, &src[..whole]);
    if whole < dst.len() {
        add_to_word(dst, whole, lowest(word_or_zero(src, whole), len % 64));
    }
}

// Adds at each of the first `len` places of dst the number of src, from place `from` of src on, by shifted
// words.
fn add_shifted_places(dst: &mut [u64], src: &[u64], from: usize, len: usize)
    requires words { length dst.old ≡ (len + 63) / 64 }
    requires small { from + len < 2 ^ 64 }
    ensures same_length { length dst.new ≡ length dst.old }
    ensures sums { (j : ℕ) → j < len → place dst.new j ≡ (place dst.old j + place src.now (from + j)) % 2 }
    ensures rest { (j : ℕ) → len ≤ j → place dst.new j ≡ place dst.old j }
{
    for (k, x) in dst.iter_mut().enumerate() {
        *x ^= lowest(word_from(src, from + 64 * k), len - 64 * k);
    }
}

/// Adds at each of the first `len` places of dst the number of src, from place `from` of src on.
pub(crate) fn add_places(dst: &mut [u64], src: &[u64], from: usize, len: usize)
    requires words { length dst.old ≡ (len + 63) / 64 }
    requires small { from + len < 2 ^ 64 }
    ensures same_length { length dst.new ≡ length dst.old }
    ensures sums { (j : ℕ) → j < len → place dst.new j ≡ (place dst.old j + place src.now (from + j)) % 2 }
    ensures rest { (j : ℕ) → len ≤ j → place dst.new j ≡ place dst.old j }
{
    if from == 0 && len / 64 <= src.len() {
        add_first_places(dst, src, len);
    } else {
        add_shifted_places(dst, src, from, len);
    }
}

/// Words for `len` places, with 0 at each.
pub(crate) fn zero_words(alloc: Global, len: usize) -> Result<Vec<u64>, Memory>
    ensures { IfOk result (λ v. v.items ≡ replicate ((len + 63) / 64) 0) }
{
    let words = vec![in alloc; 0u64; len.div_ceil(64)]?;
    Ok(words)
}

/// Words with the `len` numbers from place `from` on, and 0 after them.
pub(crate) fn copy_of_places(
    alloc: Global,
    words: &[u64],
    from: usize,
    len: usize,
) -> Result<Vec<u64>, Memory>
    requires small { from + len < 2 ^ 64 }
    ensures count { IfOk result (λ v. length v.items ≡ (len + 63) / 64) }
    ensures copied { IfOk result (λ v. (j : ℕ) → j < len → place v.items j ≡ place words.now (from + j)) }
    ensures zero { IfOk result (λ v. (j : ℕ) → len ≤ j → place v.items j ≡ 0) }
{
    let mut copy = zero_words(alloc, len)?;
    add_places(&mut copy, words, from, len);
    Ok(copy)
}

/// The first of `len` places at which the number is not 0, and `len` where each is 0.
pub(crate) fn first_place(words: &[u64], len: usize) -> usize
    requires few { length words.now ≤ 2 ^ 58 }
    requires all { len ≤ 64 * length words.now }
    requires zero { (j : ℕ) → len ≤ j → place words.now j ≡ 0 }
    ensures within { result ≤ len }
    ensures before { (j : ℕ) → j < result → place words.now j ≡ 0 }
    ensures here { result < len → place words.now result ≡ 1 }
{
    for (k, word) in words.iter().enumerate() {
        if *word != 0 {
            return 64 * k + word.trailing_zeros() as usize;
        }
    }
    len
}

/// The `len` numbers from place `from` on as the bits of a word, whose other bits are 0.
pub(crate) fn bits_from(words: &[u64], from: usize, len: usize) -> u64
    ensures kept { (b : ℕ) → b < 64 → b < len → bit_at result b ≡ place words.now (from + b) }
    ensures zero { (b : ℕ) → b < 64 → len ≤ b → bit_at result b ≡ 0 }
{
    lowest(word_from(words, from), len)
}

// Adds the bits of a word to word k.
fn add_to_word(words: &mut [u64], k: usize, y: u64)
    requires { k < length words.old }
    ensures same_length { length words.new ≡ length words.old }
    ensures sums { (j : ℕ) → j / 64 ≡ k → place words.new j ≡ (place words.old j + bit_at y (j % 64)) % 2 }
    ensures rest { (j : ℕ) → j / 64 ≢ k → place words.new j ≡ place words.old j }
{
    words[k] ^= y;
}

/// Adds the bits of a word with `len` bits at the places from `at` on.
pub(crate) fn add_bits(words: &mut [u64], at: usize, len: usize, x: u64)
    requires count { len ≤ 64 }
    requires within { at + len ≤ 64 * length words.old }
    requires small { x < 2 ^ len }
    ensures same_length { length words.new ≡ length words.old }
    ensures sums { (j : ℕ) → at ≤ j → place words.new j ≡ (place words.old j + bit_at x (j - at)) % 2 }
    ensures before { (j : ℕ) → j < at → place words.new j ≡ place words.old j }
{
    let k = at / 64;
    let shift = at % 64;
    if len > 0 {
        add_to_word(words, k, x << shift);
        if shift + len > 64 {
            add_to_word(words, k + 1, x >> (64 - shift));
        }
    }
}

/// Adds the first `len` bits of a word at the places from `at` on.
pub(crate) fn add_low_bits(words: &mut [u64], at: usize, len: usize, x: u64)
    requires count { len ≤ 64 }
    requires within { at + len ≤ 64 * length words.old }
    ensures same_length { length words.new ≡ length words.old }
    ensures inside { (j : ℕ) → at ≤ j → j < at + len
        → place words.new j ≡ (place words.old j + bit_at x (j - at)) % 2 }
    ensures before { (j : ℕ) → j < at → place words.new j ≡ place words.old j }
    ensures after { (j : ℕ) → at + len ≤ j → place words.new j ≡ place words.old j }
{
    add_bits(words, at, len, lowest(x, len));
}
