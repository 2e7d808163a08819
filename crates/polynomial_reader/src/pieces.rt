//! The pieces of a text: terms, factors, numerals and names.

ghost use Rattle.std.specs.Prelude.{◌≡◌, ◌≢◌, ℕ, ◌+◌, ◌≤◌, ◌<◌, ◌==◌, ◌++◌, ◌∷◌, true, map, length, All};
ghost use Rattle.std.specs.Prelude.{IfOk, MatchOption, decimal};
ghost use Rattle.std.specs.List.{slice_split};
ghost use Rattle.limits.specs.declared.TheConstants.{GREATEST_DEGREE};
ghost use Rattle.graded_polynomials.specs.Texts.{joined_by, star};
ghost use Rattle.polynomial_texts.specs.Grammar.{NamedFactor, NamedTerm, IsFactor, IsTerm, is_digit};
ghost use Rattle.polynomial_texts.specs.Grammar.{factor_text, term_bytes};
ghost use Rattle.polynomial_texts.specs.Readings.{number};

use crate::syntax::is_digit;
use std::alloc::{AllocError, Global};

/// The pieces between separators.
pub(crate) fn pieces(alloc: Global, bytes: &[u8], separator: u8) -> Result<Vec<&[u8]>, AllocError>
    ensures { IfOk result (λ v. map (λ p. p.now) v.items ≡ slice_split (λ b. b == separator) bytes.now) }
{
    bytes.split(|b| *b == separator).collect(alloc)
}

// What stands before the first b, and after it.
fn cut(bytes: &[u8], b: u8) -> Option<(&[u8], &[u8])>
    ensures { MatchOption result (All (λ x. x ≢ b) bytes.now)
        (λ x. All (λ y. y ≢ b) x.0.now × (bytes.now ≡ x.0.now ++ b ∷ x.1.now)) }
{
    let at = bytes.iter().position(|x| *x == b)?;
    Some((&bytes[..at], &bytes[at + 1..]))
}

// The value of a digit.
fn digit(b: u8) -> u8
    ensures value { is_digit b ≡ true → 48 + result ≡ b }
    ensures small { result ≤ 9 }
{
    if is_digit(b) { b - b'0' } else { 0 }
}

// The number of a numeral up to the greatest degree.
fn exponent(digits: &[u8]) -> u8
    ensures { (e : ℕ) → e ≤ GREATEST_DEGREE → decimal e ≡ digits.now → result ≡ e }
{
    match digits {
        [] => 0,
        [d] => digit(*d),
        [c, d] => 10 * digit(*c) + digit(*d),
        [_, _, _, ..] => 0,
    }
}

/// The name and the exponent of a factor.
pub(crate) fn split_exponent(piece: &[u8]) -> (&[u8], u8)
    ensures name { (f : NamedFactor) → IsFactor f → factor_text f ≡ piece.now → result.0.now ≡ f.name }
    ensures exponent { (f : NamedFactor) → IsFactor f → factor_text f ≡ piece.now
        → result.1 ≡ number f.exponent }
{
    match cut(piece, b'^') {
        Some((name, digits)) => (name, exponent(digits)),
        None => (piece, 1),
    }
}

/// The numeral of a term, 1 where none is written, and its factors, which stand at the end. Only a numeral
/// begins with a digit.
pub(crate) fn split_numeral(term: &[u8]) -> (u8, &[u8])
    ensures numeral { (q : ℕ) (t : NamedTerm) → q ≤ 6 → IsTerm q t → term_bytes t ≡ term.now
        → result.0 ≡ number t.numeral }
    ensures factors { (q : ℕ) (t : NamedTerm) → q ≤ 6 → IsTerm q t → term_bytes t ≡ term.now
        → result.1.now ≡ joined_by star (map factor_text t.factors) }
    ensures len { length result.1.now ≤ length term.now }
{
    if term.len() >= 2 && is_digit(term[0]) {
        (digit(term[0]), &term[2..])
    } else {
        (1, term)
    }
}
