//! The polynomial of a text.

ghost use Rattle.std.specs.Prelude.{◌≡◌, ◌≢◌, ℕ, ◌+◌, ◌^◌, ◌≤◌, ◌<◌, List, [], map, length, IfOk, IfSome};
ghost use Rattle.std.specs.Prelude.{IsNone, MatchOption, MatchResult, slice_index_or};
ghost use Rattle.std.specs.List.{AllByRecursion as Each};
ghost use Rattle.limits.specs.declared.TheConstants.{LONGEST_TEXT};
ghost use Rattle.graded_polynomials.specs.Texts as texts;
ghost use Rattle.polynomial_texts.specs.Grammar.{NamedFactor, NamedTerm, Sum, IsFactor, IsTerm, IsTextOf};
ghost use Rattle.polynomial_texts.specs.Grammar.{factor_text, term_bytes};
ghost use Rattle.polynomial_texts.specs.Grammar.{numeral_length, factor_names, term_names, placed_names};
ghost use Rattle.polynomial_texts.specs.Readings.{IsUnknown, Names, NamesEach, NamesTerm, NamesTerms};
ghost use Rattle.polynomial_texts.specs.Readings.{NamesSum};
ghost use Rattle.gc_poly.specs.Generators.{greatest};
ghost use Rattle.polynomial_reader.specs.Reading.{AreNames, spans, IsUnknownAt, IsAnswerOf};

use crate::PolyFault;
use crate::degrees::{common_degree, term_degrees};
use crate::pieces::{pieces, split_exponent, split_numeral};
use crate::read_term::{Factor, ReadTerm};
use crate::syntax::stop;
use crate::values::value;
use gc_poly::{Gens, Poly, power_bytes};
use group_table::Memory;
use std::alloc::Global;

// The names of the generators.
fn generator_names(alloc: Global, gens: &Gens) -> Result<Vec<Vec<u8>>, Memory>
    ensures { IfOk result (λ v. AreNames gens.now.degrees (map (λ n. n.items) v.items)) }
{
    let mut names = Vec::new(alloc);
    for i in 0..gens.len() {
        names.push(power_bytes(alloc, gens, i, 1)?)?;
    }
    Ok(names)
}

// The place of a name.
fn find_name(names: &[Vec<u8>], name: &[u8]) -> Option<usize>
    ensures within { IfSome result (λ i. i < length names.now) }
    ensures found { IfSome result (λ i. slice_index_or (map (λ n. n.items) names.now) i [] ≡ name.now) }
    ensures none { IsNone result → (i : ℕ) → i < length names.now
        → slice_index_or (map (λ n. n.items) names.now) i [] ≢ name.now }
{
    for (i, n) in names.iter().enumerate() {
        if n.as_slice() == name {
            return Some(i);
        }
    }
    None
}

// The factor of a piece, where its name is a generator's.
fn read_factor(gens: &Gens, names: &[Vec<u8>], piece: &[u8]) -> Option<Factor>
    requires names { AreNames gens.now.degrees (map (λ n. n.items) names.now) }
    ensures some { (f : NamedFactor) → IsFactor f → factor_text f ≡ piece.now
        → IfSome result (Names gens.now.degrees f) }
    ensures none { (f : NamedFactor) → IsFactor f → factor_text f ≡ piece.now → IsNone result
        → IsUnknown gens.now.degrees f.name }
{
    let (name, exponent) = split_exponent(piece);
    let generator = find_name(names, name)?;
    Some(Factor::new(generator, exponent))
}

// The factors of pieces of which the first stands at this column.
fn read_factors(
    alloc: Global,
    gens: &Gens,
    names: &[Vec<u8>],
    column: u32,
    pieces: &[&[u8]],
) -> Result<Vec<Factor>, PolyFault>
    requires names { AreNames gens.now.degrees (map (λ n. n.items) names.now) }
    requires small { column + spans (map (λ p. p.now) pieces.now) ≤ 2 ^ 20 }
    ensures { (fs : List NamedFactor) → Each IsFactor fs → map factor_text fs ≡ map (λ p. p.now) pieces.now
        → MatchResult result (λ v. NamesEach gens.now.degrees fs v.items)
        (IsUnknownAt gens.now.degrees (factor_names column fs)) }
{
    let mut factors = Vec::new(alloc);
    let mut at = column;
    for piece in pieces {
        match read_factor(gens, names, piece) {
            Some(factor) => factors.push(factor)?,
            None => return Err(PolyFault::UnknownName(at)),
        }
        at += piece.len() as u32 + 1;
    }
    Ok(factors)
}

// The term of a piece that stands at this column.
fn read_term(
    alloc: Global,
    gens: &Gens,
    names: &[Vec<u8>],
    column: u32,
    piece: &[u8],
) -> Result<ReadTerm, PolyFault>
    requires prime { gens.now.prime ≤ 7 }
    requires names { AreNames gens.now.degrees (map (λ n. n.items) names.now) }
    requires small { column + length piece.now + 1 ≤ 2 ^ 20 }
    ensures { (t : NamedTerm) → IsTerm (greatest gens.now) t → term_bytes t ≡ piece.now
        → MatchResult result (NamesTerm gens.now.degrees t)
        (IsUnknownAt gens.now.degrees (factor_names (column + numeral_length t.numeral) t.factors)) }
{
    let (numeral, factors) = split_numeral(piece);
    let start = column + (piece.len() - factors.len()) as u32;
    let factors = read_factors(alloc, gens, names, start, &pieces(alloc, factors, b'*')?)?;
    Ok(ReadTerm::new(numeral, factors))
}

// The terms of pieces of which the first stands at this column.
fn read_terms(
    alloc: Global,
    gens: &Gens,
    names: &[Vec<u8>],
    pieces: &[&[u8]],
) -> Result<Vec<ReadTerm>, PolyFault>
    requires prime { gens.now.prime ≤ 7 }
    requires names { AreNames gens.now.degrees (map (λ n. n.items) names.now) }
    requires small { spans (map (λ p. p.now) pieces.now) + 1 ≤ 2 ^ 20 }
    ensures { (ts : List NamedTerm) → Each (IsTerm (greatest gens.now)) ts
        → map term_bytes ts ≡ map (λ p. p.now) pieces.now
        → MatchResult result (λ v. NamesTerms gens.now.degrees ts v.items)
        (IsUnknownAt gens.now.degrees (term_names 1 ts)) }
{
    let mut terms = Vec::new(alloc);
    let mut at = 1;
    for piece in pieces {
        terms.push(read_term(alloc, gens, names, at, piece)?)?;
        at += piece.len() as u32 + 1;
    }
    Ok(terms)
}

// The terms of a text of the grammar.
fn read_sum(alloc: Global, gens: &Gens, text: &[u8]) -> Result<Vec<ReadTerm>, PolyFault>
    requires prime { gens.now.prime ≤ 7 }
    requires small { length text.now ≤ LONGEST_TEXT }
    ensures { (s : Sum) → IsTextOf (greatest gens.now) s text.now
        → MatchResult result (λ v. NamesSum gens.now.degrees s v.items)
        (IsUnknownAt gens.now.degrees (placed_names s)) }
{
    let mut terms = Vec::new(alloc);
    if text == b"0".as_slice() {
        return Ok(terms);
    }
    if text == b"1".as_slice() {
        terms.push(ReadTerm::new(1, Vec::new(alloc)))?;
        return Ok(terms);
    }
    let names = generator_names(alloc, gens)?;
    read_terms(alloc, gens, &names, &pieces(alloc, text, b'+')?)
}

/// The polynomial of a text, or the text's first fault. The text has at most `LONGEST_TEXT` bytes: `0`, `1`,
/// or terms joined by `+`,
/// in any order. A term is an optional numeral from 1 to p - 1 with `*`, and factors joined by `*`,
/// multiplied from left to right.
/// A factor is a name, alone or with `^` and a numeral from 1 to `GREATEST_DEGREE`.
pub fn read_poly(alloc: Global, gens: &Gens, text: &[u8]) -> Result<Poly, PolyFault>
    requires { length text.now ≤ LONGEST_TEXT }
    ensures { IsAnswerOf gens.now text.now result }
{
    if let Some(place) = stop(gens.modulus(), text) {
        return Err(PolyFault::Syntax(place as u32 + 1));
    }
    let terms = read_sum(alloc, gens, text)?;
    let degree = common_degree(&term_degrees(alloc, gens, &terms)?)?;
    Ok(value(alloc, gens, degree, &terms)?)
}
