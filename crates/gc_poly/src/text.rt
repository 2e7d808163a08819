//! The text of a polynomial.

ghost use Rattle.std.specs.Prelude.{◌≡◌, ◌<◌, ◌≤◌, ◌++◌, map, length, IfOk, OnOk, OnErr};
ghost use Rattle.graded_polynomials.specs.Monomials.{IsTrimmed};
ghost use Rattle.graded_polynomials.specs.Texts.{power_text, term_text, joined_by, polynomial_text};
ghost use Rattle.gc_poly.specs.Generators.{AreOrdered};
ghost use Rattle.gc_poly.specs.Polynomials.{IsOverGenerators, IsMonomialOf};

use crate::{Gens, Mono, Poly};
use group_table::Memory;
use std::alloc::Global;

/// The name of generator i, alone or with an exponent other than 1.
pub fn power_bytes(alloc: Global, gens: &Gens, i: usize, exponent: u8) -> Result<Vec<u8>, Memory>
    requires { i < length gens.now.degrees }
    ensures { IfOk result (λ bytes. bytes.items ≡ power_text gens.now.degrees i exponent) }
{
    let degree = gens.degree(i);
    let number = gens.number(i);
    let text = if exponent == 1 {
        format!(in alloc; "x_{degree}_{number}")?
    } else {
        format!(in alloc; "x_{degree}_{number}^{exponent}")?
    };
    Ok(text.into_bytes())
}

// The pieces with a separator between them.
fn join(alloc: Global, pieces: &[Vec<u8>], separator: u8) -> Result<Vec<u8>, Memory>
    ensures { IfOk result (λ bytes. bytes.items ≡ joined_by separator (map (λ p. p.items) pieces.now)) }
{
    let mut bytes = Vec::new(alloc);
    for (i, piece) in pieces.iter().enumerate() {
        if i > 0 {
            bytes.push(separator)?;
        }
        bytes.extend_from_slice(piece)?;
    }
    Ok(bytes)
}

// The text of a coefficient times a monomial.
fn term_bytes(alloc: Global, gens: &Gens, coefficient: u8, m: &Mono) -> Result<Vec<u8>, Memory>
    requires trimmed { IsTrimmed m.now }
    requires within { length m.now ≤ length gens.now.degrees }
    ensures { IfOk result (λ bytes. bytes.items ≡ term_text gens.now.degrees
        (record { scalar = coefficient; monomial = m.now })) }
{
    let mut pieces = Vec::new(alloc);
    if coefficient != 1 || m.is_empty() {
        pieces.push(format!(in alloc; "{coefficient}")?.into_bytes())?;
    }
    for i in 0..m.len() {
        let exponent = m.exponent(i);
        if exponent != 0 {
            pieces.push(power_bytes(alloc, gens, i, exponent)?)?;
        }
    }
    join(alloc, &pieces, b'*')
}

/// Appends the text of a polynomial: terms joined by `+`, each a coefficient from 2 on and powers joined by
/// `*`.
/// After a refusal the text is as before.
pub fn write_text(gens: &Gens, f: &Poly, text: &mut Vec<u8>) -> Result<(), Memory>
    requires { IsOverGenerators gens.now f.now }
    ensures ok { OnOk result (text.new.items
        ≡ text.old.items ++ polynomial_text gens.now.degrees f.now.terms) }
    ensures err { OnErr result (text.new.items ≡ text.old.items) }
{
    let alloc = *text.allocator();
    let mut pieces = Vec::new(alloc);
    for i in 0..f.terms() {
        pieces.push(term_bytes(alloc, gens, f.coefficient(i), f.mono(i))?)?;
    }
    if pieces.is_empty() {
        text.push(b'0')?;
    } else {
        text.extend_from_slice(&join(alloc, &pieces, b'+')?)?;
    }
    Ok(())
}
