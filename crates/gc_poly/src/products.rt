//! Products of polynomials.

ghost use Rattle.std.specs.Prelude.{◌≡◌, ℕ, ◌+◌, ◌*◌, ◌%◌, ◌<◌, ◌≤◌, [], ◌∷◌, ◌++◌, IfOk, OnOk};
ghost use Rattle.limits.specs.declared.TheConstants.{GREATEST_DEGREE};
ghost use Rattle.graded_polynomials.specs.Monomials.{exponent, degree, fits, joined, swaps, sign};
ghost use Rattle.graded_polynomials.specs.Polynomials.{multiple, product};
ghost use Rattle.gc_poly.specs.Generators.{greatest};
ghost use Rattle.gc_poly.specs.Polynomials.{IsOverGenerators, IsMonomialOf, IsSumOf, AreFactors};

use crate::{Gens, Mono, Poly};
use group_table::Memory;
use std::alloc::Global;

// Whether the product of two monomials is not 0: for odd p no generator of odd degree comes twice.
fn is_product(gens: &Gens, a: &Mono, b: &Mono) -> bool
    requires { (i : ℕ) → exponent a.now i + exponent b.now i ≤ GREATEST_DEGREE }
    ensures { result ≡ fits (greatest gens.now) gens.now.degrees (joined a.now b.now) }
{
    if gens.modulus() == 2 {
        return true;
    }
    for i in 0..gens.len() {
        if gens.degree(i) % 2 == 1 && a.exponent(i) + b.exponent(i) > 1 {
            return false;
        }
    }
    true
}

// How often factors of odd degree change places in the product of two monomials, modulo 2.
fn exchanges(gens: &Gens, a: &Mono, b: &Mono) -> u32
    ensures { result ≡ swaps gens.now.degrees a.now b.now % 2 }
{
    let mut exchanged = 0;
    let mut after = 0;
    for i in (0..gens.len()).rev() {
        let degree = gens.degree(i);
        exchanged = (exchanged + after * degree * u32::from(b.exponent(i))) % 2;
        after = (after + degree * u32::from(a.exponent(i))) % 2;
    }
    exchanged
}

// The sign of the product of two monomials, modulo p.
fn product_sign(gens: &Gens, a: &Mono, b: &Mono) -> u8
    ensures value { result ≡ sign (greatest gens.now) (swaps gens.now.degrees a.now b.now) }
    ensures small { result < 7 }
{
    if exchanges(gens, a, b) == 0 {
        1
    } else {
        gens.modulus() - 1
    }
}

// Adds the product of the terms c m and x n.
fn add_product(
    alloc: Global,
    gens: &Gens,
    out: &mut Poly,
    c: u8,
    m: &Mono,
    x: u8,
    n: &Mono,
) -> Result<(), Memory>
    requires over { IsOverGenerators gens.now out.old }
    requires degree { out.old.degree ≤ GREATEST_DEGREE }
    requires monomials { AreFactors gens.now out.old.degree m.now n.now }
    requires below { (c < gens.now.prime) × (x < gens.now.prime) }
    ensures { OnOk result (IsSumOf gens.now out.old.degree
        (out.old.terms ++ multiple (greatest gens.now) gens.now.degrees c m.now
        (record { scalar = x; monomial = n.now } ∷ [])) out.new) }
{
    let p = u32::from(gens.modulus());
    if !is_product(gens, m, n) {
        return Ok(());
    }
    let sign = product_sign(gens, m, n);
    let scalar = u32::from(c) * u32::from(sign) * u32::from(x) % p;
    let product = m.joined(alloc, n)?;
    out.add_term(gens, scalar as u8, &product)
}

// Adds c m f.
fn add_monomial_multiple(
    alloc: Global,
    gens: &Gens,
    out: &mut Poly,
    c: u8,
    m: &Mono,
    f: &Poly,
) -> Result<(), Memory>
    requires out_over { IsOverGenerators gens.now out.old }
    requires over { IsOverGenerators gens.now f.now }
    requires degree { out.old.degree ≤ GREATEST_DEGREE }
    requires monomial { (d : ℕ) × IsMonomialOf gens.now d m.now × (d + f.now.degree ≡ out.old.degree) }
    requires below { c < gens.now.prime }
    ensures { OnOk result (IsSumOf gens.now out.old.degree
        (out.old.terms ++ multiple (greatest gens.now) gens.now.degrees c m.now f.now.terms) out.new) }
{
    for i in 0..f.terms() {
        add_product(alloc, gens, out, c, m, f.coefficient(i), f.mono(i))?;
    }
    Ok(())
}

/// The product of two polynomials whose degrees add to at most `GREATEST_DEGREE`.
pub fn mul(alloc: Global, gens: &Gens, a: &Poly, b: &Poly) -> Result<Poly, Memory>
    requires left { IsOverGenerators gens.now a.now }
    requires right { IsOverGenerators gens.now b.now }
    requires degrees { a.now.degree + b.now.degree ≤ GREATEST_DEGREE }
    ensures { IfOk result (IsSumOf gens.now (a.now.degree + b.now.degree)
        (product (greatest gens.now) gens.now.degrees a.now.terms b.now.terms)) }
{
    let mut out = Poly::zero(alloc, a.degree() + b.degree());
    for i in 0..a.terms() {
        add_monomial_multiple(alloc, gens, &mut out, a.coefficient(i), a.mono(i), b)?;
    }
    Ok(out)
}
