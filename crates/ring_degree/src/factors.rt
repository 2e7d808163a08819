//! Products of generators with monomials, and quotients.

ghost use Rattle.std.specs.Prelude.{◌≡◌, ℕ, ◌<◌, ◌%◌, ◌↔◌, true, false, length, take, IfOk, IfSome};
ghost use Rattle.std.specs.Prelude.{IsNone, IsTrue};
ghost use Rattle.graded_polynomials.specs.Monomials as signs;
ghost use Rattle.graded_polynomials.specs.Monomials.{degree, exponent, fits, joined, swaps};
ghost use Rattle.graded_polynomials.specs.Texts.{power};
ghost use Rattle.gc_poly.specs.Generators.{greatest};
ghost use Rattle.gc_poly.specs.Polynomials.{IsMonomialOf};
ghost use Rattle.ring_completion.specs.Completions.{IsClearBefore};
ghost use Rattle.ring_completion.specs.Listings.{without_factor};

use gc_poly::{Gens, Mono};
use group_table::Memory;
use std::alloc::Global;

// Generator i times the monomial s, where no generator is 0.
fn raised(alloc: Global, s: &Mono, i: usize) -> Result<Mono, Memory>
    requires small { exponent s.now i < 255 }
    requires few { i < 4294967295 }
    ensures { IfOk result (λ m. m ≡ joined (power i 1) s.now) }
{
    let mut exponents = Vec::new(alloc);
    for k in 0..s.len().max(i + 1) {
        let exponent = s.exponent(k);
        exponents.push(if k == i { exponent + 1 } else { exponent })?;
    }
    let product = Mono::of(alloc, &exponents)?;
    Ok(product)
}

/// Generator i times the monomial s, where the product is not 0.
pub(crate) fn times(alloc: Global, gens: &Gens, i: usize, s: &Mono) -> Result<Option<Mono>, Memory>
    requires within { i < length gens.now.degrees }
    requires monomial { (e : ℕ) × IsMonomialOf gens.now e s.now }
    requires small { exponent s.now i < 255 }
    ensures some { IfOk result (λ r. IfSome r (λ m. m ≡ joined (power i 1) s.now)) }
    ensures fitting { IfOk result (λ r. IfSome r
        (λ m. fits (greatest gens.now) gens.now.degrees (joined (power i 1) s.now) ≡ true)) }
    ensures none { IfOk result (λ r. IsNone r
        → fits (greatest gens.now) gens.now.degrees (joined (power i 1) s.now) ≡ false) }
{
    let _count = gens.len();
    if gens.is_exterior(i) && s.exponent(i) > 0 {
        return Ok(None);
    }
    let m = raised(alloc, s, i)?;
    Ok(Some(m))
}

// The degree of the factors before generator i, modulo 2.
fn parity_before(gens: &Gens, i: usize, s: &Mono) -> u32
    requires { i < length gens.now.degrees }
    ensures { result ≡ degree (take i gens.now.degrees) s.now % 2 }
{
    let mut sum = 0;
    for k in 0..i {
        sum = (sum + gens.degree(k) * u32::from(s.exponent(k))) % 2;
    }
    sum
}

/// The sign of generator i times the monomial s, modulo p.
pub(crate) fn sign(gens: &Gens, i: usize, s: &Mono) -> u8
    requires { i < length gens.now.degrees }
    ensures value { result ≡ signs.sign (greatest gens.now) (swaps gens.now.degrees (power i 1) s.now) }
    ensures below { result < gens.now.prime }
{
    let p = gens.modulus();
    if parity_before(gens, i, s) * gens.degree(i) % 2 == 0 {
        1
    } else {
        p - 1
    }
}

/// Whether no generator before i is a factor.
pub(crate) fn is_clear_before(m: &Mono, i: usize) -> bool
    ensures { IsTrue result ↔ IsClearBefore i m.now }
{
    for k in 0..i {
        if m.exponent(k) != 0 {
            return false;
        }
    }
    true
}

/// The monomial without one factor of generator i, which is a factor of it.
pub(crate) fn quotient(alloc: Global, m: &Mono, i: usize) -> Result<Mono, Memory>
    requires { 0 < exponent m.now i }
    ensures { IfOk result (λ n. n ≡ without_factor i m.now) }
{
    let mut exponents = Vec::new(alloc);
    for k in 0..m.len() {
        let exponent = m.exponent(k);
        exponents.push(if k == i { exponent - 1 } else { exponent })?;
    }
    let rest = Mono::of(alloc, &exponents)?;
    Ok(rest)
}
