//! The sum of terms that are read.

ghost use Rattle.std.specs.Prelude.{◌≡◌, ◌⊎◌, ◌≤◌, ◌<◌, [], ◌∷◌, true, false, length, slice_index, IfOk, All};
ghost use Rattle.limits.specs.declared.TheConstants.{GREATEST_DEGREE};
ghost use Rattle.graded_polynomials.specs.Monomials.{is_exterior};
ghost use Rattle.graded_polynomials.specs.Texts.{power, read_from, read_value};
ghost use Rattle.polynomial_texts.specs.Readings.{term_degree};
ghost use Rattle.gc_poly.specs.Generators.{greatest};
ghost use Rattle.gc_poly.specs.Polynomials.{IsSumOf};
ghost use Rattle.polynomial_reader.specs.Reading.{IsFactorOf, IsTermOf, AreTermsOf, IsPowerOf};

use crate::read_term::{Factor, ReadTerm};
use gc_poly::{Gens, Mono, Poly, add, mul};
use group_table::Memory;
use std::alloc::Global;

// The monomial that is a power of generator i.
fn power_monomial(alloc: Global, i: usize, exponent: u8) -> Result<Mono, Memory>
    requires { 1 ≤ exponent }
    ensures { IfOk result (λ m. m ≡ power i exponent) }
{
    let mut exponents = vec![in alloc; 0u8; i]?;
    exponents.push(exponent)?;
    Mono::of(alloc, &exponents)
}

// Whether a power of generator i is 0: for odd p, where the generator has odd degree and the exponent is
// above 1.
fn vanishes(gens: &Gens, i: usize, exponent: u8) -> bool
    requires { i < length gens.now.degrees }
    ensures zero { result ≡ true → (2 ≤ exponent)
        × (is_exterior (greatest gens.now) (slice_index gens.now.degrees i) ≡ true) }
    ensures other { result ≡ false → (exponent ≤ 1)
        ⊎ (is_exterior (greatest gens.now) (slice_index gens.now.degrees i) ≡ false) }
{
    exponent > 1 && gens.is_exterior(i)
}

// A power of a generator.
fn power(alloc: Global, gens: &Gens, x: &Factor) -> Result<Poly, Memory>
    requires { IsFactorOf gens.now.degrees x.now }
    ensures { IfOk result (IsPowerOf gens.now x.now) }
{
    let p = gens.modulus();
    prove!(p > 1);
    let i = x.generator();
    let exponent = x.exponent();
    let mut out = Poly::zero(alloc, gens.degree(i) * u32::from(exponent));
    if vanishes(gens, i, exponent) {
        return Ok(out);
    }
    out.add_term(gens, 1, &power_monomial(alloc, i, exponent)?)?;
    Ok(out)
}

// The value of a term.
fn term_value(alloc: Global, gens: &Gens, t: &ReadTerm) -> Result<Poly, Memory>
    requires term { IsTermOf gens.now t.now }
    requires small { term_degree gens.now.degrees t.now ≤ GREATEST_DEGREE }
    ensures { IfOk result (IsSumOf gens.now (term_degree gens.now.degrees t.now)
        (read_from (greatest gens.now) gens.now.degrees
        (record { scalar = t.now.numeral; monomial = [] } ∷ []) t.now.factors)) }
{
    let mut out = Poly::constant(alloc, gens, t.numeral())?;
    for x in t.factors() {
        out = mul(alloc, gens, &out, &power(alloc, gens, x)?)?;
    }
    Ok(out)
}

/// The sum of terms of one degree.
pub(crate) fn value(
    alloc: Global,
    gens: &Gens,
    degree: u32,
    terms: &[ReadTerm],
) -> Result<Poly, Memory>
    requires terms { AreTermsOf gens.now terms.now }
    requires small { degree ≤ GREATEST_DEGREE }
    requires degrees { All (λ t. term_degree gens.now.degrees t ≡ degree) terms.now }
    ensures { IfOk result (IsSumOf gens.now degree
        (read_value (greatest gens.now) gens.now.degrees terms.now)) }
{
    let mut out = Poly::zero(alloc, degree);
    for t in terms {
        let value = term_value(alloc, gens, t)?;
        out = add(alloc, gens, &out, &value)?;
    }
    Ok(out)
}
