//! The degrees of terms that are read.

ghost use Rattle.std.specs.Prelude.{◌≡◌, ◌≢◌, ◌≤◌, ◌<◌, [], map, All, IfOk, IfSome, IsNone, MatchResult};
ghost use Rattle.polynomial_texts.specs.Readings.{factors_degree, term_degree, IsFirst};
ghost use Rattle.polynomial_reader.specs.Reading.{AreFactorsOf, AreTermsOf, IsDegreeOf, IsDegreeFault};

use crate::PolyFault;
use crate::read_term::{Factor, ReadTerm};
use gc_poly::Gens;
use limits::GREATEST_DEGREE;
use std::alloc::{AllocError, Global};

// The degree of a product of powers of generators.
fn factors_degree(gens: &Gens, factors: &[Factor]) -> u32
    requires { AreFactorsOf gens.now.degrees factors.now }
    ensures { result ≡ factors_degree gens.now.degrees factors.now }
{
    let mut sum = 0;
    for x in factors {
        sum += gens.degree(x.generator()) * u32::from(x.exponent());
    }
    sum
}

/// The degrees of terms.
pub(crate) fn term_degrees(
    alloc: Global,
    gens: &Gens,
    terms: &[ReadTerm],
) -> Result<Vec<u32>, AllocError>
    requires { AreTermsOf gens.now terms.now }
    ensures { IfOk result (λ v. v.items ≡ map (term_degree gens.now.degrees) terms.now) }
{
    let mut degrees = Vec::new(alloc);
    for t in terms {
        degrees.push(factors_degree(gens, t.factors()))?;
    }
    Ok(degrees)
}

// The first degree above the greatest.
fn first_high(degrees: &[u32]) -> Option<u32>
    ensures some { IfSome result (λ d. IsFirst (λ e. GREATEST_DEGREE < e) d degrees.now) }
    ensures none { IsNone result → All (λ e. e ≤ GREATEST_DEGREE) degrees.now }
{
    for e in degrees {
        if *e > GREATEST_DEGREE {
            return Some(*e);
        }
    }
    None
}

// The first degree other than d.
fn first_other(degrees: &[u32], d: u32) -> Option<u32>
    ensures some { IfSome result (λ e. IsFirst (λ k. k ≢ d) e degrees.now) }
    ensures none { IsNone result → All (λ k. k ≡ d) degrees.now }
{
    for e in degrees {
        if *e != d {
            return Some(*e);
        }
    }
    None
}

/// The one degree of all terms, 0 where there is none.
pub(crate) fn common_degree(degrees: &[u32]) -> Result<u32, PolyFault>
    ensures { MatchResult result (IsDegreeOf degrees.now) (IsDegreeFault degrees.now) }
{
    if let Some(d) = first_high(degrees) {
        return Err(PolyFault::TooHigh(d));
    }
    let [d, others @ ..] = degrees else {
        return Ok(0);
    };
    match first_other(others, *d) {
        Some(e) => Err(PolyFault::Mixed(*d, e)),
        None => Ok(*d),
    }
}
