//! The finiteness test of polynomials over generators of all degrees.

ghost use Rattle.std.specs.Prelude.{◌≤◌, All, IfOk};
ghost use Rattle.limits.specs.declared.TheConstants.{GREATEST_DEGREE};
ghost use Rattle.gc_poly.specs.Polynomials.{IsOverGenerators};
ghost use Rattle.param_test.specs.Finiteness.{IsAnswer};

use crate::answer::Finite;
use crate::degrees::finite_in;
use crate::restriction::{count_variables, keep_all, ring_of};
use gc_poly::{Gens, Polys};
use group_table::Memory;
use std::alloc::Global;

/// Whether the variables among the generators, those of degree 1 for p = 2 and of degree 2 for odd p,
/// generate a finite ring modulo the polynomials: in which number of factors all monomials lie in the ideal
/// of what is left of the polynomials without the terms in other generators. The polynomials are of degree at
/// most 24.
pub fn finite_on(alloc: Global, gens: &Gens, fs: &Polys) -> Result<Finite, Memory>
    requires over { All (IsOverGenerators gens.now) fs.now }
    requires low { All (λ f. f.degree ≤ GREATEST_DEGREE) fs.now }
    ensures { IfOk result (IsAnswer gens.now fs.now) }
{
    let variables = count_variables(gens);
    if variables > 1500 {
        return Ok(Finite::TooMany(variables as u64));
    }
    let ring = ring_of(alloc, gens)?;
    let kept = keep_all(alloc, gens, &ring, fs)?;
    finite_in(alloc, &ring, &kept)
}
