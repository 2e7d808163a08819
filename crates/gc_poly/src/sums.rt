//! Sums of polynomials.

ghost use Rattle.std.specs.Prelude.{◌≡◌, ◌≢◌, ℕ, suc, ◌+◌, ◌-◌, ◌%◌, ◌<◌, ◌≤◌, [], ◌∷◌, ◌++◌, length, IfOk};
ghost use Rattle.std.specs.Prelude.{IfErr, OnOk, OnErr, slice_index_or, slice_set, remove};
ghost use Rattle.graded_polynomials.specs.Monomials.{IsGreater};
ghost use Rattle.graded_polynomials.specs.Polynomials as polynomials;
ghost use Rattle.graded_polynomials.specs.Polynomials.{scaled};
ghost use Rattle.gc_poly.specs.Generators.{greatest};
ghost use Rattle.gc_poly.specs.Polynomials.{IsOverGenerators, IsMonomialOf, IsSumOf};

use crate::term::Term;
use crate::{Gens, Mono, Poly};
use group_table::Memory;
use std::alloc::Global;

// The place of the term at m, or else the place at which it would stand.
pub(crate) fn find(terms: &[Term], m: &Mono) -> Result<usize, usize>
    ensures found { IfOk result (λ i. (i < length terms.now)
        × ((d : polynomials.Term) → (slice_index_or terms.now i d).monomial ≡ m.now)) }
    ensures within { IfErr result (λ i. i ≤ length terms.now) }
    ensures above { IfErr result (λ i. (k : ℕ) (d : polynomials.Term) → k < i
        → IsGreater (slice_index_or terms.now k d).monomial m.now) }
    ensures here { IfErr result (λ i. (d : polynomials.Term) → i < length terms.now
        → ((slice_index_or terms.now i d).monomial ≢ m.now)
        × (IsGreater (slice_index_or terms.now i d).monomial m.now → ⊥)) }
{
    for (i, t) in terms.iter().enumerate() {
        if t.monomial() == m {
            return Ok(i);
        }
        if !t.monomial().is_greater(m) {
            return Err(i);
        }
    }
    Err(terms.len())
}

// Adds c to the coefficient at place i, and takes the term out where the sum is 0 modulo p.
pub(crate) fn add_at(p: u8, terms: &mut Vec<Term>, i: usize, c: u8)
    requires prime { (0 < p) × (p ≤ 7) }
    requires within { i < length terms.old.items }
    requires below { c < p }
    requires proper { (d : polynomials.Term) → (slice_index_or terms.old.items i d).scalar < p }
    ensures zero { (d : polynomials.Term) → ((slice_index_or terms.old.items i d).scalar + c) % p ≡ 0
        → terms.new.items ≡ remove terms.old.items i }
    ensures other { (d : polynomials.Term) → ((slice_index_or terms.old.items i d).scalar + c) % p ≢ 0
        → terms.new.items ≡ slice_set terms.old.items i record (slice_index_or terms.old.items i d) {
          scalar = ((slice_index_or terms.old.items i d).scalar + c) % p;
        } }
{
    let sum = (terms[i].coefficient() + c) % p;
    if sum == 0 {
        terms.remove(i);
    } else {
        let term = &mut terms[i];
        term.set_coefficient(sum);
    }
}

// Adds c times f.
pub(crate) fn add_multiple(gens: &Gens, out: &mut Poly, c: u8, f: &Poly) -> Result<(), Memory>
    requires out_over { IsOverGenerators gens.now out.old }
    requires over { IsOverGenerators gens.now f.now }
    requires degrees { out.old.degree ≡ f.now.degree }
    requires small { c < 7 }
    ensures { OnOk result (IsSumOf gens.now out.old.degree (out.old.terms ++ scaled c f.now.terms) out.new) }
{
    let p = gens.modulus();
    for i in 0..f.terms() {
        let coefficient = c * f.coefficient(i) % p;
        out.add_term(gens, coefficient, f.mono(i))?;
    }
    Ok(())
}

/// The sum of two polynomials of one degree.
pub fn add(alloc: Global, gens: &Gens, a: &Poly, b: &Poly) -> Result<Poly, Memory>
    requires left { IsOverGenerators gens.now a.now }
    requires right { IsOverGenerators gens.now b.now }
    requires degrees { a.now.degree ≡ b.now.degree }
    ensures { IfOk result (IsSumOf gens.now a.now.degree (a.now.terms ++ b.now.terms)) }
{
    let mut sum = Poly::zero(alloc, a.degree());
    add_multiple(gens, &mut sum, 1, a)?;
    add_multiple(gens, &mut sum, 1, b)?;
    Ok(sum)
}

/// The difference of two polynomials of one degree.
pub fn sub(alloc: Global, gens: &Gens, a: &Poly, b: &Poly) -> Result<Poly, Memory>
    requires left { IsOverGenerators gens.now a.now }
    requires right { IsOverGenerators gens.now b.now }
    requires degrees { a.now.degree ≡ b.now.degree }
    ensures { IfOk result (IsSumOf gens.now a.now.degree
        (a.now.terms ++ scaled (greatest gens.now) b.now.terms)) }
{
    let mut difference = Poly::zero(alloc, a.degree());
    add_multiple(gens, &mut difference, 1, a)?;
    add_multiple(gens, &mut difference, gens.modulus() - 1, b)?;
    Ok(difference)
}
