//! The classes to which monomials evaluate.

ghost use Rattle.std.specs.Prelude.{◌≡◌, ℕ, suc, ◌+◌, ◌-◌, ◌<◌, ◌≤◌, [], ◌∷◌, length, slice_index_or, All};
ghost use Rattle.std.specs.Prelude.{IfOk, OnOk};
ghost use Rattle.linear_algebra.specs.Rows.{row};
ghost use Rattle.fp_rows.specs.Refs.{entries_of, modulus_of};
ghost use Rattle.group_table.specs.Prime.{prime_value};
ghost use Rattle.p_groups.specs.PGroups.{largest_residue, prime_of};
ghost use Rattle.graded_polynomials.specs.Monomials.{IsMonomial, IsTrimmed};
ghost use Rattle.graded_algebra.specs.Algebras.{degrees, evaluate};
ghost use Rattle.presentation_rows.specs.Factors.{IsLastFactor};
ghost use Rattle.presentation_rows.specs.Values.{vector, AreValues};
ghost use Rattle.ring_completion.specs.Candidates.{AreSome};
ghost use Rattle.ring_completion.specs.Completions.{IsStandardOf};
ghost use Rattle.min_res.specs.Stages.{rank_of};
ghost use Rattle.cohomology_degree.specs.Rings.{cohomology};
ghost use Rattle.cohomology_degree.specs.Degrees.{classes, HasStandardQuotients, IsLower};

use crate::degree::{Degree, Valued};
use chain_lift::Lift;
use fp_rows::{Matrix, Row, RowRef};
use gc_poly::{Mono, Monos, Poly};
use group_algebra::PGroup;
use group_table::{Memory, Prime};
use ring_degree::Table;
use std::alloc::Global;

/// The generators, the relations, the degrees and the tables that a ring has.
#[derive(Clone, Copy)]
pub struct Lower<'a> {
    /// The group.
    pub group: &'a PGroup,
    /// The lifts of the generators.
    pub lifts: &'a [Lift],
    /// The relations.
    pub relations: &'a [Poly],
    /// The degrees from 1 on.
    pub degrees: &'a [Degree],
    /// The tables of products, from degree 0 on.
    pub tables: &'a [Table],
}

// The monomial without one factor of its last generator.
fn quotient(alloc: Global, m: &Mono) -> Result<Mono, Memory>
    requires { 0 < length m.now }
    ensures factor { IfOk result (λ n. IsLastFactor (length m.now - 1) n m.now) }
    ensures trimmed { IfOk result IsTrimmed }
{
    let last = m.len() - 1;
    let mut exponents = Vec::new(alloc);
    for i in 0..last {
        exponents.push(m.exponent(i))?;
    }
    exponents.push(m.exponent(last) - 1)?;
    let rest = Mono::of(alloc, &exponents)?;
    Ok(rest)
}

// The row of a monomial of the list.
fn row_of<'a>(all: &'a Valued, m: &Mono) -> RowRef<'a>
    requires listed { (i : ℕ) × (i < length all.now.monomials)
        × (slice_index_or all.now.monomials i [] ≡ m.now) }
    requires rows { length all.now.values.rows ≡ length all.now.monomials }
    ensures value { (i : ℕ) × (i < length all.now.monomials) × (slice_index_or all.now.monomials i [] ≡ m.now)
        × (entries_of result ≡ row all.now.values.rows i) }
    ensures modulus { modulus_of result ≡ all.now.values.p }
    ensures length { length (entries_of result) ≡ all.now.values.width }
{
    match all.monomials.position(m) {
        Some(i) => all.values.row(i),
        None => unreachable!(),
    }
}

// The lift of the last factor of a monomial.
fn last_lift<'a>(lifts: &'a [Lift], m: &Mono) -> &'a Lift
    requires some { 0 < length m.now }
    requires within { length m.now ≤ length lifts.now }
    ensures { result.now ≡ slice_index_or lifts.now (length m.now - 1) result.now }
{
    &lifts[m.len() - 1]
}

impl<'a> Lower<'a> {
    // The class of a standard monomial of degree d, which is 0 or a degree that the ring has.
    fn value_of(&self, one: &'a Row, d: u32, m: &Mono) -> RowRef<'a>
        requires one { (one.now.p ≡ prime_of self.now.group.now) × (one.now.entries ≡ 1 ∷ []) }
        requires lower { IsLower self.now.group.now self.now.lifts.now self.now.degrees.now }
        requires within { d ≤ length self.now.degrees.now }
        requires standard { IsStandardOf (largest_residue self.now.group.now) (cohomology self.now.group.now)
            (classes self.now.group.now self.now.lifts.now) d m.now }
        ensures modulus { modulus_of result ≡ prime_of self.now.group.now }
        ensures length { length (entries_of result) ≡ rank_of self.now.group.now d }
        ensures value { vector (largest_residue self.now.group.now) (entries_of result)
            ≡ evaluate (cohomology self.now.group.now) (classes self.now.group.now self.now.lifts.now) m.now }
    {
        if d == 0 {
            one.view()
        } else {
            row_of(&self.degrees[d as usize - 1].standard, m)
        }
    }

    // Writes the class of a monomial of degree d, the next one, with standard quotients: that of the monomial
    // without its last factor, times that of the factor.
    fn write_value(
        &self,
        alloc: Global,
        one: &Row,
        d: u32,
        m: &Mono,
        out: &mut Row,
    ) -> Result<(), Memory>
        requires one { (one.now.p ≡ prime_of self.now.group.now) × (one.now.entries ≡ 1 ∷ []) }
        requires lower { IsLower self.now.group.now self.now.lifts.now self.now.degrees.now }
        requires heights { All (λ l. d ≤ l.degree + l.height) self.now.lifts.now }
        requires degree { d ≡ suc (length self.now.degrees.now) }
        requires monomial { IsMonomial (largest_residue self.now.group.now)
            (degrees (classes self.now.group.now self.now.lifts.now)) d m.now }
        requires quotients { HasStandardQuotients self.now.group.now self.now.lifts.now m.now }
        requires out_prime { out.old.p ≡ prime_of self.now.group.now }
        requires out_length { length out.old.entries ≡ rank_of self.now.group.now d }
        ensures prime { out.new.p ≡ out.old.p }
        ensures length { length out.new.entries ≡ length out.old.entries }
        ensures value { OnOk result (vector (largest_residue self.now.group.now) out.new.entries
            ≡ evaluate (cohomology self.now.group.now)
            (classes self.now.group.now self.now.lifts.now) m.now) }
    {
        let rest = quotient(alloc, m)?;
        let lift = last_lift(self.lifts, m);
        let degree = d - lift.degree();
        lift.product(degree, self.value_of(one, degree, &rest), out);
        Ok(())
    }

    /// The classes of monomials of degree d, the next one, with standard quotients.
    pub(crate) fn values(
        &self,
        alloc: Global,
        rank: usize,
        d: u32,
        monomials: &Monos,
    ) -> Result<Matrix, Memory>
        requires lower { IsLower self.now.group.now self.now.lifts.now self.now.degrees.now }
        requires heights { All (λ l. d ≤ l.degree + l.height) self.now.lifts.now }
        requires degree { d ≡ suc (length self.now.degrees.now) }
        requires rank { rank ≡ rank_of self.now.group.now d }
        requires monomials { AreSome (largest_residue self.now.group.now)
            (degrees (classes self.now.group.now self.now.lifts.now)) d monomials.now }
        requires quotients { All (HasStandardQuotients self.now.group.now self.now.lifts.now) monomials.now }
        ensures prime { IfOk result (λ m. m.p ≡ prime_of self.now.group.now) }
        ensures width { IfOk result (λ m. m.width ≡ rank) }
        ensures values { IfOk result (λ m. AreValues (largest_residue self.now.group.now)
            (cohomology self.now.group.now) (classes self.now.group.now self.now.lifts.now)
            monomials.now m.rows) }
    {
        let p = self.group.prime();
        let one = one(alloc, p)?;
        let mut value = Row::zero(alloc, p, rank)?;
        let mut values = Matrix::new(alloc, p, rank);
        for i in 0..monomials.len() {
            self.write_value(alloc, &one, d, monomials.get(i), &mut value)?;
            values.push(value.view())?;
        }
        Ok(values)
    }
}

// The class 1 of degree 0.
fn one(alloc: Global, p: Prime) -> Result<Row, Memory>
    ensures { IfOk result (λ r. r ≡ record { p = prime_value p; entries = 1 ∷ [] }) }
{
    let mut one = Row::zero(alloc, p, 1)?;
    one.set(0, 1);
    Ok(one)
}
