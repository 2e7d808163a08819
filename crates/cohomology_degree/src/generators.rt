//! The new generators of a degree.

ghost use Rattle.std.specs.Prelude.{◌≡◌, ℕ, suc, ◌+◌, ◌^◌, ◌<◌, ◌≤◌, [], ◌∷◌, ◌++◌, List, length, map};
ghost use Rattle.std.specs.Prelude.{replicate, All, IfOk, OnOk};
ghost use Rattle.linear_algebra.specs.Rows.{IsEchelonOf, row};
ghost use Rattle.linear_algebra.specs.Choices.{IsGreedy, rows_at};
ghost use Rattle.group_table.specs.Prime.{prime_value};
ghost use Rattle.fp_rows.specs.Refs.{entries_of, modulus_of};
ghost use Rattle.graded_polynomials.specs.Monomials.{IsGreater};
ghost use Rattle.graded_polynomials.specs.Texts.{power};
ghost use Rattle.graded_algebra.specs.Presentations.{IsRelations};
ghost use Rattle.presentation_rows.specs.Values.{AreUnitRows};
ghost use Rattle.min_res.specs.Stages.{rank_of};
ghost use Rattle.cohomology_degree.specs.Rings.{cohomology};
ghost use Rattle.cohomology_degree.specs.KnownTables.{generators_from};
ghost use Rattle.cohomology_degree.specs.Degrees.{AreLeftOf, IsLower, classes, degrees_of, new_lift, kept};
ghost use Rattle.limits.specs.declared.TheConstants.{GREATEST_DEGREE};
ghost use Rattle.p_groups.specs.PGroups.{largest_residue, prime_of};

use crate::degree::Valued;
use crate::values::Lower;
use chain_lift::Lift;
use fp_rows::{Echelon, Matrix, Positions, Row, RowRef, echelon, greedy};
use gc_poly::{Gens, Mono};
use group_table::{Memory, Prime};
use min_res::Resolution;
use std::alloc::Global;

/// A copy of the generators, over the prime p.
pub fn gens_over(alloc: Global, p: Prime, gens: &Gens) -> Result<Gens, Memory>
    ensures { IfOk result (λ copy. copy ≡ record { prime = prime_value p; degrees = gens.now.degrees }) }
{
    let count = gens.len();
    let mut copy = Gens::new(alloc, p);
    for i in 0..count {
        copy.push(gens.degree(i))?;
    }
    Ok(copy)
}

/// Extends each lift to all products of degree d. After an error some may be extended.
pub fn raise(lifts: &mut [Lift], res: &Resolution, d: u32) -> Result<(), Memory>
    requires groups { All (λ l. l.group ≡ res.now.group) lifts.old }
    requires degrees { All (λ l. l.degree ≤ d) lifts.old }
    requires within { d ≤ res.now.last }
    ensures kept { map kept lifts.new ≡ map kept lifts.old }
    ensures raised { OnOk result (All (λ l. d ≤ l.degree + l.height) lifts.new) }
{
    for lift in lifts.iter_mut() {
        lift.extend_to(res, d - lift.degree())?;
    }
    Ok(())
}

// The unit rows of a width.
fn unit_rows(alloc: Global, p: Prime, width: usize) -> Result<Matrix, Memory>
    ensures prime { IfOk result (λ m. m.p ≡ prime_value p) }
    ensures width { IfOk result (λ m. m.width ≡ width) }
    ensures rows { IfOk result (λ m. AreUnitRows width m.rows) }
{
    let mut rows = Matrix::new(alloc, p, width);
    let mut unit = Row::zero(alloc, p, width)?;
    for i in 0..width {
        unit.set_unit(i);
        rows.push(unit.view())?;
    }
    Ok(rows)
}

/// The rows of the classes of the dual basis.
pub(crate) fn dual_basis(alloc: Global, p: Prime, rank: usize) -> Result<Echelon, Memory>
    ensures prime { IfOk result (λ e. e.p ≡ prime_value p) }
    ensures width { IfOk result (λ e. e.width ≡ rank) }
    ensures rows { IfOk result (λ e. AreUnitRows rank e.rows) }
{
    let rows = unit_rows(alloc, p, rank)?;
    let basis = echelon(alloc, &rows)?;
    Ok(basis)
}

/// The places in the dual basis of the new generators: no class is taken that is in the span of the values
/// and of those taken before.
pub(crate) fn new_places(
    alloc: Global,
    basis: &Echelon,
    values: &Matrix,
) -> Result<Positions, Memory>
    requires same_prime { basis.now.p ≡ values.now.p }
    requires same_width { basis.now.width ≡ values.now.width }
    requires few { length basis.now.rows ≤ 2 ^ 27 }
    ensures greedy { IfOk result (λ places. (span : List (List ℕ))
        × IsEchelonOf values.now.p values.now.width values.now.rows span
        × IsGreedy values.now.p basis.now.rows span places) }
    ensures inside { IfOk result (λ places. All (λ k. k < length basis.now.rows) places) }
    ensures few { IfOk result (λ places. length places ≤ length basis.now.rows) }
{
    let span = echelon(alloc, values)?;
    let places = greedy(alloc, basis, &span)?;
    Ok(places)
}

// So many zeros.
fn zeros(alloc: Global, count: usize) -> Result<Vec<u8>, Memory>
    ensures { IfOk result (λ v. v.items ≡ replicate count 0) }
{
    let zeros = vec![in alloc; 0u8; count]?;
    Ok(zeros)
}

/// The generator i as a monomial.
pub(crate) fn generator_monomial(alloc: Global, i: usize) -> Result<Mono, Memory>
    ensures { IfOk result (λ m. m ≡ power i 1) }
{
    let mut exponents = zeros(alloc, i)?;
    exponents.push(1)?;
    let monomial = Mono::of(alloc, &exponents)?;
    Ok(monomial)
}

// Adds a generator of degree d with this class, and its monomial to those that are left.
fn add_generator(
    alloc: Global,
    res: &Resolution,
    d: u32,
    class: RowRef<'_>,
    gens: &mut Gens,
    lifts: &mut Vec<Lift>,
    left: &mut Valued,
) -> Result<(), Memory>
    requires within { d ≤ res.now.last }
    requires low { 1 ≤ d }
    requires high { d ≤ GREATEST_DEGREE }
    requires few { length gens.old.degrees < 4294967295 }
    requires prime { modulus_of class ≡ prime_of res.now.group }
    requires length { length (entries_of class) ≡ rank_of res.now.group d }
    requires order { All (λ e. e ≤ d) gens.old.degrees }
    requires values_prime { left.old.values.p ≡ prime_of res.now.group }
    requires values_width { left.old.values.width ≡ length (entries_of class) }
    requires greater { All (λ m. IsGreater m (power (length gens.old.degrees) 1)) left.old.monomials }
    ensures lifts { OnOk result (lifts.new.items ≡ lifts.old.items ++ new_lift res.now.group d
        (entries_of class.entry) ∷ []) }
    ensures gens { OnOk result (gens.new ≡ record gens.old { degrees = gens.old.degrees ++ d ∷ [] }) }
    ensures monomials { OnOk result (left.new.monomials ≡ left.old.monomials ++ power
        (length gens.old.degrees) 1 ∷ []) }
    ensures values { OnOk result (left.new.values
        ≡ record left.old.values { rows = left.old.values.rows ++ entries_of class.entry ∷ [] }) }
{
    let lift = Lift::new(alloc, res, d, class)?;
    left.monomials.push(generator_monomial(alloc, gens.len())?)?;
    left.values.push(class)?;
    gens.push(d)?;
    lifts.push(lift)?;
    Ok(())
}

impl<'a> Lower<'a> {
    /// Adds the generators of degree d, the next one, with the classes at these places of the dual basis, and
    /// their monomials to those of the degree that are left.
    pub(crate) fn new_generators(
        &self,
        alloc: Global,
        res: &Resolution,
        basis: &Echelon,
        places: &Positions,
        gens: &mut Gens,
        left: &mut Valued,
    ) -> Result<Vec<Lift>, Memory>
        requires group { self.now.group.now ≡ res.now.group }
        requires lower { IsLower self.now.group.now self.now.lifts.now self.now.degrees.now }
        requires within { suc (length self.now.degrees.now) ≤ res.now.last }
        requires high { length self.now.degrees.now < GREATEST_DEGREE }
        requires basis_prime { basis.now.p ≡ prime_of res.now.group }
        requires basis { AreUnitRows (rank_of res.now.group
            (suc (length self.now.degrees.now))) basis.now.rows }
        requires basis_width { basis.now.width ≡ rank_of res.now.group (suc (length self.now.degrees.now)) }
        requires places { All (λ k. k < length basis.now.rows) places.now }
        requires few { length places.now ≤ 2 ^ 27 }
        requires gens { gens.old ≡ record {
          prime = prime_of res.now.group;
          degrees = degrees_of self.now.lifts.now;
        } }
        requires relations { IsRelations (largest_residue res.now.group) (cohomology res.now.group)
            (classes res.now.group self.now.lifts.now) (length self.now.degrees.now) self.now.relations.now }
        requires left { AreLeftOf res.now.group self.now.relations.now (suc (length self.now.degrees.now))
            self.now.lifts.now left.old }
        ensures lifts { IfOk result (λ lifts. lifts.items
            ≡ map (λ k. new_lift res.now.group (suc (length self.now.degrees.now))
            (row basis.now.rows k)) places.now) }
        ensures gens { IfOk result (λ lifts. gens.new
            ≡ record {
              prime = prime_of res.now.group;
              degrees = degrees_of (self.now.lifts.now ++ lifts.items);
            }) }
        ensures left { IfOk result (λ lifts. AreLeftOf res.now.group self.now.relations.now
            (suc (length self.now.degrees.now)) (self.now.lifts.now ++ lifts.items) left.new) }
        ensures monomials { IfOk result (λ lifts. left.new.monomials ≡ left.old.monomials
            ++ generators_from (length self.now.lifts.now) (length lifts.items)) }
        ensures rows { IfOk result (λ lifts. left.new.values.rows
            ≡ left.old.values.rows ++ rows_at basis.now.rows places.now) }
    {
        let d = self.degrees.len() as u32 + 1;
        let mut lifts = Vec::new(alloc);
        for i in 0..places.len() {
            let class = basis.row(places.get(i) as usize);
            add_generator(alloc, res, d, class, gens, &mut lifts, left)?;
        }
        Ok(lifts)
    }
}
