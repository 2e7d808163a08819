//! From the degrees 1 to d - 1 of a ring to degree d.

ghost use Rattle.std.specs.Prelude.{◌≡◌, suc, ◌+◌, ◌^◌, ◌<◌, ◌≤◌, [], ◌∷◌, ◌++◌, length, All, IfOk, OnOk};
ghost use Rattle.linear_algebra.specs.Rows.{AreInSpan};
ghost use Rattle.linear_algebra.specs.Kernels.{IsKernelOf};
ghost use Rattle.linear_algebra.specs.Choices.{ArePreimages};
ghost use Rattle.limits.specs.declared.TheConstants.{GREATEST_DEGREE};
ghost use Rattle.p_groups.specs.PGroups.{largest_residue, prime_of};
ghost use Rattle.graded_algebra.specs.Presentations.{IsRelations, IsSpanGenerators};
ghost use Rattle.presentation_rows.specs.Values.{AreUnitRows};
ghost use Rattle.ring_completion.specs.Candidates.{AreLeft};
ghost use Rattle.min_res.specs.Stages.{rank_of};
ghost use Rattle.cohomology_degree.specs.Rings.{cohomology, dual_basis, IsPresentation};
ghost use Rattle.cohomology_degree.specs.Degrees.{AreLeftOf, IsLower, classes, degrees_of};
ghost use Rattle.cohomology_degree.specs.KnownTables.{AreCandidatesOf, HasTables, generators_from};
ghost use Rattle.cohomology_degree.specs.Nexts.{IsLiftOf, IsNext};
ghost use Rattle.cohomology_degree.specs.Standard.{without_pivots};

use crate::degree::{Degree, Valued};
use crate::generators::{dual_basis, generator_monomial, new_places};
use crate::relations::relations_of;
use crate::standard::standard;
use crate::values::Lower;
use chain_lift::Lift;
use fp_rows::{Echelon, kernel, preimages};
use gc_poly::{Gens, Monos, Poly};
use group_table::Memory;
use min_res::Resolution;
use ring_degree::{Table, finish, next_degree};
use std::alloc::Global;

/// What degree d adds to a ring, and all its generators through d.
#[derive(Drop)]
pub struct Next {
    /// All generators through d.
    pub gens: Gens,
    /// The lifts of the new generators.
    pub lifts: Vec<Lift>,
    /// The new relations.
    pub relations: Vec<Poly>,
    /// What is kept of the degree.
    pub degree: Degree,
    /// Its table of products.
    pub table: Table,
    /// The candidates of the degree, in descending order.
    pub candidates: Monos,
}

// The rank of the stage of degree d, which is not 0.
fn rank(res: &Resolution, d: u32) -> usize
    requires low { 1 ≤ d }
    requires within { d ≤ res.now.last }
    ensures value { result ≡ rank_of res.now.group d }
    ensures few { result ≤ 2 ^ 27 }
{
    res.stage_at(d).rank()
}

// What is kept of a degree: the standard ones of the monomials that are left, by the kernel of their values,
// and the preimages of the dual basis.
fn finished(
    alloc: Global,
    left: Valued,
    kernel: &Echelon,
    basis: &Echelon,
) -> Result<Degree, Memory>
    requires count { length left.values.rows ≡ length left.monomials }
    requires prime { basis.now.p ≡ left.values.p }
    requires width { basis.now.width ≡ left.values.width }
    requires spans { AreInSpan left.values.p left.values.rows basis.now.rows }
    requires kernel { IsKernelOf left.values.p left.values.rows kernel.now.rows }
    ensures left { IfOk result (λ d. d.left ≡ left) }
    ensures monomials { IfOk result (λ d. d.standard.monomials
        ≡ without_pivots kernel.now.rows 0 left.monomials) }
    ensures values { IfOk result (λ d. d.standard.values
        ≡ record left.values { rows = without_pivots kernel.now.rows 0 left.values.rows }) }
    ensures prime { IfOk result (λ d. d.preimages.p ≡ left.values.p) }
    ensures width { IfOk result (λ d. d.preimages.width ≡ length left.values.rows) }
    ensures preimages { IfOk result (λ d. ArePreimages left.values.p left.values.rows kernel.now.rows
        basis.now.rows d.preimages.rows) }
{
    let standard = standard(alloc, &left, kernel)?;
    let preimages = preimages(alloc, &left.values, basis, kernel)?;
    Ok(Degree {
        left,
        standard,
        preimages,
    })
}

impl<'a> Lower<'a> {
    // The monomials of degree d, the next one, in the generators of lower degree, that lead in no consequence
    // of the relations, with their values.
    fn valued(&self, alloc: Global, res: &Resolution, monomials: Monos) -> Result<Valued, Memory>
        requires group { self.now.group.now ≡ res.now.group }
        requires lower { IsLower self.now.group.now self.now.lifts.now self.now.degrees.now }
        requires relations { IsRelations (largest_residue res.now.group) (cohomology res.now.group)
            (classes res.now.group self.now.lifts.now) (length self.now.degrees.now) self.now.relations.now }
        requires heights { All (λ l. suc
            (length self.now.degrees.now) ≤ l.degree + l.height) self.now.lifts.now }
        requires within { suc (length self.now.degrees.now) ≤ res.now.last }
        requires high { length self.now.degrees.now < GREATEST_DEGREE }
        requires left { AreLeft (largest_residue res.now.group) (cohomology res.now.group)
            (classes res.now.group self.now.lifts.now) self.now.relations.now
            (suc (length self.now.degrees.now)) monomials }
        ensures left { IfOk result (AreLeftOf res.now.group self.now.relations.now
            (suc (length self.now.degrees.now)) self.now.lifts.now) }
        ensures monomials { IfOk result (λ v. v.monomials ≡ monomials) }
    {
        let d = self.degrees.len() as u32 + 1;
        let values = self.values(alloc, rank(res, d), d, &monomials)?;
        Ok(Valued { monomials, values })
    }

    // Adds the generators of degree d, the next one, with their monomials to those that are left: then the
    // classes of the degree are in the span of the values.
    fn choose(
        &self,
        alloc: Global,
        res: &Resolution,
        basis: &Echelon,
        gens: &mut Gens,
        left: &mut Valued,
    ) -> Result<Vec<Lift>, Memory>
        requires group { self.now.group.now ≡ res.now.group }
        requires lower { IsLower self.now.group.now self.now.lifts.now self.now.degrees.now }
        requires presentation { IsPresentation res.now.group (length self.now.degrees.now)
            (classes res.now.group self.now.lifts.now) self.now.relations.now }
        requires within { suc (length self.now.degrees.now) ≤ res.now.last }
        requires high { length self.now.degrees.now < GREATEST_DEGREE }
        requires basis_prime { basis.now.p ≡ prime_of res.now.group }
        requires basis { AreUnitRows (rank_of res.now.group
            (suc (length self.now.degrees.now))) basis.now.rows }
        requires basis_width { basis.now.width ≡ rank_of res.now.group (suc (length self.now.degrees.now)) }
        requires few { length basis.now.rows ≤ 2 ^ 27 }
        requires gens { gens.old ≡ record {
          prime = prime_of res.now.group;
          degrees = degrees_of self.now.lifts.now;
        } }
        requires left { AreLeftOf res.now.group self.now.relations.now (suc (length self.now.degrees.now))
            self.now.lifts.now left.old }
        ensures lifts { IfOk result (λ lifts. All
            (IsLiftOf res.now.group (suc (length self.now.degrees.now))) lifts.items) }
        ensures few { IfOk result (λ lifts. length lifts.items ≤ 2 ^ 27) }
        ensures gens { IfOk result (λ lifts. gens.new
            ≡ record {
              prime = prime_of res.now.group;
              degrees = degrees_of (self.now.lifts.now ++ lifts.items);
            }) }
        ensures left { IfOk result (λ lifts. AreLeftOf res.now.group self.now.relations.now
            (suc (length self.now.degrees.now)) (self.now.lifts.now ++ lifts.items) left.new) }
        ensures monomials { IfOk result (λ lifts. left.new.monomials ≡ left.old.monomials
            ++ generators_from (length self.now.lifts.now) (length lifts.items)) }
        ensures generators { IfOk result
            (λ lifts. IsSpanGenerators (largest_residue res.now.group) (cohomology res.now.group)
            (dual_basis res.now.group)
            (suc (length self.now.degrees.now)) (classes res.now.group (self.now.lifts.now ++ lifts.items))) }
        ensures spans { IfOk result (λ lifts. AreInSpan left.new.values.p left.new.values.rows
            basis.now.rows) }
    {
        let places = new_places(alloc, basis, &left.values)?;
        let lifts = self.new_generators(alloc, res, basis, &places, gens, left)?;
        Ok(lifts)
    }

    // Adds the monomials of the new generators to the candidates of degree d, the next one.
    fn add_candidates(
        &self,
        alloc: Global,
        new: &[Lift],
        candidates: &mut Monos,
    ) -> Result<(), Memory>
        requires lower { IsLower self.now.group.now self.now.lifts.now self.now.degrees.now }
        requires new { All (IsLiftOf self.now.group.now (suc (length self.now.degrees.now))) new.now }
        requires few { length self.now.lifts.now + length new.now < 2 ^ 32 }
        requires candidates { AreCandidatesOf self.now.group.now (suc (length self.now.degrees.now))
            self.now.lifts.now candidates.old }
        ensures { OnOk result (AreCandidatesOf self.now.group.now (suc (length self.now.degrees.now))
            (self.now.lifts.now ++ new.now) candidates.new) }
    {
        for i in 0..new.len() {
            candidates.push(generator_monomial(alloc, self.lifts.len() + i)?)?;
        }
        Ok(())
    }

    /// Finds the generators of degree d, the next one, its relations and its standard monomials.
    pub fn next(&self, alloc: Global, res: &Resolution, mut gens: Gens) -> Result<Next, Memory>
        requires group { self.now.group.now ≡ res.now.group }
        requires lower { IsLower self.now.group.now self.now.lifts.now self.now.degrees.now }
        requires presentation { IsPresentation res.now.group (length self.now.degrees.now)
            (classes res.now.group self.now.lifts.now) self.now.relations.now }
        requires tables { HasTables res.now.group (length self.now.degrees.now) self.now.lifts.now
            self.now.tables.now }
        requires heights { All (λ l. suc
            (length self.now.degrees.now) ≤ l.degree + l.height) self.now.lifts.now }
        requires within { suc (length self.now.degrees.now) ≤ res.now.last }
        requires high { length self.now.degrees.now < GREATEST_DEGREE }
        requires gens { gens ≡ record {
          prime = prime_of res.now.group;
          degrees = degrees_of self.now.lifts.now;
        } }
        ensures next { IfOk result (IsNext res.now.group self.now.lifts.now self.now.relations.now
            (length self.now.degrees.now)) }
        ensures tables { IfOk result (λ x. HasTables res.now.group (suc (length self.now.degrees.now))
            (self.now.lifts.now ++ x.lifts.items) (self.now.tables.now ++ x.table ∷ [])) }
        ensures candidates { IfOk result (λ x. AreCandidatesOf res.now.group
            (suc (length self.now.degrees.now)) (self.now.lifts.now ++ x.lifts.items) x.candidates) }
    {
        let d = self.degrees.len() as u32 + 1;
        let mut step = next_degree(alloc, &gens, self.tables)?;
        let width = step.left.len();
        let mut left = self.valued(alloc, res, step.left)?;
        let basis = dual_basis(alloc, gens.prime(), rank(res, d))?;
        let lifts = self.choose(alloc, res, &basis, &mut gens, &mut left)?;
        self.add_candidates(alloc, &lifts, &mut step.candidates)?;
        let kernel = kernel(alloc, &left.values)?;
        let relations = relations_of(alloc, &gens, d, &left.monomials, &kernel)?;
        let table = finish(
            alloc,
            &gens,
            self.tables,
            &step.forms,
            width,
            &left.monomials,
            &kernel,
        )?;
        let degree = finished(alloc, left, &kernel, &basis)?;
        Ok(Next {
            gens,
            lifts,
            relations,
            degree,
            table,
            candidates: step.candidates,
        })
    }
}
