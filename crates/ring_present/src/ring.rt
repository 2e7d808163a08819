//! The ring through a degree.

ghost use Rattle.std.specs.Prelude.{◌≡◌, ℕ, suc, ◌<◌, ◌≤◌, [], List, length, map, slice_get};
ghost use Rattle.std.specs.Prelude.{slice_index_or};
ghost use Rattle.std.specs.Prelude.{OnOk, OnErr, IfOk, IfSome, Some, None};
ghost use Rattle.limits.specs.declared.TheConstants.{GREATEST_DEGREE};
ghost use Rattle.group_table.specs.Prime.{prime_value};
ghost use Rattle.p_groups.specs.PGroups.{PGroup, largest_residue, prime_of};
ghost use Rattle.graded_algebra.specs.Algebras.{evaluate};
ghost use Rattle.graded_algebra.specs.Presentations.{IsNormalForm};
ghost use Rattle.gc_poly.specs.Polynomials.{IsOverGenerators};
ghost use Rattle.presentation_rows.specs.Values.{vector};
ghost use Rattle.fp_rows.specs.Refs.{entries_of, modulus_of};
ghost use Rattle.min_res.specs.Stages.{rank_of};
ghost use Rattle.group_cocycles.specs.Rings.{cocycles_of, IsCohomologyRing};
ghost use Rattle.cohomology_degree.specs.Rings.{cohomology, IsPresentation};
ghost use Rattle.ring_present.specs.Values.{GeneratorValue, generators_of, standard_of};
ghost use Rattle.cohomology_degree.specs.Standard.{AreStandard};
ghost use Rattle.ring_present.specs.Known.{IsKnown};
ghost use Rattle.ring_completion.specs.Candidates.{AreCandidates};
ghost use Rattle.ring_present.specs.Prefixes.{IsPrefix};

use crate::normal_forms::combination;
use crate::ring_parts::RingParts;
use cohomology_degree::polynomial_of;
use fp_rows::RowRef;
use gc_poly::{Gens, Monos, Poly};
use group_table::{Memory, Prime};
use min_res::Resolution;
use std::alloc::Global;
use std::marker::Model;

/// Generators and relations of the cohomology ring of a p-group through a degree, with its standard
/// monomials.
///
/// In each degree those classes of the dual basis are generators, in order, that are not in the span of the
/// monomials in generators of lower
/// degree and of the generators before; and there is one relation for each monomial that is the greatest of a
/// polynomial of value 0 and not of
/// a combination of multiples of relations of lower degree: the monomial minus the combination of standard
/// monomials with the same value
/// (Carlson, Townsley, Valeri-Elizondo and Zhang, "Cohomology Rings of Finite Groups").
///
/// It keeps the lifts of its generators, and by them the stages that it used, and borrows no resolution.
#[derive(Drop)]
pub struct Ring {
    alloc: Global,
    known: RingParts,
}

impl Model for Ring {
    ghost use Rattle.std.specs.Prelude.{length, map};
    ghost use Rattle.ring_present.specs.Values.{RingValue, coded_ring};

    ghost Value = { RingValue };

    ghost coded = { coded_ring };

    ghost use Rattle.cohomology_degree.specs.Degrees.{lifted};
    ghost use Rattle.ring_present.specs.Stores.{IsRingStore};

    ghost view = { λ r. record {
      prime = r.known.gens.prime;
      group = r.known.group;
      degree = length r.known.degrees.items;
      generators = lifted r.known.lifts.items;
      relations = r.known.relations.items;
      standard = map (λ d. d.standard.monomials) r.known.degrees.items;
      candidates = r.known.candidates;
    } };

    ghost use Rattle.ring_present.specs.KnownTables.{IsCandidateStore, IsTableStore};

    ghost invariant = { λ r. IsRingStore r.known.group r.known.gens r.known.lifts.items
        r.known.relations.items r.known.degrees.items
        × IsTableStore r.known.group r.known.lifts.items r.known.degrees.items r.known.tables.items
        × IsCandidateStore r.known.group r.known.lifts.items r.known.degrees.items r.known.candidates };
}

impl Ring {
    /// The ring through degree 0.
    pub fn start(alloc: Global, p: Prime) -> Ring
        ensures { result ≡ record {
          prime = prime_value p;
          group = None;
          degree = 0;
          generators = [];
          relations = [];
          standard = [];
          candidates = [];
        } }
    {
        Ring {
            alloc,
            known: RingParts {
                group: None,
                gens: Gens::new(alloc, p),
                lifts: Vec::new(alloc),
                relations: Vec::new(alloc),
                degrees: Vec::new(alloc),
                tables: Vec::new(alloc),
                candidates: Monos::new(alloc),
            },
        }
    }

    /// Adds the next degree, from a resolution of the same group. After an error the ring is as before.
    pub fn add_degree(&mut self, res: &Resolution) -> Result<(), Memory>
        requires within { suc self.old.degree ≤ res.now.last }
        requires high { self.old.degree < GREATEST_DEGREE }
        requires same_group { IfSome self.old.group (λ G. G ≡ res.now.group) }
        ensures group { OnOk result (self.new.group ≡ Some res.now.group) }
        ensures prime { OnOk result (self.new.prime ≡ prime_of res.now.group) }
        ensures degree { OnOk result (self.new.degree ≡ suc self.old.degree) }
        ensures presentation { OnOk result (IsPresentation res.now.group self.new.degree
            (generators_of (largest_residue res.now.group) self.new.generators) self.new.relations) }
        ensures cohomology { OnOk result (IsCohomologyRing res.now.group self.new.degree
            (cocycles_of res.now.group
            (generators_of (largest_residue res.now.group) self.new.generators)) self.new.relations) }
        ensures generators_kept { OnOk result (IsPrefix self.old.generators self.new.generators) }
        ensures relations_kept { OnOk result (IsPrefix self.old.relations self.new.relations) }
        ensures standard_kept { OnOk result (IsPrefix self.old.standard self.new.standard) }
        ensures kept { OnErr result (self.new ≡ self.old) }
    {
        self.known.add_degree(self.alloc, res)
    }

    /// The degree through which the ring is known: 0 for that of no group, and else it has the generators and
    /// relations of its group through this degree.
    pub fn degree(&self) -> u32
        ensures value { result ≡ self.now.degree }
        ensures known { IsKnown self.now }
    {
        self.known.degrees.len() as u32
    }

    /// The generators by their degrees.
    pub fn gens(&self) -> &Gens
        ensures { result.now ≡ record {
          prime = self.now.prime;
          degrees = map (λ g. g.degree) self.now.generators;
        } }
    {
        &self.known.gens
    }

    /// The class of generator i, counted from 0, as a row over the dual basis of its degree.
    pub fn class_of(&self, i: usize) -> RowRef<'_>
        requires { i < length self.now.generators }
        ensures entries { (g : GeneratorValue)
            → entries_of result ≡ (slice_index_or self.now.generators i g).class }
        ensures length { (G : PGroup) → self.now.group ≡ Some G → (g : GeneratorValue)
            → length (entries_of result) ≡ rank_of G (slice_index_or self.now.generators i g).degree }
        ensures modulus { modulus_of result ≡ self.now.prime }
    {
        self.known.lifts[i].class()
    }

    /// The number of relations.
    pub fn relations(&self) -> usize
        ensures { result ≡ length self.now.relations }
    {
        self.known.relations.len()
    }

    /// Relation i, counted from 0, a polynomial over the generators.
    pub fn relation(&self, i: usize) -> &Poly
        requires { i < length self.now.relations }
        ensures value { slice_get self.now.relations i ≡ Some result.now }
        ensures over { IsOverGenerators (record {
          prime = self.now.prime;
          degrees = map (λ g. g.degree) self.now.generators;
        }) result.now }
    {
        &self.known.relations[i]
    }

    /// The candidates of the last degree, in descending order: the monomials of which each quotient by a
    /// generator is standard. The standard monomials are among them, and so are the generators of that
    /// degree. Before the first degree there are none.
    pub fn candidates(&self) -> &Monos
        ensures list { result.now ≡ self.now.candidates }
        ensures none { self.now.group ≡ None → result.now ≡ [] }
        ensures candidates { (G : PGroup) → self.now.group ≡ Some G
            → AreCandidates (largest_residue G) (cohomology G)
            (generators_of (largest_residue G) self.now.generators) self.now.degree result.now }
    {
        &self.known.candidates
    }

    /// The standard monomials of degree d, in descending order: those that are the greatest of no polynomial
    /// of value 0.
    pub fn standard(&self, d: u32) -> &Monos
        requires from { 1 ≤ d }
        requires to { d ≤ self.now.degree }
        ensures list { result.now ≡ standard_of self.now d }
        ensures standard { (G : PGroup) → self.now.group ≡ Some G
            → AreStandard (largest_residue G) (cohomology G)
            (generators_of (largest_residue G) self.now.generators) d result.now }
    {
        &self.known.degrees[d as usize - 1].standard.monomials
    }

    /// The class to which standard monomial i of degree d evaluates.
    pub fn standard_class(&self, d: u32, i: usize) -> RowRef<'_>
        requires from { 1 ≤ d }
        requires to { d ≤ self.now.degree }
        requires within { i < length (standard_of self.now d) }
        ensures modulus { modulus_of result ≡ self.now.prime }
        ensures length { (G : PGroup) → self.now.group ≡ Some G → length (entries_of result) ≡ rank_of G d }
        ensures value { (G : PGroup) → self.now.group ≡ Some G
            → vector (largest_residue G) (entries_of result)
            ≡ evaluate (cohomology G) (generators_of (largest_residue G) self.now.generators)
            (slice_index_or (standard_of self.now d) i []) }
    {
        self.known.degrees[d as usize - 1].standard.values.row(i)
    }

    /// The one combination of standard monomials of degree d that evaluates to the class of this row.
    pub fn normal_form(&self, alloc: Global, d: u32, class: RowRef<'_>) -> Result<Poly, Memory>
        requires from { 1 ≤ d }
        requires to { d ≤ self.now.degree }
        requires prime { modulus_of class ≡ self.now.prime }
        requires length { (G : PGroup) → self.now.group ≡ Some G → length (entries_of class) ≡ rank_of G d }
        ensures degree { IfOk result (λ f. f.degree ≡ d) }
        ensures form { IfOk result (λ f. (G : PGroup) → self.now.group ≡ Some G
            → IsNormalForm (largest_residue G) (cohomology G)
            (generators_of (largest_residue G) self.now.generators) d
            (vector (largest_residue G) (entries_of class.entry)) f.terms) }
    {
        let degree = &self.known.degrees[d as usize - 1];
        let row = combination(alloc, &degree.preimages, class)?;
        let form = polynomial_of(
            alloc,
            &self.known.gens,
            d,
            &degree.left.monomials,
            row.view(),
        )?;
        Ok(form)
    }
}
