//! Elementary abelian subgroups, with the restrictions of the generators to them.

ghost use Rattle.std.specs.Prelude.{◌≡◌, ◌≤◌, ◌<◌, ◌^◌, ◌++◌, List, length, IfOk, IfErr, OnOk, slice_index};
ghost use Rattle.std.specs.Prelude.{slice_index_or};
ghost use Rattle.limits.specs.declared.TheConstants.{GREATEST_DEGREE};
ghost use Rattle.p_groups.specs.PGroups.{largest_residue};
ghost use Rattle.elementary_subgroups.specs.Bases.{IsSubgroupList, IsSubgroupOf, NumberedSubgroup};
ghost use Rattle.graded_polynomials.specs.Polynomials.{Polynomial};
ghost use Rattle.graded_polynomials.specs.Texts.{polynomial_text};
ghost use Rattle.graded_algebra.specs.Algebras.{Generator};
ghost use Rattle.graded_algebra.specs.Vectors.{Vector};
ghost use Rattle.elementary_subgroups.specs.Sets.{IsIn};
ghost use Rattle.ring_present.specs.Values.{generators_of};
ghost use Rattle.coho_report.specs.Limits.{AreSmall, IsSmall};
ghost use Rattle.coho_report.specs.OwnRings.{IsOwnRing, IsRingThrough};
ghost use Rattle.coho_report.specs.Refusals.{IsRefusal};
ghost use Rattle.coho_report.specs.Related.{AreRelated};
ghost use Rattle.coho_report.specs.Restrictors.{IsRestrictorOf};
ghost use Rattle.coho_report.specs.Subgroups.{IsImage, IsToldOf};

use crate::ReportFault;
use crate::fault::of_subgroup;
use crate::own_rings::{OwnRing, shared, shared_ring};
use crate::restrictors::{Restrictor, restrictor_of};
use chain_lift::EmbedMap;
use fp_rows::Row;
use gc_poly::{Poly, write_text};
use group_table::Memory;
use min_res::Resolution;
use ring_present::Ring;
use std::alloc::Global;
use std::marker::Model;
use std::rc::Rc;
use subgroup_list::{ElemAb, Subgroups, max_elementary};

/// An elementary abelian subgroup, and the restriction of each generator in the generators of the subgroup's
/// own ring.
#[derive(Drop)]
pub struct SubgroupReport {
    subgroup: ElemAb,
    own: Rc<OwnRing>,
    images: Vec<Poly>,
}

impl Model for SubgroupReport {
    ghost use Rattle.std.specs.Prelude.{All, map};
    ghost use Rattle.gc_poly.specs.Polynomials.{IsOverGenerators};
    ghost use Rattle.coho_report.specs.Values.{SubgroupValue};

    ghost Value = { SubgroupValue };

    ghost view = { λ s. record {
      basis = s.subgroup.basis;
      generators = map (λ g. g.degree) s.own.value.ring.generators;
      images = s.images.items;
    } };

    ghost invariant = { λ s. All (IsOverGenerators (record {
      prime = s.own.value.ring.prime;
      degrees = map (λ g. g.degree) s.own.value.ring.generators;
    })) s.images.items };
}

impl SubgroupReport {
    /// The basis.
    pub(crate) fn rank(&self) -> usize
        ensures { result ≡ length self.now.basis }
    {
        self.subgroup.rank()
    }

    /// A member of the basis.
    pub(crate) fn basis(&self, i: usize) -> u16
        requires { i < length self.now.basis }
        ensures { result ≡ slice_index self.now.basis i }
    {
        self.subgroup.basis(i)
    }

    /// How many restrictions there are.
    pub(crate) fn images(&self) -> usize
        ensures { result ≡ length self.now.images }
    {
        self.images.len()
    }

    /// Appends the text of restriction i.
    pub(crate) fn write_image(&self, i: usize, text: &mut Vec<u8>) -> Result<(), Memory>
        requires { i < length self.now.images }
        ensures { OnOk result ((f : Polynomial) → text.new.items
            ≡ text.old.items
            ++ polynomial_text self.now.generators (slice_index_or self.now.images i f).terms) }
    {
        write_text(self.own.ring.gens(), &self.images[i], text)
    }
}

// The restriction of generator i.
fn image(
    alloc: Global,
    map: &EmbedMap,
    own: &OwnRing,
    ring: &Ring,
    i: usize,
) -> Result<Poly, Memory>
    requires own { IsOwnRing map.now.group ring.now.degree (length map.now.basis) own.now }
    requires ring { IsRingThrough map.now.group ring.now.degree ring.now }
    requires height { ring.now.degree ≤ map.now.height }
    requires generator { i < length ring.now.generators }
    ensures { IfOk result (λ f. (g : Generator (Vector (largest_residue map.now.group)))
        → IsImage map.now.group map.now.basis
        (generators_of (largest_residue map.now.group) own.now.ring.generators)
        (slice_index_or (generators_of (largest_residue map.now.group) ring.now.generators) i g) f) }
{
    let degree = ring.gens().degree(i);
    let rank = own.resolution.stage_at(degree).rank();
    let mut class = Row::zero(alloc, ring.gens().prime(), rank)?;
    map.restrict(degree, ring.class_of(i), &mut class);
    let form = own.ring.normal_form(alloc, degree, class.view())?;
    Ok(form)
}

// The restrictions of the generators to the subgroup.
fn images(alloc: Global, map: &EmbedMap, own: &OwnRing, ring: &Ring) -> Result<Vec<Poly>, Memory>
    requires own { IsOwnRing map.now.group ring.now.degree (length map.now.basis) own.now }
    requires ring { IsRingThrough map.now.group ring.now.degree ring.now }
    requires height { ring.now.degree ≤ map.now.height }
    ensures { IfOk result (λ v. AreRelated
        (IsImage map.now.group map.now.basis
        (generators_of (largest_residue map.now.group) own.now.ring.generators))
        (generators_of (largest_residue map.now.group) ring.now.generators) v.items) }
{
    let mut images = Vec::new(alloc);
    for i in 0..ring.gens().len() {
        images.push(image(alloc, map, own, ring, i)?)?;
    }
    Ok(images)
}

// What is told of the subgroup.
fn told_of(alloc: Global, e: &ElemAb, x: &Restrictor, ring: &Ring) -> Result<SubgroupReport, Memory>
    requires restrictor { IsRestrictorOf x.now.map.group ring.now.degree e.now x.now }
    requires ring { IsRingThrough x.now.map.group ring.now.degree ring.now }
    ensures { IfOk result (IsToldOf x.now.map.group ring.now.degree
        (generators_of (largest_residue x.now.map.group) ring.now.generators) e.now) }
{
    let images = images(alloc, &x.map, &x.own, ring)?;
    Ok(SubgroupReport {
        subgroup: e.try_clone(alloc)?,
        own: shared(&x.own)?,
        images,
    })
}

/// What is told of each subgroup of a list, and what restricts classes to it.
#[derive(Drop)]
pub(crate) struct ToldSubgroups {
    pub(crate) reports: Vec<SubgroupReport>,
    pub(crate) restrictors: Vec<Restrictor>,
}

// What is told of each subgroup of the list.
fn told_of_each(
    alloc: Global,
    list: &Subgroups,
    res: &Resolution,
    ring: &Ring,
    limit: u64,
) -> Result<ToldSubgroups, ReportFault>
    requires list { IsSubgroupList res.now.group.table list.now }
    requires ring { IsRingThrough res.now.group ring.now.degree ring.now }
    requires from { 1 ≤ ring.now.degree }
    requires within { ring.now.degree ≤ res.now.last }
    requires high { ring.now.degree ≤ GREATEST_DEGREE }
    requires limit { limit ≤ 2 ^ 28 }
    ensures told { IfOk result (λ v. AreRelated (IsToldOf res.now.group ring.now.degree
        (generators_of (largest_residue res.now.group) ring.now.generators)) list.now v.reports.items) }
    ensures restrictors { IfOk result (λ v. AreRelated
        (IsRestrictorOf res.now.group ring.now.degree) list.now v.restrictors.items) }
    ensures small { IfOk result (λ v. (s : NumberedSubgroup) → IsIn s list.now
        → IsSmall res.now.group ring.now.degree limit s) }
    ensures refused { IfErr result (IsRefusal res.now.group ring.now.degree limit) }
{
    let n = ring.degree();
    let mut known = Vec::new(alloc);
    let mut reports = Vec::new(alloc);
    let mut restrictors = Vec::new(alloc);
    for i in 0..list.len() {
        let e = list.get(i);
        match shared_ring(alloc, e, res, n, limit, &mut known) {
            Ok(own) => {
                let restrictor = restrictor_of(alloc, e, own, res, n)?;
                reports.push(told_of(alloc, e, &restrictor, ring)?)?;
                restrictors.push(restrictor)?;
            }
            Err(fault) => return Err(of_subgroup(i, fault)),
        }
    }
    Ok(ToldSubgroups {
        reports,
        restrictors,
    })
}

/// What is told of the maximal elementary abelian subgroups, one of each conjugacy class.
pub(crate) fn subgroup_reports(
    alloc: Global,
    res: &Resolution,
    ring: &Ring,
    limit: u64,
) -> Result<ToldSubgroups, ReportFault>
    requires ring { IsRingThrough res.now.group ring.now.degree ring.now }
    requires from { 1 ≤ ring.now.degree }
    requires within { ring.now.degree ≤ res.now.last }
    requires high { ring.now.degree ≤ GREATEST_DEGREE }
    requires limit { limit ≤ 2 ^ 28 }
    ensures told { IfOk result (λ v. (ss : List NumberedSubgroup) × IsSubgroupList res.now.group.table ss
        × AreRelated (IsToldOf res.now.group ring.now.degree
        (generators_of (largest_residue res.now.group) ring.now.generators)) ss v.reports.items
        × AreRelated (IsRestrictorOf res.now.group ring.now.degree) ss v.restrictors.items) }
    ensures small { IfOk result (λ v. AreSmall res.now.group ring.now.degree limit) }
    ensures refused { IfErr result (IsRefusal res.now.group ring.now.degree limit) }
{
    let list = max_elementary(alloc, res.algebra().group().as_group())?;
    told_of_each(alloc, &list, res, ring, limit)
}
