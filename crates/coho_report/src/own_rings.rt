//! The resolutions and rings of elementary abelian subgroups in their own numbering: subgroups of one rank
//! share them.

ghost use Rattle.std.specs.Prelude.{◌≡◌, ◌≤◌, ◌<◌, ◌^◌, ℕ, length, All, IfOk, IfErr, IfSome, OnOk};
ghost use Rattle.std.specs.Prelude.{slice_index_or};
ghost use Rattle.limits.specs.declared.TheConstants.{GREATEST_DEGREE};
ghost use Rattle.elementary_subgroups.specs.Bases.{IsSubgroupOf};
ghost use Rattle.chain_lift.specs.Embeddings.{elementary};
ghost use Rattle.coho_report.specs.Limits.{HasSmallStages};
ghost use Rattle.coho_report.specs.OwnRings.{IsKnownRing, IsOwnRing};
ghost use Rattle.coho_report.specs.Refusals.{IsStageRefusal};

use crate::rings::ring_through;
use group_algebra::Algebra;
use group_table::Memory;
use min_res::{ResFault, Resolution};
use ring_present::Ring;
use std::alloc::Global;
use std::rc::Rc;
use subgroup_list::ElemAb;

/// The stages and the ring of the elementary abelian group of a rank.
#[derive(Drop)]
pub(crate) struct OwnRing {
    pub(crate) rank: usize,
    pub(crate) resolution: Resolution,
    pub(crate) ring: Ring,
}

// The stages of degrees 0 to n of the subgroup in its own numbering.
fn own_resolution(
    alloc: Global,
    e: &ElemAb,
    res: &Resolution,
    n: u32,
    limit: u64,
) -> Result<Resolution, ResFault>
    requires subgroup { IsSubgroupOf res.now.group.table e.now }
    requires high { n ≤ GREATEST_DEGREE }
    requires limit { limit ≤ 2 ^ 28 }
    ensures group { IfOk result (λ r. r.group ≡ elementary res.now.group (length e.now.basis)) }
    ensures last { IfOk result (λ r. r.last ≡ n) }
    ensures small { IfOk result
        (λ _. HasSmallStages (elementary res.now.group (length e.now.basis)) n limit) }
    ensures refused { IfErr result
        (IsStageRefusal (elementary res.now.group (length e.now.basis)) n limit) }
{
    let group = res.algebra().group().as_group();
    let own = e.group(alloc, group)?;
    let mut resolution = Resolution::start(alloc, Algebra::build(alloc, &own)?)?;
    resolution.extend_to(n, limit)?;
    Ok(resolution)
}

// The stages and the ring of the subgroup in its own numbering.
fn own_ring(
    alloc: Global,
    e: &ElemAb,
    res: &Resolution,
    n: u32,
    limit: u64,
) -> Result<Rc<OwnRing>, ResFault>
    requires subgroup { IsSubgroupOf res.now.group.table e.now }
    requires from { 1 ≤ n }
    requires high { n ≤ GREATEST_DEGREE }
    requires limit { limit ≤ 2 ^ 28 }
    ensures own { IfOk result (λ o. IsOwnRing res.now.group n (length e.now.basis) o.value) }
    ensures small { IfOk result
        (λ _. HasSmallStages (elementary res.now.group (length e.now.basis)) n limit) }
    ensures refused { IfErr result
        (IsStageRefusal (elementary res.now.group (length e.now.basis)) n limit) }
{
    let resolution = own_resolution(alloc, e, res, n, limit)?;
    let ring = ring_through(alloc, &resolution, n)?;
    let rank = e.rank();
    Ok(Rc::new(
        alloc,
        OwnRing {
            rank,
            resolution,
            ring,
        },
    )?)
}

// The place of the ring of this rank, where it is known.
fn place_of(known: &[Rc<OwnRing>], rank: usize) -> Option<usize>
    ensures below { IfSome result (λ i. i < length known.now) }
    ensures rank { IfSome result
        (λ i. (o : Rc OwnRing Global) → (slice_index_or known.now i o).value.rank ≡ rank) }
{
    for i in 0..known.len() {
        if known[i].rank == rank {
            return Some(i);
        }
    }
    None
}

// The same stages and ring.
pub(crate) fn shared(own: &Rc<OwnRing>) -> Result<Rc<OwnRing>, Memory>
    ensures { IfOk result (λ o. o.value ≡ own.now.value) }
{
    Ok(own.clone()?)
}

/// The stages and the ring of the subgroup in its own numbering, which are made for the first subgroup of
/// each rank alone.
pub(crate) fn shared_ring(
    alloc: Global,
    e: &ElemAb,
    res: &Resolution,
    n: u32,
    limit: u64,
    known: &mut Vec<Rc<OwnRing>>,
) -> Result<Rc<OwnRing>, ResFault>
    requires subgroup { IsSubgroupOf res.now.group.table e.now }
    requires from { 1 ≤ n }
    requires high { n ≤ GREATEST_DEGREE }
    requires limit { limit ≤ 2 ^ 28 }
    requires known { All (λ o. IsKnownRing res.now.group n limit o.value) known.old.items }
    ensures known { OnOk result (All (λ o. IsKnownRing res.now.group n limit o.value) known.new.items) }
    ensures own { IfOk result (λ o. IsOwnRing res.now.group n (length e.now.basis) o.value) }
    ensures small { IfOk result
        (λ _. HasSmallStages (elementary res.now.group (length e.now.basis)) n limit) }
    ensures refused { IfErr result
        (IsStageRefusal (elementary res.now.group (length e.now.basis)) n limit) }
{
    if let Some(i) = place_of(known, e.rank()) {
        return Ok(shared(&known[i])?);
    }
    let own = own_ring(alloc, e, res, n, limit)?;
    known.push(shared(&own)?)?;
    Ok(own)
}
