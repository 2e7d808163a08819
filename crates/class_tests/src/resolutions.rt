//! Resolutions of groups, and classes of theirs.

ghost use Rattle.std.specs.Prelude.{◌≡◌, ◌≤◌, IfOk, length};
ghost use Rattle.min_res.specs.Stages.{rank_of};
ghost use Rattle.p_groups.specs.PGroups.{prime_of};

use fp_rows::{Row, RowRef};
use group_algebra::Algebra;
use group_table::{Group, Memory};
use min_res::Resolution;
use std::alloc::Global;
use std::process::Abort;

// The stage of degree 0 of this group.
fn started(alloc: Global, group: &Group) -> Result<Resolution, Memory>
    ensures { IfOk result (λ r. r.group.table ≡ group.now) }
{
    let algebra = Algebra::build(alloc, group)?;
    Resolution::start(alloc, algebra)
}

// Adds stages up to this degree.
pub(crate) fn extend(rt: &impl Abort, resolution: &mut Resolution, last: u32)
    ensures group { resolution.new.group ≡ resolution.old.group }
    ensures last { last ≤ resolution.new.last }
{
    for _d in resolution.last()..last {
        assert!(rt; resolution.last() < 24);
        assert!(rt; resolution.extend(4096).is_ok());
    }
    assert!(rt; resolution.last() >= last);
}

// The stages of this group up to this degree.
pub(crate) fn resolved(
    rt: &impl Abort,
    alloc: Global,
    group: &Group,
    last: u32,
) -> Result<Resolution, Memory>
    ensures group { IfOk result (λ r. r.group.table ≡ group.now) }
    ensures last { IfOk result (λ r. last ≤ r.last) }
{
    let mut resolution = started(alloc, group)?;
    extend(rt, &mut resolution, last);
    Ok(resolution)
}

// The class 0 of degree d.
pub(crate) fn zero(alloc: Global, resolution: &Resolution, d: u32) -> Result<Row, Memory>
    requires { d ≤ resolution.now.last }
    ensures prime { IfOk result (λ r. r.p ≡ prime_of resolution.now.group) }
    ensures length { IfOk result (λ r. length r.entries ≡ rank_of resolution.now.group d) }
{
    let prime = resolution.algebra().group().prime();
    Row::zero(alloc, prime, resolution.stage_at(d).rank())
}

// Basis class i of degree d.
pub(crate) fn basis(
    rt: &impl Abort,
    alloc: Global,
    resolution: &Resolution,
    d: u32,
    i: usize,
) -> Result<Row, Memory>
    requires { d ≤ resolution.now.last }
    ensures prime { IfOk result (λ r. r.p ≡ prime_of resolution.now.group) }
    ensures length { IfOk result (λ r. length r.entries ≡ rank_of resolution.now.group d) }
{
    let mut class = zero(alloc, resolution, d)?;
    assert!(rt; i < class.len());
    class.set_unit(i);
    Ok(class)
}

// Whether the row has these entries.
pub(crate) fn shows(r: RowRef<'_>, entries: &[u8]) -> bool {
    if r.len() != entries.len() {
        return false;
    }
    for i in 0..r.len() {
        if r.get(i) != entries[i] {
            return false;
        }
    }
    true
}
