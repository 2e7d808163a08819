//! Restrictions of classes to maximal elementary abelian subgroups.

ghost use Rattle.std.specs.Prelude.{◌≡◌, ◌≤◌, IfOk, length};
ghost use Rattle.chain_lift.specs.Embeddings.{elementary};
ghost use Rattle.elementary_subgroups.specs.Bases.{IsSubgroupOf};

use crate::resolutions::{basis, resolved, shows, zero};
use chain_lift::EmbedMap;
use group_table::{Group, Memory};
use min_res::Resolution;
use small_groups::SmallGroup;
use std::alloc::Global;
use std::process::Abort;
use std::test::Fail;
use subgroup_list::{ElemAb, max_elementary};

// The stages of a subgroup in its own numbering, up to degree 2.
fn resolved_within(
    rt: &impl Abort,
    alloc: Global,
    whole: &Resolution,
    e: &ElemAb,
) -> Result<Resolution, Memory>
    requires { IsSubgroupOf whole.now.group.table e.now }
    ensures own { IfOk result (λ r. r.group ≡ elementary whole.now.group (length e.now.basis)) }
    ensures last { IfOk result (λ r. 2 ≤ r.last) }
{
    let table = e.group(alloc, whole.algebra().group().as_group())?;
    let own = resolved(rt, alloc, &table, 2)?;
    Ok(own)
}

// The map along the embedding up to degree 2, which it keeps where it is asked for less.
fn embedded(
    alloc: Global,
    e: &ElemAb,
    own: &Resolution,
    whole: &Resolution,
) -> Result<EmbedMap, Memory>
    requires subgroup { IsSubgroupOf whole.now.group.table e.now }
    requires own { own.now.group ≡ elementary whole.now.group (length e.now.basis) }
    requires lasts { (2 ≤ own.now.last) × (2 ≤ whole.now.last) }
    ensures { IfOk result
        (λ m. m ≡ record { group = whole.now.group; basis = e.now.basis; height = 2 }) }
{
    let mut map = EmbedMap::new(alloc, e, own, whole)?;
    map.extend_to(own, whole, 2)?;
    map.extend_to(own, whole, 1)?;
    Ok(map)
}

// A basis class, by its degree and its number, and what it restricts to.
#[derive(Clone, Copy)]
struct Restriction<'a> {
    degree: u32,
    number: usize,
    restricted: &'a [u8],
}

// Whether the class restricts so to the subgroup.
fn holds(
    rt: &impl Abort,
    alloc: Global,
    whole: &Resolution,
    own: &Resolution,
    e: &ElemAb,
    case: Restriction<'_>,
) -> Result<bool, Memory>
    requires subgroup { IsSubgroupOf whole.now.group.table e.now }
    requires own { own.now.group ≡ elementary whole.now.group (length e.now.basis) }
    requires lasts { (2 ≤ own.now.last) × (2 ≤ whole.now.last) }
{
    assert!(rt; case.degree <= 2);
    let class = basis(rt, alloc, whole, case.degree, case.number)?;
    let mut out = zero(alloc, own, case.degree)?;
    let map = embedded(alloc, e, own, whole)?;
    map.restrict(case.degree, class.view(), &mut out);
    Ok(map.height() == 2 && shows(out.view(), case.restricted))
}

// The same with the stages of the subgroup.
fn holds_within(
    rt: &impl Abort,
    alloc: Global,
    whole: &Resolution,
    e: &ElemAb,
    case: Restriction<'_>,
) -> Result<bool, Memory>
    requires subgroup { IsSubgroupOf whole.now.group.table e.now }
    requires last { 2 ≤ whole.now.last }
{
    let own = resolved_within(rt, alloc, whole, e)?;
    holds(rt, alloc, whole, &own, e, case)
}

// The same for the subgroup at this place of the list.
fn holds_at(
    rt: &impl Abort,
    alloc: Global,
    group: &Group,
    place: usize,
    case: Restriction<'_>,
) -> Result<bool, Memory> {
    let subgroups = max_elementary(alloc, group)?;
    assert!(rt; place < subgroups.len());
    let whole = resolved(rt, alloc, group, 2)?;
    holds_within(rt, alloc, &whole, subgroups.get(place), case)
}

// A group, the place of a subgroup in the list, a basis class by its degree and its number, and what it
// restricts to. Class 2 of degree 2 of the dihedral group is no product; on both four-groups, in which xx, xy
// and yy are the basis classes of degree 2, it is xy + yy. In the cyclic group of order 4 the class of
// degree 2 is the square of that of degree 1 on the subgroup of order 2, on which the class of degree 1 is 0.
const RESTRICTIONS: [(SmallGroup, usize, u32, usize, &[u8]); 13] = [
    (SmallGroup::Dihedral, 0, 1, 0, &[1, 0]),
    (SmallGroup::Dihedral, 0, 1, 1, &[0, 0]),
    (SmallGroup::Dihedral, 0, 2, 0, &[1, 0, 0]),
    (SmallGroup::Dihedral, 0, 2, 1, &[0, 0, 0]),
    (SmallGroup::Dihedral, 0, 2, 2, &[0, 1, 1]),
    (SmallGroup::Dihedral, 1, 1, 0, &[0, 0]),
    (SmallGroup::Dihedral, 1, 1, 1, &[1, 0]),
    (SmallGroup::Dihedral, 1, 2, 0, &[0, 0, 0]),
    (SmallGroup::Dihedral, 1, 2, 1, &[1, 0, 0]),
    (SmallGroup::Dihedral, 1, 2, 2, &[0, 1, 1]),
    (SmallGroup::Four, 0, 0, 0, &[1]),
    (SmallGroup::Four, 0, 1, 0, &[0]),
    (SmallGroup::Four, 0, 2, 0, &[1]),
];

#[test]
fn restricts_classes(rt: HostRuntime) -> Result<(), Fail> {
    for (kind, place, degree, number, restricted) in RESTRICTIONS {
        let case = Restriction {
            degree,
            number,
            restricted,
        };
        let group = kind.group(rt.alloc())?;
        let found = holds_at(&rt, rt.alloc(), &group, place, case)?;
        assert!(rt; found, "class {number} of degree {degree}");
    }
    Ok(())
}
