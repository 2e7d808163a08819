//! Products of classes by hand. With X = g_1 - 1 and Y = g_2 - 1, the boundaries of e_1 and e_2 of degree 1,
//! those of degree 2 are X e_1, Y e_1 + X e_2 and Y e_2 in the Klein group. In the dihedral group they are
//! X e_1, Y e_2 and one whose coefficients lie in the third power of the augmentation ideal.

ghost use Rattle.std.specs.Prelude.{◌≡◌, ◌≤◌, IfOk, length};
ghost use Rattle.fp_rows.specs.Refs.{entries_of, modulus_of};
ghost use Rattle.min_res.specs.Stages.{rank_of};
ghost use Rattle.p_groups.specs.PGroups.{prime_of};

use crate::resolutions::{basis, extend, resolved, shows, zero};
use chain_lift::Lift;
use fp_rows::RowRef;
use group_table::{Group, Memory};
use min_res::Resolution;
use small_groups::SmallGroup;
use std::alloc::Global;
use std::process::Abort;
use std::test::Fail;

// The lift of a class of degree 1, up to height 1.
fn lifted(alloc: Global, resolution: &Resolution, class: RowRef<'_>) -> Result<Lift, Memory>
    requires last { 2 ≤ resolution.now.last }
    requires prime { modulus_of class ≡ prime_of resolution.now.group }
    requires length { length (entries_of class) ≡ rank_of resolution.now.group 1 }
    ensures { IfOk result (λ l. l ≡ record {
      group = resolution.now.group;
      degree = 1;
      class = entries_of class.entry;
      height = 1;
    }) }
{
    let mut lift = Lift::new(alloc, resolution, 1, class)?;
    lift.extend_to(resolution, 1)?;
    Ok(lift)
}

// Whether the product of basis classes i and k of degree 1 is this class.
fn is_product(
    rt: &impl Abort,
    alloc: Global,
    resolution: &Resolution,
    i: usize,
    k: usize,
    expected: &[u8],
) -> Result<bool, Memory>
    requires { 2 ≤ resolution.now.last }
{
    let class = basis(rt, alloc, resolution, 1, k)?;
    let factor = basis(rt, alloc, resolution, 1, i)?;
    let mut out = zero(alloc, resolution, 2)?;
    let lift = lifted(alloc, resolution, class.view())?;
    lift.product(1, factor.view(), &mut out);
    Ok(shows(out.view(), expected))
}

// The same with the stages of the group.
fn is_product_in(
    rt: &impl Abort,
    alloc: Global,
    group: &Group,
    i: usize,
    k: usize,
    expected: &[u8],
) -> Result<bool, Memory> {
    let resolution = resolved(rt, alloc, group, 2)?;
    is_product(rt, alloc, &resolution, i, k, expected)
}

// A group, two basis classes of degree 1 by their numbers, and their product. The square of x is 0 in a
// cyclic group of order 4 and not in one of order 2; xy is 0 in the dihedral group, and xx + xy + yy is 0 in
// the quaternion group; for an odd prime xx is 0, and yx is -xy.
const PRODUCTS: [(SmallGroup, usize, usize, &[u8]); 14] = [
    (SmallGroup::Two, 0, 0, &[1]),
    (SmallGroup::Four, 0, 0, &[0]),
    (SmallGroup::Klein, 0, 0, &[1, 0, 0]),
    (SmallGroup::Klein, 0, 1, &[0, 1, 0]),
    (SmallGroup::Klein, 1, 1, &[0, 0, 1]),
    (SmallGroup::Dihedral, 0, 0, &[1, 0, 0]),
    (SmallGroup::Dihedral, 0, 1, &[0, 0, 0]),
    (SmallGroup::Dihedral, 1, 1, &[0, 1, 0]),
    (SmallGroup::Quaternion, 0, 0, &[1, 0]),
    (SmallGroup::Quaternion, 0, 1, &[0, 1]),
    (SmallGroup::Quaternion, 1, 1, &[1, 1]),
    (SmallGroup::Nine, 0, 0, &[0, 0, 0]),
    (SmallGroup::Nine, 0, 1, &[2, 0, 0]),
    (SmallGroup::Nine, 1, 0, &[1, 0, 0]),
];

#[test]
fn multiplies_classes_of_degree_one(rt: HostRuntime) -> Result<(), Fail> {
    for (kind, i, k, expected) in PRODUCTS {
        let group = kind.group(rt.alloc())?;
        let found = is_product_in(&rt, rt.alloc(), &group, i, k, expected)?;
        assert!(rt; found, "{i} times {k} in {kind:?}");
    }
    Ok(())
}

// Whether the lift keeps its height where it is asked for less, and the product with the class of degree 5 is
// that of degree 6.
fn lifts(
    rt: &impl Abort,
    alloc: Global,
    resolution: &Resolution,
    lift: &mut Lift,
) -> Result<bool, Memory>
    requires group { lift.old.group ≡ resolution.now.group }
    requires degree { lift.old.degree ≡ 1 }
    requires last { 6 ≤ resolution.now.last }
{
    lift.extend_to(resolution, 5)?;
    lift.extend_to(resolution, 2)?;
    let class = basis(rt, alloc, resolution, 5, 0)?;
    let mut out = zero(alloc, resolution, 6)?;
    lift.product(5, class.view(), &mut out);
    Ok(lift.height() == 5 && shows(lift.class(), &[1]) && shows(out.view(), &[1]))
}

// The same with the lift of basis class 0 of degree 1, made before the resolution grows to degree 6.
fn lifts_over(rt: &impl Abort, alloc: Global, resolution: &mut Resolution) -> Result<bool, Memory>
    requires { 2 ≤ resolution.old.last }
{
    let class = basis(rt, alloc, resolution, 1, 0)?;
    let mut lift = lifted(alloc, resolution, class.view())?;
    extend(rt, resolution, 6);
    lifts(rt, alloc, resolution, &mut lift)
}

// The same with the stages of the group.
fn lifts_in(rt: &impl Abort, alloc: Global, group: &Group) -> Result<bool, Memory> {
    let mut resolution = resolved(rt, alloc, group, 2)?;
    lifts_over(rt, alloc, &mut resolution)
}

#[test]
fn extends_over_a_grown_resolution(rt: HostRuntime) -> Result<(), Fail> {
    let group = SmallGroup::Two.group(rt.alloc())?;
    let found = lifts_in(&rt, rt.alloc(), &group)?;
    assert!(rt; found);
    Ok(())
}
