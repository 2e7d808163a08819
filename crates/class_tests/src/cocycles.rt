//! Values of cocycles by hand, and the cocycle equation.

ghost use Rattle.std.specs.Prelude.{◌≡◌, ◌<◌, All, IsTrue};
ghost use Rattle.p_groups.specs.PGroups.{order_of};

use crate::resolutions::{basis, resolved};
use bar_eval::value;
use group_table::{Group, Memory};
use min_res::Resolution;
use small_groups::SmallGroup;
use std::alloc::Global;
use std::process::Abort;
use std::test::Fail;

// The value of the cocycle of basis class i at a tuple.
fn basis_value(
    rt: &impl Abort,
    alloc: Global,
    resolution: &Resolution,
    i: usize,
    tuple: &[u16],
) -> Result<u8, Memory>
    requires { All (λ x. x < order_of resolution.now.group) tuple.now }
{
    assert!(rt; tuple.len() <= resolution.last() as usize);
    let class = basis(rt, alloc, resolution, tuple.len() as u32, i)?;
    value(alloc, resolution, class.view(), tuple)
}

fn are_below(order: u16, tuple: &[u16]) -> bool
    ensures { IsTrue result → All (λ x. x < order) tuple.now }
{
    tuple.iter().all(|x| *x < order)
}

// The value of the cocycle of basis class 0 of the degree that is the length of the tuple.
fn value_in(rt: &impl Abort, alloc: Global, group: &Group, tuple: &[u16]) -> Result<u8, Memory> {
    assert!(rt; tuple.len() <= 8);
    let resolution = resolved(rt, alloc, group, tuple.len() as u32)?;
    assert!(rt; are_below(resolution.algebra().group().order(), tuple));
    basis_value(rt, alloc, &resolution, 0, tuple)
}

// A group, a tuple, and the value there.
const VALUES: [(SmallGroup, &[u16], u8); 7] = [
    (SmallGroup::Two, &[1], 1),
    (SmallGroup::Two, &[0], 0),
    (SmallGroup::Two, &[1, 1], 1),
    (SmallGroup::Two, &[1, 1, 1, 1, 1, 1, 1, 1], 1),
    (SmallGroup::Four, &[2, 2], 1),
    (SmallGroup::Four, &[1, 1], 0),
    (SmallGroup::Three, &[2], 2),
];

#[test]
fn has_its_values_in_cyclic_groups(rt: HostRuntime) -> Result<(), Fail> {
    for (kind, tuple, expected) in VALUES {
        let group = kind.group(rt.alloc())?;
        let found = value_in(&rt, rt.alloc(), &group, tuple)?;
        assert_eq!(rt; found, expected, "in {kind:?}");
    }
    Ok(())
}

// The value of the cocycle of basis class i at a tuple of elements of the group.
fn value_at(
    rt: &impl Abort,
    alloc: Global,
    resolution: &Resolution,
    i: usize,
    tuple: &[u16],
) -> Result<u8, Memory> {
    assert!(rt; are_below(resolution.algebra().group().order(), tuple));
    basis_value(rt, alloc, resolution, i, tuple)
}

fn product(rt: &impl Abort, resolution: &Resolution, g: u16, h: u16) -> u16 {
    let group = resolution.algebra().group().as_group();
    assert!(rt; g < group.order());
    assert!(rt; h < group.order());
    group.mul(g, h)
}

// Whether a + b and c + d are the same modulo the prime.
fn agree(rt: &impl Abort, resolution: &Resolution, (a, b): (u8, u8), (c, d): (u8, u8)) -> bool {
    let p = u16::from(resolution.algebra().group().prime().value());
    assert!(rt; p > 0);
    (u16::from(a) + u16::from(b)) % p == (u16::from(c) + u16::from(d)) % p
}

// Whether u(h) - u(g h) + u(g) is 0, for the cocycle u of basis class i of degree 1.
fn closes_at_pair(
    rt: &impl Abort,
    alloc: Global,
    resolution: &Resolution,
    i: usize,
    (g, h): (u16, u16),
) -> Result<bool, Memory> {
    let last = value_at(rt, alloc, resolution, i, &[h])?;
    let first = value_at(rt, alloc, resolution, i, &[g])?;
    let both = value_at(rt, alloc, resolution, i, &[product(rt, resolution, g, h)])?;
    Ok(agree(rt, resolution, (last, first), (both, 0)))
}

// Whether u(h, k) - u(g h, k) + u(g, h k) - u(g, h) is 0, for the cocycle u of basis class i of degree 2.
fn closes_at_triple(
    rt: &impl Abort,
    alloc: Global,
    resolution: &Resolution,
    i: usize,
    (g, h, k): (u16, u16, u16),
) -> Result<bool, Memory> {
    let last = value_at(rt, alloc, resolution, i, &[h, k])?;
    let back = value_at(
        rt,
        alloc,
        resolution,
        i,
        &[g, product(rt, resolution, h, k)],
    )?;
    let front = value_at(
        rt,
        alloc,
        resolution,
        i,
        &[product(rt, resolution, g, h), k],
    )?;
    let first = value_at(rt, alloc, resolution, i, &[g, h])?;
    Ok(agree(rt, resolution, (last, back), (front, first)))
}

// Whether the cocycles of basis class i of degree 1 and of degree 2 close at all pairs and triples.
fn closes(
    rt: &impl Abort,
    alloc: Global,
    resolution: &Resolution,
    i: usize,
) -> Result<bool, Memory> {
    let order = resolution.algebra().group().order();
    assert!(rt; 0 < order && order < 9);
    for place in 0..order * order * order {
        let (g, h, k) = (place % order, place / order % order, place / order / order);
        if !closes_at_pair(rt, alloc, resolution, i, (g, h))?
            || !closes_at_triple(rt, alloc, resolution, i, (g, h, k))?
        {
            return Ok(false);
        }
    }
    Ok(true)
}

// The same in a group.
fn closes_in(rt: &impl Abort, alloc: Global, group: &Group, i: usize) -> Result<bool, Memory> {
    let resolution = resolved(rt, alloc, group, 2)?;
    closes(rt, alloc, &resolution, i)
}

#[test]
fn is_a_cocycle_in_small_groups(rt: HostRuntime) -> Result<(), Fail> {
    for (kind, i) in [
        (SmallGroup::Three, 0),
        (SmallGroup::Four, 0),
        (SmallGroup::Klein, 1),
        (SmallGroup::Quaternion, 1),
    ] {
        let group = kind.group(rt.alloc())?;
        let found = closes_in(&rt, rt.alloc(), &group, i)?;
        assert!(rt; found, "in {kind:?}");
    }
    Ok(())
}
