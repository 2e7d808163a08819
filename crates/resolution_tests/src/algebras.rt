//! Tests of group algebras.

ghost use Rattle.p_groups.specs.PGroups.{order_of, prime_of};
ghost use Rattle.std.specs.Prelude.{◌≡◌, ◌*◌, IfOk, length};

use crate::rows::{row_of, shows};
use fp_rows::{Matrix, Row};
use group_algebra::{Algebra, generators};
use small_groups::SmallGroup;
use std::alloc::Global;
use std::process::Abort;
use std::test::Fail;

fn algebra_of(alloc: Global, kind: SmallGroup) -> Result<Algebra, Fail> {
    let group = kind.group(alloc)?;
    Ok(Algebra::build(alloc, &group)?)
}

fn has_layers(algebra: &Algebra, dimensions: &[usize]) -> bool {
    if algebra.layers() != dimensions.len() {
        return false;
    }
    for i in 0..dimensions.len() {
        if algebra.layer_dim(i) != dimensions[i] {
            return false;
        }
    }
    true
}

fn assert_layers(
    rt: &impl Abort,
    alloc: Global,
    kind: SmallGroup,
    dimensions: &[usize],
) -> Result<(), Fail> {
    let algebra = algebra_of(alloc, kind)?;
    assert!(rt; has_layers(&algebra, dimensions));
    Ok(())
}

// The dimensions are the coefficients of the product of the (1 + t^i + .. + t^(i (p - 1)))^(e_i), e_i the
// Jennings numbers of the group: e_1 = 1 for C2; 1, 1 for C4; 2, 1 for the groups of order 8; 2 for C3 x C3.
#[test]
fn finds_the_radical_layers(rt: HostRuntime) -> Result<(), Fail> {
    assert_layers(&rt, rt.alloc(), SmallGroup::Two, &[1, 1])?;
    assert_layers(&rt, rt.alloc(), SmallGroup::Four, &[1, 1, 1, 1])?;
    assert_layers(&rt, rt.alloc(), SmallGroup::Dihedral, &[1, 2, 2, 2, 1])?;
    assert_layers(&rt, rt.alloc(), SmallGroup::Quaternion, &[1, 2, 2, 2, 1])?;
    assert_layers(&rt, rt.alloc(), SmallGroup::Nine, &[1, 2, 3, 2, 1])
}

fn are_numbers(found: &[u16], elements: &[u16]) -> bool {
    if found.len() != elements.len() {
        return false;
    }
    for i in 0..elements.len() {
        if found[i] != elements[i] {
            return false;
        }
    }
    true
}

// g_1 and g_2 generate the quaternions, and have the numbers 1 and 2.
#[test]
fn finds_generators(rt: HostRuntime) -> Result<(), Fail> {
    let group = SmallGroup::Quaternion.group(rt.alloc())?;
    let found = generators(rt.alloc(), &group)?;
    assert!(rt; are_numbers(&found, &[1, 2]));
    Ok(())
}

// A zero of kG^rank.
fn zero_of(rt: &impl Abort, alloc: Global, algebra: &Algebra, rank: usize) -> Result<Row, Fail>
    ensures { IfOk result (λ r. (r.p ≡ prime_of algebra.now)
        × (length r.entries ≡ order_of algebra.now * rank)) }
{
    assert!(rt; rank < 3);
    let width = algebra.group().order() as usize * rank;
    Ok(Row::zero(alloc, algebra.group().prime(), width)?)
}

// The member of kG^rank with these layer coordinates.
fn member_of(
    rt: &impl Abort,
    alloc: Global,
    algebra: &Algebra,
    rank: usize,
    entries: &[u8],
) -> Result<Row, Fail>
    ensures { IfOk result (λ r. (r.p ≡ prime_of algebra.now)
        × (length r.entries ≡ order_of algebra.now * rank)) }
{
    assert!(rt; rank < 3);
    assert_eq!(rt; entries.len(), algebra.group().order() as usize * rank);
    row_of(rt, alloc, algebra.group().prime(), entries)
}

// The layer coordinates of the member with these coefficients are these, and the other way round.
fn assert_coordinates(
    rt: &impl Abort,
    alloc: Global,
    algebra: &Algebra,
    coefficients: &[u8],
    layers: &[u8],
) -> Result<(), Fail> {
    let a = member_of(rt, alloc, algebra, 1, coefficients)?;
    let v = member_of(rt, alloc, algebra, 1, layers)?;
    let mut out = zero_of(rt, alloc, algebra, 1)?;
    algebra.to_layers(a.view(), &mut out);
    assert!(rt; shows(out.view(), layers));
    let mut back = zero_of(rt, alloc, algebra, 1)?;
    algebra.from_layers(v.view(), &mut back);
    assert!(rt; shows(back.view(), coefficients));
    Ok(())
}

// In the algebra of C2 the layer basis is 1 and g - 1, so g is their sum.
#[test]
fn writes_layer_coordinates_and_coefficients(rt: HostRuntime) -> Result<(), Fail> {
    let algebra = algebra_of(rt.alloc(), SmallGroup::Two)?;
    assert_coordinates(&rt, rt.alloc(), &algebra, &[0, 1], &[1, 1])
}

// The layer coordinates of the member with these coefficients.
fn layers_of(
    rt: &impl Abort,
    alloc: Global,
    algebra: &Algebra,
    coefficients: &[u8],
) -> Result<Row, Fail>
    ensures { IfOk result (λ r. (r.p ≡ prime_of algebra.now)
        × (length r.entries ≡ order_of algebra.now * 1)) }
{
    let a = member_of(rt, alloc, algebra, 1, coefficients)?;
    let mut out = zero_of(rt, alloc, algebra, 1)?;
    algebra.to_layers(a.view(), &mut out);
    assert_eq!(rt; out.len(), algebra.group().order() as usize);
    Ok(out)
}

// The element g times the member with the first coefficients is the member with the second.
fn assert_moves(
    rt: &impl Abort,
    alloc: Global,
    algebra: &Algebra,
    g: u16,
    coefficients: (&[u8], &[u8]),
) -> Result<(), Fail> {
    let v = layers_of(rt, alloc, algebra, coefficients.0)?;
    let mut out = zero_of(rt, alloc, algebra, 1)?;
    assert!(rt; g < algebra.group().order());
    algebra.act(1, g, v.view(), &mut out);
    assert_eq!(rt; out.len(), algebra.group().order() as usize);
    let mut moved = zero_of(rt, alloc, algebra, 1)?;
    algebra.from_layers(out.view(), &mut moved);
    assert!(rt; shows(moved.view(), coefficients.1));
    Ok(())
}

// In the quaternions i is 1, j is 2, i j = k is 3 and j i = -k is 7; and 1 (1 + i + j) = 1 + i + j.
#[test]
fn acts_from_the_left(rt: HostRuntime) -> Result<(), Fail> {
    let algebra = algebra_of(rt.alloc(), SmallGroup::Quaternion)?;
    let (j, k) = (&[0, 0, 1, 0, 0, 0, 0, 0], &[0, 0, 0, 1, 0, 0, 0, 0]);
    assert_moves(&rt, rt.alloc(), &algebra, 1, (j, k))?;
    let sum = &[1, 1, 1, 0, 0, 0, 0, 0];
    assert_moves(&rt, rt.alloc(), &algebra, 0, (sum, sum))
}

// Adds a v to the two blocks of old, and reads the sums of the coefficients of both blocks of v.
fn assert_added(
    rt: &impl Abort,
    alloc: Global,
    algebra: &Algebra,
    factors: (&[u8], &[u8]),
    blocks: (&[u8], &[u8]),
) -> Result<(), Fail> {
    let a = member_of(rt, alloc, algebra, 1, factors.0)?;
    let v = member_of(rt, alloc, algebra, 2, factors.1)?;
    let mut out = member_of(rt, alloc, algebra, 2, blocks.0)?;
    algebra.scale_add(2, a.view(), v.view(), &mut out);
    assert!(rt; shows(out.view(), blocks.1));
    Ok(())
}

// In the algebra of C2 the places of two blocks are 1, 1, g - 1, g - 1; (g - 1)^2 = 0, and g (g - 1) = g - 1.
#[test]
fn adds_products_to_two_blocks(rt: HostRuntime) -> Result<(), Fail> {
    let algebra = algebra_of(rt.alloc(), SmallGroup::Two)?;
    let v = &[1, 0, 0, 1];
    let (old, sum) = (&[0, 1, 0, 0], &[0, 1, 1, 0]);
    assert_added(&rt, rt.alloc(), &algebra, (&[0, 1], v), (old, sum))?;
    assert_added(
        &rt,
        rt.alloc(),
        &algebra,
        (&[1, 1], v),
        (sum, &[1, 1, 0, 1]),
    )
}

// The sums of the coefficients of both blocks of a member of the free module of rank 2.
fn assert_sums(
    rt: &impl Abort,
    alloc: Global,
    algebra: &Algebra,
    entries: &[u8],
    sums: (u8, u8),
) -> Result<(), Fail> {
    let v = member_of(rt, alloc, algebra, 2, entries)?;
    assert_eq!(rt; algebra.aug(2, 0, v.view()), sums.0);
    assert_eq!(rt; algebra.aug(2, 1, v.view()), sums.1);
    Ok(())
}

#[test]
fn sums_the_coefficients_of_blocks(rt: HostRuntime) -> Result<(), Fail> {
    let algebra = algebra_of(rt.alloc(), SmallGroup::Two)?;
    assert_sums(&rt, rt.alloc(), &algebra, &[1, 0, 0, 1], (1, 0))
}

// Two rows of kG.
fn two_rows(
    rt: &impl Abort,
    alloc: Global,
    algebra: &Algebra,
    rows: (&[u8], &[u8]),
) -> Result<Matrix, Fail>
    ensures prime { IfOk result (λ m. m.p ≡ prime_of algebra.now) }
    ensures width { IfOk result (λ m. m.width ≡ order_of algebra.now * 1) }
    ensures count { IfOk result (λ m. length m.rows ≡ 2) }
{
    let first = member_of(rt, alloc, algebra, 1, rows.0)?;
    let second = member_of(rt, alloc, algebra, 1, rows.1)?;
    let mut map = Matrix::new(alloc, algebra.group().prime(), first.len());
    map.push(first.view())?;
    map.push(second.view())?;
    Ok(map)
}

// The product of member k of the layer basis and v.
fn assert_multiplied(
    rt: &impl Abort,
    alloc: Global,
    algebra: &Algebra,
    k: usize,
    rows: (&[u8], &[u8]),
) -> Result<(), Fail> {
    let v = member_of(rt, alloc, algebra, 1, rows.0)?;
    let mut out = zero_of(rt, alloc, algebra, 1)?;
    assert!(rt; k < algebra.group().order() as usize);
    algebra.multiply_by_member(1, k, v.view(), &mut out);
    assert!(rt; shows(out.view(), rows.1));
    Ok(())
}

// In the algebra of C2, with x = g - 1 and x^2 = 0: 1 (1 + x) = 1 + x, and x (1 + x) = x.
#[test]
fn multiplies_by_members(rt: HostRuntime) -> Result<(), Fail> {
    let algebra = algebra_of(rt.alloc(), SmallGroup::Two)?;
    assert_multiplied(&rt, rt.alloc(), &algebra, 0, (&[1, 1], &[1, 1]))?;
    assert_multiplied(&rt, rt.alloc(), &algebra, 1, (&[1, 1], &[0, 1]))
}

// The value at v of the map to kG that takes the basis elements to 1 and 1 + x, where x = g - 1.
fn assert_applied(
    rt: &impl Abort,
    alloc: Global,
    algebra: &Algebra,
    v: &[u8],
    value: &[u8],
) -> Result<(), Fail> {
    let map = two_rows(rt, alloc, algebra, (&[1, 0], &[1, 1]))?;
    let v = member_of(rt, alloc, algebra, 2, v)?;
    assert!(rt; v.len() == algebra.group().order() as usize * 2);
    let mut out = zero_of(rt, alloc, algebra, 1)?;
    algebra.apply(1, &map, v.view(), &mut out);
    assert!(rt; shows(out.view(), value));
    Ok(())
}

// In the algebra of C2, with x^2 = 0: x 1 + (1 + x) (1 + x) = 1 + x, and 1 + (1 + x) = x.
#[test]
fn applies_maps_given_by_rows(rt: HostRuntime) -> Result<(), Fail> {
    let algebra = algebra_of(rt.alloc(), SmallGroup::Two)?;
    assert_applied(&rt, rt.alloc(), &algebra, &[0, 1, 1, 1], &[1, 1])?;
    assert_applied(&rt, rt.alloc(), &algebra, &[1, 1, 0, 0], &[0, 1])
}

// The same at the unit row of place j.
fn assert_applied_to_unit(
    rt: &impl Abort,
    alloc: Global,
    algebra: &Algebra,
    j: usize,
    value: &[u8],
) -> Result<(), Fail> {
    let map = two_rows(rt, alloc, algebra, (&[1, 0], &[1, 1]))?;
    let mut out = zero_of(rt, alloc, algebra, 1)?;
    assert!(rt; j < algebra.group().order() as usize * 2);
    algebra.apply_to_unit(1, &map, j, &mut out);
    assert!(rt; shows(out.view(), value));
    Ok(())
}

// There the values at the unit rows are 1, 1 + x, x 1 and x (1 + x).
#[test]
fn applies_maps_to_unit_rows(rt: HostRuntime) -> Result<(), Fail> {
    let algebra = algebra_of(rt.alloc(), SmallGroup::Two)?;
    assert_applied_to_unit(&rt, rt.alloc(), &algebra, 0, &[1, 0])?;
    assert_applied_to_unit(&rt, rt.alloc(), &algebra, 1, &[1, 1])?;
    assert_applied_to_unit(&rt, rt.alloc(), &algebra, 2, &[0, 1])?;
    assert_applied_to_unit(&rt, rt.alloc(), &algebra, 3, &[0, 1])
}

// Blocks, members and their places.
const PLACES: [(usize, usize, usize); 8] = [
    (0, 0, 0),
    (1, 0, 1),
    (0, 1, 2),
    (1, 1, 4),
    (1, 2, 5),
    (0, 3, 6),
    (1, 3, 9),
    (1, 8, 17),
];

// Layers of 1, 2, 3, 2 and 1 members, two blocks.
#[test]
fn places_layer_by_layer(rt: HostRuntime) -> Result<(), Fail> {
    let algebra = algebra_of(rt.alloc(), SmallGroup::Nine)?;
    for (block, member, place) in PLACES {
        assert!(rt; block < 2 && member < algebra.group().order() as usize);
        assert_eq!(rt;
            algebra.place(2, block, member),
            place,
            "member {member} of block {block}"
        );
    }
    Ok(())
}
