//! Records that a resolution takes up, and records that it refuses.

ghost use Rattle.std.specs.Prelude.{◌<◌, ◌+◌, ◌^◌, length};
ghost use Rattle.stage_file.specs.Honest.{IsShapeAt};

use group_algebra::Algebra;
use group_table::{Group, Memory, Prime};
use min_res::{AdoptFault, Resolution};
use sha2::{Digest, Sha256};
use small_groups::SmallGroup;
use stage_file::{Record, Shape, next_record};
use std::alloc::Global;
use std::process::Abort;
use std::test::Fail;

/// The resolution of a group with the stage of degree 0 alone.
fn started(alloc: Global, kind: SmallGroup) -> Result<Resolution, Fail> {
    let algebra = Algebra::build(alloc, &kind.group(alloc)?)?;
    Ok(Resolution::start(alloc, algebra)?)
}

/// The record with this body: its length stands before it, and its digest behind it.
fn sealed(alloc: Global, body: &[u8]) -> Result<Vec<u8>, Memory>
    requires { length body.now + 32 < 2 ^ 32 }
{
    let mut bytes = Vec::new(alloc);
    bytes.extend_from_slice(&(body.len() as u32 + 32).to_be_bytes())?;
    bytes.extend_from_slice(body)?;
    bytes.extend_from_slice(&Sha256::digest(body))?;
    Ok(bytes)
}

/// The shape of the record after the last stage.
fn shape_after(rt: &impl Abort, resolution: &Resolution) -> Shape
    ensures { IsShapeAt resolution.now.group resolution.now.last result }
{
    let group = resolution.algebra().group();
    let last = resolution.last();
    let rows = resolution.stage_at(last).kernel().rows();
    assert!(rt; last < 24);
    assert!(rt; rows <= 4096);
    Shape {
        p: group.prime(),
        order: group.order(),
        degree: last as u16 + 1,
        previous: rows as u32,
    }
}

/// Takes the record up, where it is whole.
fn adopt(
    rt: &impl Abort,
    resolution: &mut Resolution,
    bytes: &[u8],
) -> Option<Result<(), AdoptFault>> {
    let shape = shape_after(rt, resolution);
    assert!(rt; resolution.last() < 24);
    match next_record(bytes, &shape) {
        Record::Whole(parts) => Some(resolution.adopt(&parts)),
        Record::Cut | Record::Malformed(_) => None,
    }
}

/// What comes of the record with this body in degree 1.
fn first(
    rt: &impl Abort,
    alloc: Global,
    kind: SmallGroup,
    body: &[u8],
) -> Result<Option<Result<(), AdoptFault>>, Fail> {
    let mut resolution = started(alloc, kind)?;
    assert!(rt; body.len() < 1000);
    let bytes = sealed(alloc, body)?;
    let taken = adopt(rt, &mut resolution, &bytes);
    Ok(taken)
}

/// The fault of a check at its first row.
fn fails(check: u8) -> Option<Result<(), AdoptFault>> {
    Some(Err(AdoptFault::False { check, row: 0 }))
}

/// What comes of the record of degree 1 over the group of two elements with this kernel and section.
fn first_of_two(
    rt: &impl Abort,
    alloc: Global,
    kernel: [u8; 2],
    section: [u8; 2],
) -> Result<Option<Result<(), AdoptFault>>, Fail> {
    let [k0, k1] = kernel;
    let [s0, s1] = section;
    let body = [0, 1, 0, 1, 0, 1, k0, k1, s0, s1];
    first(rt, alloc, SmallGroup::Two, &body)
}

/// With the basis 1 and x = g - 1 the boundary takes 1 to x, and x to 0.
#[test]
fn refuses_altered_records(rt: HostRuntime) -> Result<(), Fail> {
    let alloc = rt.alloc();
    let taken = Some(Ok(()));
    assert_eq!(rt; first_of_two(&rt, alloc, [0, 1], [1, 0])?, taken);
    assert_eq!(rt; first_of_two(&rt, alloc, [0, 0], [1, 0])?, fails(1));
    assert_eq!(rt; first_of_two(&rt, alloc, [1, 0], [1, 0])?, fails(2));
    assert_eq!(rt; first_of_two(&rt, alloc, [0, 1], [0, 1])?, fails(3));
    assert_eq!(rt; first_of_two(&rt, alloc, [0, 1], [1, 1])?, fails(4));
    Ok(())
}

/// Over the cyclic group of order 4 with x = g - 1 the layer basis is 1, x, x^2 + x^3, x^3. The boundary from
/// two basis elements to x and x^2 + x^3 is onto, and its kernel is not in the radical.
const TOO_MANY: [u8; 72] = [
    0, 1, 0, 2, 0, 1, 0, 2, // degree, rank, positions
    0, 1, 1, 0, 1, 0, 0, 0, // the kernel
    0, 0, 0, 1, 1, 0, 0, 0, //
    0, 0, 0, 0, 0, 1, 0, 0, //
    0, 0, 0, 0, 0, 0, 1, 0, //
    0, 0, 0, 0, 0, 0, 0, 1, //
    1, 0, 0, 0, 0, 0, 0, 0, // the sections
    0, 0, 1, 0, 1, 0, 0, 0, //
    0, 0, 0, 0, 1, 0, 0, 0, //
];

#[test]
fn refuses_rows_that_are_not_minimal(rt: HostRuntime) -> Result<(), Fail> {
    assert_eq!(rt;
        first(&rt, rt.alloc(), SmallGroup::Four, &TOO_MANY)?,
        fails(5)
    );
    Ok(())
}

/// The product of cyclic groups of order 4 and 2: element a + 2 b + 4 c is the product of g^a, h^b and g^2c.
const FOUR_BY_TWO: [u16; 64] = [
    0, 1, 2, 3, 4, 5, 6, 7, //
    1, 4, 3, 6, 5, 0, 7, 2, //
    2, 3, 0, 1, 6, 7, 4, 5, //
    3, 6, 1, 4, 7, 2, 5, 0, //
    4, 5, 6, 7, 0, 1, 2, 3, //
    5, 0, 7, 2, 1, 4, 3, 6, //
    6, 7, 4, 5, 2, 3, 0, 1, //
    7, 2, 5, 0, 3, 6, 1, 4, //
];

// Rows of degree 2 over this group, bit j for the entry at place j, from a plain calculation apart from this
// program: the kernel and the sections for the rows 1, 2, 3 of the list before, and those for 1, 2, 5. Rows 3
// and 5 differ by a member of J times the kernel.
const KERNEL: [u32; 15] = [
    0x30, 0x40, 0x480, 0x9100, 0x9200, 0x20800, 0x22000, 0xc000, 0x30000, 0x40000, 0x80000,
    0x100000, 0x200000, 0x400000, 0x800000,
];

const SECTIONS: [u32; 9] = [
    0x1, 0x2, 0x4, 0x20020, 0x900c, 0x20400, 0x1000, 0x8000, 0x20000,
];

const LATER_KERNEL: [u32; 15] = [
    0x30, 0x40, 0x80, 0x8100, 0x9200, 0x20800, 0x2000, 0x4000, 0x30000, 0x40000, 0x80000, 0x100000,
    0x200000, 0x400000, 0x800000,
];

const LATER_SECTIONS: [u32; 9] = [
    0x1, 0x2, 0x900c, 0x20020, 0x4, 0x20400, 0x1000, 0x8000, 0x20000,
];

fn four_by_two(rt: &impl Abort, alloc: Global) -> Result<Resolution, Fail> {
    let mut table = Vec::new(alloc);
    table.extend_from_slice(&FOUR_BY_TWO)?;
    assert_eq!(rt; table.len(), 64);
    assert!(rt; table.iter().all(|e| *e < 8));
    let algebra = Algebra::build(alloc, &Group::from_table(alloc, Prime::P2, 3, table)?)?;
    let mut resolution = Resolution::start(alloc, algebra)?;
    assert!(rt; resolution.last() < 24);
    resolution.extend(4096)?;
    Ok(resolution)
}

fn push_bits(out: &mut Vec<u8>, rows: &[u32]) -> Result<(), Memory> {
    for row in rows {
        for j in 0..24u32 {
            out.push(((*row >> j) & 1) as u8)?;
        }
    }
    Ok(())
}

/// What comes of the record of degree 2 with these positions, rows of the kernel and sections.
fn second(
    rt: &impl Abort,
    alloc: Global,
    positions: [u8; 3],
    kernel: &[u32],
    sections: &[u32],
) -> Result<Option<Result<(), AdoptFault>>, Fail> {
    let mut resolution = four_by_two(rt, alloc)?;
    let [a, b, c] = positions;
    let mut body = Vec::new(alloc);
    body.extend_from_slice(&[0, 2, 0, 3, 0, a, 0, b, 0, c])?;
    push_bits(&mut body, kernel)?;
    push_bits(&mut body, sections)?;
    assert!(rt; body.len() < 1000);
    let bytes = sealed(alloc, &body)?;
    let taken = adopt(rt, &mut resolution, &bytes);
    Ok(taken)
}

#[test]
fn refuses_rows_that_come_later(rt: HostRuntime) -> Result<(), Fail> {
    let alloc = rt.alloc();
    assert_eq!(rt;
        second(&rt, alloc, [1, 2, 3], &KERNEL, &SECTIONS)?,
        Some(Ok(()))
    );
    let later = second(&rt, alloc, [1, 2, 5], &LATER_KERNEL, &LATER_SECTIONS)?;
    assert_eq!(rt; later, Some(Err(AdoptFault::False { check: 6, row: 2 })));
    Ok(())
}
