//! Rings worked out by hand.

ghost use Rattle.std.specs.Prelude.{◌≡◌, ◌≤◌, ◌<◌, IfSome, length};
ghost use Rattle.ring_present.specs.Values.{standard_of};

use fp_rows::RowRef;
use group_algebra::Algebra;
use group_table::{Group, Memory};
use limits::{GREATEST_DEGREE, GREATEST_DIMENSION};
use min_res::Resolution;
use ring_present::Ring;
use small_groups::SmallGroup;
use std::alloc::Global;
use std::process::Abort;
use std::test::Fail;

// The stage of degree 0 of this group.
fn started(alloc: Global, group: &Group) -> Result<Resolution, Memory> {
    let algebra = Algebra::build(alloc, group)?;
    Resolution::start(alloc, algebra)
}

// The stages of this group up to this degree.
fn resolved(
    rt: &impl Abort,
    alloc: Global,
    group: &Group,
    last: u32,
) -> Result<Resolution, Memory> {
    let mut resolution = started(alloc, group)?;
    for _d in 0..last {
        assert!(rt; resolution.last() < GREATEST_DEGREE);
        assert!(rt; resolution.extend(GREATEST_DIMENSION).is_ok());
    }
    Ok(resolution)
}

// The ring through a degree.
fn presented(rt: &impl Abort, alloc: Global, resolution: &Resolution, degree: u32) -> Ring
    ensures { IfSome result.group (λ G. G ≡ resolution.now.group) }
{
    let mut ring = Ring::start(alloc, resolution.algebra().group().prime());
    for _d in 0..degree {
        assert!(rt; ring.degree() < GREATEST_DEGREE && ring.degree() < resolution.last());
        assert!(rt; ring.add_degree(resolution).is_ok());
    }
    ring
}

fn has_generators(ring: &Ring, degrees: &[u32]) -> bool {
    let gens = ring.gens();
    if gens.len() != degrees.len() {
        return false;
    }
    for i in 0..gens.len() {
        if gens.degree(i) != degrees[i] {
            return false;
        }
    }
    true
}

// Whether the relations have so many terms.
fn has_relations(ring: &Ring, terms: &[usize]) -> bool {
    if ring.relations() != terms.len() {
        return false;
    }
    for i in 0..ring.relations() {
        if ring.relation(i).terms() != terms[i] {
            return false;
        }
    }
    true
}

// Whether standard monomial i of degree d is the normal form of its class.
fn is_normal_form(alloc: Global, ring: &Ring, d: u32, i: usize) -> Result<bool, Memory>
    requires from { 1 ≤ d }
    requires to { d ≤ ring.now.degree }
    requires within { i < length (standard_of ring.now d) }
{
    let monomial = ring.standard(d).get(i);
    let form = ring.normal_form(alloc, d, ring.standard_class(d, i))?;
    Ok(form.terms() == 1 && form.coefficient(0) == 1 && form.mono(0) == monomial)
}

// Whether there are so many standard monomials of degree d, and each is the normal form of its class.
fn has_standard(alloc: Global, ring: &Ring, d: u32, count: usize) -> Result<bool, Memory>
    requires from { 1 ≤ d }
    requires to { d ≤ ring.now.degree }
{
    for i in 0..ring.standard(d).len() {
        if !is_normal_form(alloc, ring, d, i)? {
            return Ok(false);
        }
    }
    Ok(ring.standard(d).len() == count)
}

fn shows(r: RowRef<'_>, entries: &[u8]) -> bool {
    if r.len() != entries.len() {
        return false;
    }
    for i in 0..r.len() {
        if r.get(i) != entries[i] {
            return false;
        }
    }
    true
}

// What the ring of a group through a degree has: generators of these degrees, the last with this class,
// relations of so many terms, so many standard monomials of degree 1, of degree 2 and so on, and so many
// candidates of the last degree.
#[derive(Clone, Copy)]
struct Case<'a> {
    generators: &'a [u32],
    class: &'a [u8],
    relations: &'a [usize],
    standard: &'a [usize],
    candidates: usize,
}

fn has_last_class(ring: &Ring, class: &[u8]) -> bool {
    let count = ring.gens().len();
    count > 0 && shows(ring.class_of(count - 1), class)
}

// Whether there are so many standard monomials of degree 1, of degree 2 and so on.
fn has_all_standard(
    rt: &impl Abort,
    alloc: Global,
    ring: &Ring,
    counts: &[usize],
) -> Result<bool, Memory> {
    assert!(rt; counts.len() <= ring.degree() as usize);
    for i in 0..counts.len() {
        if !has_standard(alloc, ring, i as u32 + 1, counts[i])? {
            return Ok(false);
        }
    }
    Ok(true)
}

// Whether the ring is as in the case.
fn is_ring(rt: &impl Abort, alloc: Global, ring: &Ring, case: Case<'_>) -> Result<bool, Memory> {
    let standard = has_all_standard(rt, alloc, ring, case.standard)?;
    Ok(
        standard
            && has_generators(ring, case.generators)
            && has_last_class(ring, case.class)
            && has_relations(ring, case.relations)
            && ring.candidates().len() == case.candidates,
    )
}

// The same of the ring of a group.
fn is_ring_of(
    rt: &impl Abort,
    alloc: Global,
    group: &Group,
    case: Case<'_>,
) -> Result<bool, Memory> {
    assert!(rt; case.standard.len() <= 24);
    let degree = case.standard.len() as u32;
    let resolution = resolved(rt, alloc, group, degree)?;
    let ring = presented(rt, alloc, &resolution, degree);
    is_ring(rt, alloc, &ring, case)
}

// The relations are xx + xy + yy and yyy.
#[test]
fn presents_the_ring_of_the_quaternion_group(rt: HostRuntime) -> Result<(), Fail> {
    let case = Case {
        generators: &[1, 1, 4],
        class: &[1],
        relations: &[3, 1],
        standard: &[2, 2, 1, 1],
        candidates: 1,
    };
    let group = SmallGroup::Quaternion.group(rt.alloc())?;
    let found = is_ring_of(&rt, rt.alloc(), &group, case)?;
    assert!(rt; found);
    Ok(())
}

#[test]
fn presents_the_ring_of_the_group_of_order_three(rt: HostRuntime) -> Result<(), Fail> {
    let case = Case {
        generators: &[1, 2],
        class: &[1],
        relations: &[],
        standard: &[1, 1],
        candidates: 1,
    };
    let group = SmallGroup::Three.group(rt.alloc())?;
    let found = is_ring_of(&rt, rt.alloc(), &group, case)?;
    assert!(rt; found);
    Ok(())
}
