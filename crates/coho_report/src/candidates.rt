//! Candidates for parameters.

ghost use Rattle.std.specs.Prelude.{◌≡◌, ◌-◌, ◌≤◌, ◌<◌, List, length, IfOk};
ghost use Rattle.limits.specs.declared.TheConstants.{GREATEST_DEGREE};
ghost use Rattle.group_table.specs.Prime.{prime_value};
ghost use Rattle.p_groups.specs.PGroups.{largest_residue, prime_of};
ghost use Rattle.graded_polynomials.specs.Monomials.{is_exterior};
ghost use Rattle.graded_polynomials.specs.Polynomials.{Polynomial};
ghost use Rattle.linear_algebra.specs.Rows.{entry, combination_row};
ghost use Rattle.fp_rows.specs.Refs.{entries_of, modulus_of};
ghost use Rattle.min_res.specs.Stages.{rank_of};
ghost use Rattle.presentation_rows.specs.Values.{AreValues};
ghost use Rattle.ring_present.specs.Rings.{cohomology};
ghost use Rattle.ring_present.specs.Standard.{AreStandard};
ghost use Rattle.ring_present.specs.Values.{generators_of, standard_of};
ghost use Rattle.coho_report.specs.Candidates.{AreCandidates, AreCandidatesIn, AreCombinations};
ghost use Rattle.coho_report.specs.OwnRings.{IsRingThrough};
ghost use Rattle.coho_report.specs.Related.{AreRelated};
ghost use Rattle.coho_report.specs.Restrictors.{IsClassOf};

use fp_rows::{Matrix, Row, RowRef};
use group_table::{Memory, Prime};
use min_res::Resolution;
use param_test::combinations;
use ring_present::Ring;
use std::alloc::Global;

/// A class that may be a parameter: its degree and its row over the dual basis.
#[derive(Drop)]
pub(crate) struct Candidate {
    pub(crate) degree: u32,
    pub(crate) class: Row,
}

// The classes of the standard monomials of degree d.
fn standard_classes(alloc: Global, res: &Resolution, ring: &Ring, d: u32) -> Result<Matrix, Memory>
    requires ring { IsRingThrough res.now.group ring.now.degree ring.now }
    requires within { ring.now.degree ≤ res.now.last }
    requires from { 1 ≤ d }
    requires to { d ≤ ring.now.degree }
    ensures prime { IfOk result (λ m. m.p ≡ prime_of res.now.group) }
    ensures width { IfOk result (λ m. m.width ≡ rank_of res.now.group d) }
    ensures values { IfOk result (λ m. AreValues (largest_residue res.now.group) (cohomology res.now.group)
        (generators_of (largest_residue res.now.group) ring.now.generators) (standard_of ring.now d) m.rows) }
    ensures standard { IfOk result (λ _. AreStandard (largest_residue res.now.group)
        (cohomology res.now.group)
        (generators_of (largest_residue res.now.group) ring.now.generators) d (standard_of ring.now d)) }
{
    let rank = res.stage_at(d).rank();
    let mut classes = Matrix::new(alloc, ring.gens().prime(), rank);
    for i in 0..ring.standard(d).len() {
        classes.push(ring.standard_class(d, i))?;
    }
    Ok(classes)
}

// The sum of the classes with these coefficients.
fn sum_of(alloc: Global, classes: &Matrix, coefficients: RowRef<'_>) -> Result<Row, Memory>
    requires prime { modulus_of coefficients ≡ classes.now.p }
    requires length { length (entries_of coefficients) ≡ length classes.now.rows }
    ensures { IfOk result (λ r. r ≡ record {
      p = classes.now.p;
      entries = combination_row classes.now.p classes.now.width (entry (entries_of coefficients.entry))
          classes.now.rows;
    }) }
{
    let mut sum = Row::zero(alloc, classes.prime(), classes.width())?;
    classes.combine(coefficients, &mut sum);
    Ok(sum)
}

// The candidates of degree d.
fn candidates_of(
    alloc: Global,
    res: &Resolution,
    ring: &Ring,
    d: u32,
) -> Result<Vec<Candidate>, Memory>
    requires ring { IsRingThrough res.now.group ring.now.degree ring.now }
    requires within { ring.now.degree ≤ res.now.last }
    requires from { 1 ≤ d }
    requires to { d ≤ ring.now.degree }
    ensures { IfOk result (λ v. (fs : List Polynomial) × AreCombinations res.now.group
        (generators_of (largest_residue res.now.group) ring.now.generators) d fs
        × AreRelated (IsClassOf res.now.group ring.now.degree
        (generators_of (largest_residue res.now.group) ring.now.generators)) fs v.items) }
{
    let classes = standard_classes(alloc, res, ring, d)?;
    let combos = combinations(alloc, classes.prime(), classes.rows())?;
    let mut candidates = Vec::new(alloc);
    for i in 0..combos.len() {
        let class = sum_of(alloc, &classes, combos.get(i))?;
        candidates.push(Candidate { degree: d, class })?;
    }
    Ok(candidates)
}

// Whether a class of degree d has square 0 by its degree.
fn is_exterior(p: Prime, d: u32) -> bool
    ensures { result ≡ is_exterior (prime_value p - 1) d }
{
    p != Prime::P2 && d % 2 == 1
}

// The candidates of degree d: none of odd degree for odd p.
fn candidates_in(
    alloc: Global,
    res: &Resolution,
    ring: &Ring,
    d: u32,
) -> Result<Vec<Candidate>, Memory>
    requires ring { IsRingThrough res.now.group ring.now.degree ring.now }
    requires within { ring.now.degree ≤ res.now.last }
    requires from { 1 ≤ d }
    requires to { d ≤ ring.now.degree }
    ensures { IfOk result (λ v. (fs : List Polynomial) × AreCandidatesIn res.now.group
        (generators_of (largest_residue res.now.group) ring.now.generators) d fs
        × AreRelated (IsClassOf res.now.group ring.now.degree
        (generators_of (largest_residue res.now.group) ring.now.generators)) fs v.items) }
{
    if is_exterior(ring.gens().prime(), d) {
        return Ok(Vec::new(alloc));
    }
    candidates_of(alloc, res, ring, d)
}

/// The candidates of the degrees from 1 to that of the ring.
pub(crate) fn candidates(
    alloc: Global,
    res: &Resolution,
    ring: &Ring,
) -> Result<Vec<Candidate>, Memory>
    requires ring { IsRingThrough res.now.group ring.now.degree ring.now }
    requires within { ring.now.degree ≤ res.now.last }
    requires high { ring.now.degree ≤ GREATEST_DEGREE }
    ensures { IfOk result (λ v. (fs : List Polynomial) × AreCandidates res.now.group
        (generators_of (largest_residue res.now.group) ring.now.generators) ring.now.degree fs
        × AreRelated (IsClassOf res.now.group ring.now.degree
        (generators_of (largest_residue res.now.group) ring.now.generators)) fs v.items) }
{
    let mut candidates = Vec::new(alloc);
    for below in 0..ring.degree() {
        candidates.append(&mut candidates_in(alloc, res, ring, below + 1)?)?;
    }
    Ok(candidates)
}
