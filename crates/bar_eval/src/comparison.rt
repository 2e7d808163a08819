//! The comparison map from the normalised bar complex of a p-group to its minimal resolution, at one tuple.

ghost use Rattle.std.specs.Prelude.{◌≡◌, ◌≤◌, ◌<◌, ℕ, suc, [], All, IfOk, length};
ghost use Rattle.bar_eval.specs.Comparison.{boundary_row, compared_row};
ghost use Rattle.p_groups.specs.PGroups.{order_of, prime_of};

use crate::faces::{face, sign};
use fp_rows::Row;
use group_algebra::Algebra;
use group_table::Memory;
use min_res::Resolution;
use std::alloc::Global;

// The element 1 of the group algebra.
fn one(alloc: Global, algebra: &Algebra) -> Result<Row, Memory>
    ensures prime { IfOk result (λ r. r.p ≡ prime_of algebra.now) }
    ensures value { IfOk result (λ r. r.entries ≡ compared_row algebra.now 0 []) }
{
    let prime = algebra.group().prime();
    let order = algebra.group().order() as usize;
    let mut unit = Row::zero(alloc, prime, order)?;
    let mut layers = Row::zero(alloc, prime, order)?;
    unit.set_unit(0);
    algebra.to_layers(unit.view(), &mut layers);
    Ok(layers)
}

/// Where the comparison map takes a tuple of at most `last` elements: the empty one to 1, one with an
/// identity entry to 0, and each other to the section of what the boundary goes to.
///
/// It calls itself for each face, so that a tuple of d elements costs at most (d + 1)! sections, and fewer
/// where faces have identity entries. It holds at most three rows of each of the free modules of degrees 0
/// to d at once, beside the resolution.
#[cycle(comparison)]
pub(crate) fn compared(alloc: Global, res: &Resolution, tuple: &[u16]) -> Result<Row, Memory>
    requires within { length tuple.now ≤ res.now.last }
    requires elements { All (λ x. x < order_of res.now.group) tuple.now }
    ensures prime { IfOk result (λ r. r.p ≡ prime_of res.now.group) }
    ensures value { IfOk result (λ r. r.entries
        ≡ compared_row res.now.group (length tuple.now) tuple.now) }
{
    if tuple.is_empty() {
        return one(alloc, res.algebra());
    }
    let _last = res.last();
    let d = tuple.len() as u32;
    let prime = res.algebra().group().prime();
    let mut lifted = Row::zero(alloc, prime, res.stage_at(d).kernel().width())?;
    if tuple.contains(&0) {
        return Ok(lifted);
    }
    let boundary = compared_boundary(alloc, res, tuple)?;
    res.section(d, boundary.view(), &mut lifted);
    Ok(lifted)
}

// Where the comparison map takes the boundary of a tuple of at least one element.
#[cycle(comparison)]
fn compared_boundary(alloc: Global, res: &Resolution, tuple: &[u16]) -> Result<Row, Memory>
    requires some { 0 < length tuple.now }
    requires within { length tuple.now ≤ res.now.last }
    requires elements { All (λ x. x < order_of res.now.group) tuple.now }
    ensures prime { IfOk result (λ r. r.p ≡ prime_of res.now.group) }
    ensures value { IfOk result (λ r. (d : ℕ) → length tuple.now ≡ suc d
        → r.entries ≡ boundary_row res.now.group d tuple.now) }
{
    let algebra = res.algebra();
    let prime = algebra.group().prime();
    let _last = res.last();
    let before = res.stage_at(tuple.len() as u32 - 1);
    let mut sum = Row::zero(alloc, prime, before.kernel().width())?;
    let rest = compared(alloc, res, &tuple[1..])?;
    algebra.act(before.rank(), tuple[0], rest.view(), &mut sum);
    for i in 0..tuple.len() {
        let face = face(alloc, algebra.group(), tuple, i)?;
        let value = compared(alloc, res, &face)?;
        sum.add(sign(prime, i), value.view());
    }
    Ok(sum)
}
