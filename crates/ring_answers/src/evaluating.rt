//! The value of the cocycle of a basis class at group elements.

ghost use Rattle.std.specs.Prelude.{◌≡◌, ◌<◌, ◌≤◌, ◌∷◌, [], All, IfErr, IfOk, OnOk, codes, length, nat_le};
ghost use Rattle.std.specs.List.{find};
ghost use Rattle.p_groups.specs.PGroups.{order_of, prime_of};
ghost use Rattle.ring_answers.specs.Evaluating.{HasClass, IsClassRefusal, IsValue, basis_class};
ghost use Rattle.ring_answers.specs.Answers.{FitElements};
ghost use Rattle.coho_steps.specs.Lines.{line, contents};
ghost use Rattle.coho_steps.specs.Loading.{order};
ghost use Rattle.coho_steps.specs.Stops.{IsRefused, Settles};

use bar_eval::value;
use coho_steps::{Cause, Stop};
use fp_rows::Row;
use min_res::Resolution;
use pc_group::Consistent;
use std::alloc::{AllocError, Global};

// The first element that is not below the order.
fn first_above(order: u16, elements: &[u16]) -> Option<u16>
    ensures { result ≡ find (nat_le order) elements.now }
{
    elements.iter().copied().find(|element| order <= *element)
}

/// Each element is below the order of the group.
pub fn fit_elements<'a>(consistent: &Consistent, elements: &[u16]) -> Result<(), Stop<'a>>
    ensures step { Settles (λ _. tt) (FitElements consistent.now elements.now) result }
    ensures below { OnOk result (All (λ e. e < order consistent.now) elements.now) }
{
    let order = consistent.group().order();
    match first_above(order, elements) {
        Some(element) => Err(Stop::Refused(Cause::Element { element, order })),
        None => Ok(()),
    }
}

// Basis class k of degree d, counted from 1.
fn basis_class<'a>(
    alloc: Global,
    resolution: &Resolution,
    degree: u32,
    class: u16,
) -> Result<Row, Stop<'a>>
    requires degree { degree ≤ resolution.now.last }
    requires class { 1 ≤ class }
    ensures prime { IfOk result (λ row. row.p ≡ prime_of resolution.now.group) }
    ensures found { IfOk result (λ row. row.entries ≡ basis_class resolution.now.group degree class) }
    ensures has { IfOk result (λ row. HasClass resolution.now.group degree class) }
    ensures refused { IfErr result (IsRefused (IsClassRefusal resolution.now.group degree class)) }
{
    let count = resolution.stage_at(degree).rank();
    if usize::from(class) > count {
        return Err(Stop::Refused(Cause::Class { degree, count }));
    }
    let prime = resolution.algebra().group().prime();
    let mut row = Row::zero(alloc, prime, count)?;
    row.set_unit(usize::from(class) - 1);
    Ok(row)
}

/// The value of the cocycle of basis class k, counted from 1, at elements, as many as its degree.
pub fn basis_value<'a>(
    alloc: Global,
    resolution: &Resolution,
    class: u16,
    elements: &[u16],
) -> Result<u8, Stop<'a>>
    requires within { length elements.now ≤ resolution.now.last }
    requires class { 1 ≤ class }
    requires below { All (λ e. e < order_of resolution.now.group) elements.now }
    ensures value { IfOk result (IsValue resolution.now.group class elements.now) }
    ensures has { IfOk result (λ v. HasClass resolution.now.group (length elements.now) class) }
    ensures refused { IfErr result
        (IsRefused (IsClassRefusal resolution.now.group (length elements.now) class)) }
{
    let _last = resolution.last();
    let row = basis_class(alloc, resolution, elements.len() as u32, class)?;
    Ok(value(alloc, resolution, row.view(), elements)?)
}

/// The line of the answer to `value`.
pub fn value_lines(alloc: Global, value: u8) -> Result<Vec<Vec<u8>>, AllocError>
    ensures { IfOk result (λ lines. contents lines.items ≡ line (codes "value ") value ∷ []) }
{
    let mut lines = Vec::new(alloc);
    lines.push(format!(in alloc; "value {value}\n")?.into_bytes())?;
    Ok(lines)
}
