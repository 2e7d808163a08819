//! The members of the layer basis, and the products with them.

ghost use Rattle.std.specs.Prelude.{◌≡◌, ◌++◌, ◌+◌, ◌*◌, ◌<◌, ◌≤◌, ℕ, length, map, IfOk, OnOk};
ghost use Rattle.radical_layers.specs.LayerBasis.{layer_basis as basis_rows};
ghost use Rattle.linear_algebra.specs.Rows.{combination_row, entry, row};
ghost use Rattle.group_algebra.specs.Coordinates.{layers};
ghost use Rattle.group_algebra.specs.Tables.{HasShape, AreMembers, TakesSumsToLayers, IsElementRow};
ghost use Rattle.group_algebra.specs.Tables.{IsTranslateRow, IsProductRow, EachRow};
ghost use Rattle.p_groups.specs.PGroups.{order_of};

use crate::coefficients::{write_coefficients, write_sum_coordinates, write_translate};
use crate::p_group::PGroup;
use crate::powers::whole_list;
use fp_rows::{Matrix, Row, kernel, preimages};
use group_table::Memory;
use std::alloc::Global;

/// The coefficients of the members of the layer basis, from their sum coordinates.
pub(crate) fn member_rows(alloc: Global, group: &PGroup, basis: &Matrix) -> Result<Matrix, Memory>
    requires basis { HasShape group.now (order_of group.now) basis.now }
    requires rows { basis.now.rows ≡ basis_rows (layers group.now) }
    ensures shape { IfOk result (λ m. HasShape group.now (order_of group.now) m) }
    ensures members { IfOk result (λ m. AreMembers group.now m.rows) }
{
    let p = group.prime();
    let n = group.order() as usize;
    let mut m = Matrix::new(alloc, p, n);
    let mut a = Row::zero(alloc, p, n)?;
    for row in basis {
        write_coefficients(p, row.view(), &mut a);
        m.push(a.view())?;
    }
    Ok(m)
}

/// The rows that take sum coordinates to layer coordinates: the combinations of the members that give the
/// unit rows.
pub(crate) fn unit_preimages(
    alloc: Global,
    group: &PGroup,
    basis: &Matrix,
) -> Result<Matrix, Memory>
    requires basis { HasShape group.now (order_of group.now) basis.now }
    requires rows { basis.now.rows ≡ basis_rows (layers group.now) }
    ensures shape { IfOk result (λ m. HasShape group.now (order_of group.now) m) }
    ensures rows { IfOk result (λ m. TakesSumsToLayers group.now m.rows) }
{
    let whole = whole_list(alloc, group)?;
    let none = kernel(alloc, basis)?;
    preimages(alloc, basis, &whole, &none)
}

/// The layer coordinates of the elements of the group.
pub(crate) fn element_rows(alloc: Global, group: &PGroup, units: &Matrix) -> Result<Matrix, Memory>
    requires units { HasShape group.now (order_of group.now) units.now }
    requires rows { TakesSumsToLayers group.now units.now.rows }
    ensures shape { IfOk result (λ m. HasShape group.now (order_of group.now) m) }
    ensures rows { IfOk result (λ m. EachRow (IsElementRow group.now) m.rows) }
{
    let p = group.prime();
    let n = group.order() as usize;
    let mut m = Matrix::new(alloc, p, n);
    let mut a = Row::zero(alloc, p, n)?;
    let mut sums = Row::zero(alloc, p, n)?;
    let mut out = Row::zero(alloc, p, n)?;
    for g in 0..n {
        a.set_unit(g);
        write_sum_coordinates(a.view(), &mut sums);
        units.combine(sums.view(), &mut out);
        m.push(out.view())?;
    }
    Ok(m)
}

/// The layer coordinates of g times member k of the layer basis, at the position k n + g.
pub(crate) fn translate_rows(
    alloc: Global,
    group: &PGroup,
    members: &Matrix,
    elements: &Matrix,
) -> Result<Matrix, Memory>
    requires members { HasShape group.now (order_of group.now) members.now }
    requires member_rows { AreMembers group.now members.now.rows }
    requires elements { HasShape group.now (order_of group.now) elements.now }
    requires element_rows { EachRow (IsElementRow group.now) elements.now.rows }
    ensures shape { IfOk result (λ m. HasShape group.now (order_of group.now * order_of group.now) m) }
    ensures rows { IfOk result (λ m. EachRow (IsTranslateRow group.now) m.rows) }
{
    let p = group.prime();
    let n = group.order() as usize;
    let mut m = Matrix::new(alloc, p, n);
    let mut moved = Row::zero(alloc, p, n)?;
    let mut out = Row::zero(alloc, p, n)?;
    for i in 0..n * n {
        write_translate(
            group.as_group(),
            (i % n) as u16,
            members.row(i / n),
            &mut moved,
        );
        elements.combine(moved.view(), &mut out);
        m.push(out.view())?;
    }
    Ok(m)
}

// The rows from number `from` on, up to number `to`.
fn rows_between(alloc: Global, rows: &Matrix, from: usize, to: usize) -> Result<Matrix, Memory>
    requires ordered { from ≤ to }
    requires inside { to ≤ length rows.now.rows }
    ensures prime { IfOk result (λ m. m.p ≡ rows.now.p) }
    ensures width { IfOk result (λ m. m.width ≡ rows.now.width) }
    ensures count { IfOk result (λ m. from + length m.rows ≡ to) }
    ensures rows { IfOk result (λ m. (k : ℕ) → from + k < to → row m.rows k ≡ row rows.now.rows (from + k)) }
{
    let mut m = Matrix::new(alloc, rows.prime(), rows.width());
    for i in from..to {
        m.push(rows.row(i))?;
    }
    Ok(m)
}

// Appends the combinations of the rows with each of these rows of coefficients.
fn push_combinations(
    alloc: Global,
    coefficients: &Matrix,
    rows: &Matrix,
    m: &mut Matrix,
) -> Result<(), Memory>
    requires primes { (coefficients.now.p ≡ rows.now.p) × (m.old.p ≡ rows.now.p) }
    requires coefficient_count { coefficients.now.width ≡ length rows.now.rows }
    requires same_width { m.old.width ≡ rows.now.width }
    ensures { OnOk result (m.new
        ≡ record m.old {
          rows = m.old.rows
              ++ map (λ c. combination_row rows.now.p rows.now.width
              (entry c) rows.now.rows) coefficients.now.rows;
        }) }
{
    let mut out = Row::zero(alloc, m.prime(), m.width())?;
    for c in coefficients {
        rows.combine(c.view(), &mut out);
        m.push(out.view())?;
    }
    Ok(())
}

/// The layer coordinates of member k times member l of the layer basis, at the position l n + k.
pub(crate) fn product_rows(
    alloc: Global,
    group: &PGroup,
    members: &Matrix,
    translates: &Matrix,
) -> Result<Matrix, Memory>
    requires members { HasShape group.now (order_of group.now) members.now }
    requires member_rows { AreMembers group.now members.now.rows }
    requires translates { HasShape group.now (order_of group.now * order_of group.now) translates.now }
    requires translate_rows { EachRow (IsTranslateRow group.now) translates.now.rows }
    ensures shape { IfOk result (λ m. HasShape group.now (order_of group.now * order_of group.now) m) }
    ensures rows { IfOk result (λ m. EachRow (IsProductRow group.now) m.rows) }
{
    let n = group.order() as usize;
    let mut m = Matrix::new(alloc, group.prime(), n);
    for l in 0..n {
        let moved = rows_between(alloc, translates, l * n, l * n + n)?;
        push_combinations(alloc, members, &moved, &mut m)?;
    }
    Ok(m)
}
