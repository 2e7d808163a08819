//! The powers of the augmentation ideal by their reduced echelon lists, in sum coordinates.

ghost use Rattle.std.specs.Prelude.{◌≡◌, ◌<◌, ◌++◌, ℕ, suc, All, List, length, map, OnOk, IfOk};
ghost use Rattle.group_table.specs.Tables.{IsGroupTable};
ghost use Rattle.linear_algebra.specs.Kernels.{unit_row};
ghost use Rattle.linear_algebra.specs.Rows.{row, entry, IsRow, IsInSpan};
ghost use Rattle.group_modules.specs.Field.{Below};
ghost use Rattle.group_modules.specs.Module.{sub};
ghost use Rattle.radical_layers.specs.Layers.{IsPowerList};
ghost use Rattle.radical_layers.specs.Moves.{move_row, moves_by};
ghost use Rattle.fp_rows.specs.Refs.{entries_of, modulus_of};
ghost use Rattle.p_groups.specs.PGroups.{largest_residue, group as group_of, order_of, prime_of};
ghost use Rattle.group_algebra.specs.Coordinates.{free_module, sum_coordinates, AreCoefficients};
ghost use Rattle.group_algebra.specs.Products.{AreGenerators, numbers};

use crate::coefficients::{write_coefficients, write_sum_coordinates, write_translate};
use crate::p_group::PGroup;
use fp_rows::{Echelon, Matrix, Row, RowRef, echelon};
use group_table::Memory;
use std::alloc::Global;

/// Writes the sum coordinates of (g - 1) v, where v has the coefficients a; `moved` is overwritten.
fn write_move(group: &PGroup, g: u16, a: RowRef<'_>, moved: &mut Row, out: &mut Row)
    requires element { g < order_of group.now }
    requires modulus { modulus_of a ≡ prime_of group.now }
    requires same_prime { (moved.old.p ≡ prime_of group.now) × (out.old.p ≡ prime_of group.now) }
    requires length { length (entries_of a) ≡ order_of group.now }
    requires same_length { (length moved.old.entries ≡ order_of group.now)
        × (length out.old.entries ≡ order_of group.now) }
    ensures primes { (moved.new.p ≡ moved.old.p) × (out.new.p ≡ out.old.p) }
    ensures lengths { (length moved.new.entries ≡ order_of group.now)
        × (length out.new.entries ≡ order_of group.now) }
    ensures difference { (l : g < order_of group.now) (v : (free_module group.now 1).of)
        → AreCoefficients group.now (entries_of a.entry) v
        → out.new.entries
        ≡ (sum_coordinates group.now).row (sub (free_module group.now 1)
        ((free_module group.now 1).act (g, l) v) v) }
{
    let p = group.prime();
    write_translate(group.as_group(), g, a, moved);
    moved.add(p.value() - 1, a);
    write_sum_coordinates(moved.view(), out);
}

/// Appends the rows of (g - 1) v for the rows v of the list.
fn push_moves(
    alloc: Global,
    group: &PGroup,
    g: u16,
    list: &Echelon,
    m: &mut Matrix,
) -> Result<(), Memory>
    requires element { g < order_of group.now }
    requires same_prime { (list.now.p ≡ prime_of group.now) × (m.old.p ≡ prime_of group.now) }
    requires same_width { (list.now.width ≡ order_of group.now) × (m.old.width ≡ order_of group.now) }
    ensures kept { OnOk result ((m.new.p ≡ m.old.p) × (m.new.width ≡ m.old.width)) }
    ensures moves { OnOk result (
        (l : g < order_of group.now)
        → m.new.rows
        ≡ m.old.rows
        ++ map (move_row (group_of group.now) (free_module group.now 1) (sum_coordinates group.now)
        (g, l)) list.now.rows) }
{
    let p = group.prime();
    let n = group.order() as usize;
    let mut a = Row::zero(alloc, p, n)?;
    let mut moved = Row::zero(alloc, p, n)?;
    let mut out = Row::zero(alloc, p, n)?;
    for row in list {
        write_coefficients(p, row.view(), &mut a);
        write_move(group, g, a.view(), &mut moved, &mut out);
        m.push(out.view())?;
    }
    Ok(())
}

/// The rows of all (s - 1) v, with s among these elements and v among the rows of the list.
fn moves_of(
    alloc: Global,
    group: &PGroup,
    elements: &[u16],
    list: &Echelon,
) -> Result<Matrix, Memory>
    requires elements { All (λ s. s < order_of group.now) elements.now }
    requires same_prime { list.now.p ≡ prime_of group.now }
    requires same_width { list.now.width ≡ order_of group.now }
    ensures kept { IfOk result (λ m. (m.p ≡ prime_of group.now) × (m.width ≡ order_of group.now)) }
    ensures moves { IfOk result (λ m. (gs : List (Below (order_of group.now))) → numbers gs ≡ elements.now
        → m.rows ≡ moves_by (group_of group.now) (free_module group.now 1)
        (sum_coordinates group.now) gs list.now.rows) }
{
    let mut m = Matrix::new(alloc, group.prime(), list.width());
    for s in elements {
        push_moves(alloc, group, *s, list, &mut m)?;
    }
    Ok(m)
}

/// The list of J^(i+1) from that of J^i, for each i: the moves by generators span what all moves span.
pub(crate) fn next_power(
    alloc: Global,
    group: &PGroup,
    generators: &[u16],
    list: &Echelon,
) -> Result<Echelon, Memory>
    requires generators { AreGenerators group.now.table generators.now }
    requires same_prime { list.now.p ≡ prime_of group.now }
    requires same_width { list.now.width ≡ order_of group.now }
    ensures kept { IfOk result (λ e. (e.p ≡ prime_of group.now) × (e.width ≡ order_of group.now)) }
    ensures power { IfOk result (λ e.
        (i : ℕ)
        → IsPowerList (largest_residue group.now) (group_of group.now)
        (sum_coordinates group.now) i list.now.rows
        → IsPowerList (largest_residue group.now) (group_of group.now) (sum_coordinates group.now)
        (suc i) e.rows) }
{
    let m = moves_of(alloc, group, generators, list)?;
    echelon(alloc, &m)
}

/// The list of the whole group algebra: the unit rows.
pub(crate) fn whole_list(alloc: Global, group: &PGroup) -> Result<Echelon, Memory>
    ensures units { IfOk result (λ e.
        (length e.rows ≡ order_of group.now) × ((k : ℕ) → k < order_of group.now
        → row e.rows k ≡ unit_row (order_of group.now) k)) }
    ensures kept { IfOk result (λ e. (e.p ≡ prime_of group.now) × (e.width ≡ order_of group.now)) }
    ensures power { IfOk result (λ e.
        IsPowerList (largest_residue group.now) (group_of group.now) (sum_coordinates group.now) 0 e.rows) }
{
    let p = group.prime();
    let n = group.order() as usize;
    let mut m = Matrix::new(alloc, p, n);
    let mut unit = Row::zero(alloc, p, n)?;
    for i in 0..n {
        unit.set_unit(i);
        m.push(unit.view())?;
    }
    echelon(alloc, &m)
}
