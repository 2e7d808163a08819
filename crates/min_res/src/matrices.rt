//! The matrix of the linear map of free modules that takes the basis to rows of a list.

ghost use Rattle.group_algebra.specs.RowMaps.{map_row};
ghost use Rattle.linear_algebra.specs.Choices.{rows_at};
ghost use Rattle.linear_algebra.specs.Kernels.{unit_row};
ghost use Rattle.linear_algebra.specs.Rows.{row};
ghost use Rattle.std.specs.Prelude.{◌≡◌, ◌<◌, ◌*◌, ◌^◌, ℕ, IfOk, length, slice_index};
ghost use Rattle.p_groups.specs.PGroups.{order_of, prime_of};

use fp_rows::{Echelon, Matrix, Positions, Row};
use group_algebra::Algebra;
use group_table::Memory;
use std::alloc::Global;

/// The rows of the list at these positions.
pub(crate) fn chosen_rows(
    alloc: Global,
    list: &Echelon,
    positions: &Positions,
) -> Result<Matrix, Memory>
    requires { (i : ℕ) → i < length positions.now → slice_index positions.now i < length list.now.rows }
    ensures { IfOk result (λ m. m ≡ record list.now { rows = rows_at list.now.rows positions.now }) }
{
    let mut rows = Matrix::new(alloc, list.prime(), list.width());
    for i in 0..positions.len() {
        rows.push(list.row(positions.get(i) as usize))?;
    }
    Ok(rows)
}

/// The matrix, in layer coordinates, of the linear map to a free module of rank `target` that takes basis
/// element k to row k.
pub(crate) fn matrix_of(
    alloc: Global,
    algebra: &Algebra,
    target: usize,
    rows: &Matrix,
) -> Result<Matrix, Memory>
    requires rows_prime { rows.now.p ≡ prime_of algebra.now }
    requires rows_width { rows.now.width ≡ order_of algebra.now * target }
    requires fits { order_of algebra.now * length rows.now.rows < 2 ^ 64 }
    ensures prime { IfOk result (λ m. m.p ≡ rows.now.p) }
    ensures width { IfOk result (λ m. m.width ≡ rows.now.width) }
    ensures count { IfOk result (λ m. length m.rows ≡ order_of algebra.now * length rows.now.rows) }
    ensures rows { IfOk result (λ m. (j : ℕ) → j < order_of algebra.now * length rows.now.rows
        → row m.rows j
        ≡ map_row algebra.now target rows.now.rows
        (unit_row (order_of algebra.now * length rows.now.rows) j)) }
{
    let dimension = algebra.group().order() as usize * rows.rows();
    let mut value = Row::zero(alloc, rows.prime(), rows.width())?;
    let mut matrix = Matrix::new(alloc, rows.prime(), rows.width());
    for j in 0..dimension {
        algebra.apply_to_unit(target, rows, j, &mut value);
        matrix.push(value.view())?;
    }
    Ok(matrix)
}
