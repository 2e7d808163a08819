//! Combinations of rows.

ghost use Rattle.std.specs.Prelude.{◌≡◌, length, IfOk};
ghost use Rattle.linear_algebra.specs.Rows.{entry, combination_row};
ghost use Rattle.fp_rows.specs.Refs.{entries_of, modulus_of};

use fp_rows::{Matrix, Row, RowRef};
use group_table::Memory;
use std::alloc::Global;

/// The sum of the rows with these coefficients.
pub(crate) fn combination(
    alloc: Global,
    rows: &Matrix,
    coefficients: RowRef<'_>,
) -> Result<Row, Memory>
    requires prime { modulus_of coefficients ≡ rows.now.p }
    requires length { length (entries_of coefficients) ≡ length rows.now.rows }
    ensures prime { IfOk result (λ r. r.p ≡ rows.now.p) }
    ensures row { IfOk result (λ r. r.entries
        ≡ combination_row rows.now.p rows.now.width (entry (entries_of coefficients.entry)) rows.now.rows) }
{
    let mut sum = Row::zero(alloc, rows.prime(), rows.width())?;
    rows.combine(coefficients, &mut sum);
    Ok(sum)
}
