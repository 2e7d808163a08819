//! Copies of the lists that the parts of a stage show.

ghost use Rattle.group_table.specs.Prime.{prime_value};
ghost use Rattle.fp_rows.specs.Refs.{entries_of, modulus_of};
ghost use Rattle.linear_algebra.specs.Rows.{row};
ghost use Rattle.min_res.specs.PartRows.{part_rows};
ghost use Rattle.std.specs.Prelude.{◌≡◌, ◌<◌, ℕ, IfOk, length};

use crate::parts::StageParts;
use fp_rows::{Matrix, Positions, RowRef};
use group_table::{Memory, Prime};
use std::alloc::Global;

/// The positions.
pub(crate) fn positions_of<S: StageParts>(alloc: Global, given: &S) -> Result<Positions, Memory>
    ensures { IfOk result (λ positions. positions ≡ (S.parts given.now).positions) }
{
    let mut positions = Positions::new(alloc);
    for i in 0..given.rank() {
        positions.push(given.position(i))?;
    }
    Ok(positions)
}

/// A list of rows among the parts of a stage.
#[derive(Clone, Copy)]
pub(crate) enum PartRows {
    Kernel,
    Sections,
}

/// The rows of a list, `count` rows of this width.
pub(crate) fn rows_of<S: StageParts>(
    alloc: Global,
    given: &S,
    list: PartRows,
    p: Prime,
    width: usize,
    count: usize,
) -> Result<Matrix, Memory>
    requires prime { S.modulus given.now ≡ prime_value p }
    requires count { count ≡ length (part_rows (S.parts given.now) list) }
    requires width { (i : ℕ) → i < count → length (row (part_rows (S.parts given.now) list) i) ≡ width }
    ensures { IfOk result (λ rows. rows
        ≡ record { p = prime_value p; width = width; rows = part_rows (S.parts given.now) list }) }
{
    let mut rows = Matrix::new(alloc, p, width);
    for i in 0..count {
        rows.push(row_of(given, list, i))?;
    }
    Ok(rows)
}

// Row i of a list.
fn row_of<S: StageParts>(given: &S, list: PartRows, i: usize) -> RowRef<'_>
    requires { i < length (part_rows (S.parts given.now) list) }
    ensures entries { entries_of result ≡ row (part_rows (S.parts given.now) list) i }
    ensures modulus { modulus_of result ≡ S.modulus given.now }
{
    match list {
        PartRows::Kernel => given.kernel_row(i),
        PartRows::Sections => given.section_row(i),
    }
}
