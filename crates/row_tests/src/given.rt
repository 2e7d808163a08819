//! The rows and matrices that the tests are given, and what compares rows with numbers.

ghost use Rattle.std.specs.Prelude.{◌≡◌, length, IfOk};
ghost use Rattle.group_table.specs.Prime.{prime_value};

use fp_rows::{Echelon, Matrix, Row, RowRef};
use group_table::{Memory, Prime};
use std::alloc::Global;
use std::process::Abort;

/// The row of these numbers.
pub fn row_of(rt: &impl Abort, alloc: Global, p: Prime, entries: &[u8]) -> Result<Row, Memory>
    ensures prime { IfOk result (λ r. r.p ≡ prime_value p) }
    ensures count { IfOk result (λ r. length r.entries ≡ length entries.now) }
{
    let mut row = Row::zero(alloc, p, entries.len())?;
    for (i, x) in entries.iter().enumerate() {
        assert!(rt; i < row.len() && *x < p.value());
        row.set(i, *x);
    }
    Ok(row)
}

/// The matrix of these numbers, row by row.
pub fn matrix_of(
    rt: &impl Abort,
    alloc: Global,
    p: Prime,
    width: usize,
    entries: &[u8],
) -> Result<Matrix, Memory>
    ensures prime { IfOk result (λ m. m.p ≡ prime_value p) }
    ensures width { IfOk result (λ m. m.width ≡ width) }
{
    assert!(rt; width > 0);
    let mut m = Matrix::new(alloc, p, width);
    for r in entries.chunks(width) {
        let row = row_of(rt, alloc, p, r)?;
        assert_eq!(rt; row.len(), width);
        m.push(row.view())?;
    }
    Ok(m)
}

/// Whether the row has these numbers.
pub fn shows(r: RowRef<'_>, entries: &[u8]) -> bool {
    if r.len() != entries.len() {
        return false;
    }
    for (i, x) in entries.iter().enumerate() {
        if r.get(i) != *x {
            return false;
        }
    }
    true
}

/// Whether the list has these rows.
pub fn lists(e: &Echelon, rows: &[&[u8]]) -> bool {
    if e.rows() != rows.len() {
        return false;
    }
    for (i, entries) in rows.iter().enumerate() {
        if !shows(e.row(i), entries) {
            return false;
        }
    }
    true
}

/// Whether the matrix has these rows.
pub fn holds(m: &Matrix, rows: &[&[u8]]) -> bool {
    if m.rows() != rows.len() {
        return false;
    }
    for (i, entries) in rows.iter().enumerate() {
        if !shows(m.row(i), entries) {
            return false;
        }
    }
    true
}
