ghost use Rattle.std.specs.Prelude.{◌≡◌, ◌≢◌, ◌↔◌, ℕ, ◌<◌, List, length, map, IsTrue, IsNone, IfOk, OnOk};
ghost use Rattle.std.specs.Prelude.{IfErr, IfSome, EachIndex, slice_index};
ghost use Rattle.linear_algebra.specs.Rows.{entry, row, pivot, IsRow, IsMatrix, IsEchelon};
ghost use Rattle.fp_rows.specs.Lists.{lists};
ghost use Rattle.fp_rows.specs.ReducedRows.{IsReducedRow, AreReducedRows, IsFirstBadRow};

use crate::basis::Echelon;
use crate::matrix::Matrix;
use crate::row::Row;
use group_table::Memory as OutOfMemory;
use std::alloc::Global;

/// Why a matrix is not taken as a reduced row echelon list; it is handed back.
#[derive(Drop)]
pub enum FromRows {
    /// Its rows are no reduced row echelon list: the first row that is 0, or whose first entry that is not 0
    /// is not 1, or whose pivot is not after all earlier ones, or that is not 0 at another row's pivot.
    Not { row: usize, matrix: Matrix },
    /// Want of memory.
    Memory { matrix: Matrix },
}

// Whether each of the first k places comes before place number k.
fn comes_after(places: &[usize], k: usize) -> bool
    requires { k < length places.now }
    ensures { IsTrue result
        ↔ ((i : ℕ) → i < k → slice_index places.now i < slice_index places.now k) }
{
    for i in 0..k {
        if places[i] >= places[k] {
            return false;
        }
    }
    true
}

// Whether a row is 1 at place number k.
fn is_one_at(r: &Row, places: &[usize], k: usize) -> bool
    requires { k < length places.now }
    ensures { IsTrue result ↔ ((slice_index places.now k < length r.now.entries)
        × (entry r.now.entries (slice_index places.now k) ≡ 1)) }
{
    let t = places[k];
    t < r.len() && r.get(t) == 1
}

// Whether a row is 0 at each of the places but place number k.
fn is_zero_at_others(r: &Row, places: &[usize], k: usize) -> bool
    ensures { IsTrue result
        ↔ EachIndex places.now (λ i. i ≢ k → entry r.now.entries (slice_index places.now i) ≡ 0) }
{
    for (i, q) in places.iter().enumerate() {
        if i != k && *q < r.len() && r.get(*q) != 0 {
            return false;
        }
    }
    true
}

// Whether row k is one of a reduced row echelon list.
fn is_reduced_row(rows: &[Row], pivots: &[usize], k: usize) -> bool
    requires pivots_are { pivots.now ≡ map pivot (lists rows.now) }
    requires inside { k < length rows.now }
    ensures { IsTrue result ↔ IsReducedRow (lists rows.now) k }
{
    let r = &rows[k];
    if !is_one_at(r, pivots, k) {
        return false;
    }
    if !comes_after(pivots, k) {
        return false;
    }
    is_zero_at_others(r, pivots, k)
}

// The first row that is none of a reduced row echelon list.
fn first_bad_row(rows: &[Row], pivots: &[usize]) -> Option<usize>
    requires { pivots.now ≡ map pivot (lists rows.now) }
    ensures bad { IfSome result (IsFirstBadRow (lists rows.now)) }
    ensures good { IsNone result → AreReducedRows (lists rows.now) }
{
    for k in 0..rows.len() {
        if !is_reduced_row(rows, pivots, k) {
            return Some(k);
        }
    }
    None
}

// The pivots of the rows.
fn pivots_of(alloc: Global, rows: &[Row]) -> Result<Vec<usize>, OutOfMemory>
    ensures { IfOk result (λ pivots. pivots.items ≡ map pivot (lists rows.now)) }
{
    let mut pivots = Vec::new(alloc);
    for r in rows {
        pivots.push(r.first())?;
    }
    Ok(pivots)
}

impl Echelon {
    ghost use Rattle.std.specs.Prelude.{◌≡◌, IfOk, OnOk, IfErr};
    ghost use Rattle.linear_algebra.specs.Rows.{IsEchelon};
    ghost use Rattle.fp_rows.specs.Refusals.{HandsBack};

    /// The rows of a matrix, where they are a reduced row echelon list. Nothing is eliminated.
    pub fn from_rows(alloc: Global, m: Matrix) -> Result<Echelon, FromRows>
        ensures rows { IfOk result (λ e. e ≡ m) }
        ensures echelon { OnOk result (IsEchelon m.rows) }
        ensures refused { IfErr result (HandsBack m) }
    {
        let Ok(pivots) = pivots_of(alloc, &m.rows) else {
            return Err(FromRows::Memory { matrix: m });
        };
        if let Some(row) = first_bad_row(&m.rows, &pivots) {
            return Err(FromRows::Not { row, matrix: m });
        }
        Ok(Echelon { matrix: m, pivots })
    }
}

/// A list is a reduced row echelon list exactly where each of its rows is one of such a list.
pub fn reduced_rows_law()
    ensures { (rows : List (List ℕ)) → IsEchelon rows ↔ AreReducedRows rows }
{}
