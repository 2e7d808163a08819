//! The combinations of monomials that are candidates for parameters.

ghost use Rattle.std.specs.Prelude.{◌≡◌, ◌≢◌, ◌+◌, ◌<◌, ◌∷◌, [], ◌==◌, length, slice_index, IfOk};
ghost use Rattle.std.specs.List.{AllByRecursion as Each};
ghost use Rattle.group_table.specs.Prime.{prime_value};
ghost use Rattle.linear_algebra.specs.Rows.{row, IsRow};
ghost use Rattle.fp_rows.specs.Refs.{entries_of, modulus_of};
ghost use Rattle.param_test.specs.Combinations.{IsCombination, places, coefficients, AreCandidates};
ghost use Rattle.param_test.specs.Odometers.{IsSparse};

use crate::successors::advance;
use fp_rows::{Matrix, Row, RowRef};
use group_table::{Memory, Prime};
use std::alloc::Global;
use std::marker::Model;

/// A list of combinations, each a row over the monomials. Contracts see p, the number of monomials and the
/// rows.
#[derive(Drop)]
pub struct Combos {
    rows: Matrix,
}

impl Model for Combos {
    ghost use Rattle.fp_rows.specs.Values.{MatrixValue};

    ghost Value = { MatrixValue };

    ghost view = { λ c. c.rows };
}

impl Combos {
    /// How many there are.
    pub fn len(&self) -> usize
        ensures { result ≡ length self.now.rows }
    {
        self.rows.rows()
    }

    /// Whether there is none.
    pub fn is_empty(&self) -> bool
        ensures { result ≡ (length self.now.rows == 0) }
    {
        self.rows.rows() == 0
    }

    /// Combination i, counted from 0.
    pub fn get(&self, i: usize) -> RowRef<'_>
        requires { i < length self.now.rows }
        ensures entries { entries_of result ≡ row self.now.rows i }
        ensures modulus { modulus_of result ≡ self.now.p }
    {
        self.rows.row(i)
    }
}

// The entry at place i, before which are the first `next` terms.
fn entry_at(a: &[usize], c: &[u8], i: usize, next: usize) -> u8
    requires same_length { length a.now ≡ length c.now + 1 }
    requires digits { Each (λ x. 0 < x) c.now }
    ensures zero { result ≡ 0 → next < length a.now → slice_index a.now next ≢ i }
    ensures within { 0 < result → next < length a.now }
    ensures here { 0 < result → slice_index a.now next ≡ i }
    ensures value { 0 < result → result ≡ slice_index (1 ∷ c.now) next }
{
    if next >= a.len() || a[next] != i {
        return 0;
    }
    if next == 0 {
        return 1;
    }
    c[next - 1]
}

// The row with these positions and coefficients, the first coefficient being 1.
fn spread(alloc: Global, p: u8, n: usize, a: &[usize], c: &[u8]) -> Result<Vec<u8>, Memory>
    requires prime { 1 < p }
    requires sparse { IsSparse p n a.now c.now }
    ensures member { IfOk result (λ r. IsCombination p n r.items) }
    ensures places { IfOk result (λ r. places r.items ≡ a.now) }
    ensures coefficients { IfOk result (λ r. coefficients r.items ≡ 1 ∷ c.now) }
{
    let mut row = Vec::new(alloc);
    let mut next = 0;
    for i in 0..n {
        let x = entry_at(a, c, i, next);
        if x == 0 {
            row.push(0)?;
            continue;
        }
        row.push(x)?;
        next += 1;
    }
    Ok(row)
}

// The row with these entries.
fn packed(alloc: Global, p: Prime, entries: &[u8]) -> Result<Row, Memory>
    requires { Each (λ x. x < prime_value p) entries.now }
    ensures { IfOk result (λ r. r ≡ record { p = prime_value p; entries = entries.now }) }
{
    let mut row = Row::zero(alloc, p, entries.len())?;
    for i in 0..entries.len() {
        row.set(i, entries[i]);
    }
    Ok(row)
}

/// The first 63 combinations of `count` monomials whose first coefficient is 1, by the number of terms, then
/// by the list of positions, then by the list of coefficients.
pub fn combinations(alloc: Global, p: Prime, count: usize) -> Result<Combos, Memory>
    ensures prime { IfOk result (λ c. c.p ≡ prime_value p) }
    ensures width { IfOk result (λ c. c.width ≡ count) }
    ensures candidates { IfOk result (λ c. AreCandidates (prime_value p) count c.rows) }
{
    let mut rows = Matrix::new(alloc, p, count);
    if count == 0 {
        return Ok(Combos { rows });
    }
    let mut places = Vec::new(alloc);
    places.push(0)?;
    let mut digits = Vec::new(alloc);
    let modulus = p.value();
    while rows.rows() < 63 {
        let entries = spread(alloc, modulus, count, &places, &digits)?;
        let row = packed(alloc, p, &entries)?;
        rows.push(row.view())?;
        if !advance(modulus, count, &mut places, &mut digits)? {
            return Ok(Combos { rows });
        }
    }
    Ok(Combos { rows })
}
