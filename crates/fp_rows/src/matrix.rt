ghost use Rattle.std.specs.Prelude.{◌≡◌, ℕ, ◌+◌, ◌<◌, ◌≤◌, ◌++◌, ◌∷◌, [], length, OnOk, OnErr, IfOk};
ghost use Rattle.std.specs.Prelude.{slice_range};
ghost use Rattle.group_table.specs.Prime.{prime_value};
ghost use Rattle.linear_algebra.specs.Rows.{combination_row, entry, row, IsRow, IsMatrix};
ghost use Rattle.fp_rows.specs.Refs.{entries_of, modulus_of};
ghost use Rattle.fp_rows.specs.Iterations.{IsOverRows};

use crate::row::Row;
use crate::row_ref::RowRef;
use group_table::{Memory, Prime};
use std::alloc::Global;
use std::marker::Model;
use std::slice;

/// A list of rows of one width over one prime.
#[derive(Drop)]
pub struct Matrix {
    pub(crate) alloc: Global,
    pub(crate) prime: Prime,
    pub(crate) width: usize,
    pub(crate) rows: Vec<Row>,
}

impl Model for Matrix {
    ghost use Rattle.group_table.specs.Prime.{prime_value};
    ghost use Rattle.fp_rows.specs.Values.{MatrixValue};
    ghost use Rattle.fp_rows.specs.Lists.{lists};
    ghost use Rattle.fp_rows.specs.Stores.{IsMatrixStore};

    ghost Value = { MatrixValue };

    ghost view = { λ a. record { p = prime_value a.prime; width = a.width; rows = lists a.rows.items } };

    ghost invariant = { λ a. IsMatrixStore (prime_value a.prime) a.width a.rows.items };
}

impl Matrix {
    /// The matrix without rows.
    pub fn new(alloc: Global, p: Prime, width: usize) -> Matrix
        ensures { result ≡ record { p = prime_value p; width = width; rows = [] } }
    {
        Matrix {
            alloc,
            prime: p,
            width,
            rows: Vec::new(alloc),
        }
    }

    /// One more row, which has the width. After an error the rows are as before.
    pub fn push(&mut self, r: RowRef<'_>) -> Result<(), Memory>
        requires same_prime { modulus_of r ≡ self.old.p }
        requires same_width { length (entries_of r) ≡ self.old.width }
        ensures pushed { OnOk result (self.new
            ≡ record self.old { rows = self.old.rows ++ entries_of r.entry ∷ [] }) }
        ensures kept { OnErr result (self.new ≡ self.old) }
    {
        let copy = Row::copy_of(self.alloc, r)?;
        self.rows.push(copy)?;
        Ok(())
    }

    /// How many rows there are.
    pub fn rows(&self) -> usize
        ensures count { result ≡ length self.now.rows }
        ensures matrix { IsMatrix self.now.p self.now.width self.now.rows }
    {
        self.rows.len()
    }

    /// The length of each row.
    pub fn width(&self) -> usize
        ensures { result ≡ self.now.width }
    {
        self.width
    }

    /// The prime.
    pub fn prime(&self) -> Prime
        ensures { prime_value result ≡ self.now.p }
    {
        self.prime
    }

    /// Row i, which is below the number of rows.
    pub fn row(&self, i: usize) -> RowRef<'_>
        requires { i < length self.now.rows }
        ensures entries { entries_of result ≡ row self.now.rows i }
        ensures modulus { modulus_of result ≡ self.now.p }
        ensures is_row { IsRow self.now.p self.now.width (row self.now.rows i) }
    {
        self.rows[i].view()
    }

    /// The `len` numbers of row i from place `from` on, which are a part of the row.
    pub fn block(&self, i: usize, from: usize, len: usize) -> RowRef<'_>
        requires inside { i < length self.now.rows }
        requires within { from + len ≤ self.now.width }
        ensures entries { entries_of result ≡ slice_range (row self.now.rows i) from (from + len) }
        ensures modulus { modulus_of result ≡ self.now.p }
    {
        self.row(i).part(from, len)
    }

    /// Writes into `out`, which has the width, the combination of the rows with the coefficients u, one for
    /// each row.
    pub fn combine(&self, u: RowRef<'_>, out: &mut Row)
        requires coefficients { length (entries_of u) ≡ length self.now.rows }
        requires primes { (modulus_of u ≡ self.now.p) × (out.old.p ≡ self.now.p) }
        requires out_length { length out.old.entries ≡ self.now.width }
        ensures { out.new
            ≡ record out.old {
              entries = combination_row self.now.p self.now.width
                  (entry (entries_of u.entry)) self.now.rows;
            } }
    {
        out.clear();
        for (k, row) in self.iter().enumerate() {
            out.add_row(u.get(k), row);
        }
    }

    /// The rows, one after the other.
    pub fn iter(&self) -> slice::Iter<'_, Row>
        ensures { IsOverRows self.now result }
    {
        self.rows.iter()
    }
}

impl<'a> IntoIterator for &'a Matrix {
    ghost use Rattle.fp_rows.specs.Iterations.{IsOverRows};

    type Item = &'a Row;

    type IntoIter = slice::Iter<'a, Row>;

    ghost into_iter_gives = { λ m it. IsOverRows m.now it };

    fn into_iter(self) -> slice::Iter<'a, Row> {
        self.iter()
    }
}
