ghost use Rattle.std.specs.Prelude.{◌≡◌, ◌↔◌, ℕ, ◌<◌, length, map, IsTrue};
ghost use Rattle.group_table.specs.Prime.{prime_value};
ghost use Rattle.linear_algebra.specs.Rows.{entry, row, pivot, is_pivot, IsRow, IsMatrix, IsEchelon};
ghost use Rattle.linear_algebra.specs.Rows.{IsInSpan, IsReduced};
ghost use Rattle.fp_rows.specs.Refs.{entries_of, modulus_of};
ghost use Rattle.fp_rows.specs.Lists.{lists, AreOver};
ghost use Rattle.fp_rows.specs.Iterations.{IsOverRows};

use crate::elimination::reduce_by;
use crate::matrix::Matrix;
use crate::membership::is_member;
use crate::row::Row;
use crate::row_ref::RowRef;
use group_table::Prime;
use std::alloc::Global;
use std::marker::Model;
use std::slice;

/// A reduced row echelon list: no row is 0, the pivots ascend, and each pivot's column is 1 in its own row
/// and 0 elsewhere.
#[derive(Drop)]
pub struct Echelon {
    pub(crate) matrix: Matrix,
    pub(crate) pivots: Vec<usize>,
}

impl Model for Echelon {
    ghost use Rattle.fp_rows.specs.Values.{MatrixValue};
    ghost use Rattle.fp_rows.specs.Stores.{IsEchelonStore};

    ghost Value = { MatrixValue };

    ghost view = { λ a. a.matrix };

    ghost invariant = { λ a. IsEchelonStore a.matrix a.pivots.items };
}

impl Echelon {
    /// The list of these rows, with their pivots.
    pub(crate) fn of_parts(
        alloc: Global,
        prime: Prime,
        width: usize,
        rows: Vec<Row>,
        pivots: Vec<usize>,
    ) -> Echelon
        requires matrix { IsMatrix (prime_value prime) width (lists rows.items) }
        requires over { AreOver (prime_value prime) rows.items }
        requires echelon { IsEchelon (lists rows.items) }
        requires pivots_are { pivots.items ≡ map pivot (lists rows.items) }
        ensures { result ≡ record { p = prime_value prime; width = width; rows = lists rows.items } }
    {
        let matrix = Matrix {
            alloc,
            prime,
            width,
            rows,
        };
        Echelon { matrix, pivots }
    }

    /// How many rows there are: the dimension of the span.
    pub fn rows(&self) -> usize
        ensures count { result ≡ length self.now.rows }
        ensures matrix { IsMatrix self.now.p self.now.width self.now.rows }
        ensures echelon { IsEchelon self.now.rows }
    {
        self.matrix.rows()
    }

    /// The length of each row.
    pub fn width(&self) -> usize
        ensures { result ≡ self.now.width }
    {
        self.matrix.width()
    }

    /// The prime.
    pub fn prime(&self) -> Prime
        ensures { prime_value result ≡ self.now.p }
    {
        self.matrix.prime()
    }

    /// Row i, which is below the number of rows.
    pub fn row(&self, i: usize) -> RowRef<'_>
        requires { i < length self.now.rows }
        ensures entries { entries_of result ≡ row self.now.rows i }
        ensures modulus { modulus_of result ≡ self.now.p }
        ensures is_row { IsRow self.now.p self.now.width (row self.now.rows i) }
    {
        self.matrix.row(i)
    }

    /// The place of the first entry of row i that is not 0.
    pub fn pivot(&self, i: usize) -> usize
        requires { i < length self.now.rows }
        ensures place { result ≡ pivot (row self.now.rows i) }
        ensures inside { result < self.now.width }
    {
        self.pivots[i]
    }

    /// Whether v, which has the width, is in the span of the rows.
    pub fn contains(&self, v: RowRef<'_>) -> bool
        requires same_prime { modulus_of v ≡ self.now.p }
        requires same_width { length (entries_of v) ≡ self.now.width }
        ensures { IsTrue result ↔ IsInSpan self.now.p self.now.rows (entry (entries_of v.entry)) }
    {
        let matrix = &self.matrix;
        is_member(matrix.prime, &matrix.rows, &self.pivots, v)
    }

    /// Subtracts from v, which has the width, the one member of the span that makes it 0 at every pivot.
    pub fn reduce(&self, v: &mut Row)
        requires same_prime { v.old.p ≡ self.now.p }
        requires same_width { length v.old.entries ≡ self.now.width }
        ensures prime { v.new.p ≡ v.old.p }
        ensures row { IsRow self.now.p self.now.width v.new.entries }
        ensures reduced { IsReduced self.now.p self.now.rows v.old.entries v.new.entries }
    {
        let matrix = &self.matrix;
        reduce_by(&matrix.rows, &self.pivots, v);
    }

    /// Whether one of the rows has its first entry that is not 0 at place j.
    pub fn is_pivot(&self, j: usize) -> bool
        ensures { result ≡ is_pivot self.now.rows j }
    {
        self.pivots.binary_search(&j).is_ok()
    }

    /// The rows, one after the other.
    pub fn iter(&self) -> slice::Iter<'_, Row>
        ensures { IsOverRows self.now result }
    {
        self.matrix.iter()
    }
}

impl<'a> IntoIterator for &'a Echelon {
    ghost use Rattle.fp_rows.specs.Iterations.{IsOverRows};

    type Item = &'a Row;

    type IntoIter = slice::Iter<'a, Row>;

    ghost into_iter_gives = { λ e it. IsOverRows e.now it };

    fn into_iter(self) -> slice::Iter<'a, Row> {
        self.iter()
    }
}
