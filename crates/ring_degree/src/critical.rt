//! The rows of exchanges and squares.

ghost use Rattle.std.specs.Prelude.{◌≡◌, ℕ, suc, ◌*◌, ◌%◌, ◌<◌, ◌≤◌, ◌↔◌, [], ◌∷◌, ◌++◌, List, length, IfOk};
ghost use Rattle.std.specs.Prelude.{OnOk, IsTrue, slice_index_or};
ghost use Rattle.fp_rows.specs.Values.{MatrixValue};
ghost use Rattle.graded_polynomials.specs.Monomials.{sign};
ghost use Rattle.gc_poly.specs.Generators.{greatest};
ghost use Rattle.ring_completion.specs.Candidates.{IsListed};
ghost use Rattle.ring_degree.specs.Critical.{ArePairs, IsPair, form_of_product, exchange_row};
ghost use Rattle.ring_degree.specs.Critical.{pair_row, IsPairRow, IsFirst, IsCriticalWith, IsCriticalRow};
ghost use Rattle.ring_degree.specs.Products.{Gains};
ghost use Rattle.ring_degree.specs.Tables.{at_generator};

use crate::factors::is_clear_before;
use crate::table::Table;
use fp_rows::{Matrix, Row};
use gc_poly::Gens;
use group_table::Memory;
use std::alloc::Global;

// The matrix of generator j.
fn matrix_of(table: &Table, j: usize) -> &Matrix
    requires { j < length table.now.products.items }
    ensures { (m : MatrixValue) → result.now ≡ slice_index_or table.now.products.items j m }
{
    &table.products[j]
}

/// The tables of lower degrees, with the rows over a list of so many members of the products of the next
/// degree.
#[derive(Clone, Copy)]
pub(crate) struct Pairs<'a> {
    pub(crate) gens: &'a Gens,
    pub(crate) tables: &'a [Table],
    pub(crate) forms: &'a [Matrix],
    pub(crate) width: usize,
}

impl<'a> Pairs<'a> {
    // The form of generator i times the product of generator j with monomial k of degree e.
    fn form_of_product(
        &self,
        alloc: Global,
        e: usize,
        i: usize,
        j: usize,
        k: usize,
    ) -> Result<Row, Memory>
        requires pairs { ArePairs self.now.gens.now self.now.tables.now self.now.width self.now.forms.now }
        requires pair { IsPair self.now.gens.now.degrees self.now.tables.now e i j k }
        ensures { IfOk result (λ r. r ≡ record {
          p = self.now.gens.now.prime;
          entries = form_of_product (greatest self.now.gens.now) self.now.gens.now.degrees self.now.tables.now
              self.now.width self.now.forms.now e i j k;
        }) }
    {
        let degree = self.gens.degree(j) as usize + e;
        let product = matrix_of(&self.tables[degree], j).row(k);
        let mut form = Row::zero(alloc, self.gens.prime(), self.width)?;
        self.forms[i].combine(product, &mut form);
        Ok(form)
    }

    // What the second form is multiplied by in an exchange.
    fn factor(&self, i: usize, j: usize) -> u8
        requires first { i < length self.now.gens.now.degrees }
        requires second { j < length self.now.gens.now.degrees }
        ensures value { result ≡ greatest self.now.gens.now * sign (greatest self.now.gens.now)
            (at_generator self.now.gens.now.degrees i * at_generator self.now.gens.now.degrees j)
            % suc (greatest self.now.gens.now) }
        ensures below { result < self.now.gens.now.prime }
    {
        let p = self.gens.modulus();
        if self.gens.degree(i) * self.gens.degree(j) % 2 == 0 || p == 2 {
            p - 1
        } else {
            1
        }
    }

    // The exchange of generators i and j at monomial k of degree e.
    fn exchange(&self, alloc: Global, e: usize, i: usize, j: usize, k: usize) -> Result<Row, Memory>
        requires pairs { ArePairs self.now.gens.now self.now.tables.now self.now.width self.now.forms.now }
        requires pair { IsPair self.now.gens.now.degrees self.now.tables.now e i j k }
        ensures { IfOk result (λ r. r ≡ record {
          p = self.now.gens.now.prime;
          entries = exchange_row (greatest self.now.gens.now) self.now.gens.now.degrees self.now.tables.now
              self.now.width self.now.forms.now e i j k;
        }) }
    {
        let mut row = self.form_of_product(alloc, e, i, j, k)?;
        let other = self.form_of_product(alloc, e, j, i, k)?;
        row.add(self.factor(i, j), other.view());
        Ok(row)
    }

    // The row of generators i and j at monomial k of degree e.
    fn pair_row(&self, alloc: Global, e: usize, i: usize, j: usize, k: usize) -> Result<Row, Memory>
        requires pairs { ArePairs self.now.gens.now self.now.tables.now self.now.width self.now.forms.now }
        requires pair { IsPair self.now.gens.now.degrees self.now.tables.now e i j k }
        ensures { IfOk result (λ r. r ≡ record {
          p = self.now.gens.now.prime;
          entries = pair_row (greatest self.now.gens.now) self.now.gens.now.degrees self.now.tables.now
              self.now.width self.now.forms.now e i j k;
        }) }
    {
        if i == j {
            return self.form_of_product(alloc, e, i, j, k);
        }
        self.exchange(alloc, e, i, j, k)
    }

    // Adds the row of generators i and j at monomial k of degree e.
    fn push_row(
        &self,
        alloc: Global,
        e: usize,
        i: usize,
        j: usize,
        k: usize,
        rows: &mut Matrix,
    ) -> Result<(), Memory>
        requires pairs { ArePairs self.now.gens.now self.now.tables.now self.now.width self.now.forms.now }
        requires pair { IsPair self.now.gens.now.degrees self.now.tables.now e i j k }
        requires prime { rows.old.p ≡ self.now.gens.now.prime }
        requires width { rows.old.width ≡ self.now.width }
        ensures { OnOk result (rows.new ≡ record rows.old {
          rows = rows.old.rows ++ pair_row (greatest self.now.gens.now) self.now.gens.now.degrees
              self.now.tables.now self.now.width self.now.forms.now e i j k ∷ [];
        }) }
    {
        let row = self.pair_row(alloc, e, i, j, k)?;
        rows.push(row.view())?;
        Ok(())
    }

    // Adds the rows of generators i and j.
    fn push_rows(&self, alloc: Global, i: usize, j: usize, rows: &mut Matrix) -> Result<(), Memory>
        requires pairs { ArePairs self.now.gens.now self.now.tables.now self.now.width self.now.forms.now }
        requires first { i < length self.now.gens.now.degrees }
        requires second { j < length self.now.gens.now.degrees }
        requires prime { rows.old.p ≡ self.now.gens.now.prime }
        requires width { rows.old.width ≡ self.now.width }
        ensures prime { OnOk result (rows.new.p ≡ rows.old.p) }
        ensures width { OnOk result (rows.new.width ≡ rows.old.width) }
        ensures rows { OnOk result (Gains (IsPairRow (greatest self.now.gens.now) self.now.gens.now.degrees
            self.now.tables.now self.now.width self.now.forms.now i j) rows.old.rows rows.new.rows) }
    {
        let both = (self.gens.degree(i) + self.gens.degree(j)) as usize;
        if both <= self.tables.len() {
            let e = self.tables.len() - both;
            for k in 0..self.tables[e].standard.len() {
                if is_clear_before(self.tables[e].standard.get(k), i) {
                    self.push_row(alloc, e, i, j, k, rows)?;
                }
            }
        }
        Ok(())
    }

    // Whether generator i comes before generator j, or is j and its square is 0.
    fn is_first(&self, i: usize, j: usize) -> bool
        requires within { i < length self.now.gens.now.degrees }
        requires order { i ≤ j }
        ensures { IsTrue result
            ↔ IsFirst (greatest self.now.gens.now) self.now.gens.now.degrees i j }
    {
        i < j || self.gens.is_exterior(i)
    }

    // Adds the critical rows in which generator i comes first.
    fn push_critical(&self, alloc: Global, i: usize, rows: &mut Matrix) -> Result<(), Memory>
        requires pairs { ArePairs self.now.gens.now self.now.tables.now self.now.width self.now.forms.now }
        requires within { i < length self.now.gens.now.degrees }
        requires prime { rows.old.p ≡ self.now.gens.now.prime }
        requires width { rows.old.width ≡ self.now.width }
        ensures prime { OnOk result (rows.new.p ≡ rows.old.p) }
        ensures width { OnOk result (rows.new.width ≡ rows.old.width) }
        ensures rows { OnOk result
            (Gains (IsCriticalWith (greatest self.now.gens.now) self.now.gens.now.degrees
            self.now.tables.now self.now.width self.now.forms.now i) rows.old.rows rows.new.rows) }
    {
        for j in i..self.gens.len() {
            if self.is_first(i, j) {
                self.push_rows(alloc, i, j, rows)?;
            }
        }
        Ok(())
    }

    /// The critical rows.
    pub(crate) fn critical(&self, alloc: Global) -> Result<Matrix, Memory>
        requires pairs { ArePairs self.now.gens.now self.now.tables.now self.now.width self.now.forms.now }
        ensures prime { IfOk result (λ m. m.p ≡ self.now.gens.now.prime) }
        ensures width { IfOk result (λ m. m.width ≡ self.now.width) }
        ensures rows { IfOk result (λ m. (v : List ℕ) → IsListed m.rows v
            ↔ IsCriticalRow (greatest self.now.gens.now) self.now.gens.now.degrees self.now.tables.now
            self.now.width self.now.forms.now v) }
    {
        let mut rows = Matrix::new(alloc, self.gens.prime(), self.width);
        for i in 0..self.gens.len() {
            self.push_critical(alloc, i, &mut rows)?;
        }
        Ok(rows)
    }
}
