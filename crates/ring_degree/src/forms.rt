//! Rows over the monomials of a degree that are a generator times a standard monomial.

ghost use Rattle.std.specs.Prelude.{◌≡◌, ℕ, ◌-◌, ◌<◌, ◌≤◌, true, List, length, map, All, IfOk, OnOk};
ghost use Rattle.limits.specs.declared.TheConstants.{GREATEST_DEGREE};
ghost use Rattle.graded_polynomials.specs.Monomials.{fits, joined};
ghost use Rattle.graded_polynomials.specs.Texts.{power};
ghost use Rattle.gc_poly.specs.Generators.{greatest};
ghost use Rattle.gc_poly.specs.Polynomials.{IsMonomialOf};
ghost use Rattle.presentation_rows.specs.RowPolynomials.{row_of};
ghost use Rattle.ring_completion.specs.Candidates.{AreSome, IsListed};
ghost use Rattle.ring_completion.specs.Completions.{generator_times};
ghost use Rattle.ring_degree.specs.Products.{IsProductWith, AreProductsIn};
ghost use Rattle.ring_degree.specs.Tables.{AreMatrices, AreTables, at_generator, rows_at, standard_at};

use crate::factors::{sign, times};
use crate::table::Table;
use fp_rows::{Matrix, Row};
use gc_poly::{Gens, Mono, Monos};
use group_table::Memory;
use std::alloc::Global;

// Writes the row, over the list, of generator i times s.
fn write_form(
    alloc: Global,
    gens: &Gens,
    i: usize,
    s: &Mono,
    list: &Monos,
    out: &mut Row,
) -> Result<(), Memory>
    requires within { i < length gens.now.degrees }
    requires monomial { (e : ℕ) × (e ≤ GREATEST_DEGREE) × IsMonomialOf gens.now e s.now }
    requires listed { fits (greatest gens.now) gens.now.degrees (joined (power i 1) s.now) ≡ true
        → IsListed list.now (joined (power i 1) s.now) }
    requires prime { out.old.p ≡ gens.now.prime }
    requires length { length out.old.entries ≡ length list.now }
    ensures row { OnOk result (out.new ≡ record out.old {
      entries = row_of (greatest gens.now) list.now
          (generator_times (greatest gens.now) gens.now.degrees i s.now);
    }) }
{
    let _count = gens.len();
    let _length = list.len();
    out.clear();
    match times(alloc, gens, i, s)? {
        Some(m) => match list.position(&m) {
            Some(k) => out.set(k, sign(gens, i, s)),
            None => unreachable!(),
        },
        None => {}
    }
    Ok(())
}

/// The rows, over the list, of generator i times these monomials.
pub(crate) fn form_rows(
    alloc: Global,
    gens: &Gens,
    i: usize,
    monomials: &Monos,
    list: &Monos,
) -> Result<Matrix, Memory>
    requires within { i < length gens.now.degrees }
    requires monomials { (e : ℕ) × (e ≤ GREATEST_DEGREE)
        × AreSome (greatest gens.now) gens.now.degrees e monomials.now }
    requires listed { (m : List ℕ) → IsProductWith (greatest gens.now) gens.now.degrees i monomials.now m
        → IsListed list.now m }
    ensures prime { IfOk result (λ m. m.p ≡ gens.now.prime) }
    ensures width { IfOk result (λ m. m.width ≡ length list.now) }
    ensures rows { IfOk result (λ m. m.rows ≡ map (λ s. row_of (greatest gens.now) list.now
        (generator_times (greatest gens.now) gens.now.degrees i s)) monomials.now) }
{
    let mut rows = Matrix::new(alloc, gens.prime(), list.len());
    let mut row = Row::zero(alloc, gens.prime(), list.len())?;
    for k in 0..monomials.len() {
        write_form(alloc, gens, i, monomials.get(k), list, &mut row)?;
        rows.push(row.view())?;
    }
    Ok(rows)
}

/// For each generator the rows, over the list of products of the next degree, of its products with standard
/// monomials.
pub(crate) fn forms(
    alloc: Global,
    gens: &Gens,
    tables: &[Table],
    list: &Monos,
) -> Result<Vec<Matrix>, Memory>
    requires small { length tables.now ≤ GREATEST_DEGREE }
    requires below { All (λ e. e < length tables.now) gens.now.degrees }
    requires tables { AreTables gens.now tables.now }
    requires list { AreProductsIn (greatest gens.now) gens.now.degrees tables.now (length tables.now)
        list.now }
    ensures count { IfOk result (λ f. length f.items ≡ length gens.now.degrees) }
    ensures shape { IfOk result (λ f. AreMatrices gens.now tables.now (length tables.now) (length list.now)
        f.items) }
    ensures rows { IfOk result (λ f. (i : ℕ) → i < length gens.now.degrees → rows_at f.items i
        ≡ map (λ s. row_of (greatest gens.now) list.now
        (generator_times (greatest gens.now) gens.now.degrees i s))
        (standard_at tables.now (length tables.now - at_generator gens.now.degrees i))) }
{
    let _prime = gens.modulus();
    let mut forms = Vec::new(alloc);
    for i in 0..gens.len() {
        let low = &tables[tables.len() - gens.degree(i) as usize];
        forms.push(form_rows(alloc, gens, i, &low.standard, list)?)?;
    }
    Ok(forms)
}
