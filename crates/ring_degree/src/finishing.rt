//! The table of the next degree.

ghost use Rattle.std.specs.Prelude.{◌≡◌, ℕ, suc, ◌-◌, ◌<◌, ◌≤◌, [], ◌∷◌, ◌++◌, List, length, map};
ghost use Rattle.std.specs.Prelude.{replicate, All, IfOk};
ghost use Rattle.std.specs.List.{AllByRecursion as Each};
ghost use Rattle.limits.specs.declared.TheConstants.{GREATEST_DEGREE};
ghost use Rattle.linear_algebra.specs.Kernels.{IsKernelOf};
ghost use Rattle.linear_algebra.specs.Rows.{row};
ghost use Rattle.fp_rows.specs.Refs.{entries_of, modulus_of};
ghost use Rattle.graded_polynomials.specs.Polynomials.{Polynomial};
ghost use Rattle.graded_algebra.specs.Algebras.{Generator, degrees};
ghost use Rattle.graded_algebra.specs.Vectors.{Vector, GradedAlgebra, algebra};
ghost use Rattle.presentation_rows.specs.Values.{AreValues};
ghost use Rattle.gc_poly.specs.Generators.{greatest};
ghost use Rattle.ring_completion.specs.Candidates.{AreSome, AreLeft};
ghost use Rattle.ring_degree.specs.Steps.{IsRingBelow, IsStep};
ghost use Rattle.ring_degree.specs.Finishing.{AreFormsBelow, HasNewGenerators, IsProductForm};
ghost use Rattle.ring_degree.specs.Tables.{AreTables, AreTablesOf, standard_at};
ghost use Rattle.ring_degree.specs.declared.step.Step.{Step};

use crate::forms::form_rows;
use crate::left::{reduced_matrices, without_pivots};
use crate::table::Table;
use fp_rows::{Echelon, Matrix, Row, RowRef};
use gc_poly::{Gens, Monos};
use group_table::Memory;
use std::alloc::Global;

// Writes a row, and zeros behind.
fn write_widened(v: RowRef<'_>, out: &mut Row)
    requires prime { out.old.p ≡ modulus_of v }
    requires length { length (entries_of v) ≤ length out.old.entries }
    ensures { out.new ≡ record out.old {
      entries = entries_of v.entry ++ replicate (length out.old.entries - length (entries_of v.entry)) 0;
    } }
{
    out.clear();
    out.add_part(0, 1, v);
}

// The rows with zeros behind, over a list with more members.
fn widened(alloc: Global, rows: &Matrix, width: usize) -> Result<Matrix, Memory>
    requires { rows.now.width ≤ width }
    ensures prime { IfOk result (λ m. m.p ≡ rows.now.p) }
    ensures width { IfOk result (λ m. m.width ≡ width) }
    ensures rows { IfOk result (λ m. m.rows ≡ map (λ v. v ++ replicate (width - rows.now.width) 0)
        rows.now.rows) }
    ensures lengths { (k : ℕ) → k < length rows.now.rows → length (row rows.now.rows k) ≡ rows.now.width }
{
    let count = rows.rows();
    let mut wide = Matrix::new(alloc, rows.prime(), width);
    let mut out = Row::zero(alloc, rows.prime(), width)?;
    for k in 0..count {
        write_widened(rows.row(k), &mut out);
        wide.push(out.view())?;
    }
    Ok(wide)
}

// The rows, over the list that is left, of the products with generator i: those of a generator of lower
// degree by its forms, and that of a new one.
fn product_forms(
    alloc: Global,
    gens: &Gens,
    i: usize,
    tables: &[Table],
    forms: &[Matrix],
    width: usize,
    left: &Monos,
) -> Result<Matrix, Memory>
    requires within { i < length gens.now.degrees }
    requires some { 0 < length tables.now }
    requires one { standard_at tables.now 0 ≡ [] ∷ [] }
    requires forms { AreFormsBelow gens.now tables.now width forms.now }
    requires width { width ≤ length left.now }
    requires new { HasNewGenerators gens.now (length tables.now) left.now }
    ensures { IfOk result (IsProductForm gens.now tables.now forms.now left.now width i) }
{
    if (gens.degree(i) as usize) < tables.len() {
        let wide = widened(alloc, &forms[i], left.len())?;
        Ok(wide)
    } else {
        let unit = form_rows(alloc, gens, i, &tables[0].standard, left)?;
        Ok(unit)
    }
}

/// The table of degree d, where these are those of the degrees 0 to d - 1: from the forms of its products,
/// over a list of so many members, with the monomials of the new generators behind, and the kernel of the
/// values of all of these.
pub fn finish(
    alloc: Global,
    gens: &Gens,
    tables: &[Table],
    forms: &[Matrix],
    width: usize,
    left: &Monos,
    kernel: &Echelon,
) -> Result<Table, Memory>
    requires some { 0 < length tables.now }
    requires small { length tables.now ≤ GREATEST_DEGREE }
    requires below { All (λ e. e ≤ length tables.now) gens.now.degrees }
    requires tables { AreTables gens.now tables.now }
    requires left { AreSome (greatest gens.now) gens.now.degrees (length tables.now) left.now }
    requires one { standard_at tables.now 0 ≡ [] ∷ [] }
    requires forms { AreFormsBelow gens.now tables.now width forms.now }
    requires wide { width ≤ length left.now }
    requires new { HasNewGenerators gens.now (length tables.now) left.now }
    requires prime { kernel.now.p ≡ gens.now.prime }
    requires width { kernel.now.width ≡ length left.now }
    ensures shape { IfOk result (λ t. AreTables gens.now (tables.now ++ t ∷ [])) }
    ensures tables { IfOk result (λ t. (G : GradedAlgebra (greatest gens.now))
        (gs new : List (Generator (Vector (greatest gens.now)))) (rs : List Polynomial)
        (x : Step) (extra values : List (List ℕ))
        → degrees (gs ++ new) ≡ gens.now.degrees → Each (λ e. e < length tables.now) (degrees gs)
        → Each (λ e. e ≡ length tables.now) (degrees new)
        → x.forms.items ≡ forms.now → length x.left ≡ width → left.now ≡ x.left ++ extra
        → IsRingBelow (greatest gens.now) G gs rs (length tables.now - 1) tables.now
        → IsStep (greatest gens.now) G gs rs (length tables.now - 1) tables.now x
        → AreLeft (greatest gens.now) (algebra (greatest gens.now) G) (gs ++ new) rs (length tables.now)
        left.now
        → AreValues (greatest gens.now) (algebra (greatest gens.now) G) (gs ++ new) left.now values
        → IsKernelOf (suc (greatest gens.now)) values kernel.now.rows
        → AreTablesOf (greatest gens.now) G (gs ++ new) (length tables.now) (tables.now ++ t ∷ [])) }
{
    let _prime = gens.modulus();
    let standard = without_pivots(alloc, left, kernel)?;
    let mut wide = Vec::new(alloc);
    for i in 0..gens.len() {
        wide.push(product_forms(alloc, gens, i, tables, forms, width, left)?)?;
    }
    let count = standard.len();
    let products = reduced_matrices(alloc, &wide, kernel, count)?;
    Ok(Table { standard, products })
}
