//! The new relations of a degree.

ghost use Rattle.std.specs.Prelude.{◌≡◌, [], length, IfOk};
ghost use Rattle.fp_rows.specs.Refs.{entries_of, modulus_of};
ghost use Rattle.gc_poly.specs.Generators.{greatest};
ghost use Rattle.presentation_rows.specs.RowPolynomials as row_polynomials;
ghost use Rattle.presentation_rows.specs.Pivots as pivots;
ghost use Rattle.ring_completion.specs.Candidates.{AreSome};

use fp_rows::{Echelon, RowRef};
use gc_poly::{Gens, Monos, Poly};
use group_table::Memory;
use std::alloc::Global;

/// The polynomial with this row of coefficients at these monomials of degree d.
pub fn polynomial_of(
    alloc: Global,
    gens: &Gens,
    d: u32,
    monomials: &Monos,
    row: RowRef<'_>,
) -> Result<Poly, Memory>
    requires monomials { AreSome (greatest gens.now) gens.now.degrees d monomials.now }
    requires prime { modulus_of row ≡ gens.now.prime }
    requires length { length (entries_of row) ≡ length monomials.now }
    ensures { IfOk result (λ f. f ≡ record {
      degree = d;
      terms = row_polynomials.polynomial_of monomials.now (entries_of row.entry);
    }) }
{
    let mut f = Poly::zero(alloc, d);
    for i in 0..monomials.len() {
        f.add_term(gens, row.get(i), monomials.get(i))?;
    }
    Ok(f)
}

/// The relations of degree d: the rows of the kernel of the values of the monomials that lead in no
/// consequence of the relations before.
pub(crate) fn relations_of(
    alloc: Global,
    gens: &Gens,
    d: u32,
    monomials: &Monos,
    kernel: &Echelon,
) -> Result<Vec<Poly>, Memory>
    requires monomials { AreSome (greatest gens.now) gens.now.degrees d monomials.now }
    requires prime { kernel.now.p ≡ gens.now.prime }
    requires width { kernel.now.width ≡ length monomials.now }
    ensures { IfOk result (λ rs. rs.items ≡ pivots.new_relations d monomials.now [] kernel.now.rows) }
{
    let mut relations = Vec::new(alloc);
    for i in 0..kernel.rows() {
        relations.push(polynomial_of(alloc, gens, d, monomials, kernel.row(i))?)?;
    }
    Ok(relations)
}
