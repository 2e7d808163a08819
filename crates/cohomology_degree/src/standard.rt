//! Standard monomials.

ghost use Rattle.std.specs.Prelude.{◌≡◌, length, IfOk};
ghost use Rattle.cohomology_degree.specs.Standard.{without_pivots};

use crate::degree::Valued;
use fp_rows::{Echelon, Matrix};
use gc_poly::Monos;
use group_table::Memory;
use std::alloc::Global;

/// The monomials whose places are no pivots of the kernel of the values, with their values.
pub(crate) fn standard(alloc: Global, left: &Valued, kernel: &Echelon) -> Result<Valued, Memory>
    requires { length left.now.values.rows ≡ length left.now.monomials }
    ensures monomials { IfOk result (λ v. v.monomials ≡ without_pivots kernel.now.rows 0 left.now.monomials) }
    ensures values { IfOk result (λ v. v.values
        ≡ record left.now.values { rows = without_pivots kernel.now.rows 0 left.now.values.rows }) }
{
    let mut monomials = Monos::new(alloc);
    let mut values = Matrix::new(alloc, left.values.prime(), left.values.width());
    for i in 0..left.monomials.len() {
        if !kernel.is_pivot(i) {
            monomials.push(left.monomials.get(i).try_clone(alloc)?)?;
            values.push(left.values.row(i))?;
        }
    }
    Ok(Valued { monomials, values })
}
