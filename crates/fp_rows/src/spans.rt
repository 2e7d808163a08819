ghost use Rattle.std.specs.Prelude.{◌≡◌, IfOk};
ghost use Rattle.linear_algebra.specs.Rows.{IsEchelonOf};

use crate::basis::Echelon;
use crate::elimination::insert_row;
use crate::matrix::Matrix;
use crate::row::Row;
use group_table::Memory;
use std::alloc::Global;

/// The reduced row echelon basis of the span of the rows.
pub fn echelon(alloc: Global, m: &Matrix) -> Result<Echelon, Memory>
    ensures prime { IfOk result (λ e. e.p ≡ m.now.p) }
    ensures width { IfOk result (λ e. e.width ≡ m.now.width) }
    ensures rows { IfOk result (λ e. IsEchelonOf m.now.p m.now.width m.now.rows e.rows) }
{
    let mut rows = Vec::new(alloc);
    let mut pivots = Vec::new(alloc);
    for r in &m.rows {
        let v = Row::copy_of(alloc, r.view())?;
        insert_row(&mut rows, &mut pivots, v)?;
    }
    Ok(Echelon::of_parts(alloc, m.prime, m.width, rows, pivots))
}
