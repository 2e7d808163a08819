//! The stage of degree 0: the group algebra, with the augmentation ideal as its kernel.

ghost use Rattle.group_table.specs.Prime.{prime_value};
ghost use Rattle.linear_algebra.specs.Kernels.{unit_row};
ghost use Rattle.linear_algebra.specs.Rows.{row};
ghost use Rattle.min_res.specs.Defined.{IsStageAt};
ghost use Rattle.std.specs.Prelude.{◌≡◌, ◌+◌, ◌<◌, ◌≤◌, ℕ, IfOk, length};

use crate::stage::Stage;
use fp_rows::{Matrix, Row, echelon};
use group_algebra::Algebra;
use group_table::{Memory, Prime};
use std::alloc::Global;
use std::rc::Rc;

// The unit rows of n entries but the first: what is 0 at the first place.
fn later_units(alloc: Global, p: Prime, n: usize) -> Result<Matrix, Memory>
    requires { 0 < n }
    ensures prime { IfOk result (λ m. m.p ≡ prime_value p) }
    ensures width { IfOk result (λ m. m.width ≡ n) }
    ensures count { IfOk result (λ m. length m.rows + 1 ≡ n) }
    ensures rows { IfOk result (λ m. (i : ℕ) → i < length m.rows → row m.rows i ≡ unit_row n (i + 1)) }
{
    let mut unit = Row::zero(alloc, p, n)?;
    let mut rows = Matrix::new(alloc, p, n);
    for i in 1..n {
        unit.set_unit(i);
        rows.push(unit.view())?;
    }
    Ok(rows)
}

/// The stage of degree 0. In layer coordinates the first place holds the sum of the coefficients.
pub(crate) fn first_stage(alloc: Global, algebra: &Algebra) -> Result<Stage, Memory>
    ensures stage { IfOk result (λ s. IsStageAt algebra.now 0 s) }
    ensures small { IfOk result (λ s. s.kernel.width ≤ 256) }
{
    let group = algebra.group();
    let units = later_units(alloc, group.prime(), group.order() as usize)?;
    let kernel = Rc::new(alloc, echelon(alloc, &units)?)?;
    Ok(Stage {
        degree: 0,
        rank: 1,
        kernel,
        boundary: None,
    })
}
