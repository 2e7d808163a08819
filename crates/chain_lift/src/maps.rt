//! The rows of the maps of a lift.

ghost use Rattle.chain_lift.specs.RowMaps.{FitTogether, image_row, section_of, multiple_of_one};
ghost use Rattle.fp_rows.specs.Refs.{entries_of, modulus_of};
ghost use Rattle.group_algebra.specs.Coordinates.{row_of};
ghost use Rattle.group_algebra.specs.RowMaps.{map_row};
ghost use Rattle.group_table.specs.Tables.{order};
ghost use Rattle.linear_algebra.specs.Rows.{entry, row};
ghost use Rattle.std.specs.Prelude.{◌≡◌, ◌<◌, ◌*◌, ◌^◌, ℕ, IfOk, length};
ghost use Rattle.p_groups.specs.PGroups.{order_of, prime_of};

use fp_rows::{Matrix, Row, RowRef};
use group_algebra::Algebra;
use group_table::Memory;
use min_res::Stage;
use std::alloc::Global;

/// The rows of the next map of a lift, from the rows of the map before, which goes to a free module of this
/// rank: the section, in `target`, of the value of the map before at each row of the boundary of `source`.
pub(crate) fn next_rows(
    alloc: Global,
    algebra: &Algebra,
    rank: usize,
    before: &Matrix,
    source: &Stage,
    target: &Stage,
) -> Result<Matrix, Memory>
    requires { FitTogether algebra.now rank before.now source.now target.now }
    ensures prime { IfOk result (λ m. m.p ≡ prime_of algebra.now) }
    ensures width { IfOk result (λ m. m.width ≡ target.now.kernel.width) }
    ensures count { IfOk result (λ m. length m.rows ≡ source.now.rank) }
    ensures rows { IfOk result (λ m. (i : ℕ) → i < source.now.rank
        → row m.rows i
        ≡ section_of target.now (map_row algebra.now rank before.now.rows (image_row source.now i))) }
{
    let prime = before.prime();
    let mut value = Row::zero(alloc, prime, before.width())?;
    let mut lifted = Row::zero(alloc, prime, target.kernel().width())?;
    let mut rows = Matrix::new(alloc, prime, target.kernel().width());
    for i in 0..source.rank() {
        algebra.apply(rank, before, source.image(i), &mut value);
        target.section(value.view(), &mut lifted);
        rows.push(lifted.view())?;
    }
    Ok(rows)
}

/// The rows of the first map of a lift, which takes basis element i to c_i times 1.
pub(crate) fn first_rows(
    alloc: Global,
    algebra: &Algebra,
    class: RowRef<'_>,
) -> Result<Matrix, Memory>
    requires { modulus_of class ≡ prime_of algebra.now }
    ensures prime { IfOk result (λ m. m.p ≡ prime_of algebra.now) }
    ensures width { IfOk result (λ m. m.width ≡ order_of algebra.now) }
    ensures count { IfOk result (λ m. length m.rows ≡ length (entries_of class.entry)) }
    ensures rows { IfOk result (λ m. (i : ℕ) → i < length (entries_of class.entry)
        → row m.rows i
        ≡ row_of algebra.now 1 (multiple_of_one algebra.now (entry (entries_of class.entry) i))) }
{
    let prime = algebra.group().prime();
    let order = algebra.group().order() as usize;
    let mut multiple = Row::zero(alloc, prime, order)?;
    let mut layers = Row::zero(alloc, prime, order)?;
    let mut rows = Matrix::new(alloc, prime, order);
    for i in 0..class.len() {
        multiple.set(0, class.get(i));
        algebra.to_layers(multiple.view(), &mut layers);
        rows.push(layers.view())?;
    }
    Ok(rows)
}
