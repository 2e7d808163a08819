ghost use Rattle.std.specs.Prelude.{◌≡◌, ◌↔◌, ℕ, ◌<◌, length, map, IsTrue};
ghost use Rattle.group_table.specs.Prime.{prime_value};
ghost use Rattle.linear_algebra.specs.Modular.{IsCongruent};
ghost use Rattle.linear_algebra.specs.Rows.{entry, row, pivot, combination, IsRow, IsMatrix, IsEchelon};
ghost use Rattle.linear_algebra.specs.Rows.{IsInSpan};
ghost use Rattle.fp_rows.specs.Lists.{lists};
ghost use Rattle.fp_rows.specs.Refs.{entries_of, modulus_of};

use crate::arithmetic::add_product;
use crate::row::Row;
use crate::row_ref::RowRef;
use group_table::Prime;

// Place j of the combination of the rows that agrees with v at each pivot.
fn value_at(p: Prime, rows: &[Row], pivots: &[usize], v: RowRef<'_>, j: usize) -> u8
    requires matrix { IsMatrix (prime_value p) (length (entries_of v)) (lists rows.now) }
    requires echelon { IsEchelon (lists rows.now) }
    requires pivots_are { pivots.now ≡ map pivot (lists rows.now) }
    requires v_is { modulus_of v ≡ prime_value p }
    requires inside { j < length (entries_of v) }
    ensures below { result < prime_value p }
    ensures value { IsCongruent (prime_value p) result
        (combination (λ i. entry (entries_of v.entry) (pivot (row (lists rows.now) i))) (lists rows.now) j) }
{
    let mut sum = 0u8;
    for (i, r) in rows.iter().enumerate() {
        sum = add_product(p, sum, v.get(pivots[i]), r.get(j));
    }
    sum
}

/// Whether v is in the span of the rows.
pub fn is_member(p: Prime, rows: &[Row], pivots: &[usize], v: RowRef<'_>) -> bool
    requires matrix { IsMatrix (prime_value p) (length (entries_of v)) (lists rows.now) }
    requires echelon { IsEchelon (lists rows.now) }
    requires pivots_are { pivots.now ≡ map pivot (lists rows.now) }
    requires v_is { modulus_of v ≡ prime_value p }
    ensures { IsTrue result ↔ IsInSpan (prime_value p) (lists rows.now) (entry (entries_of v.entry)) }
{
    for j in 0..v.len() {
        if value_at(p, rows, pivots, v, j) != v.get(j) {
            return false;
        }
    }
    true
}
