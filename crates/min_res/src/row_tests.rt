//! Tests of single rows.

ghost use Rattle.fp_rows.specs.Refs.{entries_of, modulus_of};
ghost use Rattle.group_modules.specs.Field.{Below};
ghost use Rattle.linear_algebra.specs.Rows.{entry, pivot, row};
ghost use Rattle.min_res.specs.RecordChecks.{HasSumZero};
ghost use Rattle.p_groups.specs.PGroups.{order_of, prime_of};
ghost use Rattle.std.specs.Prelude.{◌≡◌, ◌≢◌, ◌↔◌, ◌<◌, ◌*◌, ℕ, IsTrue, length, slice_index};

use fp_rows::{Echelon, Positions, RowRef};
use group_algebra::Algebra;

/// Whether two rows of one length are equal.
pub(crate) fn are_equal(a: RowRef<'_>, b: RowRef<'_>) -> bool
    requires { length (entries_of a) ≡ length (entries_of b) }
    ensures { IsTrue result ↔ (entries_of a.entry ≡ entries_of b.entry) }
{
    for j in 0..a.len() {
        if a.get(j) != b.get(j) {
            return false;
        }
    }
    true
}

/// Whether a row is 0 at each pivot of the list.
pub(crate) fn is_zero_at_pivots(list: &Echelon, r: RowRef<'_>) -> bool
    requires { length (entries_of r) ≡ list.now.width }
    ensures { IsTrue result ↔ ((i : ℕ) → i < length list.now.rows
        → entry (entries_of r.entry) (pivot (row list.now.rows i)) ≡ 0) }
{
    for i in 0..list.rows() {
        if r.get(list.pivot(i)) != 0 {
            return false;
        }
    }
    true
}

/// Whether none of the positions is k.
pub(crate) fn lacks(positions: &Positions, k: usize) -> bool
    ensures { IsTrue result
        ↔ ((i : Below (length positions.now)) → slice_index positions.now i.0 ≢ k) }
{
    for i in 0..positions.len() {
        if positions.get(i) as usize == k {
            return false;
        }
    }
    true
}

// Whether block number `block` of a row of `rank` blocks has sum 0.
fn is_sum_zero(algebra: &Algebra, rank: usize, block: usize, r: RowRef<'_>) -> bool
    requires block { block < rank }
    requires prime { modulus_of r ≡ prime_of algebra.now }
    requires length { length (entries_of r) ≡ order_of algebra.now * rank }
    ensures { (b : block < rank)
        → IsTrue result ↔ HasSumZero algebra.now rank (entries_of r.entry) (block, b) }
{
    algebra.aug(rank, block, r) == 0
}

/// Whether each block of a row of `rank` blocks has sum 0.
pub(crate) fn are_sums_zero(algebra: &Algebra, rank: usize, r: RowRef<'_>) -> bool
    requires prime { modulus_of r ≡ prime_of algebra.now }
    requires length { length (entries_of r) ≡ order_of algebra.now * rank }
    ensures { IsTrue result
        ↔ ((i : Below rank) → HasSumZero algebra.now rank (entries_of r.entry) i) }
{
    for block in 0..rank {
        if !is_sum_zero(algebra, rank, block, r) {
            return false;
        }
    }
    true
}

/// Whether each block whose position is greater than k has sum 0, in a row with a block for each position.
pub(crate) fn are_later_sums_zero(
    algebra: &Algebra,
    positions: &Positions,
    k: usize,
    r: RowRef<'_>,
) -> bool
    requires prime { modulus_of r ≡ prime_of algebra.now }
    requires length { length (entries_of r) ≡ order_of algebra.now * length positions.now }
    ensures { IsTrue result
        ↔ ((i : Below (length positions.now)) → k < slice_index positions.now i.0
        → HasSumZero algebra.now (length positions.now) (entries_of r.entry) i) }
{
    let rank = positions.len();
    for block in 0..rank {
        if positions.get(block) as usize > k && !is_sum_zero(algebra, rank, block, r) {
            return false;
        }
    }
    true
}
