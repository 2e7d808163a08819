//! Negative standard bases of J K, for a submodule K of a free module that a list of rows spans.

ghost use Rattle.std.specs.Prelude.{◌≡◌, ◌≤◌, ◌*◌, ◌^◌, ℕ, List, IfOk};
ghost use Rattle.linear_algebra.specs.Choices.{IsGreedy};
ghost use Rattle.linear_algebra.specs.Rows.{IsEchelonOf};
ghost use Rattle.p_groups.specs.PGroups.{order_of, prime_of};
ghost use Rattle.min_res.specs.Radicals.{IsRadicalBasis};
ghost use Rattle.min_res.specs.Stages.{rank_of, stage_rows};

use crate::layer_products::LayerProducts;
use fp_rows::Echelon;
use group_algebra::Algebra;
use group_table::Memory;
use neg_basis::NegBasis;
use std::alloc::Global;

/// A negative standard basis of J K_d, from the list of K_d of rows of `rank` blocks. A greedy choice of rows
/// of the list modulo its echelon list is that of the next boundary.
pub(crate) fn radical(
    alloc: Global,
    algebra: &Algebra,
    rank: usize,
    list: &Echelon,
) -> Result<NegBasis, Memory>
    requires list_prime { list.now.p ≡ prime_of algebra.now }
    requires list_width { list.now.width ≡ order_of algebra.now * rank }
    requires small { list.now.width ≤ 2 ^ 28 }
    ensures prime { IfOk result (λ b. b.p ≡ prime_of algebra.now) }
    ensures width { IfOk result (λ b. b.width ≡ list.now.width) }
    ensures radical { IfOk result (λ b. (d : ℕ) → rank ≡ rank_of algebra.now d
        → list.now.rows ≡ (stage_rows algebra.now).kernel d → IsRadicalBasis algebra.now d b) }
    ensures positions { IfOk result (λ b. (d : ℕ) → rank ≡ rank_of algebra.now d
        → list.now.rows ≡ (stage_rows algebra.now).kernel d → (rows : List (List ℕ)) (positions : List ℕ)
        → IsEchelonOf b.p b.width b.vectors rows → IsGreedy b.p list.now.rows rows positions
        → positions ≡ (stage_rows algebra.now).positions d) }
{
    let products = LayerProducts::new(algebra, rank);
    prove!(list.rows() <= list.width());
    let basis = NegBasis::of_images(alloc, &products, list)?;
    Ok(basis)
}
