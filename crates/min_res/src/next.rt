//! From the stage of degree d to that of degree d + 1.

ghost use Rattle.min_res.specs.Defined.{IsStageAt};
ghost use Rattle.min_res.specs.Radicals.{IsRadicalBasis};
ghost use Rattle.min_res.specs.Refusals.{IsRefusal};
ghost use Rattle.min_res.specs.Stages.{rank_of, stage_rows};
ghost use Rattle.std.specs.Prelude.{◌≡◌, ◌<◌, ◌≤◌, ◌+◌, ◌*◌, ◌^◌, ℕ, suc, IfErr, IfOk, length, slice_index};
ghost use Rattle.p_groups.specs.PGroups.{order_of, prime_of};

use crate::boundary::Boundary;
use crate::fault::ResFault;
use crate::matrices::{chosen_rows, matrix_of};
use crate::radicals::radical;
use crate::stage::Stage;
use fp_rows::{Echelon, Positions, greedy, kernel_and_preimages};
use group_algebra::Algebra;
use group_table::Memory;
use neg_basis::NegBasis;
use std::alloc::Global;
use std::rc::Rc;

// The places in the list of K_d, a list of rows of `rank` blocks, of the rows of the next boundary: a greedy
// choice modulo J K_d. With them a negative standard basis of J K_d.
fn next_positions(
    alloc: Global,
    algebra: &Algebra,
    rank: usize,
    list: &Echelon,
) -> Result<(Positions, NegBasis), Memory>
    requires list_prime { list.now.p ≡ prime_of algebra.now }
    requires list_width { list.now.width ≡ order_of algebra.now * rank }
    requires small { list.now.width ≤ 2 ^ 28 }
    ensures positions { IfOk result (λ next. (d : ℕ) → rank ≡ rank_of algebra.now d
        → list.now.rows ≡ (stage_rows algebra.now).kernel d
        → next.0 ≡ (stage_rows algebra.now).positions d) }
    ensures radical { IfOk result (λ next. (d : ℕ) → rank ≡ rank_of algebra.now d
        → list.now.rows ≡ (stage_rows algebra.now).kernel d → IsRadicalBasis algebra.now d next.1) }
{
    let basis = radical(alloc, algebra, rank, list)?;
    prove!(list.rows() <= list.width());
    let positions = greedy(alloc, list, basis.reduced())?;
    Ok((positions, basis))
}

// The stage after `last` with these positions of its boundary's rows.
fn stage_with(
    alloc: Global,
    algebra: &Algebra,
    last: &Stage,
    positions: Positions,
) -> Result<Stage, Memory>
    requires last { IsStageAt algebra.now last.now.degree last.now }
    requires positions { positions ≡ (stage_rows algebra.now).positions last.now.degree }
    requires degree { last.now.degree + 1 < 2 ^ 32 }
    requires small { order_of algebra.now * length positions ≤ 2 ^ 28 }
    ensures stage { IfOk result (λ s. IsStageAt algebra.now (suc last.now.degree) s) }
    ensures width { IfOk result (λ s. s.kernel.width ≡ order_of algebra.now * length positions) }
{
    let source = last.list().clone()?;
    let rows = chosen_rows(alloc, &source, &positions)?;
    let matrix = matrix_of(alloc, algebra, last.rank(), &rows)?;
    let solved = kernel_and_preimages(alloc, &matrix, &source)?;
    let rank = positions.len();
    let boundary = Boundary {
        source,
        positions,
        matrix,
        sections: solved.preimages,
    };
    Ok(Stage {
        degree: last.degree() + 1,
        rank,
        kernel: Rc::new(alloc, solved.kernel)?,
        boundary: Some(boundary),
    })
}

/// The stage after `last`, unless the dimension of its free module is above the limit, and the basis of J K
/// that the rows of its boundary are chosen against.
pub(crate) fn next_stage(
    alloc: Global,
    algebra: &Algebra,
    last: &Stage,
    limit: u64,
) -> Result<(Stage, NegBasis), ResFault>
    requires last { IsStageAt algebra.now last.now.degree last.now }
    requires degree { last.now.degree + 1 < 2 ^ 32 }
    requires small { last.now.kernel.width ≤ 2 ^ 28 }
    requires limit { limit ≤ 2 ^ 28 }
    ensures stage { IfOk result (λ next. IsStageAt algebra.now (suc last.now.degree) next.0) }
    ensures width { IfOk result (λ next. next.0.kernel.width ≤ limit) }
    ensures radical { IfOk result (λ next. IsRadicalBasis algebra.now last.now.degree next.1) }
    ensures refusal { IfErr result (λ e. IsRefusal algebra.now (suc last.now.degree) limit e) }
{
    let group = algebra.group();
    let (positions, basis) = next_positions(alloc, algebra, last.rank(), last.kernel())?;
    let dimension = group.order() as u64 * positions.len() as u64;
    if dimension > limit {
        return Err(ResFault::TooLarge {
            degree: last.degree() + 1,
            dimension,
        });
    }
    let stage = stage_with(alloc, algebra, last, positions)?;
    Ok((stage, basis))
}
