ghost use Rattle.std.specs.Prelude.{◌≡◌, ℕ, ◌<◌, List, length, IfOk};
ghost use Rattle.group_table.specs.Prime.{prime_value};
ghost use Rattle.linear_algebra.specs.Rows.{entry, row, IsRow, IsMatrix, IsEchelonOf, IsInSpan, AreInSpan};
ghost use Rattle.linear_algebra.specs.Kernels.{IsKernelOf};
ghost use Rattle.linear_algebra.specs.Choices.{ArePreimages, IsPreimage};
ghost use Rattle.fp_rows.specs.Refs.{entries_of, modulus_of};

use crate::basis::Echelon;
use crate::kernels::{Solution, solve};
use crate::matrix::Matrix;
use crate::row::Row;
use crate::row_ref::RowRef;
use group_table::{Memory, Prime};
use std::alloc::Global;

// The preimage of a target in the span, from those of the rows of the span's list.
fn preimage_of(
    alloc: Global,
    p: Prime,
    n: usize,
    s: &Solution,
    target: RowRef<'_>,
) -> Result<Row, Memory>
    requires primes { (s.now.image.p ≡ prime_value p) × (s.now.preimages.p ≡ prime_value p) }
    requires widths { (s.now.image.width ≡ length (entries_of target)) × (s.now.preimages.width ≡ n) }
    requires target_prime { modulus_of target ≡ prime_value p }
    requires count { length s.now.preimages.rows ≡ length s.now.image.rows }
    ensures prime { IfOk result (λ u. u.p ≡ prime_value p) }
    ensures preimage { IfOk result (λ u. (rows : List (List ℕ)) → length rows ≡ n
        → IsEchelonOf (prime_value p) (length (entries_of target.entry)) rows s.now.image.rows
        → ArePreimages (prime_value p) rows s.now.kernel.rows s.now.image.rows s.now.preimages.rows
        → IsInSpan (prime_value p) rows (entry (entries_of target.entry))
        → IsPreimage (prime_value p) rows s.now.kernel.rows (entries_of target.entry) u.entries) }
{
    let mut u = Row::zero(alloc, p, n)?;
    for i in 0..s.image.rows() {
        let c = target.get(s.image.pivot(i));
        if c != 0 {
            u.add(c, s.preimages.row(i));
        }
    }
    Ok(u)
}

// For each target row, which is in the span, the preimage that is 0 at the kernel's pivots.
#[tactic(auto, using(crate::proofs::Primes::prime_above_one))]
fn preimages_by(
    alloc: Global,
    m: &Matrix,
    s: &Solution,
    targets: &Echelon,
) -> Result<Matrix, Memory>
    requires primes { (s.now.image.p ≡ m.now.p) × (s.now.preimages.p ≡ m.now.p) × (targets.now.p ≡ m.now.p) }
    requires widths { (s.now.image.width ≡ m.now.width) × (s.now.preimages.width ≡ length m.now.rows)
        × (targets.now.width ≡ m.now.width) }
    requires image { IsEchelonOf m.now.p m.now.width m.now.rows s.now.image.rows }
    requires preimages { ArePreimages m.now.p m.now.rows s.now.kernel.rows s.now.image.rows
        s.now.preimages.rows }
    requires in_span { AreInSpan m.now.p m.now.rows targets.now.rows }
    ensures prime { IfOk result (λ u. u.p ≡ m.now.p) }
    ensures width { IfOk result (λ u. u.width ≡ length m.now.rows) }
    ensures rows { IfOk result
        (λ u. ArePreimages m.now.p m.now.rows s.now.kernel.rows targets.now.rows u.rows) }
    ensures above_one { IfOk result (λ _. 1 < m.now.p) }
{
    let n = m.rows();
    let mut rows = Matrix::new(alloc, m.prime(), n);
    for i in 0..targets.rows() {
        let u = preimage_of(alloc, m.prime(), n, s, targets.row(i))?;
        rows.push(u.view())?;
    }
    Ok(rows)
}

/// For each target row the one u with u·m equal to it that is 0 at the pivots of `free`, which is the kernel
/// of m.
pub fn preimages(
    alloc: Global,
    m: &Matrix,
    targets: &Echelon,
    free: &Echelon,
) -> Result<Matrix, Memory>
    requires same_prime { targets.now.p ≡ m.now.p }
    requires same_width { targets.now.width ≡ m.now.width }
    requires in_span { AreInSpan m.now.p m.now.rows targets.now.rows }
    requires kernel { IsKernelOf m.now.p m.now.rows free.now.rows }
    ensures prime { IfOk result (λ u. u.p ≡ m.now.p) }
    ensures width { IfOk result (λ u. u.width ≡ length m.now.rows) }
    ensures rows { IfOk result (λ u. ArePreimages m.now.p m.now.rows free.now.rows targets.now.rows u.rows) }
{
    let s = solve(alloc, m)?;
    let rows = preimages_by(alloc, m, &s, targets)?;
    Ok(rows)
}

/// The kernel of m, and the preimages of targets in the span, by one elimination.
#[derive(Drop)]
pub struct Solved {
    pub kernel: Echelon,
    pub preimages: Matrix,
}

/// The kernel of m, and for each target row the one u with u·m equal to it that is 0 at the pivots of the
/// kernel.
pub fn kernel_and_preimages(alloc: Global, m: &Matrix, targets: &Echelon) -> Result<Solved, Memory>
    requires same_prime { targets.now.p ≡ m.now.p }
    requires same_width { targets.now.width ≡ m.now.width }
    requires in_span { AreInSpan m.now.p m.now.rows targets.now.rows }
    ensures primes { IfOk result (λ s. (s.kernel.p ≡ m.now.p) × (s.preimages.p ≡ m.now.p)) }
    ensures widths { IfOk result (λ s. (s.kernel.width ≡ length m.now.rows)
        × (s.preimages.width ≡ length m.now.rows)) }
    ensures kernel { IfOk result (λ s. IsKernelOf m.now.p m.now.rows s.kernel.rows) }
    ensures preimages { IfOk result (λ s. ArePreimages m.now.p m.now.rows s.kernel.rows targets.now.rows
        s.preimages.rows) }
{
    let s = solve(alloc, m)?;
    let preimages = preimages_by(alloc, m, &s, targets)?;
    Ok(Solved {
        kernel: s.kernel,
        preimages,
    })
}
