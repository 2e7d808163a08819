//! Linear algebra over the field of p elements: definitions on lists of numbers, their lemmas, and the laws
//! that readers can cite. A row is a list of numbers below p. Everything linear is said place by place and
//! compared modulo p.
#![tactic(auto)]

ghost use Rattle.std.specs.Prelude.{◌≡◌, ◌≢◌, ℕ, ◌+◌, ◌%◌, ◌<◌, List, length};
ghost use Rattle.linear_algebra.specs.Modular.{IsSmallPrime, IsFieldModulo};
ghost use Rattle.linear_algebra.specs.Rows.{entry, row, IsRow, IsMatrix, IsEchelon, IsEchelonOf};
ghost use Rattle.linear_algebra.specs.Rows.{IsCombination, IsInSpan, AreInSpan, IsReduced};
ghost use Rattle.linear_algebra.specs.Kernels.{IsInKernel, IsKernelOf};
ghost use Rattle.linear_algebra.specs.Choices.{IsGreedy, IsPreimage};
ghost use Rattle.linear_algebra.specs.Ranks.{IsIndependent};

/// The numbers modulo 2, 3, 5 and 7 are fields.
pub fn four_fields()
    ensures { (p : ℕ) → IsSmallPrime p → IsFieldModulo p }
{}

/// A subspace has one reduced row echelon basis: two reduced echelon lists with the same span are equal.
pub fn echelon_is_unique()
    ensures { (p width : ℕ) (rows others : List (List ℕ)) → 1 < p
        → IsMatrix p width rows → IsMatrix p width others → IsEchelon rows → IsEchelon others
        → AreInSpan p rows others → AreInSpan p others rows
        → rows ≡ others }
{}

/// Each list of rows has a reduced row echelon basis of its span.
pub fn echelon_exists()
    ensures { (p width : ℕ) (generators : List (List ℕ)) → IsFieldModulo p → IsMatrix p width generators
        → (rows : List (List ℕ)) × IsEchelonOf p width generators rows }
{}

/// A vector has one reduced form: two rows that differ from it by members of the span and are 0 at every
/// pivot are equal.
pub fn reduced_is_unique()
    ensures { (p width : ℕ) (rows : List (List ℕ)) (v w x : List ℕ) → 1 < p → IsEchelon rows
        → IsRow p width w → IsRow p width x → IsReduced p rows v w → IsReduced p rows v x
        → w ≡ x }
{}

/// More rows than places are dependent.
pub fn dependent_rows()
    ensures { (p width : ℕ) (rows : List (List ℕ)) → IsFieldModulo p → IsMatrix p width rows
        → width < length rows
        → (u : ℕ → ℕ) × IsInKernel p rows u × (i : ℕ) × (i < length rows) × (u i % p ≢ 0) }
{}

/// Independent rows of the kernel span it where, with rows whose images are independent, there are as many as
/// places.
pub fn kernel_by_count()
    ensures { (p : ℕ) (rows kernel chosen images : List (List ℕ)) → IsFieldModulo p
        → IsMatrix p (length rows) kernel → IsMatrix p (length rows) chosen
        → length kernel + length chosen ≡ length rows → length images ≡ length chosen
        → ((i : ℕ) → i < length kernel → IsInKernel p rows (entry (row kernel i))) → IsIndependent p kernel
        → ((i : ℕ) → i < length chosen
        → IsCombination p (entry (row chosen i)) rows (entry (row images i))) → IsIndependent p images
        → (u : List ℕ) → IsRow p (length rows) u → IsInKernel p rows (entry u) → IsInSpan p kernel (entry u) }
{}

/// Each pair of lists of rows has a greedy complement.
pub fn greedy_exists()
    ensures { (p width : ℕ) (s t : List (List ℕ)) → IsFieldModulo p → IsMatrix p width s → IsMatrix p width t
        → (positions : List ℕ) × IsGreedy p s t positions }
{}

/// The greedy complement is one list.
pub fn greedy_is_unique()
    ensures { (p : ℕ) (s t : List (List ℕ)) (xs ys : List ℕ) → IsGreedy p s t xs → IsGreedy p s t ys
        → xs ≡ ys }
{}

/// Each list of rows has a reduced row echelon basis of its kernel.
pub fn kernel_exists()
    ensures { (p width : ℕ) (rows : List (List ℕ)) → IsFieldModulo p → IsMatrix p width rows
        → (kernel : List (List ℕ)) × IsKernelOf p rows kernel }
{}

/// The reduced row echelon basis of the kernel is one list.
pub fn kernel_is_unique()
    ensures { (p : ℕ) (rows kernel other : List (List ℕ)) → 1 < p → IsKernelOf p rows kernel
        → IsKernelOf p rows other → kernel ≡ other }
{}

/// Each member of the span has a preimage that is 0 at the pivots of the kernel.
pub fn preimage_exists()
    ensures { (p : ℕ) (rows kernel : List (List ℕ)) (target : List ℕ) → 1 < p → IsKernelOf p rows kernel
        → IsInSpan p rows (entry target)
        → (u : List ℕ) × IsPreimage p rows kernel target u }
{}

/// The preimage that is 0 at the pivots of the kernel is one row.
pub fn preimage_is_unique()
    ensures { (p : ℕ) (rows kernel : List (List ℕ)) (target u v : List ℕ) → 1 < p → IsKernelOf p rows kernel
        → IsPreimage p rows kernel target u → IsPreimage p rows kernel target v
        → u ≡ v }
{}
