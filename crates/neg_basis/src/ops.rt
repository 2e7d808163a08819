ghost use Rattle.std.specs.Prelude.{◌≡◌, ℕ, ◌<◌, length};
ghost use Rattle.linear_algebra.specs.Modular.{IsCongruent};
ghost use Rattle.linear_algebra.specs.Maps.{IsLinear};
ghost use Rattle.linear_algebra.specs.Rows.{entry, IsRow};
ghost use Rattle.fp_rows.specs.Refs.{entries_of, modulus_of};

use fp_rows::{Row, RowRef};

/// Linear maps on rows of one width over one prime. Contracts see map i as the function `image` of its number
/// and of the entries of a row.
pub trait Ops {
    ghost modulus: { Self → ℕ };

    ghost width: { Self → ℕ };

    ghost maps: { Self → ℕ };

    ghost image: { Self → ℕ → (ℕ → ℕ) → ℕ → ℕ };

    /// How many maps there are.
    fn count(&self) -> usize
        ensures { result ≡ maps self.now };

    /// Writes the image of v under map i, counted from 0, into `out`. Both rows have the width.
    fn apply(&self, i: usize, v: RowRef<'_>, out: &mut Row)
        requires map { i < maps self.now }
        requires same_prime { modulus_of v ≡ modulus self.now }
        requires row { IsRow (modulus self.now) (width self.now) (entries_of v) }
        requires out_prime { out.old.p ≡ modulus self.now }
        requires out_row { IsRow (modulus self.now) (width self.now) out.old.entries }
        ensures prime { out.new.p ≡ modulus self.now }
        ensures row { IsRow (modulus self.now) (width self.now) out.new.entries }
        ensures image { (j : ℕ) → IsCongruent (modulus self.now) (entry out.new.entries j)
            (image self.now i (entry (entries_of v.entry)) j) };

    ghost linear: { (o : Self) (i : ℕ) → i < maps o → IsLinear (modulus o) (image o i) };
}
