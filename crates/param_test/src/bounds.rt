//! The bound that the degrees of parameters give.

ghost use Rattle.std.specs.Prelude.{◌≡◌, ◌≤◌, ℕ, ◌<◌, length, slice_index};
ghost use Rattle.limits.specs.declared.TheConstants.{GREATEST_DEGREE};
ghost use Rattle.param_test.specs.Bounds.{bound_of};

/// The degree through which a ring must be known for parameters of these degrees, at most 8 degrees of at
/// most 24 (Symonds 2010): the greatest of the degrees, 2σ and σ + 1, where σ is the sum of all n - 1.
pub fn bound(degrees: &[u32]) -> u32
    requires few { length degrees.now ≤ 8 }
    requires low { (i : ℕ) → i < length degrees.now → slice_index degrees.now i ≤ GREATEST_DEGREE }
    ensures { result ≡ bound_of degrees.now }
{
    let mut greatest = 0;
    let mut excess = 0;
    for n in degrees {
        greatest = greatest.max(*n);
        excess += n.saturating_sub(1);
    }
    greatest.max(2 * excess).max(excess + 1)
}
