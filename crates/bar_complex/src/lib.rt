//! The normalised bar complex of a group, its contraction, and its cochains modulo p: cocycles, coboundaries
//! and cup products (Brown, "Cohomology of Groups", I.5 and III.1).
#![tactic(auto)]

ghost use Rattle.std.specs.Prelude.{ℕ};
ghost use Rattle.group_modules.specs.Tables.{Group};
ghost use Rattle.bar_complex.specs.Claims.{BarComplexClaims};

/// The boundary is the alternating sum of the faces, and normalised cochains are a complex.
pub fn bar_complex_law()
    ensures { (n q : ℕ) (Γ : Group n) → BarComplexClaims q Γ }
{}
