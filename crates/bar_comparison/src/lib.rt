//! The comparison of the normalised bar complex of a p-group with its minimal resolution: classes are the
//! cocycles up to coboundaries (Brown, "Cohomology of Groups", I.7 and III.1).
//!
//! Every group of p^e elements has stages where p gives a field (`stages_law` of `resolution_stages`).
#![tactic(auto)]

ghost use Rattle.std.specs.Prelude.{◌≡◌, ℕ, suc};
ghost use Rattle.group_modules.specs.Field.{residue};
ghost use Rattle.group_modules.specs.Tables.{Group, monoid};
ghost use Rattle.linear_algebra.specs.Modular.{IsFieldModulo};
ghost use Rattle.radical_layers.specs.Coordinates.{Coordinates};
ghost use Rattle.resolution_stages.specs.Definitions.{StageRows, AreStages};
ghost use Rattle.chain_maps.specs.Lifts.{Class};
ghost use Rattle.bar_complex.specs.Cochains.{Cochain, IsNormalisedCocycle, IsCoboundary, AreCohomologous};
ghost use Rattle.bar_comparison.specs.Comparison.{bar_cocycle};
ghost use Rattle.bar_comparison.specs.HomotopyClaims.{HomotopyClaims};
ghost use Rattle.bar_comparison.specs.Claims.{ComparisonClaims, ClassMapClaims};

/// The comparison map is a chain map, and 0 where an entry is the identity.
pub fn comparison_law()
    ensures { (n q : ℕ) (Γ : Group n) (K : Coordinates q Γ) (S : StageRows) → IsFieldModulo (suc q)
        → AreStages q Γ K S → ComparisonClaims q Γ K S }
{}

/// There is a chain map back, and both ways round are homotopic to the identity.
pub fn homotopy_law()
    ensures { (n q : ℕ) (Γ : Group n) (K : Coordinates q Γ) (S : StageRows) → IsFieldModulo (suc q)
        → AreStages q Γ K S → HomotopyClaims q Γ K S }
{}

/// The class map, which sends a class to its cocycle, is linear.
pub fn class_map_law()
    ensures { (n q : ℕ) (Γ : Group n) (K : Coordinates q Γ) (S : StageRows) → ClassMapClaims q Γ K S }
{}

/// The cocycle of a class is a cocycle.
pub fn cocycle_law()
    ensures { (n q : ℕ) (Γ : Group n) (K : Coordinates q Γ) (S : StageRows) → IsFieldModulo (suc q)
        → AreStages q Γ K S → (d : ℕ) (c : Class q Γ K S d)
        → IsNormalisedCocycle q (monoid Γ) d (bar_cocycle q Γ K S d c) }
{}

/// The cocycle of a class is a coboundary only for the class 0.
pub fn coboundary_law()
    ensures { (n q : ℕ) (Γ : Group n) (K : Coordinates q Γ) (S : StageRows) → IsFieldModulo (suc q)
        → AreStages q Γ K S → (d : ℕ) (c : Class q Γ K S d)
        → IsCoboundary q (monoid Γ) d (bar_cocycle q Γ K S d c) → c ≡ (λ i. residue q 0) }
{}

/// Each cocycle differs by a coboundary from that of a class, and of one class alone.
pub fn one_class_law()
    ensures { (n q : ℕ) (Γ : Group n) (K : Coordinates q Γ) (S : StageRows) → IsFieldModulo (suc q)
        → AreStages q Γ K S → (d : ℕ) (u : Cochain q (monoid Γ)) → IsNormalisedCocycle q (monoid Γ) d u
        → (c : Class q Γ K S d) × AreCohomologous q (monoid Γ) d u (bar_cocycle q Γ K S d c)
        × ((a : Class q Γ K S d) → AreCohomologous q (monoid Γ) d u (bar_cocycle q Γ K S d a) → a ≡ c) }
{}
