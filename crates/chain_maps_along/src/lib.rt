//! Chain maps along homomorphisms of groups: from the minimal resolution of one group to that of another, and
//! the restriction of classes.
#![tactic(auto)]

ghost use Rattle.std.specs.Prelude.{ℕ, suc};
ghost use Rattle.linear_algebra.specs.Modular.{IsFieldModulo};
ghost use Rattle.group_modules.specs.Field.{Below};
ghost use Rattle.group_modules.specs.Tables.{Group};
ghost use Rattle.radical_layers.specs.Coordinates.{Coordinates};
ghost use Rattle.resolution_stages.specs.Definitions.{StageRows, AreStages};
ghost use Rattle.chain_maps_along.specs.Along.{IsHomomorphism};
ghost use Rattle.chain_maps_along.specs.Claims.{AlongClaims};

/// The maps that are found by sections are a chain map, linear along the homomorphism, and each argument of a
/// section lies in the kernel.
pub fn along_law()
    ensures { (m n q : ℕ) (Δ : Group m) (Γ : Group n) (f : Below m
        → Below n) (J : Coordinates q Δ) (A : StageRows)
        (K : Coordinates q Γ) (S : StageRows) → IsFieldModulo (suc q) → IsHomomorphism Δ Γ f
        → AreStages q Δ J A → AreStages q Γ K S
        → AlongClaims q Δ Γ f J A K S }
{}
