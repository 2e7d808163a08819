//! Chain maps of the minimal resolution of the field of p elements over the group algebra of a p-group: the
//! lift of a class, in every degree, and the product of classes by lifts.
#![tactic(auto)]

ghost use Rattle.std.specs.Prelude.{ℕ, suc};
ghost use Rattle.group_modules.specs.Tables.{Group};
ghost use Rattle.linear_algebra.specs.Modular.{IsFieldModulo};
ghost use Rattle.radical_layers.specs.Coordinates.{Coordinates};
ghost use Rattle.resolution_stages.specs.Definitions.{StageRows, AreStages};
ghost use Rattle.chain_maps.specs.Vectors.{Vector};
ghost use Rattle.chain_maps.specs.Claims.{LiftClaims, ProductClaims, VectorClaims};

/// The lift of a class is a chain map that begins with it, and each argument of a section lies in the kernel.
pub fn lift_law()
    ensures { (n q : ℕ) (Γ : Group n) (K : Coordinates q Γ) (S : StageRows) → IsFieldModulo (suc q)
        → AreStages q Γ K S → LiftClaims q Γ K S }
{}

/// The product of vectors is that of their classes.
pub fn product_law()
    ensures { (n q : ℕ) (Γ : Group n) (K : Coordinates q Γ) (S : StageRows) (d e : ℕ) (v w : Vector q)
        → ProductClaims q Γ K S d e v w }
{}

/// Rows and vectors are the same.
pub fn vector_law()
    ensures { (q b : ℕ) → VectorClaims q b }
{}
