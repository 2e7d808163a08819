//! The minimal resolution of the field of p elements over the group algebra of a p-group: its stages by
//! reduced echelon lists and greedy choices, in every degree, and the laws by which a calculation finds them
//! one after the other.
#![tactic(auto)]

ghost use Rattle.std.specs.Prelude.{◌≡◌, ℕ, suc, List, length};
ghost use Rattle.group_modules.specs.Tables.{Group};
ghost use Rattle.group_modules.specs.Resolutions.{Resolution};
ghost use Rattle.linear_algebra.specs.Modular.{IsFieldModulo};
ghost use Rattle.augmentation_ideal.specs.Claims.{IsPrimePower};
ghost use Rattle.radical_layers.specs.Coordinates.{Coordinates};
ghost use Rattle.resolution_stages.specs.Definitions.{StageRows, AreStages};
ghost use Rattle.resolution_stages.specs.Claims.{ResolutionClaims, MinimalityClaims};
ghost use Rattle.resolution_stages.specs.Chain.{StageClaims, FirstListClaims, ChainClaims, IsFirstList};
ghost use Rattle.resolution_stages.specs.Chain.{IsChain};
ghost use Rattle.resolution_stages.specs.Computed.{ComputedClaims};
ghost use Rattle.resolution_stages.specs.Checks.{StageParts, IsSubmoduleList, HasShape, HasCount};
ghost use Rattle.resolution_stages.specs.Checks.{PassesChecks, IsNextStage};

/// The stages of a group are a minimal resolution with a section.
pub fn resolution_law()
    ensures { (n q : ℕ) (Γ : Group n) (K : Coordinates q Γ) (S : StageRows) → IsFieldModulo (suc q)
        → AreStages q Γ K S → ResolutionClaims q Γ K S }
{}

/// The rows of a boundary are a least set of generators of the kernel before.
pub fn minimality_law()
    ensures { (n q : ℕ) (Γ : Group n) (K : Coordinates q Γ) (S : StageRows) → IsFieldModulo (suc q)
        → IsPrimePower q n → AreStages q Γ K S
        → MinimalityClaims q Γ K S }
{}

/// The six checks hold exactly for the parts of the next stage.
pub fn checks_law()
    ensures { (n q : ℕ) (Γ : Group n) (K : Coordinates q Γ) (b : ℕ) (E : List (List ℕ)) (Q : StageParts)
        → IsFieldModulo (suc q)
        → IsSubmoduleList q Γ K b E → HasShape q Γ K b E Q
        → (HasCount q Γ K b E Q → PassesChecks q Γ K b E Q → IsNextStage q Γ K b E Q)
        × (IsNextStage q Γ K b E Q → HasCount q Γ K b E Q × PassesChecks q Γ K b E Q) }
{}

/// The next stage is one.
pub fn next_stage_law()
    ensures { (n q : ℕ) (Γ : Group n) (K : Coordinates q Γ) (b : ℕ) (E : List (List ℕ)) (Q R : StageParts)
        → IsFieldModulo (suc q)
        → IsNextStage q Γ K b E Q → IsNextStage q Γ K b E R → Q ≡ R }
{}

/// The kernel list of the next stage, and that of the elements of sum 0, is the list of a submodule, as the
/// next step wants it.
pub fn next_list_law()
    ensures { (n q : ℕ) (Γ : Group n) (K : Coordinates q Γ) (b : ℕ) (E : List (List ℕ)) (Q : StageParts)
        → IsNextStage q Γ K b E Q
        → IsSubmoduleList q Γ K (length Q.positions) Q.kernel }
{}

/// The stages of a group of p^e elements exist in every degree.
pub fn stages_law()
    ensures { (n q : ℕ) (Γ : Group n) (K : Coordinates q Γ) → IsFieldModulo (suc q) → IsPrimePower q n
        → (S : StageRows) × AreStages q Γ K S }
{}

/// The stages are one, their sections are the sums over the pivots, and parts that follow each other from the
/// list of K_0 are theirs.
pub fn one_stages_law()
    ensures { (n q : ℕ) (Γ : Group n) (K : Coordinates q Γ) (S : StageRows) → IsFieldModulo (suc q)
        → AreStages q Γ K S → StageClaims q Γ K S }
{}

/// A group of p^e elements has a minimal resolution with a section.
pub fn resolution_exists_law()
    ensures { (n q : ℕ) (Γ : Group n) → IsFieldModulo (suc q) → IsPrimePower q n → Resolution q Γ }
{}

/// The list of the kernel of degree 0.
pub fn first_list_law()
    ensures { (n q : ℕ) (Γ : Group n) (K : Coordinates q Γ) → FirstListClaims q Γ K }
{}

/// Parts that follow each other are the first ones of the stages, and the next ones exist.
pub fn chain_law()
    ensures { (n q : ℕ) (Γ : Group n) (K : Coordinates q Γ) (E : List (List ℕ)) (Qs : List StageParts)
        → IsFieldModulo (suc q) → IsPrimePower q n
        → IsFirstList q Γ K E → IsChain q Γ K 1 E Qs → ChainClaims q Γ K E Qs }
{}

/// The parts that elimination finds from the matrix of the boundary are the next stage.
pub fn computed_law()
    ensures { (n q : ℕ) (Γ : Group n) (K : Coordinates q Γ) (b : ℕ) (E : List (List ℕ)) (Q : StageParts)
        (matrix : List (List ℕ)) → IsFieldModulo (suc q) → IsPrimePower q n
        → IsSubmoduleList q Γ K b E → ComputedClaims q Γ K b E Q matrix }
{}
