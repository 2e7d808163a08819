//! The laws of the stages of a p-group, in every degree and apart from any resolution.

ghost use Rattle.linear_algebra.specs.Rows.{IsRow, combination_row, entry};
ghost use Rattle.min_res.specs.Defined.{IsExactMinimal, IsSectionOf, IsStageAt, boundary_row};
ghost use Rattle.min_res.specs.RecordChecks.{AllHold, MayFollow, Passes};
ghost use Rattle.min_res.specs.Stages.{rank_of, stage_rows};
ghost use Rattle.min_res.specs.Values.{StageValue, boundary_of};
ghost use Rattle.p_groups.specs.PGroups.{PGroup, order_of, prime_of};
ghost use Rattle.resolution_stages.specs.Chain.{parts_of};
ghost use Rattle.resolution_stages.specs.Checks.{StageParts};
ghost use Rattle.std.specs.Prelude.{◌≡◌, ◌↔◌, ◌*◌, ℕ, suc, List};

/// The boundary of each degree is exact and minimal.
pub fn exactness_law()
    ensures { (G : PGroup) (d : ℕ) → IsExactMinimal G d }
{}

/// The section of each degree takes a member of K_d to the one row with that boundary that is 0 at the pivots
/// of the list of K_(d+1).
pub fn section_law()
    ensures { (G : PGroup) (d : ℕ) → IsSectionOf G d }
{}

/// A group has a stage in each degree.
pub fn stage_exists_law()
    ensures { (G : PGroup) (d : ℕ) → (s : StageValue) × IsStageAt G d s }
{}

/// A stage is determined by its degree.
pub fn one_stage_law()
    ensures { (G : PGroup) (d : ℕ) (s t : StageValue) → IsStageAt G d s → IsStageAt G d t → s ≡ t }
{}

/// The six checks of parts that may follow a stage, row by row, are those that `checks_law` of
/// `resolution_stages` asks for, and they hold exactly for the parts of the next stage.
pub fn row_checks_law()
    ensures same { (G : PGroup) (d : ℕ) (Q : StageParts) → AllHold G d Q ↔ Passes G d Q }
    ensures next { (G : PGroup) (d : ℕ) (Q : StageParts) → MayFollow G d Q
        → AllHold G d Q ↔ (Q ≡ parts_of (stage_rows G) d) }
{}

/// What `Stage::boundary` writes at a row is the row of the boundary of its table.
pub fn boundary_law()
    ensures { (G : PGroup) (d : ℕ) (s : StageValue) (u : List ℕ) → IsStageAt G (suc d) s
        → IsRow (prime_of G) (order_of G * rank_of G (suc d)) u
        → combination_row s.kernel.p (boundary_of s).source.width (entry u) (boundary_of s).matrix.rows
        ≡ boundary_row G d u }
{}
