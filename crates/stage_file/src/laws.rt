//! The laws of the stage files of a group.

ghost use Rattle.std.specs.Prelude.{◌≡◌, ◌-◌, ◌≤◌, ℕ, List, None, take};
ghost use Rattle.limits.specs.declared.TheConstants.{GREATEST_DEGREE};
ghost use Rattle.p_groups.specs.PGroups.{PGroup};
ghost use Rattle.stage_file.specs.Honest.{file_of, records_of, walk_of};
ghost use Rattle.stage_records.specs.Claims.{CutClaims};
ghost use Rattle.stage_records.specs.Records.{header_bytes};
ghost use Rattle.stage_records.specs.Walks.{whole_records};

/// Each front of a group's file is walked without a refusal, and the records that lie whole in it are taken.
pub fn honest_law()
    ensures { (G : PGroup) (text : List ℕ) (c k : ℕ) → c ≤ GREATEST_DEGREE
        → walk_of G text c (take k (file_of G text GREATEST_DEGREE))
        ≡ record { taken = whole_records (records_of G) c 1 (k - 40); fault = None } }
{}

/// Cutting a file anywhere changes no record before the cut.
pub fn cut_law()
    ensures { (G : PGroup) (text : List ℕ) (c k : ℕ) (file : List ℕ)
        → CutClaims (header_bytes text) (records_of G) c k file }
{}
