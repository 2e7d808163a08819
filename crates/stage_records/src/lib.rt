//! The stage file, version 1: its records as bytes, and the walk over a file that nobody vouches for.
//!
//! A file has a header and one record for each degree from 1 on, with the parts of a stage of the minimal
//! resolution of a p-group. Every group of p^e elements has stages where p gives a field (`stages_law` of
//! `resolution_stages`), and the records of its stages are framed (`framed_law`).
#![tactic(auto)]

ghost use Rattle.std.specs.Prelude.{Some, true, ◌+◌, [], ◌∷◌, ◌≡◌, ℕ, suc, ◌-◌, ◌≤◌, ◌<◌, ◌^◌, List, length};
ghost use Rattle.std.specs.Prelude.{take, None, Option};
ghost use Rattle.limits.specs.declared.TheConstants.{GREATEST_DEGREE};
ghost use Rattle.group_modules.specs.Tables.{Group};
ghost use Rattle.linear_algebra.specs.Modular.{IsFieldModulo};
ghost use Rattle.radical_layers.specs.Coordinates.{Coordinates};
ghost use Rattle.resolution_stages.specs.Definitions.{StageRows, AreStages};
ghost use Rattle.stage_records.specs.Records.{header_bytes, record_at, record_bytes};
ghost use Rattle.stage_records.specs.Examples.{two_elements, two_records};
ghost use Rattle.stage_records.specs.Verdicts.{IsShapeOf, VerdictClaims};
ghost use Rattle.stage_records.specs.Walks.{is_in_range, length_at, walk, stage_bytes, whole_records};
ghost use Rattle.stage_records.specs.Claims.{AreHonest, AreThere, CutClaims, FileClaims, FrontClaims};
ghost use Rattle.stage_records.specs.Claims.{IsFramed, WholeClaims};
ghost use Rattle.stage_records.specs.Readings.{AreBytes, read_record};
ghost use Rattle.stage_records.specs.declared.shape.Shape.{Shape};
ghost use Rattle.resolution_stages.specs.Checks.{StageParts};

mod field;
mod shape;

pub use field::Field;
pub use shape::Shape;

/// The least number of bytes that follow the length of a record: degree, rank and digest.
pub const SHORTEST_RECORD: u32 = 36;

/// The greatest number of bytes that follow the length of a record: that of 2,048 rows of 4,096 entries.
pub const LONGEST_RECORD: u32 = 16_781_348;

/// The greatest dimension over F_p of a free module that a record holds.
pub const GREATEST_WIDTH: u32 = 4096;

/// The record of parts that fit is read as these parts, and what is read as parts is their record.
pub fn whole_law()
    ensures { (shape : Shape) (bytes : List ℕ) (Q : StageParts) → shape.degree < 2 ^ 16 → 0 < shape.order
        → AreBytes bytes → WholeClaims shape bytes Q }
{}

/// Each front of an honest file is walked without a refusal, and the records that lie whole in it are taken.
pub fn honest_law()
    ensures { (header : List ℕ) (records : ℕ → Option (List ℕ)) (c k : ℕ) → AreHonest header records
        → c ≤ GREATEST_DEGREE
        → walk header records c (take k (stage_bytes header records GREATEST_DEGREE))
        ≡ record { taken = whole_records records c 1 (k - 40); fault = None } }
{}

/// Cutting a file anywhere changes no record before the cut.
pub fn cut_law()
    ensures { (header : List ℕ) (records : ℕ → Option (List ℕ)) (c k : ℕ) (file : List ℕ)
        → AreHonest header records → CutClaims header records c k file }
{}

/// Over the stages of a group, the reading of a record and the six checks decide exactly as the walk does.
pub fn verdict_law()
    ensures { (n q : ℕ) (Γ : Group n) (K : Coordinates q Γ) (S : StageRows) (d : ℕ) (shape : Shape)
        (bytes : List ℕ) → IsFieldModulo (suc q) → AreStages q Γ K S → suc d ≤ GREATEST_DEGREE
        → IsShapeOf q Γ K S d shape → AreBytes bytes → VerdictClaims q Γ K S d shape bytes }
{}

/// The records of a group's stages begin with their lengths, and the header has 40 bytes.
pub fn framed_law()
    ensures { (n q : ℕ) (Γ : Group n) (K : Coordinates q Γ) (S : StageRows) (text : List ℕ)
        → IsFieldModulo (suc q) → AreStages q Γ K S → AreHonest (header_bytes text) (record_at n S) }
{}

/// The file of the group of two elements to degree 3 has 178 bytes, and its first record begins with these.
pub fn two_elements()
    ensures front { take 14 (record_bytes 2 1 two_elements)
        ≡ 0 ∷ 0 ∷ 0 ∷ 0x2a ∷ 0 ∷ 1 ∷ 0 ∷ 1 ∷ 0 ∷ 1 ∷ 0 ∷ 1 ∷ 1 ∷ 0 ∷ [] }
    ensures size { (text : List ℕ) → length (stage_bytes (header_bytes text) two_records 3) ≡ 178 }
{}

/// A record is read from its own bytes alone: from the four bytes of a length, and where this is in its range
/// from as many more.
pub fn front_law()
    ensures { (shape : Shape) (bytes : List ℕ) (k : ℕ) → 4 ≤ k
        → (is_in_range (length_at bytes) ≡ true → 4 + length_at bytes ≤ k)
        → read_record shape (take k bytes) ≡ read_record shape bytes }
{}

/// A step of the walk over the bytes of a record alone decides the step over all that follow.
pub fn step_law()
    ensures { (o : Option (List ℕ)) (k : ℕ) (bytes : List ℕ) → ((r : List ℕ) → o ≡ Some r → IsFramed r)
        → 4 ≤ k → (is_in_range (length_at bytes) ≡ true → 4 + length_at bytes ≤ k)
        → FrontClaims o k bytes }
{}

/// The honest file begins with its header, grows by a record at a time, and stops at the first degree that
/// has none.
pub fn file_law()
    ensures { (header : List ℕ) (records : ℕ → Option (List ℕ)) (c : ℕ) → AreThere records c 1
        → FileClaims header records c }
{}
