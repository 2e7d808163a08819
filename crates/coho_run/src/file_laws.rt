//! The laws of runs that take stages from a file.

ghost use Rattle.std.specs.Prelude.{◌≡◌, ◌≤◌, ℕ, List};
ghost use Rattle.limits.specs.declared.TheConstants.{GREATEST_DEGREE};
ghost use Rattle.coho_io.specs.Content.{Content};
ghost use Rattle.power_commutator.specs.Presentations.{Presentation};
ghost use Rattle.coho_run.specs.Outcome.{Ending, Outcome};
ghost use Rattle.coho_run.specs.HonestFiles.{AreWordsWithout, IsAccepted, IsAcceptedFile, IsHonestFile};
ghost use Rattle.std.specs.Prelude.{◌∷◌, ◌++◌, Option, None, Some, codes};
ghost use Rattle.coho_words.specs.Words.{Command, Ring, command};

/// Words of `ring` with `--from` and a word after it, which ask for something, ask for a ring with stages
/// from that file; and the words without these two ask for the same ring without it.
pub fn words_law()
    ensures { (before after : List (List ℕ)) (from : List ℕ) (c : Command)
        → command (codes "ring" ∷ (before ++ codes "--from" ∷ from ∷ after)) ≡ Some c
        → (path : List ℕ) × (n : ℕ) × (save : Option (List ℕ))
        × (c ≡ Ring path n (record { from = Some from; save = save }))
        × (command (codes "ring" ∷ (before ++ after))
        ≡ Some (Ring path n (record { from = None; save = save }))) }
{}

/// Where a file is there and nothing is refused of it, the outcome is that of the words without `--from` and
/// the file.
pub fn from_law()
    ensures { (words fewer : List (List ℕ)) (path : List ℕ) (n : ℕ) (from : List ℕ) (files : Content)
        → AreWordsWithout words fewer path n from → IsAcceptedFile path n from files
        → (e d : Ending) → Outcome words files e → Outcome fewer files d → e ≡ d }
{}

/// Nothing is refused of an honest file, nor of any front of it.
pub fn honest_law()
    ensures { (P : Presentation) (n : ℕ) (bytes : List ℕ) → n ≤ GREATEST_DEGREE → IsHonestFile P bytes
        → IsAccepted P n bytes }
{}
