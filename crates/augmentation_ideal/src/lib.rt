//! The augmentation ideal of the group algebra of a finite p-group: it is nilpotent, Nakayama's lemma holds,
//! and a basis modulo the radical is a least set of generators.
#![tactic(auto)]

ghost use Rattle.std.specs.Prelude.{◌≡◌, ℕ, Bool};
ghost use Rattle.group_modules.specs.Field.{Below};
ghost use Rattle.group_modules.specs.Tables.{Group, Table};
ghost use Rattle.augmentation_ideal.specs.Radical.{IsSubmodule};
ghost use Rattle.augmentation_ideal.specs.Generators.{IsBasisModuloMoved};
ghost use Rattle.augmentation_ideal.specs.Claims.{IsPrimePower, Passing, RadicalClaims, NakayamaClaim};
ghost use Rattle.augmentation_ideal.specs.Claims.{GeneratorClaims};

/// The augmentation ideal is nilpotent, and its powers are proper until they are 0.
pub fn radical_law()
    ensures { (n q : ℕ) (Γ : Group n) → IsPrimePower q n → (b : ℕ) → RadicalClaims q Γ b }
{}

/// Nakayama's lemma: a set of generators modulo the radical generates.
pub fn nakayama_law()
    ensures { (n q : ℕ) (Γ : Group n) → IsPrimePower q n → (b : ℕ) → NakayamaClaim q Γ b }
{}

/// A basis modulo the radical generates, no fewer rows do, and the kernel lies in the radical.
pub fn generator_law()
    ensures { (n q : ℕ) (Γ : Group n) → IsPrimePower q n → (b : ℕ) (K : (Table q Γ b).of
        → Bool) (m : ℕ) (row : Below m → (Table q Γ b).of)
        → IsSubmodule (Table q Γ b) (Passing K) → IsBasisModuloMoved (Table q Γ b) (Passing K) m row
        → GeneratorClaims q Γ b K m row }
{}
