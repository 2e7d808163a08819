//! What the members of layer 1 of the layer basis generate: the augmentation ideal J, and J K for a submodule
//! K of a free module. Layer 1 is a basis of J modulo its square.
#![tactic(auto)]

ghost use Rattle.std.specs.Prelude.{ℕ, suc, List};
ghost use Rattle.linear_algebra.specs.Rows.{IsMatrix};
ghost use Rattle.group_modules.specs.Tables.{Group, Table};
ghost use Rattle.linear_algebra.specs.Modular.{IsFieldModulo};
ghost use Rattle.augmentation_ideal.specs.Claims.{IsPrimePower};
ghost use Rattle.radical_layers.specs.Coordinates.{RowForm};
ghost use Rattle.radical_layers.specs.LayerBasis.{Layers, AreLayers};
ghost use Rattle.radical_generators.specs.FirstLayer.{layer_size};
ghost use Rattle.neg_basis.specs.Images.{AreImages};
ghost use Rattle.radical_generators.specs.Claims.{IdealClaims, MapClaims, ChosenClaims};
ghost use Rattle.radical_generators.specs.Claims.{RadicalGeneratorClaims};
ghost use Rattle.augmentation_ideal.specs.Radical.{IsSubmodule};
ghost use Rattle.radical_generators.specs.Claims.{PlaceClaims, WholeClaims, AreGenerators, Spanned, maps};

/// The members of layer 1 generate the augmentation ideal as a left ideal.
pub fn ideal_law()
    ensures { (n q : ℕ) (Γ : Group n) (K : RowForm n (Table q Γ 1)) (Y : Layers) → IsFieldModulo (suc q)
        → IsPrimePower q n → AreLayers q Γ K Y → IdealClaims q Γ K Y }
{}

/// The members of layer 1 stand in the layer basis behind those of layer 0, and there are none where there
/// are fewer than two layers.
pub fn first_layer_law()
    ensures { (n q : ℕ) (Γ : Group n) (K : RowForm n (Table q Γ 1)) (Y : Layers) → IsFieldModulo (suc q)
        → AreLayers q Γ K Y → PlaceClaims q Γ K Y }
{}

/// The products by the members of layer 1 are linear on rows, and a span that is closed under them is a
/// submodule.
pub fn closed_span_law()
    ensures { (n q : ℕ) (Γ : Group n) (K : RowForm n (Table q Γ 1)) (Y : Layers) → IsFieldModulo (suc q)
        → IsPrimePower q n → AreLayers q Γ K Y → (b width : ℕ) (C : RowForm width (Table q Γ b))
        → MapClaims q Γ K Y b C }
{}

/// The rows that a negative standard basis chooses from rows that span a submodule generate it.
pub fn chosen_rows_law()
    ensures { (n q : ℕ) (Γ : Group n) (K : RowForm n (Table q Γ 1)) (Y : Layers) (b width : ℕ)
        (C : RowForm width (Table q Γ b)) (E : List (List ℕ)) → ChosenClaims q Γ K Y b C E }
{}

/// The products of generators of a submodule S by the members of layer 1 generate J S.
pub fn radical_of_submodule_law()
    ensures { (n q : ℕ) (Γ : Group n) (K : RowForm n (Table q Γ 1)) (Y : Layers) → IsFieldModulo (suc q)
        → IsPrimePower q n → AreLayers q Γ K Y → (b width : ℕ) (C : RowForm width (Table q Γ b))
        (E R products : List (List ℕ)) → AreGenerators q Γ K Y b C E R
        → AreImages (suc q) (layer_size q Γ K Y) (maps q Γ K Y b C) R products
        → RadicalGeneratorClaims q Γ K Y b C E R products }
{}

/// Rows that span a submodule generate it, their span is closed under the products by layer 1, and the list
/// of these products exists.
pub fn submodule_rows_law()
    ensures { (n q : ℕ) (Γ : Group n) (K : RowForm n (Table q Γ 1)) (Y : Layers) (b width : ℕ)
        (C : RowForm width (Table q Γ b)) (E : List (List ℕ)) → IsMatrix (suc q) width E
        → IsSubmodule (Table q Γ b) (Spanned q Γ K Y b C E) → WholeClaims q Γ K Y b C E }
{}
