//! The powers of the augmentation ideal of a finite p-group by reduced echelon lists, the layer basis of the
//! group algebra, and layer coordinates for the free modules.
#![tactic(auto)]

ghost use Rattle.std.specs.Prelude.{◌≡◌, ◌<◌, ℕ, suc, List};
ghost use Rattle.group_modules.specs.Tables.{Group, Table};
ghost use Rattle.linear_algebra.specs.Modular.{IsFieldModulo};
ghost use Rattle.augmentation_ideal.specs.Claims.{IsPrimePower};
ghost use Rattle.radical_layers.specs.Coordinates.{RowForm};
ghost use Rattle.radical_layers.specs.Layers.{LayerClaims};
ghost use Rattle.radical_layers.specs.LayerBasis.{Layers, IsSumForm, AreLayers, AreLayerLists, layers_of};
ghost use Rattle.radical_layers.specs.LayerBasis.{LayerBasisClaims};
ghost use Rattle.radical_layers.specs.UnitRows.{UnitClaims};

/// The echelon list of all (g - 1) v with v in the list of J^i is that of J^(i+1), and is shorter where that
/// of J^i is not empty.
pub fn layers_law()
    ensures { (n q : ℕ) (Γ : Group n) (K : RowForm n (Table q Γ 1)) → IsFieldModulo (suc q)
        → IsPrimePower q n → LayerClaims q Γ K }
{}

/// The layer basis is a basis, and gives coordinates for each number of blocks.
pub fn layer_basis_law()
    ensures { (n q : ℕ) (Γ : Group n) (K : RowForm n (Table q Γ 1)) (Y : Layers) → IsFieldModulo (suc q)
        → AreLayers q Γ K Y
        → LayerBasisClaims q Γ K Y }
{}

/// The coordinates of the group algebra: first the sum of the coefficients, then those of the elements 1, 2
/// and so on.
pub fn sum_form_law()
    ensures { (n q : ℕ) (Γ : Group n) → 0 < n → (K : RowForm n (Table q Γ 1)) × IsSumForm q Γ K }
{}

/// The layers exist.
pub fn layers_exist_law()
    ensures { (n q : ℕ) (Γ : Group n) (K : RowForm n (Table q Γ 1)) → IsFieldModulo (suc q) → IsPrimePower q n
        → (Y : Layers) × AreLayers q Γ K Y }
{}

/// The layers are one, the number of layers included.
pub fn one_layers_law()
    ensures { (n q : ℕ) (Γ : Group n) (K : RowForm n (Table q Γ 1)) (Y Z : Layers) → IsFieldModulo (suc q)
        → AreLayers q Γ K Y
        → AreLayers q Γ K Z → Y ≡ Z }
{}

/// The layers from the lists of the powers that are not 0 and of their positions.
pub fn layer_lists_law()
    ensures { (n q : ℕ) (Γ : Group n) (K : RowForm n (Table q Γ 1)) (Es : List (List (List ℕ)))
        (xs : List (List ℕ)) → IsFieldModulo (suc q)
        → AreLayerLists q Γ K Es xs → AreLayers q Γ K (layers_of Es xs) }
{}

/// What stands at the unit rows in layer coordinates, and the rows of the matrix of a linear map.
pub fn unit_law()
    ensures { (n q : ℕ) (Γ : Group n) (K : RowForm n (Table q Γ 1)) (Y : Layers) → IsFieldModulo (suc q)
        → AreLayers q Γ K Y
        → (C : LayerBasisClaims q Γ K Y) → UnitClaims q Γ K Y C.coordinates }
{}
