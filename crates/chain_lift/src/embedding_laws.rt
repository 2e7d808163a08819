//! What holds of embeddings of elementary abelian subgroups and of the maps along them. The maps along any
//! homomorphism of groups, and their law, stand in `chain_maps_along`.

ghost use Rattle.std.specs.Prelude.{◌≡◌, ℕ, length};
ghost use Rattle.chain_lift.specs.Embeddings.{elementary, embedding};
ghost use Rattle.chain_maps_along.specs.Along.{IsHomomorphism};
ghost use Rattle.chain_maps_along.specs.Claims.{AlongClaims};
ghost use Rattle.elementary_subgroups.specs.Bases.{embed, IsSubgroupOf, NumberedSubgroup};
ghost use Rattle.elementary_subgroups.specs.OwnGroups.{elementary_group};
ghost use Rattle.group_algebra.specs.Coordinates.{layer_coordinates};
ghost use Rattle.group_modules.specs.Field.{Below};
ghost use Rattle.min_res.specs.Stages.{stage_rows};
ghost use Rattle.p_groups.specs.PGroups.{PGroup, group, largest_residue, order_of, prime_of};

/// The elementary abelian group of rank s over the prime of G, as a p-group, has the table of sums of digits.
pub fn elementary_table()
    ensures { (G : PGroup) (s : ℕ) → (elementary G s).table ≡ elementary_group (prime_of G) s }
{}

/// A p-group with this table is this group, as that of each subgroup of rank s in its own numbering.
pub fn elementary_is_one()
    ensures { (G H : PGroup) (s : ℕ) → H.table ≡ elementary_group (prime_of G) s → H ≡ elementary G s }
{}

/// In the embedding of a subgroup nothing is reduced: it takes e to the product of the basis members with
/// the digits of e as exponents.
pub fn embedding_is_product()
    ensures { (G : PGroup) (s : NumberedSubgroup) → IsSubgroupOf G.table s
        → (e : Below (order_of (elementary G (length s.basis)))) → (embedding G s.basis e).0
        ≡ embed G.table s.basis e.0 }
{}

/// The embedding of a subgroup respects products.
pub fn embedding_is_homomorphism()
    ensures { (G : PGroup) (s : NumberedSubgroup) → IsSubgroupOf G.table s
        → IsHomomorphism (group (elementary G (length s.basis))) (group G) (embedding G s.basis) }
{}

/// The maps along the embedding of a subgroup are a chain map of the minimal resolutions, linear along the
/// embedding.
pub fn embedding_maps_law()
    ensures { (G : PGroup) (s : NumberedSubgroup) → IsSubgroupOf G.table s → let E =
        elementary G (length s.basis) in
        AlongClaims (largest_residue G) (group E) (group G) (embedding G s.basis) (layer_coordinates E)
        (stage_rows E)
        (layer_coordinates G) (stage_rows G) }
{}
