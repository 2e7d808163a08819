//! The products by the members of layer 1 of the layer basis, as linear maps on rows.

ghost use Rattle.std.specs.Prelude.{◌≡◌, ◌<◌, ◌≤◌, ◌^◌, length};
ghost use Rattle.group_algebra.specs.Coordinates.{layers};
ghost use Rattle.min_res.specs.LayerProducts.{AreFirst};
ghost use Rattle.p_groups.specs.PGroups.{order_of};

use fp_rows::{Row, RowRef};
use group_algebra::Algebra;
use neg_basis::Ops;

// How many members of the layer basis stand before layer 1, and how many are in it.
#[derive(Clone, Copy)]
struct Members {
    before: usize,
    count: usize,
}

fn first_layer(algebra: &Algebra) -> Members
    ensures { AreFirst algebra.now result.before result.count }
{
    if algebra.layers() < 2 {
        return Members {
            before: 0,
            count: 0,
        };
    }
    let before = algebra.layer_dim(0);
    let count = algebra.layer_dim(1);
    Members { before, count }
}

/// The products by the members of layer 1 of the layer basis, on rows of a free module.
#[derive(Drop)]
pub(crate) struct LayerProducts<'a> {
    pub(crate) algebra: &'a Algebra,
    pub(crate) rank: usize,
    members: Members,
    ghost members_are: { AreFirst algebra.now members.before members.count },
    pub(crate) ghost small: { order_of algebra.now ≤ 2 ^ 8 },
}

impl<'a> LayerProducts<'a> {
    /// The products on rows of kG^rank.
    pub(crate) fn new(algebra: &'a Algebra, rank: usize) -> LayerProducts<'a>
        ensures algebra { result.algebra.now ≡ algebra.now }
        ensures rank { result.rank ≡ rank }
    {
        let members = first_layer(algebra);
        prove!(algebra.group().order() <= 256);
        LayerProducts {
            algebra,
            rank,
            members,
        }
    }
}

impl<'a> Ops for LayerProducts<'a> {
    ghost use Rattle.std.specs.Prelude.{◌*◌};
    ghost use mathlib.Core.Path.{subst};
    ghost use Rattle.linear_algebra.specs.Maps.{IsLinear};
    ghost use Rattle.radical_generators.proofs.Rows.{layer_map-linear};
    ghost use Rattle.p_groups.specs.PGroups.{largest_residue, group, order_of, prime_of};
    ghost use Rattle.p_groups.proofs.Fields.{residues};
    ghost use Rattle.group_algebra.specs.Coordinates.{free_module, sum_coordinates, layers};
    ghost use Rattle.group_algebra.specs.Coordinates.{layer_coordinates};
    ghost use Rattle.min_res.specs.LayerProducts.{layer_count, layer_products};

    ghost modulus = { λ o. prime_of o.algebra.now };

    ghost width = { λ o. order_of o.algebra.now * o.rank };

    ghost maps = { λ o. layer_count o.algebra.now };

    ghost image = { λ o i. layer_products o.algebra.now o.rank i };

    ghost linear = { λ o i l. subst (λ p. IsLinear p (layer_products o.algebra.now o.rank i))
        (residues o.algebra.now)
        (layer_map-linear (largest_residue o.algebra.now) (group o.algebra.now)
        (order_of o.algebra.now * o.rank) (free_module o.algebra.now o.rank)
        (layer_coordinates o.algebra.now o.rank) (sum_coordinates o.algebra.now) (layers o.algebra.now) i) };

    fn count(&self) -> usize {
        self.members.count
    }

    fn apply(&self, i: usize, v: RowRef<'_>, out: &mut Row) {
        let member = self.members.before + i;
        self.algebra.multiply_by_member(self.rank, member, v, out);
    }
}
