//! The layer basis of the group algebra.

ghost use Rattle.std.specs.Prelude.{◌≡◌, ◌<◌, ◌++◌, ℕ, length, slice_index, OnOk, IfOk};
ghost use Rattle.linear_algebra.specs.Choices.{rows_at};
ghost use Rattle.radical_layers.specs.LayerBasis.{layer_basis as basis_rows};
ghost use Rattle.group_algebra.specs.Coordinates.{layers, sizes};
ghost use Rattle.p_groups.specs.PGroups.{order_of, prime_of};

use crate::generation::generators;
use crate::p_group::PGroup;
use crate::powers::{next_power, whole_list};
use fp_rows::{Echelon, Matrix, Positions, greedy};
use group_table::Memory;
use std::alloc::Global;

/// The layer basis: the sizes of its layers, and its members in sum coordinates.
#[derive(Drop)]
pub(crate) struct LayerBasis {
    pub(crate) sizes: Vec<usize>,
    pub(crate) rows: Matrix,
}

/// Appends the rows at these positions of the list.
fn push_layer(list: &Echelon, taken: &Positions, rows: &mut Matrix) -> Result<(), Memory>
    requires same_prime { list.now.p ≡ rows.old.p }
    requires same_width { list.now.width ≡ rows.old.width }
    requires inside { (i : ℕ) → i < length taken.now → slice_index taken.now i < length list.now.rows }
    ensures { OnOk result (rows.new ≡ record rows.old
        { rows = rows.old.rows ++ rows_at list.now.rows taken.now }) }
{
    for position in taken {
        rows.push(list.row(*position as usize))?;
    }
    Ok(())
}

/// The layer basis: layer i is the greedy complement of J^(i+1) in J^i.
pub(crate) fn layer_basis(alloc: Global, group: &PGroup) -> Result<LayerBasis, Memory>
    ensures prime { IfOk result (λ b. b.rows.p ≡ prime_of group.now) }
    ensures width { IfOk result (λ b. b.rows.width ≡ order_of group.now) }
    ensures sizes { IfOk result (λ b. b.sizes.items ≡ sizes group.now) }
    ensures rows { IfOk result (λ b. b.rows.rows ≡ basis_rows (layers group.now)) }
{
    let generators = generators(alloc, group.as_group())?;
    let mut sizes = Vec::new(alloc);
    let mut rows = Matrix::new(alloc, group.prime(), group.order() as usize);
    let mut power = whole_list(alloc, group)?;
    while power.rows() > 0 {
        let next = next_power(alloc, group, &generators, &power)?;
        let taken = greedy(alloc, &power, &next)?;
        push_layer(&power, &taken, &mut rows)?;
        sizes.push(taken.len())?;
        power = next;
    }
    Ok(LayerBasis { sizes, rows })
}
