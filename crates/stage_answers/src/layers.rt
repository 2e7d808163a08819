ghost use Rattle.std.specs.Prelude.{◌≡◌, IfOk};
ghost use Rattle.group_algebra.specs.Coordinates.{sizes};
ghost use Rattle.coho_steps.specs.Groups.{ForGroupOf, IsTableOf};

use group_algebra::Algebra;
use group_table::Memory;
use pc_group::Consistent;
use std::alloc::{AllocError, Global};

/// The group algebra of a consistent presentation's group.
pub fn algebra_of(alloc: Global, consistent: &Consistent) -> Result<Algebra, Memory>
    ensures { IfOk result (IsTableOf consistent.now) }
{
    Algebra::build(alloc, consistent.group())
}

// The sizes of the layers of the layer basis.
fn layer_sizes(alloc: Global, algebra: &Algebra) -> Result<Vec<usize>, AllocError>
    ensures { IfOk result (λ found. found.items ≡ sizes algebra.now) }
{
    let mut found = Vec::new(alloc);
    for i in 0..algebra.layers() {
        found.push(algebra.layer_dim(i))?;
    }
    Ok(found)
}

/// The dimensions of the radical layers of the group algebra.
pub fn radical_dimensions(alloc: Global, consistent: &Consistent) -> Result<Vec<usize>, Memory>
    ensures { IfOk result
        (λ found. ForGroupOf consistent.now (λ G. found.items ≡ sizes G)) }
{
    let algebra = algebra_of(alloc, consistent)?;
    Ok(layer_sizes(alloc, &algebra)?)
}
