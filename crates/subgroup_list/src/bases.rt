//! The greedy basis of an elementary abelian subgroup, and its elements by their numbers.

ghost use Rattle.std.specs.Prelude.{◌≡◌, ◌<◌, ◌++◌, IfOk, length, map};
ghost use Rattle.group_table.specs.Tables.{order, product};
ghost use Rattle.elementary_subgroups.specs.Bases.{IsBasis, IsNumbered, numbering};
ghost use Rattle.elementary_subgroups.specs.Cliques.{AreElements};
ghost use Rattle.subgroup_list.specs.Choosing.{spread};

use crate::elem_ab::ElemAb;
use crate::elements::has;
use group_table::Group;
use std::alloc::{AllocError, Global};

/// The subgroup with these members.
pub(crate) fn numbered(alloc: Global, g: &Group, members: &[u16]) -> Result<ElemAb, AllocError>
    requires { AreElements g.now members.now }
    ensures same { IfOk result (λ s. s.members ≡ members.now) }
    ensures numbered { IfOk result (IsNumbered g.now) }
{
    let (basis, images) = basis_and_images(alloc, g, members)?;
    Ok(ElemAb::new(basis, Vec::from_slice(alloc, members)?, images))
}

// The basis of the members, and the elements by their numbers.
fn basis_and_images(
    alloc: Global,
    g: &Group,
    members: &[u16],
) -> Result<(Vec<u16>, Vec<u16>), AllocError>
    requires { AreElements g.now members.now }
    ensures basis { IfOk result (λ r. IsBasis g.now members.now r.0.items) }
    ensures images { IfOk result (λ r. r.1.items ≡ numbering g.now r.0.items) }
{
    let p = u32::from(g.prime().value());
    let _ = g.order();
    let mut basis = Vec::new(alloc);
    let mut images = vec![in alloc; 0u16; 1]?;
    for x in members {
        if !has(&images, *x) {
            images = spread_by(alloc, g, p, &images, *x)?;
            basis.push(*x)?;
        }
    }
    Ok((basis, images))
}

// The products of the elements with each power of x.
fn spread_by(alloc: Global, g: &Group, p: u32, ys: &[u16], x: u16) -> Result<Vec<u16>, AllocError>
    requires elements { AreElements g.now ys.now }
    requires element { x < order g.now }
    ensures { IfOk result (λ v. v.items ≡ spread g.now ys.now x p) }
{
    let mut v = Vec::new(alloc);
    for k in 0..p {
        push_products(g, ys, g.power(x, k), &mut v)?;
    }
    Ok(v)
}

// Adds the products of the elements with x.
fn push_products(g: &Group, ys: &[u16], x: u16, products: &mut Vec<u16>) -> Result<(), AllocError>
    requires elements { AreElements g.now ys.now }
    requires element { x < order g.now }
    ensures { IfOk result (λ _.
        products.new.items ≡ products.old.items ++ map (λ y. product g.now y x) ys.now) }
{
    for y in ys {
        products.push(g.mul(*y, x))?;
    }
    Ok(())
}
