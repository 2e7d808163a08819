//! Lists of elements of a group: which have p-th power 0, and which commute.

ghost use Rattle.std.specs.Prelude.{◌≡◌, ◌<◌, ◌++◌, ◌∷◌, [], ◌↔◌, IfOk, IsTrue, filter};
ghost use Rattle.group_table.specs.Tables.{order};
ghost use Rattle.elementary_subgroups.specs.Bases.{numbers};
ghost use Rattle.elementary_subgroups.specs.Cliques.{AreElements, CommutesWithAll, commutes_test};
ghost use Rattle.elementary_subgroups.specs.Cliques.{torsion_test};
ghost use Rattle.elementary_subgroups.specs.Sets.{IsIn};

use group_table::Group;
use std::alloc::{AllocError, Global};

/// Whether x is in the list.
pub(crate) fn has(xs: &[u16], x: u16) -> bool
    ensures { IsTrue result ↔ IsIn x xs.now }
{
    xs.contains(&x)
}

/// The list with one more at its end.
pub(crate) fn pushed(alloc: Global, xs: &[u16], x: u16) -> Result<Vec<u16>, AllocError>
    ensures { IfOk result (λ v. v.items ≡ xs.now ++ x ∷ []) }
{
    let mut v = Vec::from_slice(alloc, xs)?;
    v.push(x)?;
    Ok(v)
}

/// All elements whose p-th power is the identity, in ascending order.
pub(crate) fn torsion_elements(alloc: Global, g: &Group) -> Result<Vec<u16>, AllocError>
    ensures { IfOk result (λ v. v.items ≡ filter (torsion_test g.now) (numbers (order g.now))) }
{
    let p = u32::from(g.prime().value());
    let mut v = Vec::new(alloc);
    for x in 0..g.order() {
        if g.power(x, p) == 0 {
            v.push(x)?;
        }
    }
    Ok(v)
}

/// Those that commute with x.
pub(crate) fn commuting(
    alloc: Global,
    g: &Group,
    x: u16,
    ys: &[u16],
) -> Result<Vec<u16>, AllocError>
    requires element { x < order g.now }
    requires elements { AreElements g.now ys.now }
    ensures { IfOk result (λ v. v.items ≡ filter (commutes_test g.now x) ys.now) }
{
    let mut v = Vec::new(alloc);
    for y in ys {
        if g.commute(x, *y) {
            v.push(*y)?;
        }
    }
    Ok(v)
}

/// Whether x commutes with each of the list.
pub(crate) fn commutes_with_all(g: &Group, x: u16, ys: &[u16]) -> bool
    requires element { x < order g.now }
    requires elements { AreElements g.now ys.now }
    ensures { IsTrue result ↔ CommutesWithAll g.now x ys.now }
{
    for y in ys {
        if !g.commute(x, *y) {
            return false;
        }
    }
    true
}
