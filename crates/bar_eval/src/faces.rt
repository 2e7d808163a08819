//! The faces of a tuple of group elements, with their signs.

ghost use Rattle.std.specs.Prelude.{◌≡◌, ◌+◌, ◌-◌, ◌<◌, ℕ, suc, false, All, IfOk, length};
ghost use Rattle.bar_complex.specs.Boundary.{signed};
ghost use Rattle.bar_complex.specs.Faces.{alternate, face as face_of};
ghost use Rattle.bar_eval.specs.Comparison.{tuple_of};
ghost use Rattle.group_modules.specs.Tables.{monoid};
ghost use Rattle.group_table.specs.Prime.{prime_value};
ghost use Rattle.p_groups.specs.PGroups.{group as group_of, order_of};

use group_algebra::PGroup;
use group_table::{Memory, Prime};
use std::alloc::Global;

/// The sign of face i modulo p: -1 for the first one, and then 1 and -1 in turn.
pub(crate) fn sign(prime: Prime, i: usize) -> u8
    ensures value { result ≡ signed (prime_value prime - 1) (alternate false i) }
    ensures below { result < prime_value prime }
{
    if i % 2 == 0 { prime.value() - 1 } else { 1 }
}

/// Face i of a tuple: entries i and i + 1 multiplied; at the last entry, that entry left out.
pub(crate) fn face(
    alloc: Global,
    group: &PGroup,
    tuple: &[u16],
    i: usize,
) -> Result<Vec<u16>, Memory>
    requires inside { i < length tuple.now }
    requires elements { All (λ x. x < order_of group.now) tuple.now }
    ensures face { IfOk result (λ f. (d : ℕ) → length tuple.now ≡ suc d
        → tuple_of group.now d f.items
        ≡ face_of (monoid (group_of group.now)) d i (tuple_of group.now (suc d) tuple.now)) }
    ensures length { IfOk result (λ f. length f.items + 1 ≡ length tuple.now) }
    ensures elements { IfOk result (λ f. All (λ x. x < order_of group.now) f.items) }
{
    let mut face = Vec::from_slice(alloc, &tuple[..i])?;
    if i + 1 == tuple.len() {
        return Ok(face);
    }
    face.push(group.as_group().mul(tuple[i], tuple[i + 1]))?;
    face.extend_from_slice(&tuple[i + 2..])?;
    Ok(face)
}
