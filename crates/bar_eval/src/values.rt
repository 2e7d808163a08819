//! The value of a cocycle at a tuple.

ghost use Rattle.std.specs.Prelude.{◌≡◌, ◌≤◌, ◌<◌, All, Contains, IfOk, length};
ghost use Rattle.bar_eval.specs.ClassMap.{EachHasOneClass, GivesCocycles, IsInjective, IsLinear, value_at};
ghost use Rattle.fp_rows.specs.Refs.{entries_of, modulus_of};
ghost use Rattle.min_res.specs.Stages.{rank_of};
ghost use Rattle.p_groups.specs.PGroups.{order_of, prime_of};

use crate::comparison::compared;
use fp_rows::RowRef;
use group_table::Memory;
use min_res::Resolution;
use std::alloc::Global;

/// The value of the cocycle of a class at a tuple of group elements, by their numbers. There are as many as
/// the degree d of the class, which has an entry for each basis element of degree d; d is at most the degree
/// of the last stage. A tuple with an identity entry has the value 0.
///
/// The comparison map from the normalised bar complex is found at this tuple alone, by recursion on the
/// degree (Brown, "Cohomology of Groups", I.7). The last clauses say, of degree d, that the class map is
/// linear, that it gives cocycles, coboundaries only for the class 0, and up to coboundaries each cocycle
/// exactly once: so a class is a class of cocycles.
pub fn value(
    alloc: Global,
    res: &Resolution,
    class: RowRef<'_>,
    tuple: &[u16],
) -> Result<u8, Memory>
    requires within { length tuple.now ≤ res.now.last }
    requires elements { All (λ x. x < order_of res.now.group) tuple.now }
    requires prime { modulus_of class ≡ prime_of res.now.group }
    requires length { length (entries_of class) ≡ rank_of res.now.group (length tuple.now) }
    ensures value { IfOk result (λ v. v
        ≡ value_at res.now.group (entries_of class.entry) tuple.now) }
    ensures below { IfOk result (λ v. v < prime_of res.now.group) }
    ensures identity { IfOk result (λ v. Contains tuple.now 0 → v ≡ 0) }
    ensures linear { IsLinear res.now.group (length tuple.now) }
    ensures cocycles { GivesCocycles res.now.group (length tuple.now) }
    ensures injective { IsInjective res.now.group (length tuple.now) }
    ensures one_class { EachHasOneClass res.now.group (length tuple.now) }
{
    let row = compared(alloc, res, tuple)?;
    Ok(class.pairing(row.view()))
}
