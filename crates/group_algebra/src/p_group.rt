//! Groups of prime power order.

ghost use Rattle.std.specs.Prelude.{◌≡◌, ◌≤◌, IfOk};
ghost use Rattle.group_table.specs.Prime.{prime_value};
ghost use Rattle.group_table.specs.Tables.{order};
ghost use Rattle.p_groups.specs.PGroups.{IsPGroup, order_of, prime_of};
ghost use Rattle.p_groups.proofs.SameTables.{IsPGroup-prop};

use group_table::{Group, Memory, Prime};
use std::alloc::Global;
use std::marker::Model;

/// A group of prime power order, seen as its table with the law that makes it one: contracts need no premise
/// on the table.
#[derive(Drop)]
pub struct PGroup {
    group: Group,
    ghost law: { IsPGroup group } by { IsPGroup-prop group },
}

impl Model for PGroup {
    ghost use Rattle.p_groups.specs.PGroups.{PGroup as PGroupValue};
    ghost use Rattle.group_algebra.specs.Coded.{coded_p_group};

    ghost Value = { PGroupValue };

    ghost coded = { coded_p_group };

    ghost view = { λ g. record { table = g.group; law = g.law } };
}

impl PGroup {
    /// The group with its law: each group of the program has prime power order.
    pub fn new(group: Group) -> PGroup
        ensures { result.table ≡ group }
    {
        let _ = group.order();
        let _ = group.prime();
        PGroup { group }
    }

    /// The group, for what asks nothing of its order.
    pub fn as_group(&self) -> &Group
        ensures { result.now ≡ self.now.table }
    {
        &self.group
    }

    /// How many elements it has.
    pub fn order(&self) -> u16
        ensures value { result ≡ order_of self.now }
        ensures small { result ≤ 256 }
    {
        self.group.order()
    }

    /// The prime of which its order is a power.
    pub fn prime(&self) -> Prime
        ensures { prime_value result ≡ prime_of self.now }
    {
        self.group.prime()
    }

    /// An equal group.
    pub fn try_clone(&self, alloc: Global) -> Result<PGroup, Memory>
        ensures { IfOk result (λ g. g ≡ self.now) }
    {
        Ok(PGroup {
            group: self.group.try_clone(alloc)?,
        })
    }
}
