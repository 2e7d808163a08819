//! Consistent presentations, and the refusals of the consistency tests.

ghost use Rattle.std.specs.Prelude.{◌≡◌, ◌≤◌, ◌^◌, None, IfOk, IfErr, OnOk};
ghost use Rattle.power_commutator.specs.Presentations.{first_fault};
ghost use Rattle.power_commutator.specs.Claims.{GroupClaims};
ghost use Rattle.pc_group.specs.Consistency.{IsConsistent};
ghost use Rattle.pc_group.specs.Squares.{IsTableOf};
ghost use Rattle.pc_group.specs.GroupOf.{IsGroupOf, HasPowers, HasCommutators};
ghost use Rattle.pc_group.specs.Refusal.{Refuses};

use crate::presentation::Presentation;
use crate::rounds::first_layer;
use crate::square::Square;
use group_table::Group;
use power_commutator::TestName;
use std::alloc::Global;
use std::marker::Model;

/// A presentation without a false test, of order at most 256, with its group. Contracts see the presentation.
#[derive(Debug, Drop)]
pub struct Consistent {
    presentation: Presentation,
    group: Group,
}

impl Model for Consistent {
    ghost use Rattle.power_commutator.specs.Presentations.{Presentation as Presented};
    ghost use Rattle.pc_group.specs.Consistency.{GivesGroup};

    ghost Value = { Presented };

    ghost view = { λ c. c.presentation };

    ghost invariant = { λ c. GivesGroup c.presentation c.group };
}

/// Why a presentation was not found consistent; it is handed back.
#[derive(Debug, Drop)]
pub enum Refused {
    /// The first false test.
    Fault {
        name: TestName,
        presentation: Presentation,
    },
    /// Want of memory.
    Memory {
        presentation: Presentation,
    },
}

impl Consistent {
    /// The presentation that was tested.
    pub fn presentation(&self) -> &Presentation
        ensures value { result.now ≡ self.now }
        ensures consistent { IsConsistent self.now }
        ensures group { GroupClaims self.now }
    {
        &self.presentation
    }

    /// The group of order p^n that the presentation gives.
    /// The element g_1^e_1 g_2^e_2 .. has the number e_1 + e_2 p + e_3 p^2 and so on.
    pub fn group(&self) -> &Group
        ensures group { IsGroupOf self.now result.now }
        ensures powers { HasPowers self.now result.now }
        ensures commutators { HasCommutators self.now result.now }
    {
        &self.group
    }
}

/// Makes the consistency tests of a presentation of order p^n at most 256, from the last layer to the first.
/// A presentation without a false test is that of a group of order p^n; otherwise the first false test is
/// named.
pub fn check(alloc: Global, p: Presentation) -> Result<Consistent, Refused>
    requires { p.prime ^ p.gens ≤ 256 }
    ensures same { IfOk result (λ c. c ≡ p) }
    ensures faultless { OnOk result (first_fault p ≡ None) }
    ensures group { OnOk result (GroupClaims p) }
    ensures refused { IfErr result (Refuses p) }
{
    match first_layer(alloc, &p) {
        Ok(Ok(table)) => Ok(with_group(p, table)),
        Ok(Err(name)) => Err(Refused::Fault {
            name,
            presentation: p,
        }),
        Err(_) => Err(Refused::Memory { presentation: p }),
    }
}

// A consistent presentation with its group, which the product of layer 1 gives.
fn with_group(presentation: Presentation, table: Square) -> Consistent
    requires consistent { IsConsistent presentation }
    requires table { IsTableOf presentation 1 presentation.gens table }
    ensures { result ≡ presentation }
{
    let group = Group::from_law(presentation.prime(), presentation.gens(), table.entries);
    Consistent {
        presentation,
        group,
    }
}
