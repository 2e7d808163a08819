//! Lists of elementary abelian subgroups.

ghost use Rattle.std.specs.Prelude.{◌≡◌, ◌<◌, ◌↔◌, [], IfOk, IsTrue, Some, length, slice_get};
ghost use Rattle.elementary_subgroups.specs.Bases.{IsSubgroupList};
ghost use Rattle.elementary_subgroups.specs.Subgroups.{IsMaximalElementaryList};
ghost use Rattle.subgroup_list.specs.Search.{lists};

use crate::bases::numbered;
use crate::elem_ab::ElemAb;
use crate::search::maximal_lists;
use group_table::{Group, Memory};
use std::alloc::{AllocError, Global};
use std::marker::Model;

/// A list of elementary abelian subgroups.
#[derive(Debug, Drop)]
pub struct Subgroups {
    subgroups: Vec<ElemAb>,
}

impl Model for Subgroups {
    ghost use Rattle.std.specs.Prelude.{List};
    ghost use Rattle.elementary_subgroups.specs.Bases.{NumberedSubgroup};

    ghost Value = { List NumberedSubgroup };

    ghost view = { λ s. s.subgroups.items };
}

impl Subgroups {
    /// How many there are.
    pub fn len(&self) -> usize
        ensures { result ≡ length self.now }
    {
        self.subgroups.len()
    }

    /// Whether there is none.
    pub fn is_empty(&self) -> bool
        ensures { IsTrue result ↔ (self.now ≡ []) }
    {
        self.subgroups.is_empty()
    }

    /// The subgroup at place i.
    pub fn get(&self, i: usize) -> &ElemAb
        requires { i < length self.now }
        ensures { slice_get self.now i ≡ Some result.now }
    {
        &self.subgroups[i]
    }
}

/// The maximal elementary abelian subgroups, the one with the least sorted list of each conjugacy class, in
/// the ascending order of these lists. The basis of each is taken greedily by number.
pub fn max_elementary(alloc: Global, g: &Group) -> Result<Subgroups, Memory>
    ensures { IfOk result (IsSubgroupList g.now) }
{
    let found = maximal_lists(alloc, g)?;
    let subgroups = all_numbered(alloc, g, &found)?;
    Ok(Subgroups { subgroups })
}

// The subgroups with these lists of members.
fn all_numbered(alloc: Global, g: &Group, sets: &[Vec<u16>]) -> Result<Vec<ElemAb>, AllocError>
    requires { IsMaximalElementaryList g.now (lists sets.now) }
    ensures { IfOk result (λ v. IsSubgroupList g.now v.items) }
{
    let mut subgroups = Vec::new(alloc);
    for members in sets {
        subgroups.push(numbered(alloc, g, members)?)?;
    }
    Ok(subgroups)
}
