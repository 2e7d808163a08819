//! Elementary abelian subgroups.

ghost use Rattle.std.specs.Prelude.{◌≡◌, ◌<◌, IfOk, length, slice_index};
ghost use Rattle.elementary_subgroups.specs.Bases.{IsSubgroupOf, NumberedSubgroup};
ghost use Rattle.elementary_subgroups.specs.OwnGroups.{elementary_group, IsOwnGroup};

use crate::own_tables::elementary_entries;
use group_table::{Group, Memory};
use std::alloc::Global;
use std::marker::Model;

/// An elementary abelian subgroup of rank s: its basis, its members in ascending order, and its elements by
/// their numbers below p^s.
#[derive(Debug, Drop)]
pub struct ElemAb {
    basis: Vec<u16>,
    members: Vec<u16>,
    images: Vec<u16>,
}

impl Model for ElemAb {
    ghost use Rattle.elementary_subgroups.specs.Bases.{NumberedSubgroup};

    ghost Value = { NumberedSubgroup };

    ghost view = { λ s.
        record { basis = s.basis.items; members = s.members.items; images = s.images.items } };
}

impl ElemAb {
    pub(crate) fn new(basis: Vec<u16>, members: Vec<u16>, images: Vec<u16>) -> ElemAb
        ensures { result ≡ record { basis = basis.items; members = members.items; images = images.items } }
    {
        ElemAb {
            basis,
            members,
            images,
        }
    }

    /// The number of members of the basis.
    pub fn rank(&self) -> usize
        ensures { result ≡ length self.now.basis }
    {
        self.basis.len()
    }

    /// A member of the basis.
    pub fn basis(&self, i: usize) -> u16
        requires { i < length self.now.basis }
        ensures { result ≡ slice_index self.now.basis i }
    {
        self.basis[i]
    }

    /// The number of members.
    pub fn size(&self) -> usize
        ensures { result ≡ length self.now.members }
    {
        self.members.len()
    }

    /// A member, in ascending order.
    pub fn member(&self, i: usize) -> u16
        requires { i < length self.now.members }
        ensures { result ≡ slice_index self.now.members i }
    {
        self.members[i]
    }

    /// The element of the large group with the number e = e_1 + e_2 p + .. in the subgroup: the product of
    /// the basis members with the exponents e_1, e_2 and so on.
    pub fn embed(&self, e: u16) -> u16
        requires { e < length self.now.images }
        ensures { result ≡ slice_index self.now.images e }
    {
        self.images[e as usize]
    }

    /// An equal subgroup.
    pub fn try_clone(&self, alloc: Global) -> Result<ElemAb, Memory>
        ensures { IfOk result (λ s. s ≡ self.now) }
    {
        Ok(ElemAb {
            basis: Vec::from_slice(alloc, &self.basis)?,
            members: Vec::from_slice(alloc, &self.members)?,
            images: Vec::from_slice(alloc, &self.images)?,
        })
    }

    /// The subgroup of g as a group of its own, in its own numbering. Its table depends on p and the rank
    /// alone.
    pub fn group(&self, alloc: Global, g: &Group) -> Result<Group, Memory>
        requires { IsSubgroupOf g.now self.now }
        ensures table { IfOk result (λ e. e ≡ elementary_group g.now.p (length self.now.basis)) }
        ensures own { IfOk result (IsOwnGroup g.now self.now) }
    {
        let _ = g.order();
        let prime = g.prime();
        let rank = self.rank() as u32;
        let entries = elementary_entries(alloc, prime, rank)?;
        Ok(Group::from_law(prime, rank, entries))
    }
}
