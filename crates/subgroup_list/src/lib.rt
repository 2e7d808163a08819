//! The maximal elementary abelian subgroups of a p-group, one of each conjugacy class, each with its basis
//! and its own numbering. See Quillen, The spectrum of an equivariant cohomology ring, 1971.
#![tactic(auto)]

mod bases;
mod classes;
mod elem_ab;
mod elements;
mod own_tables;
mod search;
mod subgroups;

pub use elem_ab::ElemAb;
pub use subgroups::{Subgroups, max_elementary};
