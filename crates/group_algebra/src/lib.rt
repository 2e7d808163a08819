//! The group algebra of a finite p-group over the field of p elements, in layer coordinates.
#![tactic(auto)]

mod algebra;
mod coefficients;
mod combinations;
mod generation;
mod laws;
mod layers;
mod p_group;
mod places;
mod powers;
mod tables;

pub use algebra::Algebra;
pub use generation::generators;
pub use laws::inverse_law;
pub use p_group::PGroup;
