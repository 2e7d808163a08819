//! Generators and relations of the cohomology ring of a p-group, degree by degree, with standard monomials
//! and normal forms.
#![tactic(auto)]

mod normal_forms;
mod ring;
mod ring_parts;

pub use ring::Ring;
