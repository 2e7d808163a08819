//! The values of cocycles: the class map from the cohomology of a p-group, by its minimal resolution, to the
//! cocycles of its normalised bar complex, at one tuple of elements.
#![tactic(auto)]

mod comparison;
mod faces;
mod laws;
mod values;

pub use laws::class_map_law;
pub use values::value;
