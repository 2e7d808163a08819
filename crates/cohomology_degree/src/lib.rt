//! One degree of the cohomology ring of a p-group from the degrees before: its generators with their lifts,
//! its relations, its standard monomials with the classes to which they evaluate, and what normal forms are
//! read from.
#![tactic(auto)]

mod degree;
mod generators;
mod next;
mod relations;
mod standard;
mod values;

pub use degree::{Degree, Valued};
pub use generators::{gens_over, raise};
pub use next::Next;
pub use relations::polynomial_of;
pub use values::Lower;
