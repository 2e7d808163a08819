//! Power-commutator presentations as values: their making, their consistency tests and the group of a
//! consistent one.
//! See Holt, Eick and O'Brien, Handbook of Computational Group Theory, chapter 8.
#![tactic(auto)]

pub mod collection;
pub mod consistency;
pub mod elements;
mod layer;
mod layer_lists;
mod layer_product;
mod layer_tests;
pub mod presentation;
mod rounds;
mod square;
mod word_numbers;

pub use collection::collect;
pub use consistency::{Consistent, Refused, check};
pub use elements::{group_of, number, word_of};
pub use power_commutator::TestName;
pub use presentation::{Presentation, Word};
