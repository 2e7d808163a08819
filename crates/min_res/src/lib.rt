//! The minimal resolution of the field of p elements over the group algebra of a p-group, a stage at a time.
#![tactic(auto)]

mod adopt_fault;
mod adoption;
mod boundary;
mod candidate;
mod check;
mod fault;
mod first;
mod laws;
mod layer_products;
mod matrices;
mod next;
mod part_lists;
mod parts;
mod radicals;
mod resolution;
mod row_tests;
mod sections;
mod stage;

pub use adopt_fault::AdoptFault;
pub use check::Check;
pub use fault::ResFault;
pub use laws::{
    boundary_law, exactness_law, one_stage_law, row_checks_law, section_law, stage_exists_law,
};
pub use parts::StageParts;
pub use resolution::Resolution;
pub use stage::Stage;
