//! The stages of a group's minimal resolution to a degree: taken from a file that nobody vouches for as far
//! as it goes, computed from there on, and saved to a file.
#![tactic(auto)]

mod fault;
mod pieces;
mod records;
mod resolving;
mod saving;
mod walking;

pub use fault::StagesFault;
pub use resolving::stages;
pub use walking::taken_stages;
