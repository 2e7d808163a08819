//! A run of the program: the words are answered over files, the answer is written to one sink and the line of
//! a refusal or a fault to the other.
#![tactic(auto)]

mod file_laws;
mod running;

pub use file_laws::{from_law, honest_law, words_law};
pub use running::{outcome_exists, outcome_is_unique, ring_outcome, run};
