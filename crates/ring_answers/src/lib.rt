//! The answers to `ring`, `value` and `sample`, on their presentation.
#![tactic(auto)]

mod answering;
mod evaluating;
mod reporting;

pub use answering::{answer_ring, answer_sample, answer_value};
