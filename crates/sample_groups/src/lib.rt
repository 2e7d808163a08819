//! Products of small groups, which the decimal digits of a number name.
#![tactic(auto)]

mod products;
mod samples;

pub use samples::sample_presentation;
