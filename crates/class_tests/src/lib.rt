//! Tests of lifts, restrictions and values of classes.
#![tactic(auto)]

#[cfg(test)]
mod cocycles;
#[cfg(test)]
mod embeddings;
#[cfg(test)]
mod products;
#[cfg(test)]
mod resolutions;
