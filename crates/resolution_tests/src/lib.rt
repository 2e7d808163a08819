//! Tests of group algebras and minimal resolutions.
#![tactic(auto)]

#[cfg(test)]
mod algebras;
#[cfg(test)]
mod resolutions;
#[cfg(test)]
mod rows;
#[cfg(test)]
mod sections;
