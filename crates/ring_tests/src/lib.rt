//! Tests of cohomology rings and the reports on them.
#![tactic(auto)]

#[cfg(test)]
mod reports;
#[cfg(test)]
mod rings;
