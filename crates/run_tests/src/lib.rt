//! Tests of runs: faults of files and sinks, and each public call on its happy path. What is printed is
//! compared on the built program.
#![tactic(auto)]

#[cfg(test)]
mod answers;
#[cfg(test)]
mod candidates;
#[cfg(test)]
mod faults;
#[cfg(test)]
mod loads;
#[cfg(test)]
mod relations;
#[cfg(test)]
mod runs;
#[cfg(test)]
mod samples;
#[cfg(test)]
mod words;
