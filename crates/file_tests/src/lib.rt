//! Tests of files and sinks in memory, and of stage files.
#![tactic(auto)]

#[cfg(test)]
mod adoption;
#[cfg(test)]
mod files;
#[cfg(test)]
mod records;
#[cfg(test)]
mod walks;
