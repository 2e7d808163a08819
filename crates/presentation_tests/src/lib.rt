//! Tests of presentations, their groups and texts, and of lists of elementary abelian subgroups.
#![tactic(auto)]

#[cfg(test)]
mod collection;
#[cfg(test)]
mod known_groups;
#[cfg(test)]
mod subgroups;
#[cfg(test)]
mod tables;
#[cfg(test)]
mod texts;
