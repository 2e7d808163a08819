//! Tests of rows over the field of p elements and of negative standard bases.
#![tactic(auto)]

#[cfg(test)]
mod given;
#[cfg(test)]
mod negative_bases;
#[cfg(test)]
mod parts;
#[cfg(test)]
mod rows;
#[cfg(test)]
mod spans;
