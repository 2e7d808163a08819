//! Tests of graded commutative polynomials, their texts, rings a degree at a time, and parameters.
#![tactic(auto)]

#[cfg(test)]
mod degrees;
#[cfg(test)]
mod parameters;
#[cfg(test)]
mod polynomials;
#[cfg(test)]
mod reading;
