//! Modules over the group algebra kG of a finite group, k the field of p elements: the definitions, and the
//! laws of linear maps from free modules.
#![tactic(auto)]
