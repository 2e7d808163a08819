//! Groups on the numbers below n, by their elements and not by numbers alone: the definition, and what
//! modules over their group algebras need of it.
#![tactic(auto)]
