//! p-groups as values: a multiplication table with the law that makes it a group of prime power order. The
//! numbers modulo p are a field, and the group algebra has radical layers, which a crate above takes as its
//! own.
#![tactic(auto)]
