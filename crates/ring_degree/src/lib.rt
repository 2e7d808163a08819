//! One degree of a graded commutative algebra over a prime field from the tables of the degrees before: its
//! candidates, the monomials that lead in no consequence of the relations before, and products with
//! generators. No list of all monomials of the degree is made.
#![tactic(auto)]

mod critical;
mod factors;
mod finishing;
mod forms;
mod left;
mod reached;
mod step;
mod table;

pub use finishing::finish;
pub use step::{Step, next_degree};
pub use table::Table;
