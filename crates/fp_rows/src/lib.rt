//! Rows over the field of p elements: borrowed and owned rows, matrices, reduced echelon lists of spans and
//! kernels, membership, reduction, preimages and greedy complements.
#![tactic(auto)]

mod arithmetic;
mod basis;
mod bits;
mod bits_ref;
mod cells;
mod complement;
mod elimination;
mod entries;
mod from_bytes;
mod from_rows;
mod kernels;
mod matrix;
mod membership;
mod numbers;
mod positions;
mod row;
mod row_ref;
mod short_row;
mod solutions;
mod spans;
mod words;

pub use arithmetic::{add_product, inverse};
pub use basis::Echelon;
pub use complement::greedy;
pub use entries::Entries;
pub use from_rows::{FromRows, reduced_rows_law};
pub use kernels::{Solution, kernel, solve};
pub use matrix::Matrix;
pub use positions::Positions;
pub use row::Row;
pub use row_ref::RowRef;
pub use short_row::ShortRow;
pub use solutions::{Solved, kernel_and_preimages, preimages};
pub use spans::echelon;
