//! The polynomial of a text, or the text's first fault.
#![tactic(auto)]

mod degrees;
mod fault;
mod pieces;
mod read_term;
mod reader;
mod syntax;
mod values;

pub use fault::PolyFault;
pub use reader::read_poly;
