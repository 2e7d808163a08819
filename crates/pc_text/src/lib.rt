//! The presentation text: a reader that answers the presentation or the first fault with its place,
//! and a writer of the canonical text.
#![tactic(auto)]

mod cuts;
mod fault;
mod generators;
mod laws;
mod names;
mod numerals;
mod place;
mod reader;
mod relations;
mod texts;
mod words;
mod writer;

pub use crate::fault::{Kind, TextFault};
pub use crate::laws::{canonical_is_read, table_is_grammar};
pub use crate::numerals::numeral;
pub use crate::reader::read_presentation;
pub use crate::writer::write_presentation;
