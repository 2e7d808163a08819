//! The words of a command line: their grammar, and the command that they ask for.
#![tactic(auto)]

mod fault;
mod numbers;
mod operands;
mod ring_words;
mod words;

pub use fault::WordsFault;
pub use numbers::GREATEST_SAMPLE;
pub use ring_words::StageFiles;
pub use words::{Command, read_words};
