//! The answers to `group`, `resolve` and `check`, and the stages of a group with stage files.
#![tactic(auto)]

mod answering;
mod answers;
mod layers;
mod stage_files;
mod stages;

pub use answering::{answer_check, answer_group, answer_resolve};
pub use stage_files::find_stages;
pub use stages::resolution_of;
