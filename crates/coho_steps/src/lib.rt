//! The steps of a run: each goes on with a value or refuses, and calls end as their steps do. The causes of
//! refusals with their statuses and lines, the reading of a presentation from a file, and the writing of an
//! answer.
#![tactic(auto)]

mod cause;
mod loading;
mod reading;
mod status;
mod stop;
mod writing;

pub use cause::{Cause, FilePart};
pub use loading::{accept, load};
pub use status::Status;
pub use stop::Stop;
pub use writing::{report, write_lines};
