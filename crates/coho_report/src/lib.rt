//! The report on the cohomology ring of a p-group through a degree, and its lines.
#![tactic(auto)]

mod candidates;
mod composition;
mod fault;
mod laws;
mod lines;
mod own_rings;
mod parameter_lines;
mod parameters;
mod report;
mod restrictors;
mod rings;
mod subgroup_lines;
mod subgroups;
mod witnesses;

pub use composition::compose;
pub use fault::ReportFault;
pub use laws::{cohomology_law, one_refusal, one_report, report_exists};
pub use lines::{report_lines, summary_lines, write_report};
pub use report::Report;
pub use witnesses::{exchanged_variables, image_of_another_degree, zero_parameters};
