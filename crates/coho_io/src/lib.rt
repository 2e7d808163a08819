//! Files and sinks as the program sees them: over memory, and over the real ones.
#![tactic(auto)]

mod calls;
mod counts;
mod disk_files;
mod fault;
mod files;
mod interrupted;
mod mem_files;
mod mem_sink;
mod no_fault_files;
mod no_fault_sink;
mod pieces;
mod sink;
mod std_sink;
mod streams;

pub use disk_files::DiskFiles;
pub use fault::Fault;
pub use files::Files;
pub use mem_files::MemFiles;
pub use mem_sink::MemSink;
pub use no_fault_files::NoFaultFiles;
pub use no_fault_sink::NoFaultSink;
pub use pieces::read_to;
pub use sink::Sink;
pub use std_sink::StdSink;
