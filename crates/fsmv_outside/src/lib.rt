//! Files to read and a sink to write text to: on disk, in memory, and with planned faults for
//! tests.
#![tactic(auto)]

mod count;
mod disk;
mod files;
mod listing;
mod memory;
mod plan;
mod sink;
mod standard;
mod steady;
#[cfg(test)]
mod tests;

pub use disk::DiskFiles;
pub use files::{Files, FilesFault};
pub use memory::{MemoryFiles, MemorySink};
pub use sink::{Sink, SinkFault};
pub use standard::StandardOut;
pub use steady::{SteadyFiles, SteadySink};
