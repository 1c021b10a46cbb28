//! Where a script comes from and where the output goes: sources and sinks of bytes, reading and writing them whole, and how a run ends.
#![tactic(auto)]

mod faults;
mod in_memory;
mod over_std;
mod statuses;
mod streams;
#[cfg(test)]
mod tests;
mod whole;

pub use faults::{Failed, OutOfMemory, ReadAllFault};
pub use in_memory::{BytesIn, BytesOut};
pub use over_std::{StdIn, StdOut};
pub use statuses::Status;
pub use streams::{Sink, Source};
pub use whole::{read_all, write_all};
