//! The log of a lane: its segments, where the next record goes, and the words that are still on their way to the pool.
#![tactic(auto)]

mod claims;
mod plans;
mod staging;
mod writers;

pub use claims::{Claim, ClaimTurn};
pub use plans::{NewSegment, Plan};
pub use staging::{Staged, Staging};
pub use writers::LogWriter;

#[cfg(test)]
mod tests;
