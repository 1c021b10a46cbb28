//! A cluster: up to 63 lanes with their mergers, the monitor's order and 1,000 sessions as one value. The words of the
//! pool on which they act are handed to each call.
//!
//! Which machine a cluster is over given words is its model. Each call is one event of that machine, so whoever makes the
//! calls has all that is proved of events.
#![tactic(auto)]

mod actors;
mod clients;
mod clusters;
pub mod laws;
mod nodes;

pub use actors::{Acted, Actor};
pub use clusters::{AddFault, Cluster};

#[cfg(test)]
mod tests;
