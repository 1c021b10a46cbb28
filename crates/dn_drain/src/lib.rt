//! Draining: the merger of a lane acts until all is merged that the lane has sealed.
#![tactic(auto)]

mod drains;
mod every;
pub mod laws;

pub use drains::{DrainFault, Merged, drain};
pub use every::{LaneFault, drain_all};

#[cfg(test)]
mod tests;
