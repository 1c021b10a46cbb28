//! The monitor: the orders that lay out the pool, fence lanes, and give the slots of the key space to lanes, an
//! action on one word of the pool at a time.
//!
//! No call of this crate takes memory.
#![tactic(auto)]

mod monitors;
mod orders;
mod places;
mod steps;

pub use monitors::Monitor;
pub use orders::{MonitorAnswer, MonitorTurn, Order};
pub use places::{Errand, MonitorPlace};

#[cfg(test)]
mod tests;
