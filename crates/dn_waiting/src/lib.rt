//! What waits: the calls of sessions between their start and their end, how their attempts go on, and the queues of
//! lanes.
#![tactic(auto)]

mod attempts;
mod calls;
pub mod laws;
mod queues;
mod stops;
#[cfg(test)]
mod tests;
mod waiting;

pub use calls::{AttemptEnd, Course, Next, OpenCall, Place};
pub use waiting::Waiting;
