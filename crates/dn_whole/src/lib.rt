//! A script played whole: the pool is opened, the lines are played, the lanes are drained, and the output is made.
#![tactic(auto)]

mod ends;
pub mod laws;
mod plays;
#[cfg(test)]
mod tests;

pub use ends::End;
pub use plays::play;
