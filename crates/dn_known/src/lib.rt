//! What a lane knows: its log, its sealed records that aren't merged yet, and of each slot the epoch that it has met
//! last.
//!
//! A slot may go from one lane to another and come back. Meanwhile others seal records of its keys, so that a pending
//! record from before may be older than what the index has. So a lane that meets another epoch of a slot than it knew
//! counts from then on only those pending records of the slot that it seals afterwards.
#![tactic(auto)]

mod knowledge;

pub use knowledge::Known;

#[cfg(test)]
mod tests;
