//! Merging: the merger of one lane, which brings the index up to the lane's sealed records, an action on one word of the pool at a time.
#![tactic(auto)]

mod mergers;
mod places;
mod steps;

pub use mergers::{MergeTurn, Merger};
pub use places::{Change, MergePlace};

#[cfg(test)]
mod tests;
