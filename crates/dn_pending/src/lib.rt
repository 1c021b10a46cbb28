//! The pending table of a lane: where the records lie that are sealed and not yet merged into the index.
//!
//! As in DINOMO, a node that looks a key up walks its own pending records before the index, and the records of each
//! segment of its log have a Bloom filter, so that most segments are passed over. Contracts see the list of entries and
//! the spare alone.
#![tactic(auto)]

mod entries;
mod filters;
mod queues;
mod segments;
mod tables;
#[cfg(test)]
mod tests;

pub use entries::{Entry, last_of};
pub use tables::Pending;
