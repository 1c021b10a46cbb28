//! Who owns what of a store, and who knows what of it: parts that stay true whatever the lanes, their mergers and the
//! monitor do, over the store alone and without a word of a pool.
#![tactic(auto)]

pub mod laws;
mod plain;

pub use plain::{Pending, last_counting};

#[cfg(test)]
mod tests;
