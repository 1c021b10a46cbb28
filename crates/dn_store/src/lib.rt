//! What the words of a pool represent: a store, as plain data. Each action on a word leaves the store as it is, or is
//! one change of it.
#![tactic(auto)]

pub mod laws;
mod plain;

pub use plain::{Entry, PlainStore};

#[cfg(test)]
mod tests;
