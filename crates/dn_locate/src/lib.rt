//! Locating a record: its fetch, from the place that is known.
#![tactic(auto)]

mod fetches;
mod steps;

pub use fetches::{Fetch, FetchPlace, FetchTurn, Wish};

#[cfg(test)]
mod tests;
