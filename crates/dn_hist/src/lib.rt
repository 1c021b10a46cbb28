//! Calls and their replies, the receipts of a history, and the plain map that says which replies are right.
//!
//! A history is a list of receipts in order of position. It is legal if replaying its calls on an empty map, in
//! that order, gives each call its receipt's reply. [`order`] puts receipts in order, and [`replay`] judges the list.
#![tactic(auto)]

mod calls;
mod plain_map;
mod receipts;
mod replays;

pub use calls::{Call, Reply};
pub use plain_map::PlainMap;
pub use receipts::{Receipt, SessionView, order};
pub use replays::{ReplayFault, replay};

#[cfg(test)]
mod tests;
