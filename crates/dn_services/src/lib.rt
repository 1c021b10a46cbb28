//! What plans ask their lane for: room for a record in the lane's log, and that a record is sealed.
//!
//! A service goes an action at a time, as plans do. Its steps are functions over what the lane knows and the words that
//! are on their way to the pool; they take no memory.
#![tactic(auto)]

mod rooms;
mod seals;
mod spelled;
mod staged;

pub use rooms::{RoomTurn, claim_on, find_room};
pub use seals::{Seal, SealTurn};
pub use spelled::{TASK_WORDS, call_words};

#[cfg(test)]
mod tests;
