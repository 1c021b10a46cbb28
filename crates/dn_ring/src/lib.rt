//! The ring: which live lane each of the 64 slots goes to. It is consistent hashing after Karger and others (1997):
//! each lane has 16 points on a ring of 2^64 places, and a slot goes to the lane whose point is met first from where
//! the slot begins. So a lane that comes takes slots only for itself, and one that goes leaves the slots of the others
//! alone.
//!
//! No call of this crate takes memory.
#![tactic(auto)]

mod assigning;
pub mod laws;
mod owners;
mod points;
#[cfg(test)]
mod tests;

pub use assigning::assign;
pub use owners::owner;
