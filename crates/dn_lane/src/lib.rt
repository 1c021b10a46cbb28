//! The key node: one call or task at a time, an action at a time.
//!
//! A lane carries out the plan of its call or task. The plan asks for an action of its own, for the place of its key's
//! record, for room for a record, or that one is sealed; the lane does it and tells the plan what came of it. What a plan
//! lets the lane know, it takes over.
#![tactic(auto)]

mod answers;
mod asked;
mod base;
mod ends;
mod found;
mod lanes;
mod modes;
mod steps;

pub use answers::{Answer, Refuse, Turn};
pub use lanes::Lane;

#[cfg(test)]
mod tests;
