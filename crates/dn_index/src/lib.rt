//! The index: walks over its bucket chains that find, set or remove the place of a key's record, an action at a time.
#![tactic(auto)]

mod places;
mod steps;
mod walks;

pub use places::{Errand, Spot, Trail, WalkPlace, WalkTurn};
pub use walks::Walk;

#[cfg(test)]
mod tests;
