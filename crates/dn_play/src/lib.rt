//! Plays a script's lines over a pool: gives a world the events of the lines one after the other, and prints what comes of each.
//!
//! What a run is, and what is printed of it, are definitions of `dn_run`; a player is proved to be at a moment of that run.
#![tactic(auto)]

mod players;
mod printing;
mod stops;
mod tallies;
#[cfg(test)]
mod tests;

pub use players::Player;
pub use stops::Stop;
