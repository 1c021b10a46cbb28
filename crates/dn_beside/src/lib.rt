//! What an action of one actor leaves to all others: to a lane its own words and the key that it works on, to a merger
//! its mark and its chains, to the monitor what it has read. Each kind of step shows this once, and what an actor knows
//! is shown to last under it once.
#![tactic(auto)]

pub mod laws;
