//! What a lane knows while it locates a key: how far it has come through the index, and of which sealed record the words
//! are that it loads, in the log of whatever lane.
#![tactic(auto)]

pub mod laws;
