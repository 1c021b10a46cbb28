//! What a lane that runs knows of owners: the epochs that it has met and its pending records, and what these tell of a
//! key.
#![tactic(auto)]

pub mod laws;
