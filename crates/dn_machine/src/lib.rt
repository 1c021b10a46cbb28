//! The machine: the words of a pool and all who act on them. What happens is one function of events; every event keeps
//! a sound state, from which the history of calls and the map that the pool holds follow.
#![tactic(auto)]

pub mod laws;
