//! A lane as an actor: what it knows at each phase of a call or task, that its own actions keep this and what is whole,
//! and that the steps of all others leave it.
#![tactic(auto)]

pub mod laws;
