//! The monitor among the actors of a pool: what it knows at each place of its order, that each of its actions keeps
//! that and is a step that leaves all other actors what they know, and that it lasts under their steps.
#![tactic(auto)]

pub mod laws;
