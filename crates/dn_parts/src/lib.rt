//! What a sound machine's words and actors say, part by part, to a reader who needs nothing of how soundness is kept.
#![tactic(auto)]

pub mod laws;
