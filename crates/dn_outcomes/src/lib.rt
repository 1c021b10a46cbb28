//! What a world of a cluster is given, event by event, and what comes of each: definitions, and laws of them.
//!
//! A world is a machine over the words of a pool, the number of lanes that were made, the calls and tasks that wait, and the
//! lanes that are live. `does`, in `specs/Does.antt`, is one function that says of every event what the world is after it and
//! what its outcome is; `dn_world` carries it out. [`laws`] has what is so of all worlds.
#![tactic(auto)]

mod events;
pub mod laws;
mod leaving;
mod outcomes;

pub use events::Event;
pub use leaving::Leaving;
pub use outcomes::{CallAnswer, Outcome};
