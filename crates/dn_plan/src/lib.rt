//! Plans: what a call does next, by what its lane finds for it.
//!
//! A plan waits for one thing at a time: for the word that an action of its own finds, or for a service of its lane,
//! which locates the call's key, finds room for a record, or seals one. Each wait has its type of phases, and a pure
//! function that says what comes after it. What may come is nested by type: after locating no further locating, after
//! room neither. So a service that needs no action is never asked for twice in a row.
//!
//! A phase is plain data, and a step takes no memory. The call's value stays with the lane.
#![tactic(auto)]

mod phases;
mod results;
mod steps;

pub use phases::{
    ActPhase, Brief, Entry, Kind, LocatePhase, Located, Raised, Room, RoomPhase, SealPhase,
    Sealing, Way,
};
pub use results::{After, Effect, Ending, Next, Step, Then};

#[cfg(test)]
mod tests;
