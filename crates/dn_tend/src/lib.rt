//! The tasks of a key node beside its calls, as plans: to release a slot, to trim the pending records, to share a key
//! and to end its sharing.
//!
//! A task waits for one thing at a time: for the word that an action of its own finds, or for its lane to locate the
//! key, find room for a record, or seal one. Each wait has its type of phases, and what comes after it is nested by
//! type, as in `dn_plan`. A task is plain data, and a step takes no memory.
#![tactic(auto)]

mod acts;
mod phases;
mod plans;
mod tasks;
mod waits;

pub use phases::{
    Share, TendAct, TendAfter, TendLocate, TendNext, TendRoom, TendSealing, TendThen, TendTurn,
    Unshare,
};
pub use plans::TendPlan;
pub use tasks::{Task, TaskAnswer, TendFound, TendSeal, TendStep};

#[cfg(test)]
mod tests;
