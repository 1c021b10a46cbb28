//! A world: a cluster, the calls and tasks that wait, and the receipts that stand. It is given events, one at a time, and
//! tells what came of each.
//!
//! What an event does is `does` of `dn_outcomes`, a function of the words of the pool and of all who act on them. The
//! words are handed to each call.
#![tactic(auto)]

mod crews;
mod finishes;
pub mod laws;
mod leaving;
mod open_faults;
mod routes;
#[cfg(test)]
mod tests;
mod worlds;

pub use finishes::FinishFault;
pub use open_faults::OpenFault;
pub use worlds::{Standing, World};
