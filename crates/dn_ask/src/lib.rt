//! What a lane's plan asks for, be it the plan of a call or of a task.
//!
//! Calls and tasks have phases of their own. Whoever carries plans out knows neither: it does an action, locates the
//! key, finds room, or seals a record, and tells the plan what came of it.
#![tactic(auto)]

mod asks;
mod calls;
mod steps;
mod tasks;

pub use asks::{Act, After, End, FindRoom, Here, Locate, Next, Seal, Sealed, Step, Then};
