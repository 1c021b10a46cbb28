//! Actions on the words of the pool, and the memories that carry them out.
#![tactic(auto)]

mod actions;
mod faults;
mod memories;
mod plain_pool;
mod running;
mod sound_pool;

pub use actions::Action;
pub use faults::{Failed, OutOfMemory};
pub use memories::Memory;
pub use plain_pool::Plain;
pub use running::exec;
pub use sound_pool::Sound;

#[cfg(test)]
mod tests;
