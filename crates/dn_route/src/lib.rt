//! Sessions: what a caller knows between its calls. A session numbers its calls, knows the last position that it was
//! told, for each slot the lane that it sends its calls to, and the cells of shared keys that it was told of.
#![tactic(auto)]

pub mod laws;
mod sessions;
#[cfg(test)]
mod tests;

pub use sessions::Session;
