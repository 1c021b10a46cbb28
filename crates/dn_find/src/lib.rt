//! How a lane locates a key, a load at a time: its pending record where there is one, else the record that the index
//! gives.
#![tactic(auto)]

mod finds;

pub use finds::{Find, Found};

#[cfg(test)]
mod tests;
