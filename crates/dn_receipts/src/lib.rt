//! Receipts of calls over a pool: what joins them, that each key is a register by them, and what history they are.
#![tactic(auto)]

pub mod laws;
