//! The merger of a lane as an actor beside others: what it knows at each place of its turn, what each of its actions
//! does and leaves to all others, and how many of them may ask for an overflow bucket.
#![tactic(auto)]

pub mod laws;
