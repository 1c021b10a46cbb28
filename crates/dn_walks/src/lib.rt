//! What a walk along a bucket chain knows at each place while others act too: one that finds a key, and one of a merger
//! that sets or removes a key. And what each does to the index over words that nobody else writes.
#![tactic(auto)]

pub mod laws;
