//! The sessions of a run together: that the receipts stay in caller's order with all that sessions were told, whatever
//! calls are made, answered, left without an answer or given up.
#![tactic(auto)]

pub mod laws;
