//! What a lane knows of the words of its own log, and what its own steps on them do: the flow of a staged word, the claim
//! of a segment, and the exchange of its gate, which raises its stamp or seals a record.
#![tactic(auto)]

pub mod laws;
