//! What a run of a script is: the events that its lines give, folded over a world, and what is printed of it. Definitions, and
//! laws of them.
//!
//! `step`, in `specs/Run.antt`, is one function that says of every moment of a run what happens next; `specs/Doing.antt` has which
//! events a line gives. `output_of`, in `specs/Output.antt`, is what is printed: a function of what was told of the events, the
//! receipts and the words. [`laws`] has what is so of all runs, whatever their lines let interleave.
#![tactic(auto)]

mod counts;
pub mod laws;
mod orders;

pub use counts::Counts;
pub use orders::MoveOrder;
