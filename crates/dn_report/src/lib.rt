//! The end of a play's output, by `specs/Output.antt` of `dn_run`: the calls without an answer, the history in order, a line
//! for each lane, and what was counted.
//!
//! Each call appends its lines to what was printed before. After want of memory the lines may be there in part.
#![tactic(auto)]

mod histories;
mod key_counts;
mod lane_lines;
mod summaries;
#[cfg(test)]
mod tests;
mod unanswered_lines;

pub use histories::{history_lines, order};
pub use key_counts::keys_left;
pub use lane_lines::lanes;
pub use summaries::counted;
pub use unanswered_lines::unanswered;
