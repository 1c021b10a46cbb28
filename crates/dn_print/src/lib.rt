//! The printed lines. Each call appends one line, ended by a newline, or leaves the output as it was where memory is wanting.
//!
//! In a line, a position is `stamp.rank.session`, a word of the pool has 16 lower-case hexadecimal digits, and a value is `=`
//! and its bytes where all lie from `!` to `~`, else `%` and two lower-case hexadecimal digits for each byte.
#![tactic(auto)]

mod call_lines;
mod history_lines;
mod order_lines;
mod pieces;
mod refusal_lines;
mod summary_lines;
#[cfg(test)]
mod tests;

pub use call_lines::{EventLine, event, made};
pub use history_lines::{history_head, history_line};
pub use order_lines::{MoveAnswer, balanced, monitor_busy, moved};
pub use refusal_lines::{bad_line, bad_words};
pub use summary_lines::{LaneState, calls_line, lane_line, map_line, ways_line};
