//! Records: what the words of a lane's log say, and how they are spelled.
//!
//! A record is a header word and its content. Its grammar: a value has at most 1,024 bytes, a key isn't 0, a cell is below
//! 256, a place lies in the log of a lane from 1 to 63, a header has no bit set that its kind doesn't use.
#![tactic(auto)]

mod contents;
mod heads;
pub mod laws;
mod reading;
mod records;
#[cfg(test)]
mod tests;
mod values;
mod writing;

pub use heads::Head;
pub use reading::{look, read};
pub use records::{Record, Seen, words_of};
pub use writing::{write, write_delete, write_put};
