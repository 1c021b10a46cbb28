//! The words that hold several fields. Each has a `read` that ignores bits which belong to no field and a `word` that leaves
//! them 0, and reading what `word` gave has the fields back.

pub mod cell;
pub mod deed;
pub mod format;
pub mod gate;
pub mod header;
pub mod place;
