//! The words of the pool: how they are packed and where they stand, and the keys, values and positions that they speak of.
//!
//! A word is 64 bits. A key is a number from 1 to 2^64 - 1, a lane one from 1 to 63, a slot one from 0 to 63, a stamp one
//! from 0 to [`MAX_STAMP`]. Of the calls of this crate `Value::from_bytes`, `Value::copy` and `ValueRoom::new` alone take
//! memory.
#![tactic(auto)]

mod lists;
mod packed;
mod positions;
pub mod regions;
mod rooms;
mod slots;
#[cfg(test)]
mod tests;
mod values;

pub use lists::List;
pub use packed::cell::Cell;
pub use packed::deed::{Deed, DeedState, MAX_EPOCH};
pub use packed::format::{FORMAT_NUMBER, Format};
pub use packed::gate::{Gate, MAX_STAMP};
pub use packed::header::Header;
pub use packed::place::Ref;
pub use positions::{MAX_RANK, Need, Position};
pub use rooms::ValueRoom;
pub use slots::{bucket_of, fnv1a, hash, slot_of};
pub use values::{MAX_BYTES, OutOfMemory, Value, ValueFault};
