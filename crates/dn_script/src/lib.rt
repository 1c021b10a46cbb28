//! The script: lines of bytes, and what they ask for.
//!
//! Each line ends with a newline. It has printable bytes alone, from 32 to 126, and no more than 4,096 of them. A
//! script has no more than 1,000,000 lines. Lines without a byte and those with a `;` in front ask for nothing. The
//! fields of the others stand apart by one space. Numbers are decimal without sign or leading zeros: a key K from 1
//! to 2^64 - 1, a lane L from 1 to 63, a session S from 1 to 1,000, a count N from 1 to 1,000,000. A value V is `=`
//! and 0 to 1,024 bytes from `!` to `~`, or `%` and 0 to 1,024 pairs of hexadecimal digits in lower case, or `#B*C`,
//! the byte B from 0 to 255, C times, C from 0 to 1,024.
//!
//! | Lines | What they say |
//! |---|---|
//! | `pool N`, `nodes N`, `cache N` | how many segments there are, lanes at the opening, units of a lane's cache |
//! | `cS get K`, `cS put K V`, `cS del K` | the session's call, run to its answer |
//! | `cS @L get K` and the like | the call's first attempt goes to the lane |
//! | `cS start get K`, `cS @L start get K` and the like | the call is only started |
//! | `step L`, `step L N`, `merge L`, `merge L N` | actions of a lane, of its merger: 1 where N is left out |
//! | `monitor`, `monitor N` | actions of the monitor, the same |
//! | `flow L I` | the staged word at place I, from 0 to 139, flows |
//! | `add`, `balance`, `remove L`, `stop L`, `fuse L N`, `fail L`, `trim L`, `tell S S` | what [`Line`] says of each |
//! | `move K L`, `fence L`, `takeover L` | an order, run to its end |
//! | `start move K L`, `start takeover L` | an order that is only given |
//!
//! The definition has the same table (`specs/Table.antt`), and what each row gives (`specs/Meaning.antt`). A verb is
//! one word of the list that [`parse_with`] is handed; [`PLAYED`] is the list of those that are played.
#![tactic(auto)]

mod asked;
mod faults;
mod fields;
mod leads;
mod meanings;
mod parsing;
mod rows;
mod scripts;
mod sentences;
mod serial;
#[cfg(test)]
mod tests;
mod texts;
mod values;
mod verbs;

pub use asked::{AskedCall, asked_by};
pub use faults::{Cause, ParseFault};
pub use parsing::{parse, parse_with};
pub use scripts::{Line, Mode, Script};
pub use verbs::{PLAYED, Verb};
