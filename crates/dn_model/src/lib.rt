//! What the words of the pool mean: the sealed logs, the index, what is held at a key, the pool's map; the form of plans; and the
//! laws that the proofs above cite.
#![tactic(auto)]

mod holdings;
mod indexes;
pub mod laws;
mod logs;
mod maps;

pub use holdings::{Held, Holder, holder_named, is_authority_of, last_unmerged, sealed_at};
pub use logs::Placed;
pub use maps::{MapFault, pool_map};

#[cfg(test)]
mod tests;
