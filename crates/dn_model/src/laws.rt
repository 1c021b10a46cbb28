//! Laws of the definitions, as functions without work: what each says is its contract.

pub mod histories;
pub mod pools;
