use std::alloc::AllocError;
use thiserror::Error;

/// An access of the pool failed: its action was done or not done, and nobody says which.
#[derive(Clone, Copy, Debug, PartialEq, Eq, Error)]
#[error("an access of the pool failed")]
pub struct Failed;

/// Want of memory.
#[derive(Clone, Copy, Debug, PartialEq, Eq, Error)]
#[error("out of memory")]
pub struct OutOfMemory;

impl From<AllocError> for OutOfMemory {
    fn from(_: AllocError) -> OutOfMemory {
        OutOfMemory
    }
}
