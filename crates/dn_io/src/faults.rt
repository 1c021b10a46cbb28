use std::alloc::AllocError;
use thiserror::Error;

/// A read or a write that failed.
#[derive(Clone, Copy, Debug, PartialEq, Eq, Drop, Error)]
#[error("a read or a write failed")]
pub struct Failed;

/// Want of memory.
#[derive(Clone, Copy, Debug, PartialEq, Eq, Drop, Error)]
#[error("out of memory")]
pub struct OutOfMemory;

impl From<AllocError> for OutOfMemory {
    fn from(_: AllocError) -> OutOfMemory {
        OutOfMemory
    }
}

/// Why a source wasn't read to its end.
#[derive(Clone, Copy, Debug, PartialEq, Eq, Drop, Error)]
pub enum ReadAllFault {
    /// A read failed, and the source counted it.
    #[error("a read failed")]
    Read,
    /// More bytes came than the limit allows.
    #[error("the input is too long")]
    Long,
    /// The bytes found no room.
    #[error("out of memory")]
    OutOfMemory,
}
