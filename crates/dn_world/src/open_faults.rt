use thiserror::Error;

/// Why there is no world.
#[derive(Clone, Copy, Debug, PartialEq, Eq, Error)]
pub enum OpenFault {
    /// An access of the pool failed: that action was done or not done.
    #[error("an access of the pool failed")]
    Pool,
    /// Want of memory. No access was tried.
    #[error("out of memory")]
    OutOfMemory,
}
