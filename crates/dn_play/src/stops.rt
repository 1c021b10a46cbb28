use thiserror::Error;

/// Why a play stops before its script has ended.
#[derive(Clone, Copy, Debug, PartialEq, Eq, Error)]
pub enum Stop {
    /// The script has more than 2^22 events, those of the opening among them.
    #[error("there are more than 4,194,304 events")]
    Long,
    /// An access to the pool failed: that action was done or not done.
    #[error("an access to the pool failed")]
    Pool,
    /// Want of memory.
    #[error("out of memory")]
    OutOfMemory,
}
