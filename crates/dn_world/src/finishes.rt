//! Why a world isn't finished.

ghost use Rattle.std.specs.Prelude.{◌≡◌};
ghost use Rattle.dn_world.specs.Finishes.{fault_by};

use dn_drain::DrainFault;
use thiserror::Error;

/// Why a world isn't finished: not all that its lanes have sealed is merged.
#[derive(Clone, Copy, Debug, PartialEq, Eq, Error)]
pub enum FinishFault {
    /// An access of the pool failed: that action was done or not done.
    #[error("an access of the pool failed")]
    Pool,
    /// The index has no bucket left for a record's key. `counter` is the overflow counter that was found, at least 4,096.
    #[error("the index is full: {counter} overflow buckets were asked for")]
    IndexFull { counter: u64 },
    /// Want of memory. Nothing is changed.
    #[error("out of memory")]
    OutOfMemory,
}

/// Why a world isn't finished one of whose lanes isn't drained.
pub fn fault_by(fault: DrainFault) -> FinishFault
    ensures { result ≡ fault_by fault }
{
    match fault {
        DrainFault::Pool => FinishFault::Pool,
        DrainFault::IndexFull { counter } => FinishFault::IndexFull { counter },
    }
}
