//! What a session asks of the store, and what it is answered.

ghost use Rattle.std.specs.Prelude.{◌≡◌, IfOk};

use dn_word::{OutOfMemory, Value};
use std::alloc::Global;

/// A call on one key. A key is any number but 0.
#[derive(Drop)]
pub enum Call {
    /// Asks for the key's value.
    Get { key: u64 },
    /// Gives the key this value, in place of the one it has.
    Put { key: u64, value: Value },
    /// Takes the key's value away.
    Delete { key: u64 },
}

/// What a call is answered.
#[derive(Drop)]
pub enum Reply {
    /// To a get: the key's value.
    Value(Value),
    /// To a get: the key has no value.
    Absent,
    /// To a put.
    Stored,
    /// To a delete, whether or not the key had a value.
    Deleted,
}

impl Call {
    /// The same call once more. Only the value of a put takes memory.
    pub fn copy(&self, alloc: Global) -> Result<Call, OutOfMemory>
        ensures { IfOk result (λ call. call ≡ self.now) }
    {
        match self {
            Call::Get { key } => Ok(Call::Get { key: *key }),
            Call::Put { key, value } => Ok(Call::Put {
                key: *key,
                value: value.copy(alloc)?,
            }),
            Call::Delete { key } => Ok(Call::Delete { key: *key }),
        }
    }
}
