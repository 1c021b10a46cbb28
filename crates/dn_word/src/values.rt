ghost use Rattle.std.specs.Prelude.{◌≡◌, ◌<◌, ◌≤◌, length, IfOk, vec_len, IsErrOf, IsOkUnless};

use std::alloc::{AllocError, AllocFailed, Global};
use std::marker::Model;
use thiserror::Error;

/// Want of memory. Nothing else was refused, and nothing was changed.
#[derive(Clone, Copy, Debug, PartialEq, Eq, Drop, Error)]
#[error("out of memory")]
pub struct OutOfMemory;

impl From<AllocError> for OutOfMemory {
    fn from(_: AllocError) -> OutOfMemory {
        OutOfMemory
    }
}

impl<T: Drop> From<AllocFailed<T>> for OutOfMemory {
    fn from(_: AllocFailed<T>) -> OutOfMemory {
        OutOfMemory
    }
}

/// Why no value was made of bytes.
#[derive(Debug, Drop, Error)]
pub enum ValueFault {
    /// There are this many bytes, more than [`MAX_BYTES`].
    #[error("a value of {bytes} bytes is too long")]
    Long { bytes: u64 },
    /// Want of memory.
    #[error("out of memory")]
    OutOfMemory,
}

impl From<AllocError> for ValueFault {
    ghost use Rattle.dn_word.specs.declared.values.ValueFault.TheVariants as fault;

    ghost from_gives = { λ _ e. e ≡ fault.OutOfMemory };

    fn from(_: AllocError) -> ValueFault {
        ValueFault::OutOfMemory
    }
}

/// The most bytes of a value.
pub const MAX_BYTES: usize = 1024;

/// A value: 0 to 1,024 bytes, which contracts see as the list of these.
#[derive(Drop)]
pub struct Value {
    bytes: Vec<u8>,
}

impl Model for Value {
    ghost use Rattle.std.specs.Prelude.{List, ℕ, ◌≤◌, vec_len};

    ghost Value = { List ℕ };

    ghost view = { λ value. value.bytes.items };

    ghost invariant = { λ value. vec_len value.bytes ≤ 1024 };
}

impl Value {
    /// The value with these bytes: `Long` exactly where there are more than [`MAX_BYTES`], else a copy of them unless memory
    /// is wanting.
    pub fn from_bytes(alloc: Global, bytes: &[u8]) -> Result<Value, ValueFault>
        ensures ok { IfOk result (λ value. value ≡ bytes.now) }
        ensures long { 1024 < length bytes.now
            → IsErrOf result (ValueFault.Long (length bytes.now)) }
        ensures short { length bytes.now ≤ 1024 → IsOkUnless result ValueFault.OutOfMemory }
    {
        if bytes.len() > MAX_BYTES {
            return Err(ValueFault::Long {
                bytes: bytes.len() as u64,
            });
        }
        let bytes = Vec::from_slice(alloc, bytes)?;
        Ok(Value { bytes })
    }

    /// The value with these bytes, of which there are at most [`MAX_BYTES`].
    pub(crate) fn of(bytes: Vec<u8>) -> Value
        requires { vec_len bytes ≤ 1024 }
        ensures { result ≡ bytes.items }
    {
        Value { bytes }
    }

    /// Another value with the same bytes.
    pub fn copy(&self, alloc: Global) -> Result<Value, OutOfMemory>
        ensures { IfOk result (λ value. value ≡ self.now) }
    {
        let bytes = Vec::from_slice(alloc, self.bytes.as_slice())?;
        Ok(Value { bytes })
    }

    /// Lends the bytes.
    pub fn as_bytes(&self) -> &[u8]
        ensures value { result.now ≡ self.now }
        ensures short { length result.now ≤ 1024 }
    {
        self.bytes.as_slice()
    }
}
