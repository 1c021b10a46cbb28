ghost use Rattle.std.specs.Prelude.{◌≡◌, ◌≤◌, ◌*◌, [], length, take, IfOk};
ghost use Rattle.dn_word.specs.Bytes.{bytes_of};

use crate::values::{MAX_BYTES, OutOfMemory, Value};
use std::alloc::Global;
use std::marker::Model;

/// Room for the bytes of one value, which contracts see as the list of the bytes that it has now. Only `new` takes memory.
#[derive(Drop)]
pub struct ValueRoom {
    bytes: Vec<u8>,
}

impl Model for ValueRoom {
    ghost use Rattle.std.specs.Prelude.{List, ℕ, ◌≤◌, vec_len, vec_capacity};

    ghost Value = { List ℕ };

    ghost view = { λ room. room.bytes.items };

    ghost invariant = { λ room. (vec_len room.bytes ≤ 1024) × (1024 ≤ vec_capacity room.bytes) };
}

impl ValueRoom {
    /// An empty room.
    pub fn new(alloc: Global) -> Result<ValueRoom, OutOfMemory>
        ensures { IfOk result (λ room. room ≡ []) }
    {
        let bytes = Vec::with_capacity(alloc, MAX_BYTES)?;
        Ok(ValueRoom { bytes })
    }

    /// Makes it these bytes, of which there are at most [`MAX_BYTES`].
    pub fn fill(&mut self, bytes: &[u8])
        requires { length bytes.now ≤ 1024 }
        ensures { self.new ≡ bytes.now }
    {
        self.bytes.clear();
        self.bytes.extend_from_slice(bytes).unwrap();
    }

    /// Makes it the first `bytes` bytes of these words, the least significant byte of each word first. There are at most
    /// [`MAX_BYTES`] of them, and words enough.
    pub fn fill_words(&mut self, words: &[u64], bytes: u16)
        requires bytes { bytes ≤ 1024 }
        requires words { bytes ≤ 8 * length words.now }
        ensures { self.new ≡ take bytes (bytes_of words.now) }
    {
        self.bytes.clear();
        let mut left = bytes as usize;
        for word in words {
            let piece = word.to_le_bytes();
            let count = left.min(8);
            self.bytes.extend_from_slice(&piece[..count]).unwrap();
            left -= count;
        }
    }

    /// Lends the bytes.
    pub fn as_bytes(&self) -> &[u8]
        ensures value { result.now ≡ self.now }
        ensures short { length result.now ≤ 1024 }
    {
        self.bytes.as_slice()
    }

    /// The value with the bytes that the room has. It keeps no room beyond them: they are copied to a place of their size,
    /// so that the whole room is free for the next value, or shrunk where they are if memory for the copy is wanting.
    pub fn into_value(self) -> Value
        ensures { result ≡ self }
    {
        let ValueRoom { mut bytes } = self;
        match bytes.clone() {
            Ok(exact) => Value::of(exact),
            Err(_) => {
                bytes.shrink_to_fit();
                Value::of(bytes)
            }
        }
    }
}
