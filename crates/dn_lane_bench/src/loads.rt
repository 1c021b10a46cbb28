//! What is played: which calls, over which pool, and how often.

ghost use Rattle.std.specs.Prelude.{◌≢◌, ◌≤◌, IfOk};
ghost use Rattle.dn_hist.specs.Calls.{key_of};

use dn_hist::Call;
use dn_word::{MAX_BYTES, Value, ValueFault};
use std::alloc::Global;

/// How many keys the calls are on, one after the other; they are numbered from 1.
const KEYS: u32 = 100;

/// How long the values are that are put.
#[derive(Clone, Copy)]
pub enum Size {
    /// 8 bytes, so that a record has 3 words.
    Small,
    /// 1,024 bytes, so that a record has 130 words.
    Large,
}

/// What is played. A round is over when the log is full, and each begins with a pool of zeros.
#[derive(Clone, Copy)]
pub struct Load {
    /// The size of the values.
    pub size: Size,
    /// Whether the keys that a hundred calls have put are read by the hundred calls behind them; else all calls put.
    pub gets: bool,
    /// How many segments the pool has.
    pub segments: u32,
    /// How many rounds are played.
    pub rounds: u32,
    ghost in_pool: { segments ≤ 8192 },
}

/// A value that begins with a number.
fn value(alloc: Global, size: Size, number: u32) -> Result<Value, ValueFault> {
    let number = u64::from(number).to_le_bytes();
    match size {
        Size::Small => Value::from_bytes(alloc, &number),
        Size::Large => {
            let mut bytes = [b'='; MAX_BYTES];
            bytes[..8].copy_from_slice(&number);
            Value::from_bytes(alloc, &bytes)
        }
    }
}

impl Load {
    /// The call with this number from 0, or want of memory.
    pub fn call(&self, alloc: Global, number: u32) -> Result<Call, ValueFault>
        ensures { IfOk result (λ call. key_of call ≢ 0) }
    {
        let key = u64::from(number % KEYS) + 1;
        if self.gets && number / KEYS % 2 == 1 {
            return Ok(Call::Get { key });
        }
        let value = value(alloc, self.size, number)?;
        Ok(Call::Put { key, value })
    }
}
