//! Which calls are made.

ghost use Rattle.std.specs.Prelude.{IfOk};
ghost use Rattle.dn_lanes.specs.Calls.{IsCall};

use dn_hist::Call;
use dn_word::{Value, ValueFault, hash};
use std::alloc::Global;

/// How many keys the calls are on; they are numbered from 1.
const KEYS: u64 = 10_000;

/// The call with this number from 0. The hash of the number picks it: its lowest bit whether it puts a value of 8 bytes or
/// gets, its upper half the key. Answers want of memory, or the call.
pub fn call(alloc: Global, number: u32) -> Result<Call, ValueFault>
    ensures { IfOk result IsCall }
{
    let picked = hash(u64::from(number));
    let key = (picked >> 32) % KEYS + 1;
    if picked % 2 == 1 {
        return Ok(Call::Get { key });
    }
    let value = Value::from_bytes(alloc, &u64::from(number).to_le_bytes())?;
    Ok(Call::Put { key, value })
}
