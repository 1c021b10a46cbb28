//! How many keys a history leaves.

ghost use Rattle.std.specs.Prelude.{◌≡◌, map, OnOk, IfOk};
ghost use Rattle.std.specs.FinMap.{len};
ghost use Rattle.dn_callers.specs.Callers.{receipts_of};
ghost use Rattle.dn_hist.specs.Calls.{Bytes, map_after};
ghost use Rattle.dn_hist.specs.Replay.{map_left};
ghost use Rattle.dn_report.specs.Keys.{HasSameKeys};
ghost use Rattle.dn_world.specs.Inside.{stands_as};

use dn_hist::{Call, PlainMap};
use dn_word::{OutOfMemory, Value};
use dn_world::Standing;
use std::alloc::Global;

/// A value without a byte.
fn no_bytes(alloc: Global) -> Result<Value, OutOfMemory> {
    match Value::from_bytes(alloc, &[]) {
        Ok(value) => Ok(value),
        Err(_) => Err(OutOfMemory),
    }
}

/// Changes which keys the map has as the call does, whatever the values are.
fn apply_to_keys(alloc: Global, map: &mut PlainMap, call: &Call) -> Result<(), OutOfMemory>
    ensures { OnOk result ((of : Bytes) → HasSameKeys map.old of
        → HasSameKeys map.new (map_after call.now of)) }
{
    match call {
        Call::Get { .. } => {}
        Call::Put { key, .. } => map.insert(*key, no_bytes(alloc)?)?,
        Call::Delete { key } => map.remove(*key),
    }
    Ok(())
}

/// How many keys the map has that the history leaves. No value is copied for it.
pub fn keys_left(alloc: Global, history: &[Standing]) -> Result<u64, OutOfMemory>
    ensures { IfOk result (λ keys. keys
        ≡ len (map_left (receipts_of (map stands_as history.now)))) }
{
    let mut map = PlainMap::new(alloc);
    for standing in history {
        apply_to_keys(alloc, &mut map, &standing.receipt.call)?;
    }
    Ok(map.len())
}
