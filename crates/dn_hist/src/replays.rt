//! A list of receipts, judged by a plain map that starts empty.

ghost use Rattle.std.specs.Prelude.{◌≡◌, ℕ, IfOk, IfErr, IsOkUnless};
ghost use Rattle.dn_hist.specs.Replay.{IsLegal, map_left, Explains};

use crate::plain_map::PlainMap;
use crate::receipts::Receipt;
use std::alloc::Global;
use thiserror::Error;

/// Why a list of receipts has no map.
#[derive(Debug, Drop, Error)]
pub enum ReplayFault {
    /// The receipt at this place of the list (from 0) is the first whose reply isn't the plain map's.
    #[error("the reply at place {place} isn't the plain map's")]
    Differs { place: u64 },
    /// Want of memory.
    #[error("out of memory")]
    OutOfMemory,
}

/// The plain map after the calls in the order of the list. It starts empty, and each reply is compared with the map's before
/// the call changes the map.
pub fn replay(alloc: Global, receipts: &[Receipt]) -> Result<PlainMap, ReplayFault>
    ensures legal { IfOk result (λ _. IsLegal receipts.now) }
    ensures accepts { IsLegal receipts.now → IsOkUnless result ReplayFault.OutOfMemory }
    ensures map { IfOk result (λ map. map ≡ map_left receipts.now) }
    ensures fault { IfErr result (Explains receipts.now) }
{
    let mut map = PlainMap::new(alloc);
    for (place, receipt) in receipts.iter().enumerate() {
        if !map.gives(&receipt.call, &receipt.reply) {
            return Err(ReplayFault::Differs {
                place: place as u64,
            });
        }
        if map.apply(alloc, &receipt.call).is_err() {
            return Err(ReplayFault::OutOfMemory);
        }
    }
    Ok(map)
}
