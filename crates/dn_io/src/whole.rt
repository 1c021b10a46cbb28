ghost use Rattle.std.specs.Prelude.{◌≡◌, ◌≢◌, ◌<◌, ◌≤◌, ◌+◌, ◌-◌, ◌^◌, ◌++◌, ℕ, List, Option, Some, length, min, vec_len, IfOk, IfErr, OnErr, OnOk, IsErrOf};
ghost use Rattle.std.specs.Io.KnownBytes.{Consumes, Appends, IsAtEnd};
ghost use Rattle.dn_io.specs.Rose.{Rose};
ghost use Rattle.dn_io.specs.Whole.{TookFront, WroteFront, EndsReading};

use crate::faults::{Failed, ReadAllFault};
use crate::streams::{Sink, Source};
use std::alloc::Global;

/// The bytes that one read asks for.
const PIECE: usize = 65_536;

/// The bytes of the source up to its end, of which there may be `limit`.
///
/// `Long` comes exactly where more than `limit` bytes come; then `limit + 1` of them were taken. `Read` comes only where
/// the source's count of faults rose in this call, and else no read has failed. After any refusal the source has lost a front of its bytes, at most
/// `limit + 1` of them.
pub fn read_all<S: Source>(
    alloc: Global,
    source: &mut S,
    limit: u64,
) -> Result<Vec<u8>, ReadAllFault>
    ensures all { IfOk result (λ bytes. Consumes (S.left source.old) (S.left source.new)
        bytes.items) }
    ensures end { OnOk result (IsAtEnd (S.left source.new)) }
    ensures whole { IfOk result (λ bytes. (left : List ℕ) → S.left source.old ≡ Some left
        → bytes.items ≡ left) }
    ensures short { IfOk result (λ bytes. vec_len bytes ≤ limit) }
    ensures refused { IfErr result (λ fault. TookFront (S.left source.old) (S.left source.new)
        (EndsReading fault limit)) }
    ensures long { IsErrOf result ReadAllFault.Long → (left : List ℕ)
        → S.left source.old ≡ Some left → limit < length left }
    ensures cause { IsErrOf result ReadAllFault.Read
        → Rose (S.faults source.old) (S.faults source.new) }
    ensures no_fault { OnOk result (S.faults source.new ≡ S.faults source.old) }
    ensures long_no_fault { IsErrOf result ReadAllFault.Long
        → S.faults source.new ≡ S.faults source.old }
    ensures want_no_fault { IsErrOf result ReadAllFault.OutOfMemory
        → S.faults source.new ≡ S.faults source.old }
    ensures faults { S.faults source.old ≤ S.faults source.new }
{
    let mut bytes = Vec::new(alloc);
    let mut piece = [0u8; PIECE];
    while bytes.len() as u64 <= limit {
        let room = room_for(limit - bytes.len() as u64);
        let Ok(count) = source.read(&mut piece[..room]) else {
            return Err(ReadAllFault::Read);
        };
        if count == 0 {
            return Ok(bytes);
        }
        if bytes.extend_from_slice(&piece[..count]).is_err() {
            return Err(ReadAllFault::OutOfMemory);
        }
    }
    Err(ReadAllFault::Long)
}

/// How many bytes to ask for where so many are still allowed: those and one more, as far as the piece reaches.
fn room_for(allowed: u64) -> usize
    ensures { result ≡ min (allowed + 1) 65536 }
{
    allowed.min(PIECE as u64 - 1) as usize + 1
}

/// Writes all the bytes to the sink.
///
/// `Failed` comes only where the sink's count of faults rose in this call; then a front of the bytes was written, and not
/// all of them.
pub fn write_all<K: Sink>(sink: &mut K, bytes: &[u8]) -> Result<(), Failed>
    ensures ok { OnOk result (Appends (K.written sink.old) (K.written sink.new) bytes.now) }
    ensures part { OnErr result (WroteFront (K.written sink.old) (K.written sink.new) bytes.now) }
    ensures cause { OnErr result (Rose (K.faults sink.old) (K.faults sink.new)) }
    ensures no_fault { OnOk result (K.faults sink.new ≡ K.faults sink.old) }
    ensures faults { K.faults sink.old ≤ K.faults sink.new }
{
    let mut done = 0;
    while done < bytes.len() {
        done += sink.write(&bytes[done..])?;
    }
    Ok(())
}
