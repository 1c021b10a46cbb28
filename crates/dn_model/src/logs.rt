//! The sealed log of a lane, read from the words.

ghost use Rattle.std.specs.Prelude.{◌≡◌, ◌↔◌, IsTrue, ◌<◌, ◌+◌, ◌-◌, ◌%◌, ◌^◌, ℕ, Some, IfOk, IfSome, IfNone};
ghost use Rattle.dn_act.specs.Words.{word_at};
ghost use Rattle.dn_model.specs.Log.{SpellsAt, IsLog, NoLog, PadFits};
ghost use Rattle.dn_model.specs.Regions.{directory, place, offsets};
ghost use Rattle.dn_model.specs.Pieces.{reads};
ghost use Rattle.dn_record.specs.declared.records.Record.{Record as RecordOf};
ghost use Rattle.dn_model.specs.declared.logs.Placed.{Placed as PlacedOf};

use dn_record::{Record, read, words_of};
use dn_word::regions::{SEGMENTS_AT, directory_at, gate_at};
use dn_word::{Gate, List, OutOfMemory};
use std::alloc::Global;

/// A record of a lane's log, with the offset in words at which it begins.
#[derive(Drop)]
pub struct Placed {
    /// Where it begins in the log, in words.
    pub offset: u32,
    /// The record.
    pub entry: Record,
}

/// The word at a place of the pool, and 0 past its end.
pub(crate) fn word(words: &[u64], at: u64) -> u64
    ensures { result ≡ word_at words.now at }
{
    match words.get(at as usize) {
        None => 0,
        Some(word) => *word,
    }
}

/// The word at an offset of a lane, through its directory.
fn word_of(words: &[u64], lane: u8, offset: u32) -> u64
    requires lane { lane < 64 }
    requires offset { offset < 262144 }
    ensures { result ≡ offsets words.now lane offset }
{
    let segment = word(words, directory_at(lane, offset / 1024) as u64);
    if segment < 0x20_0000_0000_0000 {
        word(
            words,
            SEGMENTS_AT as u64 - 1024 + (segment * 1024 + offset as u64 % 1024),
        )
    } else {
        0
    }
}

/// So many words of a lane from an offset on.
fn piece(
    alloc: Global,
    words: &[u64],
    lane: u8,
    offset: u32,
    count: u32,
) -> Result<Vec<u64>, OutOfMemory>
    requires lane { lane < 64 }
    requires within { offset + count < 262145 }
    ensures { IfOk result (λ piece. piece.items ≡ reads (offsets words.now lane) offset count) }
{
    let mut piece = Vec::new(alloc);
    for i in 0..count {
        piece.push(word_of(words, lane, offset + i))?;
    }
    Ok(piece)
}

/// Whether a pad ends where its segment does. The other records are within it as soon as their words are.
fn reaches(entry: &Record, offset: u32) -> bool
    ensures { IsTrue result ↔ PadFits offset entry.now }
{
    match entry {
        Record::Pad { words } => offset % 1024 + *words as u32 == 1024,
        _ => true,
    }
}

/// The record that stands at an offset of a lane within the segment, or None where none does.
fn record_of(
    alloc: Global,
    words: &[u64],
    lane: u8,
    offset: u32,
) -> Result<Option<Record>, OutOfMemory>
    requires lane { lane < 64 }
    requires offset { offset < 262144 }
    ensures found { IfOk result (λ found. (r : RecordOf)
        → SpellsAt (offsets words.now lane) offset r → found ≡ Some r) }
    ensures only { IfOk result (λ found. IfSome found
        (λ r. SpellsAt (offsets words.now lane) offset r)) }
{
    let rest = piece(alloc, words, lane, offset, 1024 - offset % 1024)?;
    match read(alloc, rest.as_slice())? {
        Some(entry) => {
            if reaches(&entry, offset) {
                Ok(Some(entry))
            } else {
                Ok(None)
            }
        }
        None => Ok(None),
    }
}

/// The sealed log of a lane, or None where the gate's length isn't tiled by records.
pub(crate) fn log_of(
    alloc: Global,
    words: &[u64],
    lane: u8,
) -> Result<Option<List<Placed>>, OutOfMemory>
    requires lane { lane < 64 }
    ensures found { IfOk result (λ found. IfSome found (λ log. IsLog words.now lane log)) }
    ensures none { IfOk result (λ found. IfNone found (NoLog words.now lane)) }
{
    let len = Gate::read(word(words, gate_at(lane) as u64)).len;
    let mut log = Vec::new(alloc);
    let mut offset = 0u32;
    while offset < len {
        if offset >= 262144 || word(words, directory_at(lane, offset / 1024) as u64) == 0 {
            return Ok(None);
        }
        let entry = match record_of(alloc, words, lane, offset)? {
            Some(entry) => entry,
            None => return Ok(None),
        };
        let next = offset + words_of(&entry) as u32;
        log.push(Placed { offset, entry })?;
        offset = next;
    }
    if offset == len {
        Ok(Some(List::of(log)))
    } else {
        Ok(None)
    }
}
