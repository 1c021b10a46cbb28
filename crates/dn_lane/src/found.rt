//! What the words of a fetched record say.

ghost use Rattle.std.specs.Prelude.{◌≡◌, ◌<◌, ◌^◌, Some, None, false, if◌then◌else◌};
ghost use Rattle.dn_tend.specs.Fit.{FitsFound};
ghost use Rattle.dn_lane.specs.Asked.{SameAsked};
ghost use Rattle.dn_lane.specs.Found.{value_in, kept_in, linked, said_in};

use crate::asked::Asked;
use dn_record::Head;
use dn_tend::TendFound;
use dn_word::{Ref, ValueRoom};

/// Puts the value that the words of a record hold into the room, where they hold one.
fn read_value(words: &[u64], room: &mut ValueRoom) -> bool
    ensures value { value_in words.now ≡ (if result then Some room.new else None) }
    ensures stays { result ≡ false → room.new ≡ room.old }
{
    if words.is_empty() {
        return false;
    }
    match Head::read(words[0]) {
        Some(Head::Put { bytes } | Head::Loose { bytes })
            if usize::from(bytes) + 8 <= 8 * (words.len() - 1) => {
            room.fill_words(&words[2..], bytes);
            true
        }
        _ => false,
    }
}

/// A call keeps the value that the words of a record hold, where they hold one.
pub fn keep_value(asked: &mut Asked, words: &[u64]) -> bool
    ensures value { result ≡ (kept_in asked.old (value_in words.now)).held }
    ensures asked { asked.new ≡ (kept_in asked.old (value_in words.now)).asked }
    ensures same { SameAsked asked.old asked.new }
{
    match asked {
        Asked::Call { room, .. } => read_value(words, room),
        Asked::Nothing | Asked::Task => false,
    }
}

/// The record that the third word of an Unshare names.
fn linked(words: &[u64]) -> TendFound
    ensures value { result ≡ linked words.now }
    ensures fits { FitsFound result }
{
    if words.len() < 3 {
        return TendFound::Nothing;
    }
    match Ref::read(words[2]) {
        Some(at) => TendFound::At(at),
        None => TendFound::Nothing,
    }
}

/// What the words of the record at a place say of its key: where its value stands, or by which cell it is shared.
pub fn said(words: &[u64], place: Ref) -> TendFound
    requires { place.offset < 2 ^ 24 }
    ensures value { result ≡ said_in words.now place }
    ensures fits { FitsFound result }
{
    if words.is_empty() {
        return TendFound::Nothing;
    }
    match Head::read(words[0]) {
        Some(Head::Put { .. }) => TendFound::At(place),
        Some(Head::Unshare) => linked(words),
        Some(Head::Share { cell }) if words.len() >= 3 => TendFound::Shared {
            cell,
            opening: words[2],
        },
        _ => TendFound::Nothing,
    }
}
