//! What the pool holds at a key, read from the words, the logs and the overflow buckets of the key's home.

ghost use Rattle.std.specs.Prelude.{◌≡◌, ◌<◌, ◌^◌, ◌&&◌, ℕ, nat_le, if◌then◌else◌, Some, All};
ghost use Rattle.std.specs.Option.{option_copied};
ghost use Rattle.dn_model.specs.Regions.{mark, owner, cell};
ghost use Rattle.dn_model.specs.Index.{index};
ghost use Rattle.dn_model.specs.Held.{is_authority, is_holder, unmerged, entry_at, record_at as record_at_of, named as named_of, holder_by as holder_by_of, holder_from, value_in as value_in_of, indexed};
ghost use Rattle.dn_model.specs.Told.{told, told_holder, logs_of, held_with};

use crate::indexes::place_of;
use crate::logs::{Placed, word};
use dn_record::Record;
use dn_word::regions::{cell_at, deed_at, mark_at};
use dn_word::{Deed, List, Ref, Value, slot_of};

/// What is held at a key.
pub enum Held<'a> {
    /// The words lead astray: the index to no authority record of the key, or a place to no value of it.
    Astray,
    /// Nothing.
    Nothing,
    /// This value.
    Is(&'a Value),
}

/// Which record holds the value of a key, or says that it has none.
pub enum Holder<'a> {
    /// The words lead astray.
    Astray,
    /// No record does.
    Nobody,
    /// This record.
    Is(&'a Record),
}

impl<'a> Holder<'a> {
    /// The value that the record has.
    pub fn held(self) -> Held<'a>
        ensures { told result ≡ value_in_of (told_holder self.entry) }
    {
        match self {
            Holder::Astray => Held::Astray,
            Holder::Nobody => Held::Nothing,
            Holder::Is(Record::Put { value, .. }) => Held::Is(value),
            Holder::Is(Record::Loose { value, .. }) => Held::Is(value),
            Holder::Is(_) => Held::Nothing,
        }
    }
}

/// Whether a record is an authority record of the key: one that says where its value is from then on.
pub fn is_authority_of(entry: &Record, key: u64) -> bool
    ensures { result ≡ is_authority key entry.now }
{
    match entry {
        Record::Put { key: own, .. } => *own == key,
        Record::Delete { key: own } => *own == key,
        Record::Share { key: own, .. } => *own == key,
        Record::Unshare { key: own, .. } => *own == key,
        _ => false,
    }
}

/// The record where it counts, or else the one before it.
fn later<'a>(
    placed: &'a Placed,
    merged: u64,
    key: u64,
    before: Option<&'a Record>,
) -> Option<&'a Record>
    ensures { option_copied result
        ≡ (if nat_le merged placed.now.offset && is_authority key placed.now.entry
        then Some placed.now.entry else option_copied before.entry) }
{
    if merged <= placed.offset as u64 && is_authority_of(&placed.entry, key) {
        Some(&placed.entry)
    } else {
        before
    }
}

/// The last authority record of the key in the part of a log from the merged mark, in words, on.
pub fn last_unmerged(log: &[Placed], merged: u64, key: u64) -> Option<&Record>
    ensures { option_copied result ≡ unmerged key merged log.now }
{
    let mut last = None;
    for placed in log {
        last = later(placed, merged, key, last);
    }
    last
}

/// The record of a log that begins at an offset.
fn entry_in(log: &[Placed], offset: u32) -> Option<&Record>
    ensures { option_copied result ≡ entry_at offset log.now }
{
    for placed in log {
        if placed.offset == offset {
            return Some(&placed.entry);
        }
    }
    None
}

/// The sealed record that a place names, where a record begins there. The logs are in the order of their lanes, from lane 0.
pub fn sealed_at(logs: &[List<Placed>], at: Option<Ref>) -> Option<&Record>
    ensures { option_copied result ≡ record_at_of (logs_of logs.now) at }
{
    match at {
        None => None,
        Some(at) => match logs.get(at.lane as usize) {
            None => None,
            Some(log) => entry_in(log.as_slice(), at.offset),
        },
    }
}

/// Whether a record is one of the key that has its value, or says that it has none.
fn is_holder_of(entry: &Record, key: u64) -> bool
    ensures { result ≡ is_holder key entry.now }
{
    match entry {
        Record::Put { key: own, .. } | Record::Loose { key: own, .. } => *own == key,
        Record::Delete { key: own } | Record::LooseDelete { key: own } => *own == key,
        _ => false,
    }
}

/// The record that a place names as the holder of the key's value: a record of the key that has its value or says that it
/// has none. No place names nobody.
pub fn holder_named(logs: &[List<Placed>], key: u64, at: Option<Ref>) -> Holder<'_>
    ensures { told_holder result ≡ named_of (logs_of logs.now) key at }
{
    match at {
        None => Holder::Nobody,
        Some(_) => match sealed_at(logs, at) {
            None => Holder::Astray,
            Some(entry) => {
                if is_holder_of(entry, key) {
                    Holder::Is(entry)
                } else {
                    Holder::Astray
                }
            }
        },
    }
}

/// The holder that an authority record gives the key.
fn holder_by<'a>(words: &[u64], logs: &'a [List<Placed>], key: u64, entry: &'a Record) -> Holder<'a>
    ensures { told_holder result ≡ holder_by_of (cell words.now)
        (logs_of logs.now) key entry.now }
{
    match entry {
        Record::Put { .. } | Record::Delete { .. } => Holder::Is(entry),
        Record::Share { cell, opening, .. } => {
            let word = word(words, cell_at(*cell) as u64);
            let word = if word == 0 { *opening } else { word };
            holder_named(logs, key, Ref::read(word))
        }
        Record::Unshare { at, .. } => holder_named(logs, key, *at),
        _ => Holder::Astray,
    }
}

/// The last unmerged authority record of the key in its owner's log: that of the lane that the deed of its slot names.
fn pending<'a>(words: &[u64], logs: &'a [List<Placed>], key: u64) -> Option<&'a Record>
    ensures { option_copied result ≡ unmerged key (mark words.now (owner words.now key))
        (logs_of logs.now (owner words.now key)) }
{
    let lane = Deed::read(word(words, deed_at(slot_of(key)) as u64)).lane;
    match logs.get(lane as usize) {
        None => None,
        Some(log) => last_unmerged(log.as_slice(), word(words, 128 + lane as u64), key),
    }
}

/// The holder by the index's place word.
fn holder_by_index<'a>(
    words: &[u64],
    logs: &'a [List<Placed>],
    key: u64,
    place: Option<u64>,
) -> Holder<'a>
    ensures { told_holder result ≡ holder_from (cell words.now) (logs_of logs.now) key
        (indexed (logs_of logs.now) key place) }
{
    match place {
        None => Holder::Nobody,
        Some(place) => match sealed_at(logs, Ref::read(place)) {
            None => Holder::Astray,
            Some(entry) => {
                if is_authority_of(entry, key) {
                    holder_by(words, logs, key, entry)
                } else {
                    Holder::Astray
                }
            }
        },
    }
}

/// What the pool holds at a key, where these are the overflow buckets of its home.
pub(crate) fn held_at<'a>(
    words: &[u64],
    logs: &'a [List<Placed>],
    overflow: &[u32],
    key: u64,
) -> Held<'a>
    requires { All (λ b. b < 8192) overflow.now }
    ensures { told result ≡ held_with words.now (logs_of logs.now) overflow.now key }
{
    let holder = match pending(words, logs, key) {
        Some(entry) => holder_by(words, logs, key, entry),
        None => holder_by_index(words, logs, key, place_of(words, overflow, key)),
    };
    holder.held()
}
