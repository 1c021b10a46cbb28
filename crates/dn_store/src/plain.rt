//! What a store holds at a key, computed plainly.

ghost use Rattle.std.specs.Prelude.{◌≡◌, ◌<◌, ◌^◌, ◌&&◌, ℕ, nat_eq, nat_le, if◌then◌else◌, Some};
ghost use Rattle.std.specs.Option.{option_copied};
ghost use Rattle.dn_model.specs.Told.{told, told_holder};
ghost use Rattle.dn_model.specs.Held.{holder_by as holder_by_of, holder_from, indexed};
ghost use Rattle.dn_store.specs.Holding.{owner_in, waiting as waiting_in, holds};
ghost use Rattle.dn_store.specs.Plain.{place_in, store_of};

use dn_model::{Held, Holder, Placed, holder_named, is_authority_of, last_unmerged, sealed_at};
use dn_record::Record;
use dn_word::{Deed, List, Ref, slot_of};

/// A place of the index: a key, and the place word beside it.
#[derive(Clone, Copy, Debug, PartialEq, Eq)]
pub struct Entry {
    /// The key.
    pub key: u64,
    /// The word of a place, 0 for none.
    pub place: u64,
}

/// The parts of a store that decide what it holds, as lists. What a list doesn't have counts as empty: as a log without
/// records, as 0, as a deed of nobody.
#[derive(Drop)]
pub struct PlainStore {
    /// The sealed logs by the numbers of their lanes, from 0.
    pub logs: List<List<Placed>>,
    /// How many words of each log are merged.
    pub marks: List<u64>,
    /// The deeds by the numbers of their slots.
    pub deeds: List<Deed>,
    /// The index, each key at most once.
    pub index: List<Entry>,
    /// The words of the cells.
    pub cells: List<u64>,
}

/// The place word of the key's first place.
fn place_of(index: &[Entry], key: u64) -> Option<u64>
    ensures { result ≡ place_in key index.now }
{
    for entry in index {
        if entry.key == key {
            return Some(entry.place);
        }
    }
    None
}

impl PlainStore {
    /// The word of a cell.
    fn cell(&self, cell: u8) -> u64
        ensures { result ≡ (store_of self.now).cells cell }
    {
        match self.cells.as_slice().get(cell as usize) {
            None => 0,
            Some(word) => *word,
        }
    }

    /// The holder that an authority record gives the key.
    fn holder_by<'a>(&'a self, key: u64, entry: &'a Record) -> Holder<'a>
        ensures { told_holder result ≡ holder_by_of (store_of self.now).cells
            (store_of self.now).logs key entry.now }
    {
        match entry {
            Record::Put { .. } | Record::Delete { .. } => Holder::Is(entry),
            Record::Share { cell, opening, .. } => {
                let word = self.cell(*cell);
                let word = if word == 0 { *opening } else { word };
                holder_named(self.logs.as_slice(), key, Ref::read(word))
            }
            Record::Unshare { at, .. } => holder_named(self.logs.as_slice(), key, *at),
            _ => Holder::Astray,
        }
    }

    /// The lane that owns the key, or 0.
    fn owner(&self, key: u64) -> u8
        ensures { result ≡ owner_in (store_of self.now) key }
    {
        match self.deeds.as_slice().get(slot_of(key) as usize) {
            None => 0,
            Some(deed) => deed.lane,
        }
    }

    /// The last authority record of the key in its owner's log that isn't merged.
    fn waiting(&self, key: u64) -> Option<&Record>
        ensures { option_copied result
            ≡ waiting_in (store_of self.now) (owner_in (store_of self.now) key) key }
    {
        let lane = self.owner(key) as usize;
        let merged = match self.marks.as_slice().get(lane) {
            None => 0,
            Some(mark) => *mark,
        };
        match self.logs.as_slice().get(lane) {
            None => None,
            Some(log) => last_unmerged(log.as_slice(), merged, key),
        }
    }

    /// The holder where the index gives this place word for the key.
    fn holder_by_index(&self, key: u64, place: Option<u64>) -> Holder<'_>
        ensures { told_holder result ≡ holder_from (store_of self.now).cells
            (store_of self.now).logs key (indexed (store_of self.now).logs key place) }
    {
        match place {
            None => Holder::Nobody,
            Some(place) => match sealed_at(self.logs.as_slice(), Ref::read(place)) {
                None => Holder::Astray,
                Some(entry) => {
                    if is_authority_of(entry, key) {
                        self.holder_by(key, entry)
                    } else {
                        Holder::Astray
                    }
                }
            },
        }
    }

    /// What the store holds at a key, by the definition and nothing faster: the record that waits in its owner's log
    /// says it, or else the one to which the index leads.
    pub fn held(&self, key: u64) -> Held<'_>
        ensures { told result ≡ holds (store_of self.now) key }
    {
        let holder = match self.waiting(key) {
            Some(entry) => self.holder_by(key, entry),
            None => self.holder_by_index(key, place_of(self.index.as_slice(), key)),
        };
        holder.held()
    }
}
