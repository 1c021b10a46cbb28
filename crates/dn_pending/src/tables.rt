ghost use Rattle.std.specs.Prelude.{◌≡◌, ◌<◌, ◌≤◌, ◌-◌, ◌∷◌, ◌++◌, [], ℕ, All, Contains, IfOk, IfErr, IfSome, IsSomeAnd};
ghost use Rattle.dn_pending.specs.Entries.{last_of, kept_from, IsRising};

use crate::entries::Entry;
use crate::queues::Queue;
use crate::segments::{Segment, below, emptied, last_in, note};
use dn_word::OutOfMemory;
use std::alloc::Global;
use std::marker::Model;

/// The most records that one call of a node adds to its log, beside which no other call adds any.
const CALL_RECORDS: usize = 2;

/// The pending table of one lane: the place of each record that is sealed and isn't merged yet, by key.
///
/// Contracts see the list of entries, each with its key and its place, in the order in which they were added, which is
/// that of their places; and how many more are sure of their room, the spare. Places are offsets in the lane's log, in
/// words. `new` and `reserve` take memory; no other call does.
#[derive(Drop)]
pub struct Pending {
    entries: Queue<Entry>,
    segments: Queue<Segment>,
    spare: usize,
}

impl Model for Pending {
    ghost use Rattle.std.specs.Prelude.{◌≤◌};
    ghost use Rattle.dn_pending.specs.Table.{Table};
    ghost use Rattle.dn_pending.specs.Segments.{IsFit};

    ghost Value = { Table };

    ghost view = { λ p. record { entries = p.entries.items; spare = p.spare } };

    ghost invariant = { λ p.
        IsFit p.segments.items p.entries.items ×
        (p.spare ≤ 2) ×
        (p.spare ≤ p.entries.room) ×
        (p.spare ≤ p.segments.room) };
}

impl Pending {
    /// An empty table with a spare of 2, or want of memory.
    pub fn new(alloc: Global) -> Result<Pending, OutOfMemory>
        ensures { IfOk result (λ table. table ≡ record { entries = []; spare = 2 }) }
    {
        let mut table = Pending {
            entries: Queue::new(alloc),
            segments: Queue::new(alloc),
            spare: 0,
        };
        table.reserve()?;
        Ok(table)
    }

    /// Makes the spare 2, which is never less than it was: one call of a node adds at most two records. After want of
    /// memory the table is as it was.
    pub fn reserve(&mut self) -> Result<(), OutOfMemory>
        ensures ok { IfOk result (λ _. self.new ≡ record self.old { spare = 2 }) }
        ensures grows { self.old.spare ≤ self.new.spare }
        ensures err { IfErr result (λ _. self.new ≡ self.old) }
    {
        self.entries.reserve(CALL_RECORDS)?;
        self.segments.reserve(CALL_RECORDS)?;
        self.spare = CALL_RECORDS;
        Ok(())
    }

    /// Adds a record that was sealed: its key, and its place, which is past the place of each entry. It takes one of the
    /// spare, of which there is at least 1, and no memory.
    pub fn add(&mut self, key: u64, at: u32)
        requires spare { 1 ≤ self.old.spare }
        requires past { All (λ (e : Entry). e.at < at) self.old.entries }
        ensures entries { self.new.entries ≡
            self.old.entries ++ record { key = key; at = at } ∷ [] }
        ensures spare { self.new.spare ≡ self.old.spare - 1 }
    {
        note(&mut self.segments, key, at);
        self.entries.push(Entry { key, at });
        self.spare -= 1;
    }

    /// The place of the key's last entry, which is the greatest; none where no entry has the key. It takes no memory.
    ///
    /// It walks from the newest segment of the log to the oldest, and passes over those whose Bloom filter denies the
    /// key.
    pub fn last(&self, key: u64) -> Option<u32>
        ensures value { result ≡ last_of key self.now.entries }
        ensures held { IfSome result (λ at.
            Contains self.now.entries (record { key = key; at = at })) }
        ensures greatest { (at : ℕ) →
            Contains self.now.entries (record { key = key; at = at }) →
            IsSomeAnd result (λ last. at ≤ last) }
        ensures rising { IsRising self.now.entries }
    {
        last_in(self.segments.as_slice(), self.entries.as_slice(), key)
    }

    /// Drops the entries whose place is below the mark; those at the mark and past it stay, and so does the spare. It takes
    /// no memory, and costs, over all, what it drops.
    pub fn drop_below(&mut self, mark: u32)
        ensures { self.new ≡ record self.old { entries = kept_from mark self.old.entries } }
    {
        let merged = below(self.entries.as_slice(), mark);
        self.entries.drop_front(merged);
        let passed = emptied(self.segments.as_slice(), self.entries.as_slice(), mark);
        self.segments.drop_front(passed);
    }
}
