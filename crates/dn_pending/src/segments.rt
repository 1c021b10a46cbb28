ghost use Rattle.std.specs.Prelude.{◌≡◌, ◌+◌, ◌-◌, ◌/◌, ◌<◌, ◌≤◌, ◌∷◌, ◌++◌, [], List, All, drop, length, nat_lt, replicate, reverse};
ghost use Rattle.std.specs.List.{prefix_len};
ghost use Rattle.dn_pending.specs.declared.entries.Entry.{Entry};
ghost use Rattle.dn_pending.specs.Entries.{last_of as last_of_list, kept_from};
ghost use Rattle.dn_pending.specs.Filter.{added_to, AreInside};
ghost use Rattle.dn_pending.specs.Segments.{Covers, IsFit};

use crate::entries::{Entry, last_of};
use crate::filters::{Filter, KeyBits};
use crate::queues::Queue;
use dn_word::regions::SEGMENT_WORDS;

/// What is known of the entries whose places lie in one segment of the log.
#[derive(Clone, Copy)]
pub struct Segment {
    /// The segment's number in the lane's log.
    pub number: u32,
    /// How many entries were added, at most 1,024. Of the oldest segment some may be dropped.
    pub count: u32,
    /// The keys that were added.
    pub filter: Filter,
}

impl Segment {
    /// A segment with its first entry, whose key has these bits.
    pub fn first(number: u32, bits: &KeyBits) -> Segment
        requires { AreInside bits.now }
        ensures { result ≡ record {
          number = number;
          count = 1;
          filter = record { words = added_to (replicate 16 0) bits.now };
        } }
    {
        let mut filter = Filter::new();
        filter.add(bits);
        Segment {
            number,
            count: 1,
            filter,
        }
    }

    /// The segment with one more entry, whose key has these bits.
    pub fn with(self, bits: &KeyBits) -> Segment
        requires inside { AreInside bits.now }
        requires room { self.count < 1024 }
        ensures { result ≡ record {
          number = self.number;
          count = self.count + 1;
          filter = record { words = added_to self.filter.words bits.now };
        } }
    {
        let mut filter = self.filter;
        filter.add(bits);
        Segment {
            number: self.number,
            count: self.count + 1,
            filter,
        }
    }
}

/// The number of the segment in which a place lies.
pub fn number_of(at: u32) -> u32
    ensures { result ≡ at / 1024 }
{
    at / SEGMENT_WORDS
}

/// How many entries in front lie below the mark.
pub fn below(entries: &[Entry], mark: u32) -> usize
    ensures { result ≡ prefix_len (λ (e : Entry). nat_lt e.at mark) entries.now }
{
    entries.iter().take_while(|entry| entry.at < mark).count()
}

/// How many segments in front end below the mark.
fn passed(segments: &[Segment], mark: u32) -> usize
    ensures { result ≡ prefix_len (λ (s : Segment). nat_lt s.number (mark / 1024)) segments.now }
{
    let number = number_of(mark);
    segments
        .iter()
        .take_while(|segment| segment.number < number)
        .count()
}

/// How many segments in front have no entry left, where those are left that lie at the mark or past it. The one in which
/// the mark lies may stay without an entry, as long as there are entries past it.
pub fn emptied(segments: &[Segment], left: &[Entry], mark: u32) -> usize
    ensures within { result ≤ length segments.now }
    ensures fit { (entries : List Entry) →
        IsFit segments.now entries →
        left.now ≡ kept_from mark entries →
        IsFit (drop result segments.now) left.now }
{
    if left.is_empty() {
        segments.len()
    } else {
        passed(segments, mark)
    }
}

/// Notes an entry past all others: the newest segment gets it, or, where its place lies in another, a new one.
pub fn note(segments: &mut Queue<Segment>, key: u64, at: u32)
    requires room { 1 ≤ segments.old.room }
    requires fit { (entries : List Entry) ×
        IsFit segments.old.items entries ×
        All (λ (e : Entry). e.at < at) entries }
    ensures room { segments.old.room - 1 ≤ segments.new.room }
    ensures fit { (entries : List Entry) →
        IsFit segments.old.items entries →
        All (λ (e : Entry). e.at < at) entries →
        IsFit segments.new.items (entries ++ record { key = key; at = at } ∷ []) }
{
    let bits = KeyBits::of(key);
    let number = number_of(at);
    match segments.as_slice().split_last() {
        Some((&newest, _)) if newest.number == number => {
            segments.replace_last(newest.with(&bits));
        }
        _ => segments.push(Segment::first(number, &bits)),
    }
}

/// The place of the key's last entry, found by a walk from the newest segment, which passes over those whose filter
/// denies the key.
pub fn last_in(segments: &[Segment], entries: &[Entry], key: u64) -> Option<u32>
    requires { Covers (reverse segments.now) (reverse entries.now) }
    ensures { result ≡ last_of_list key entries.now }
{
    let bits = KeyBits::of(key);
    let mut unseen = segments;
    let mut left = entries;
    while let Some((newest, older)) = unseen.split_last() {
        let (earlier, own) = left.split_at(left.len().saturating_sub(newest.count as usize));
        if newest.filter.may_hold(&bits) {
            let found = last_of(own, key);
            if found.is_some() {
                return found;
            }
        }
        unseen = older;
        left = earlier;
    }
    None
}
