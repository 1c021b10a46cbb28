ghost use Rattle.std.specs.Prelude.{◌≡◌, ◌≢◌, ◌<◌, ◌≤◌, ◌^◌, ℕ};
ghost use Rattle.dn_word.specs.Ref.{ref_word};
ghost use Rattle.dn_model.specs.Regions.{bucket_at, home_of};
ghost use Rattle.dn_index.specs.Walk.{begun, key_at, place_at, met_action, walk_next, walk_turn, walk_after, actions_left, IsSpot, IsErrand, IsFull};
ghost use Rattle.dn_index.specs.Footprint.{purpose, Footprint};
ghost use Rattle.dn_index.specs.Sequence.{Walks, find_program, set_program, remove_program};

use crate::places::{Errand, Spot, Step, Trail, WalkPlace, WalkTurn};
use crate::steps::after;
use dn_act::Action;
use dn_word::regions::OVERFLOW_COUNTER_AT;
use dn_word::{Ref, bucket_of};
use std::marker::Model;

/// The buckets of a chain behind its home bucket, at most.
const CHAIN: u16 = 4096;

/// The word that names the next bucket of the chain.
const NEXT: u8 = 7;

/// A walk along the bucket chain of a key, an action at a time. As in P-CLHT a bucket has three keys and three places, and names
/// the next one; a walk goes from the home bucket on, over at most 4,097 buckets. Where the last of so many names another
/// bucket, it is taken for the chain's end.
///
/// - To find a key, its place word is loaded where its key word was met.
/// - To set a key, its place word is stored where its key word was met. Else place word and then key word are stored, in the first
///   free place of the chain, or in an overflow bucket that is claimed and then linked behind the chain's last one.
/// - To remove a key, 0 is stored where its key word was met. The place word stays.
///
/// So a reader meets at each moment the old place of a key or the new one, and all other keys.
#[derive(Clone, Copy)]
pub struct Walk {
    key: u64,
    place: WalkPlace,
}

impl Model for Walk {
    ghost use Rattle.dn_index.specs.Walk.{Walking, IsWalk};

    ghost Value = { Walking };

    ghost view = { λ w. record { key = w.key; place = w.place } };

    ghost inverse = { λ w. record { key = w.key; place = w.place } };

    ghost invariant = { λ w. IsWalk (record { key = w.key; place = w.place }) };
}

/// A word of a bucket.
fn word_of(bucket: u16, number: u8) -> u32
    requires bucket { bucket < 8192 }
    requires number { number < 8 }
    ensures { result ≡ bucket_at bucket number }
{
    dn_word::regions::bucket_at(bucket as u32) + number as u32
}

/// The key word of a place.
fn key_word(spot: Spot) -> u32
    requires { IsSpot spot }
    ensures { result ≡ key_at spot }
{
    word_of(spot.bucket, spot.number)
}

/// The place word of a place.
fn place_word(spot: Spot) -> u32
    requires { IsSpot spot }
    ensures { result ≡ place_at spot }
{
    word_of(spot.bucket, spot.number + 3)
}

/// The action where the key was met.
fn on_match(errand: Errand, spot: Spot) -> Action
    requires errand { IsErrand errand }
    requires spot { IsSpot spot }
    ensures { result ≡ met_action errand spot }
{
    match errand {
        Errand::Find => Action::Load {
            at: place_word(spot),
        },
        Errand::Set { at } => Action::Store {
            at: place_word(spot),
            word: at.word(),
        },
        Errand::Remove => Action::Store {
            at: key_word(spot),
            word: 0,
        },
    }
}

/// A walk from the home bucket of a key.
fn begin(key: u64, errand: Errand) -> Walk
    requires key { key ≢ 0 }
    requires errand { IsErrand errand }
    ensures { result ≡ begun key (home_of key) errand }
{
    Walk {
        key,
        place: WalkPlace::Key {
            errand,
            trail: Trail {
                bucket: bucket_of(key),
                left: CHAIN,
                free: None,
            },
            number: 1,
        },
    }
}

impl Walk {
    /// Finds the place of a key's record. The key isn't 0.
    pub fn find(key: u64) -> Walk
        requires { key ≢ 0 }
        ensures value { result ≡ begun key (home_of key) Errand.Find }
        ensures sequence { Walks result (find_program key) }
    {
        begin(key, Errand::Find)
    }

    /// Sets the place of a key's record. The key isn't 0.
    pub fn set(key: u64, at: Ref) -> Walk
        requires key { key ≢ 0 }
        requires offset { at.offset < 2 ^ 24 }
        ensures value { result ≡ begun key (home_of key) (Errand.Set at) }
        ensures sequence { Walks result (set_program key at) }
    {
        begin(key, Errand::Set { at })
    }

    /// Removes a key. The key isn't 0.
    pub fn remove(key: u64) -> Walk
        requires { key ≢ 0 }
        ensures value { result ≡ begun key (home_of key) Errand.Remove }
        ensures sequence { Walks result (remove_program key) }
    {
        begin(key, Errand::Remove)
    }

    /// The next action. To find a key only words of buckets are loaded. To set it words of buckets are stored too, and 1 is added to the
    /// overflow counter. To remove it 0 is stored for a key word.
    pub fn next(&self) -> Action
        ensures value { result ≡ walk_next self.now }
        ensures footprint { Footprint (purpose self.now) self.now.key result }
    {
        match self.place {
            WalkPlace::Key { trail, number, .. } => Action::Load {
                at: word_of(trail.bucket, number),
            },
            WalkPlace::Next { trail, .. } => Action::Load {
                at: word_of(trail.bucket, NEXT),
            },
            WalkPlace::Match { errand, spot } => on_match(errand, spot),
            WalkPlace::Counter { .. } => Action::Load {
                at: OVERFLOW_COUNTER_AT,
            },
            WalkPlace::Claim { .. } => Action::Add {
                at: OVERFLOW_COUNTER_AT,
                by: 1,
            },
            WalkPlace::FillPlace { at, spot, .. } => Action::Store {
                at: place_word(spot),
                word: at.word(),
            },
            WalkPlace::FillKey { spot, .. } => Action::Store {
                at: key_word(spot),
                word: self.key,
            },
            WalkPlace::Link { last, new } => Action::Store {
                at: word_of(last, NEXT),
                word: new as u64,
            },
        }
    }

    /// Takes the word that the action found, whatever it is. The walk is over with any answer but `More`. `Found` and `Absent` answer
    /// find, `Written` set and remove, and `IndexFull` set alone. A next word that names no bucket ends the chain, and a place word
    /// whose lower half is 0 names no place and is `Absent`. What the walk is for stays.
    pub fn take(&mut self, word: u64) -> WalkTurn
        ensures turn { result ≡ walk_turn self.old word }
        ensures after { self.new ≡ walk_after self.old word }
        ensures purpose { purpose self.new ≡ purpose self.old }
        ensures falls { result ≡ WalkTurn.More → actions_left self.new < actions_left self.old }
        ensures full { (counter : ℕ) → result ≡ WalkTurn.IndexFull counter
            → counter ≡ word }
        ensures full_where { (counter : ℕ) → result ≡ WalkTurn.IndexFull counter
            → IsFull self.old.place word }
        ensures full_there { IsFull self.old.place word → result ≡ WalkTurn.IndexFull word }
    {
        match after(self.key, self.place, word) {
            Step::On { place } => {
                self.place = place;
                WalkTurn::More
            }
            Step::End { turn } => turn,
        }
    }
}
