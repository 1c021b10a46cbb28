//! The steps of a walk, each from the word that its action found.

ghost use Rattle.std.specs.Prelude.{◌≡◌, ◌<◌, ◌≤◌, ◌^◌};
ghost use Rattle.dn_index.specs.Footprint.{purpose_at, StaysOn};
ghost use Rattle.dn_index.specs.Walk.{first_free, noted, past, keyed, at_end, names_bucket, led, met, counted, claimed, filled, step_at, left_at, IsSpot, MaySpot, IsTrail, IsErrand, MayBucket, IsPlace, IsStep};

use crate::places::{Errand, Spot, Step, Trail, WalkPlace, WalkTurn};
use dn_word::Ref;
use dn_word::regions::OVERFLOW_BUCKETS;

/// How many buckets the pool has: 4,096 home buckets, and the overflow buckets behind them.
const BUCKETS: u64 = 4096 + OVERFLOW_BUCKETS as u64;

/// Keeps the first free place of the chain.
fn note(trail: Trail, number: u8, word: u64) -> Trail
    requires trail { IsTrail trail }
    requires positive { 1 ≤ number }
    requires most { number ≤ 3 }
    ensures value { result ≡ noted trail number word }
    ensures bounds { IsTrail result }
{
    let spot = Spot {
        bucket: trail.bucket,
        number,
    };
    let free = match trail.free {
        None if word == 0 => Some(spot),
        free => free,
    };
    Trail { free, ..trail }
}

/// After a key word.
fn after_key(key: u64, errand: Errand, trail: Trail, number: u8, word: u64) -> Step
    requires errand { IsErrand errand }
    requires trail { IsTrail trail }
    requires positive { 1 ≤ number }
    requires most { number ≤ 3 }
    ensures value { result ≡ keyed key errand trail number word }
    ensures bounds { IsStep result }
{
    if word == key {
        let spot = Spot {
            bucket: trail.bucket,
            number,
        };
        return Step::On {
            place: WalkPlace::Match { errand, spot },
        };
    }
    let trail = note(trail, number, word);
    let place = if number == 3 {
        WalkPlace::Next { errand, trail }
    } else {
        WalkPlace::Key {
            errand,
            trail,
            number: number + 1,
        }
    };
    Step::On { place }
}

/// At the end of the chain.
fn end(errand: Errand, trail: Trail) -> Step
    requires errand { IsErrand errand }
    requires trail { IsTrail trail }
    ensures value { result ≡ at_end errand trail }
    ensures bounds { IsStep result }
{
    let at = match errand {
        Errand::Find => {
            return Step::End {
                turn: WalkTurn::Absent,
            };
        }
        Errand::Remove => {
            return Step::End {
                turn: WalkTurn::Written,
            };
        }
        Errand::Set { at } => at,
    };
    let place = match trail.free {
        Some(spot) => WalkPlace::FillPlace {
            at,
            spot,
            from: None,
        },
        None => WalkPlace::Counter {
            at,
            last: trail.bucket,
        },
    };
    Step::On { place }
}

/// Whether a next word names a bucket.
fn names_bucket(word: u64) -> bool
    ensures { result ≡ names_bucket word }
{
    word != 0 && word < BUCKETS
}

/// After a next word. One that names no bucket ends the chain.
fn after_next(errand: Errand, trail: Trail, word: u64) -> Step
    requires errand { IsErrand errand }
    requires trail { IsTrail trail }
    ensures value { result ≡ led errand trail word }
    ensures bounds { IsStep result }
{
    if !names_bucket(word) {
        return end(errand, trail);
    }
    if trail.left == 0 {
        return end(errand, trail);
    }
    let trail = Trail {
        bucket: word as u16,
        left: trail.left - 1,
        free: trail.free,
    };
    Step::On {
        place: WalkPlace::Key {
            errand,
            trail,
            number: 1,
        },
    }
}

/// After the action at the key's place.
fn after_match(errand: Errand, word: u64) -> Step
    ensures value { result ≡ met errand word }
    ensures bounds { IsStep result }
{
    let turn = match errand {
        Errand::Find => match Ref::read(word) {
            Some(at) => WalkTurn::Found { at },
            None => WalkTurn::Absent,
        },
        Errand::Set { .. } | Errand::Remove => WalkTurn::Written,
    };
    Step::End { turn }
}

/// After the load of the overflow counter.
fn after_counter(at: Ref, last: u16, word: u64) -> Step
    requires at { at.offset < 2 ^ 24 }
    requires last { last < 8192 }
    ensures value { result ≡ counted at last word }
    ensures bounds { IsStep result }
{
    if word < OVERFLOW_BUCKETS as u64 {
        Step::On {
            place: WalkPlace::Claim { at, last },
        }
    } else {
        Step::End {
            turn: WalkTurn::IndexFull { counter: word },
        }
    }
}

/// After the add.
fn after_claim(at: Ref, last: u16, word: u64) -> Step
    requires at { at.offset < 2 ^ 24 }
    requires last { last < 8192 }
    ensures value { result ≡ claimed at last word }
    ensures bounds { IsStep result }
{
    if word < OVERFLOW_BUCKETS as u64 {
        Step::On {
            place: WalkPlace::FillPlace {
                at,
                spot: Spot {
                    bucket: 4096 + word as u16,
                    number: 1,
                },
                from: Some(last),
            },
        }
    } else {
        Step::End {
            turn: WalkTurn::IndexFull { counter: word },
        }
    }
}

/// After the store of a key word.
fn after_fill(spot: Spot, from: Option<u16>) -> Step
    requires spot { IsSpot spot }
    requires from { MayBucket from }
    ensures value { result ≡ filled spot from }
    ensures bounds { IsStep result }
{
    match from {
        None => Step::End {
            turn: WalkTurn::Written,
        },
        Some(last) => Step::On {
            place: WalkPlace::Link {
                last,
                new: spot.bucket,
            },
        },
    }
}

/// The step from a place.
#[tactic(auto, using(crate::proofs::PurposeLaws::purpose_stays))]
pub(crate) fn after(key: u64, place: WalkPlace, word: u64) -> Step
    requires place { IsPlace place }
    ensures value { result ≡ step_at key place word }
    ensures bounds { IsStep result }
    ensures purpose { StaysOn (purpose_at place) result }
{
    match place {
        WalkPlace::Key {
            errand,
            trail,
            number,
        } => after_key(key, errand, trail, number, word),
        WalkPlace::Next { errand, trail } => after_next(errand, trail, word),
        WalkPlace::Match { errand, .. } => after_match(errand, word),
        WalkPlace::Counter { at, last } => after_counter(at, last, word),
        WalkPlace::Claim { at, last } => after_claim(at, last, word),
        WalkPlace::FillPlace { spot, from, .. } => Step::On {
            place: WalkPlace::FillKey { spot, from },
        },
        WalkPlace::FillKey { spot, from } => after_fill(spot, from),
        WalkPlace::Link { .. } => Step::End {
            turn: WalkTurn::Written,
        },
    }
}
