ghost use Rattle.std.specs.Prelude.{◌≡◌, ◌<◌, length};
ghost use Rattle.dn_log.specs.Claim.{next_of, turn_of, claim_after};

use crate::writers::LogWriter;
use dn_act::Action;
use dn_word::regions::SEGMENT_COUNTER_AT;

/// How the claim of a segment goes on.
#[derive(Clone, Copy, Debug, PartialEq, Eq)]
pub enum ClaimTurn {
    /// There is a next action.
    More,
    /// This segment of the pool is the lane's alone.
    Got { segment: u32 },
    /// No segment of the pool is left: `counter` is what was found, `segments` how many the lane has.
    Full { counter: u64, segments: u32 },
}

/// The claim of a segment of the pool, action by action: a load of the segment counter and, where it is below the pool's number of
/// segments, an add of 1. The number that the add finds is the segment, unless other lanes took the last ones in between.
/// Each place keeps the pool's number of segments and the lane's.
#[derive(Clone, Copy, PartialEq, Eq)]
pub enum Claim {
    /// The counter is loaded next.
    Reading { pool: u32, segments: u32 },
    /// The add is next.
    Taking { pool: u32, segments: u32 },
}

impl Claim {
    /// Begins the claim of a segment for a lane that has fewer than 256.
    pub fn new(log: &LogWriter) -> Claim
        requires { length log.now.segments < 256 }
        ensures { result ≡ Claim.Reading log.now.pool (length log.now.segments) }
    {
        Claim::Reading {
            pool: log.pool(),
            segments: log.segments(),
        }
    }

    /// The next action.
    pub fn next(&self) -> Action
        ensures { result ≡ next_of self.now }
    {
        match *self {
            Claim::Reading { .. } => Action::Load {
                at: SEGMENT_COUNTER_AT,
            },
            Claim::Taking { .. } => Action::Add {
                at: SEGMENT_COUNTER_AT,
                by: 1,
            },
        }
    }

    /// Takes the word that the action found. After `Got` and `Full` the claim is over.
    pub fn take(&mut self, word: u64) -> ClaimTurn
        ensures turn { result ≡ turn_of self.old word }
        ensures after { self.new ≡ claim_after self.old word }
    {
        match *self {
            Claim::Reading { pool, segments } if word < pool as u64 => {
                *self = Claim::Taking { pool, segments };
                ClaimTurn::More
            }
            Claim::Taking { pool, .. } if word < pool as u64 => ClaimTurn::Got {
                segment: word as u32,
            },
            Claim::Reading { segments, .. } | Claim::Taking { segments, .. } => ClaimTurn::Full {
                counter: word,
                segments,
            },
        }
    }
}
