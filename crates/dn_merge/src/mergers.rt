ghost use Rattle.std.specs.Prelude.{◌≡◌, ◌≢◌, ◌<◌, ◌≤◌, ◌^◌, ◌↔◌, ℕ, IsTrue};
ghost use Rattle.dn_merge.specs.Merge.{started, merge_next, merge_step, merge_turn, merge_after, Meets, FitsAt, IsIdle, IsFull, EndsTurn};
ghost use Rattle.dn_merge.specs.Left.{merge_left, HasFewer};
ghost use Rattle.dn_merge.specs.Words.{IsOfMerger};
ghost use Rattle.dn_merge.specs.Sequence.{Merges, sequence};

use crate::places::MergePlace;
use crate::steps::{
    MergeStep, after_directory, after_header, after_key, after_mark, after_walk, end, go,
};
use dn_act::Action;
use dn_word::Ref;
use dn_word::regions::{
    LANE_SEGMENTS, POOL_SEGMENTS, SEGMENT_WORDS, directory_at, gate_at, mark_at,
};
use std::marker::Model;

/// The most words of a log, 262,144.
const MAX_LOG_WORDS: u64 = (LANE_SEGMENTS * SEGMENT_WORDS) as u64;

/// How a merger goes on.
#[derive(Clone, Copy, Debug, PartialEq, Eq)]
pub enum MergeTurn {
    /// There is a next action, of this turn or, where the merged mark was stored, of the next one.
    More,
    /// The gate word and the merged mark that this turn loaded name the same length: all that was sealed is merged.
    Idle { gate: u64, mark: u64 },
    /// The index has no bucket left for the record's key. `counter` is the overflow counter that was read, at least 4,096.
    IndexFull { counter: u64 },
}

/// The merger of a lane. A turn reads the record at the lane's merged mark, changes the index by it, and then moves the mark past the
/// record, so that the mark never goes before the index.
#[derive(Drop)]
pub struct Merger {
    lane: u8,
    place: MergePlace,
}

impl Model for Merger {
    ghost use Rattle.dn_merge.specs.Merge.{Merging, IsMerger};

    ghost Value = { Merging };

    ghost view = { λ m. record { lane = m.lane; place = m.place } };

    ghost invariant = { λ m. IsMerger (record { lane = m.lane; place = m.place }) };
}

impl Merger {
    /// The merger of the lane with this number, from 1 to 63, at the beginning of a turn.
    pub fn new(lane: u8) -> Merger
        requires least { 0 < lane }
        requires most { lane < 64 }
        ensures value { result ≡ started lane }
        ensures sequence { Merges result (sequence lane) }
    {
        Merger {
            lane,
            place: MergePlace::Gate,
        }
    }

    /// The next action: a load, a store of the lane's merged mark or of a word of a bucket, or an add of 1 to the overflow counter.
    #[tactic(auto, using(crate::proofs::WordLaws::walk_within))]
    pub fn next(&self) -> Action
        ensures value { result ≡ merge_next self.now }
        ensures footprint { IsOfMerger self.now.lane result }
    {
        match self.place {
            MergePlace::Gate => Action::Load {
                at: gate_at(self.lane),
            },
            MergePlace::Mark { .. } => Action::Load {
                at: mark_at(self.lane),
            },
            MergePlace::Directory { mark } => Action::Load {
                at: directory_at(self.lane, 0) + mark / SEGMENT_WORDS,
            },
            MergePlace::Header { from, .. } => Action::Load { at: from },
            MergePlace::Key { from, .. } => Action::Load { at: from + 1 },
            MergePlace::Walk { walk, .. } => walk.next(),
            MergePlace::Pass { to } => Action::Store {
                at: mark_at(self.lane),
                word: u64::from(to),
            },
        }
    }

    /// Whether `take` may be given this word: a merged mark is at most 262,144, a directory word is from 1 to 8,192, and a key word
    /// isn't 0.
    pub fn accepts(&self, word: u64) -> bool
        ensures { IsTrue result ↔ Meets word self.now.place }
    {
        match self.place {
            MergePlace::Gate
            | MergePlace::Header { .. }
            | MergePlace::Walk { .. }
            | MergePlace::Pass { .. } => true,
            MergePlace::Mark { .. } => word <= MAX_LOG_WORDS,
            MergePlace::Directory { .. } => word >= 1 && word <= POOL_SEGMENTS as u64,
            MergePlace::Key { .. } => word != 0,
        }
    }

    /// Takes the word that the action found, one that the merger accepts. `Idle` comes exactly where the gate and the mark that this
    /// turn loaded name the same length, `IndexFull` exactly where the walk of this turn needs a bucket and the overflow counter
    /// that it read is at least 4,096. After both, and after the store of the merged mark, the next turn begins. A header outside
    /// the grammar of records, which no sealed log has, ends the turn too, and the mark stays.
    pub fn take(&mut self, word: u64) -> MergeTurn
        requires { Meets word self.old.place }
        ensures turn { result ≡ merge_turn self.old word }
        ensures after { self.new ≡ merge_after self.old word }
        ensures lane { self.new.lane ≡ self.old.lane }
        ensures idle { (gate mark : ℕ)
            → result ≡ MergeTurn.Idle gate mark ↔ IsIdle gate mark word self.old.place }
        ensures full { (counter : ℕ)
            → result ≡ MergeTurn.IndexFull counter ↔ IsFull counter word self.old.place }
        ensures falls { HasFewer (merge_left self.old) self.new.place }
        ensures begins { EndsTurn result self.old.place → self.new ≡ started self.old.lane }
    {
        let step = self.step(word);
        self.place = step.place;
        step.turn
    }

    /// Where the turn goes on by the word, and what it answers.
    #[tactic(auto, using(crate::proofs::TurnLaws::step_begins))]
    fn step(&self, word: u64) -> MergeStep
        requires { Meets word self.now.place }
        ensures value { result ≡ merge_step self.now word }
        ensures fits { FitsAt result.place }
        ensures falls { HasFewer (merge_left self.now) result.place }
        ensures begins { EndsTurn result.turn self.now.place → result.place ≡ MergePlace.Gate }
        ensures full { (counter : ℕ)
            → result.turn ≡ MergeTurn.IndexFull counter ↔ IsFull counter word self.now.place }
    {
        match self.place {
            MergePlace::Gate => go(MergePlace::Mark { gate: word }),
            MergePlace::Mark { gate } => after_mark(gate, word),
            MergePlace::Directory { mark } => after_directory(mark, word),
            MergePlace::Header { mark, from } => after_header(mark, from, word),
            MergePlace::Key {
                mark,
                to,
                change,
                ..
            } => after_key(
                Ref {
                    lane: self.lane,
                    offset: mark,
                },
                to,
                change,
                word,
            ),
            MergePlace::Walk { to, walk } => after_walk(to, walk, word),
            MergePlace::Pass { .. } => end(MergeTurn::More),
        }
    }
}
