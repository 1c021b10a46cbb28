use dn_act::Action;
use dn_word::Ref;

/// What a lane is asked to do beside its calls. A slot is below 64, a key isn't 0.
#[derive(Clone, Copy, Debug, PartialEq, Eq)]
pub enum Task {
    /// To give up a slot that it is asked to leave.
    Release { slot: u8 },
    /// To forget the pending records that are merged.
    Trim,
    /// To share a key of its own with the other lanes, by a cell.
    Share { key: u64 },
    /// To end the sharing of a key of its own.
    Unshare { key: u64 },
}

/// How a task ends.
#[derive(Clone, Copy, Debug, PartialEq, Eq)]
pub enum TaskAnswer {
    /// The slot is given up.
    Released,
    /// `look`, the deed that this task loaded, isn't one that asks this lane to leave.
    NotLeaving { look: u64 },
    /// The records below `mark`, the merged mark that this task loaded, are no longer pending.
    Trimmed { mark: u64 },
    /// The key is shared by this cell, also where it was before.
    Shared { cell: u8 },
    /// The key isn't shared.
    Plain,
    /// The key's sharing has ended.
    Unshared,
    /// `look`, the deed that this task loaded, isn't Owned by this lane.
    NotOwner { look: u64 },
    /// A gate word that this task read has the bit of a fence.
    Fenced { word: u64 },
    /// An exchange of the deed or of the cell began from `old` and found `seen`, which differs.
    Again { old: u64, seen: u64 },
    /// The cell counter that this task read is at least 256.
    NoCell { counter: u64 },
    /// There is no room for the record: the lane has 256 `segments` and `counter` is 0, or `counter`, the segment
    /// counter that was read, is at least the number of the pool's.
    Full { counter: u64, segments: u32 },
    /// A stamp behind the last one is needed, which is `stamp`.
    Worn { stamp: u32 },
}

/// What a task asks of its lane.
#[derive(Clone, Copy, Debug, PartialEq, Eq)]
pub enum TendStep {
    /// To do this action and give the word that it found to `take`.
    Act(Action),
    /// To locate the task's key and tell what was found to `located`.
    Locate,
    /// To find room for a record of three words and tell it by `roomed`; where there is none the lane ends the task
    /// as Full.
    Room,
    /// To seal this record and tell it by `sealed`; where its exchange found another gate the lane ends the task as
    /// Fenced.
    Seal(TendSeal),
    /// Nothing more: the task has this answer.
    Done(TaskAnswer),
}

/// What locating a task's key came to.
#[derive(Clone, Copy, Debug, PartialEq, Eq)]
pub enum TendFound {
    /// The key has no value.
    Nothing,
    /// Its value stands in this record.
    At(Ref),
    /// It is shared by this cell, which began with this opening word.
    Shared { cell: u8, opening: u64 },
}

/// The record that a task has sealed, and the gate word from which the sealing exchange begins.
#[derive(Clone, Copy, Debug, PartialEq, Eq)]
pub enum TendSeal {
    /// A Share of the task's key, at the stamp of `opening`.
    Share {
        cell: u8,
        opening: u64,
        gate: u64,
    },
    /// An Unshare of the task's key, which names the record that the cell named, at `stamp`.
    Unshare {
        at: Option<Ref>,
        stamp: u32,
        gate: u64,
    },
}
