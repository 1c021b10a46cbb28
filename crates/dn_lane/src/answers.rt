use dn_hist::Receipt;
use dn_plan::Way;
use dn_tend::TaskAnswer;
use thiserror::Error;

/// How a call ended.
#[derive(Drop)]
pub enum Answer {
    /// The call has its place in the history.
    Made { receipt: Receipt, way: Way },
    /// The lane doesn't own the key's slot by `look`, the deed that this call loaded. `cell` is the word of the shared
    /// key's cell that this call loaded, if any.
    NotOwner { look: u64, cell: Option<u64> },
    /// A gate word that this call read, by its load or its exchange, has the bit of a fence, or its exchange found
    /// another gate than it had loaded. `word` is that gate word.
    Fenced { word: u64 },
    /// There is no room for the record: the lane has 256 segments, told by a `counter` of 0, or the counter of claimed
    /// segments that this call read is at least the number of the pool's. The lane has so many `segments`.
    Full { counter: u64, segments: u32 },
    /// A stamp behind the last one is needed, which is `stamp`.
    Worn { stamp: u32 },
}

/// What a lane answers when it takes a word.
#[derive(Drop)]
pub enum Turn {
    /// The lane has a next action, or nothing is under way.
    More,
    /// The call has ended.
    Done(Answer),
    /// The task has ended.
    Tended(TaskAnswer),
}

/// Why a lane begins no call and no task. Nothing is changed then.
#[derive(Clone, Copy, Debug, PartialEq, Eq, Error)]
pub enum Refuse {
    /// A call or task is under way: a call with this number, or a task, told by 0.
    #[error("call {number} is under way")]
    Busy { number: u32 },
    /// An earlier call or task of this lane read this gate word: it has the bit of a fence, or is another gate than was
    /// loaded.
    #[error("the gate word {word:016x} is fenced")]
    Fenced { word: u64 },
    /// Want of memory.
    #[error("out of memory")]
    OutOfMemory,
}
