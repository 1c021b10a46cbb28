use dn_cluster::Actor;
use dn_merge::MergeTurn;
use dn_monitor::MonitorAnswer;
use dn_plan::Way;
use dn_tend::TaskAnswer;

/// How an attempt of a call ended.
#[derive(Clone, Copy, Debug, PartialEq, Eq)]
pub enum CallAnswer {
    /// The call was made. Its receipt is the last that came to stand.
    Made { way: Way },
    /// The lane doesn't own the key's slot by `look`, the deed that this attempt loaded; `cell` is the word of the shared
    /// key's cell that it loaded, if any.
    NotOwner { look: u64, cell: Option<u64> },
    /// `word` is a gate word that has the bit of a fence, or is another gate than was loaded. This attempt read it, or the
    /// lane had read it before and so began nothing.
    Fenced { word: u64 },
    /// There is no room for the record: the lane has 256 `segments`, told by a `counter` of 0, or `counter`, the counter of
    /// claimed segments that this attempt read, is at least the number of the pool's, and the lane has so many `segments`.
    Full { counter: u64, segments: u32 },
    /// A stamp behind the last one is needed, which is `stamp`.
    Worn { stamp: u32 },
}

/// What came of an event.
#[derive(Clone, Copy, Debug, PartialEq, Eq)]
pub enum Outcome {
    /// The actor has no next action, no word is staged at that place, or the lane is stopped. Nothing is changed.
    Nothing,
    /// The event was carried out: nothing ended by it, and nothing is answered.
    Acted,
    /// The call that was started has this number in its session, from 1.
    Numbered {
        number: u32,
    },
    /// The session has a call already. Nothing is changed.
    Busy,
    /// The session is closed. Nothing is changed.
    Closed,
    /// An attempt of the call that the session has, with this number, ended. After `Made` the call is answered. `given`
    /// tells that it is given up: after `Full`, after `Worn`, and where this is the eighth of its attempts that were
    /// refused. Else its deed is loaded next.
    Answered {
        session: u32,
        number: u32,
        answer: CallAnswer,
        given: bool,
    },
    /// The load of a deed left the session's call, which has this number, without a lane to go to, as the eighth of its
    /// attempts that were refused: it is given up.
    GivenUp {
        session: u32,
        number: u32,
    },
    /// What the monitor tells of its order. After `Held` and `Waiting` the order goes on, and after each other it has ended.
    Ordered(MonitorAnswer),
    /// An order is under way already. Nothing is changed.
    MonitorBusy,
    /// A task has ended.
    Tended(TaskAnswer),
    /// A lane with this number was added.
    Added {
        lane: u8,
    },
    /// There are 63 lanes, the most there may be. Nothing is changed.
    LanesFull,
    /// A lane that the event names wasn't made, or the target of a move isn't live. Nothing is changed.
    NoLane,
    /// A merger's turn ended: all is merged, or the index has no bucket left. It isn't `More`.
    Merged(MergeTurn),
    /// The access of this actor failed: its action was done or not done. Nothing is said of the world after it.
    Fault {
        actor: Actor,
    },
}
