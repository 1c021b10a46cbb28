use dn_hist::Call;
use dn_word::List;

/// What a script is for.
#[derive(Clone, Copy, Debug, PartialEq, Eq, Drop)]
pub enum Mode {
    /// Its lines are played one after the other: every line of the grammar is allowed.
    Play,
    /// Threads share its calls: header lines, calls without `start`, `move`, `fence` and `takeover` are allowed.
    Storm,
}

/// What a line asks for. A lane is from 1 to 63, a session from 1 to 1,000, a key any number but 0, a count of
/// actions or turns from 1 to 1,000,000.
#[derive(Drop)]
pub enum Line {
    /// The call of this session. It is run to its answer, or with `start` it is only started. With a lane its first
    /// attempt goes there.
    Call {
        session: u32,
        lane: Option<u8>,
        start: bool,
        call: Call,
    },
    /// So many actions of the lane.
    Step {
        lane: u8,
        count: u32,
    },
    /// The staged word of the lane at this place, from 0 to 139, flows.
    Flow {
        lane: u8,
        index: u32,
    },
    /// So many actions of the lane's merger.
    Merge {
        lane: u8,
        count: u32,
    },
    /// So many actions of the monitor.
    Monitor {
        count: u32,
    },
    /// A new lane without slots.
    Add,
    /// The order that the key's slot goes to the lane, run to its end, or with `start` only given.
    Move {
        start: bool,
        key: u64,
        lane: u8,
    },
    /// The order that the lane is fenced, run to its end.
    Fence {
        lane: u8,
    },
    /// The order that the live lanes take the fenced lane's slots over, run to its end, or with `start` only given.
    Takeover {
        start: bool,
        lane: u8,
    },
    /// A move for each slot whose lane isn't the one that it is assigned.
    Balance,
    /// A move of each of the lane's slots to the other live lanes, then its fence.
    Remove {
        lane: u8,
    },
    /// The lane stops.
    Stop {
        lane: u8,
    },
    /// The lane stops after so many actions.
    Fuse {
        lane: u8,
        actions: u32,
    },
    /// The lane stops, is fenced, and its slots are taken over.
    Fail {
        lane: u8,
    },
    /// The key becomes a shared one.
    Share {
        key: u64,
    },
    /// The key is shared no more.
    Unshare {
        key: u64,
    },
    /// The lane gives up the segments that are merged.
    Trim {
        lane: u8,
    },
    /// The second session is told the last position of the first one.
    Tell {
        from: u32,
        to: u32,
    },
    /// So many turns that the seed draws.
    Mix {
        seed: u64,
        turns: u32,
    },
    /// What counts advise, by these bounds on them, from 0 to 1,000,000.
    Policy {
        hot: u64,
        cold: u64,
        high: u64,
        low: u64,
    },
}

/// A script: what its header lines say, and what its other lines ask for, in order. Empty lines and lines that begin
/// with `;` ask for nothing.
#[derive(Drop)]
pub struct Script {
    /// How many segments of the pool the script plays in: what `pool N` says, else the lesser of 1,024 and the pool's
    /// number.
    pub segments: u32,
    /// How many lanes there are at the opening, from 1 to 63: what `nodes N` says, else 1.
    pub nodes: u8,
    /// How many units the cache of each lane has, from 0 to 1,000,000: what `cache N` says, else 4,096.
    pub units: u32,
    /// What the lines ask for, in order.
    pub lines: List<Line>,
}
