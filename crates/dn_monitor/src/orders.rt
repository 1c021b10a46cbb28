/// What a monitor is asked to do. A slot is below 64, a lane is from 1 to 63.
#[derive(Clone, Copy, Debug, PartialEq, Eq)]
pub enum Order {
    /// To store the format of a pool with so many segments.
    Format { segments: u32 },
    /// To load the deed of a slot.
    Look { slot: u8 },
    /// To give a slot to the lane `to`. The lane that has it is asked to leave it, and gives it up.
    Move { slot: u8, to: u8 },
    /// To fence a lane, which then seals nothing more.
    Fence { lane: u8 },
    /// To give the slots of a fenced lane to the live lanes.
    Takeover { lane: u8 },
}

/// What a monitor tells of its order. After `Held` and `Waiting` the order goes on, and each other answer is its last.
#[derive(Clone, Copy, Debug, PartialEq, Eq)]
pub enum MonitorAnswer {
    /// The format is stored. `old` is the word that stood there.
    Formatted { old: u64 },
    /// The deed's word.
    Looked { deed: u64 },
    /// The slot is the target's. `deed` is the word that says so: the one that was written, or the one that was found.
    Granted { deed: u64 },
    /// The lane is fenced. `old` is its gate's word before that.
    Barred { old: u64 },
    /// All 64 slots are passed, and `slots` of them were granted.
    Taken { slots: u8 },
    /// The lane that was asked to leave the slot still has it, and isn't fenced. `deed` is the word that asks it. The
    /// deed is loaded again.
    Held { deed: u64 },
    /// The merged mark of the lane that had the slot is below `need`, the length of its log; both are in words. The
    /// mark is loaded again.
    Waiting { mark: u64, need: u32 },
    /// The lane whose slots are to be taken isn't fenced. `word` is its gate's word.
    NotFenced { word: u64 },
    /// The deed that is to be granted has the greatest epoch, 2^23 - 1. It stays as it is.
    Worn { epoch: u32 },
}

/// How a monitor goes on.
#[derive(Clone, Copy, Debug, PartialEq, Eq)]
pub enum MonitorTurn {
    /// There is a next action.
    More,
    /// The order has this answer. There is a next action exactly after `Held` and `Waiting`.
    Answered(MonitorAnswer),
}
