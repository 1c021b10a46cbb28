use dn_word::Gate;

/// What the monitor is at with a slot.
#[derive(Clone, Copy)]
pub enum Errand {
    /// The slot is given to the lane `to`.
    Move { slot: u8, to: u8 },
    /// The slot is taken from `lane` if it has it; `granted` of the slots before it were taken.
    Takeover { lane: u8, slot: u8, granted: u8 },
}

/// Where a monitor is in its order, with what it knows there. `deed` is the word of the slot's deed that was loaded.
#[derive(Clone, Copy)]
pub enum MonitorPlace {
    /// The last answer is given.
    Done,
    /// Stores the format.
    Format {
        segments: u32,
    },
    /// Loads the deed that is asked for.
    Look {
        slot: u8,
    },
    /// Sets the bit of the gate.
    Fence {
        lane: u8,
    },
    /// Loads the slot's deed.
    Deed {
        errand: Errand,
    },
    /// The deed is another lane's: exchanges it for one that asks that lane to leave.
    Leave {
        slot: u8,
        to: u8,
        deed: u64,
    },
    /// Loads the gate of the lane that the deed names.
    Gate {
        errand: Errand,
        deed: u64,
    },
    /// That lane seals nothing more for the slot: loads its merged mark. `gate` was read after the lane gave the slot
    /// up or was fenced.
    Mark {
        errand: Errand,
        deed: u64,
        gate: Gate,
    },
    /// All that the lane sealed for the slot is merged, or no lane had the slot, and then there is no gate: exchanges
    /// the deed for the grant.
    Grant {
        errand: Errand,
        deed: u64,
        gate: Option<Gate>,
    },
}
