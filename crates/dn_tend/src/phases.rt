use crate::tasks::TaskAnswer;
use dn_plan::Effect;
use dn_word::Ref;

/// What a task knows that loaded the gate and is to share a key: its look, the gate word, and the word that the cell
/// begins with.
#[derive(Clone, Copy)]
pub struct Share {
    pub key: u64,
    pub look: u64,
    pub gate: u64,
    pub opening: u64,
}

/// What a task knows that located a shared key: the key, its look, and what the key's record says.
#[derive(Clone, Copy)]
pub struct Unshare {
    pub key: u64,
    pub look: u64,
    pub cell: u8,
    pub opening: u64,
}

/// Waits for the word that an action of the task finds. `look` is the deed that it loaded, by which its lane owns the
/// key's slot.
#[derive(Clone, Copy)]
pub enum TendAct {
    /// A release loads the deed of its slot.
    Deed {
        slot: u8,
    },
    /// It exchanges the deed, which asks the lane to leave, for one that says Released.
    GiveUp {
        slot: u8,
        deed: u64,
    },
    /// A trim loads the lane's merged mark.
    Mark,
    /// Loads the deed of the key's slot, to share the key.
    ShareLook {
        key: u64,
    },
    /// Loads the gate. The key's value stands at `at`.
    ShareGate {
        key: u64,
        look: u64,
        at: Option<Ref>,
    },
    /// Loads the counter of claimed cells.
    Count {
        share: Share,
    },
    /// Claims the next cell: adds 1 to the counter.
    Claim {
        share: Share,
    },
    /// Stores the key in the cell's key word.
    Name {
        share: Share,
        cell: u8,
    },
    /// Exchanges the cell from 0 to its opening word, once the Share is sealed.
    Open {
        share: Share,
        cell: u8,
    },
    /// Loads the deed of the key's slot, to end its sharing.
    UnshareLook {
        key: u64,
    },
    /// Loads the gate.
    UnshareGate {
        unshare: Unshare,
    },
    /// Loads the cell.
    Cell {
        unshare: Unshare,
        gate: u64,
    },
    /// Exchanges the cell, which held `seen`, for the closed one. The record is to be sealed at `stamp`.
    Close {
        unshare: Unshare,
        gate: u64,
        seen: u64,
        stamp: u32,
    },
}

/// Waits for the place of the key's record.
#[derive(Clone, Copy)]
pub enum TendLocate {
    Share { key: u64, look: u64 },
    Unshare { key: u64, look: u64 },
}

/// Waits for room for a record.
#[derive(Clone, Copy)]
pub enum TendRoom {
    Share { share: Share },
    Unshare { unshare: Unshare, gate: u64 },
}

/// Waits for a record to be sealed.
#[derive(Clone, Copy)]
pub enum TendSealing {
    Share {
        share: Share,
        cell: u8,
    },
    Unshare {
        unshare: Unshare,
        at: Option<Ref>,
        stamp: u32,
        gate: u64,
    },
}

/// What comes once there is room, or once the task needs none.
#[derive(Clone, Copy)]
pub enum TendThen {
    Act(TendAct),
    Seal(TendSealing),
    Done(TaskAnswer),
}

/// What comes once the key is located.
#[derive(Clone, Copy)]
pub enum TendAfter {
    Room(TendRoom),
    Then(TendThen),
}

/// What a task waits for, or its answer.
#[derive(Clone, Copy)]
pub enum TendNext {
    Locate(TendLocate),
    After(TendAfter),
}

/// What comes after the word of an action: the lane takes over the effect, and then the task goes on.
#[derive(Clone, Copy)]
pub struct TendTurn {
    pub effect: Option<Effect>,
    pub next: TendNext,
}
