use dn_hist::SessionView;
use dn_word::Position;

/// What a call asks for.
#[derive(Clone, Copy, Debug, PartialEq, Eq)]
pub enum Kind {
    Get,
    Put,
    Delete,
}

/// What a call's plan knows in each of its phases.
#[derive(Clone, Copy)]
pub struct Brief {
    /// The lane that works on the call, from 1 to 63.
    pub lane: u8,
    /// The call's key, which isn't 0.
    pub key: u64,
    pub kind: Kind,
    /// What the session showed of itself.
    pub view: SessionView,
}

/// Where the location of a call's key came from.
#[derive(Clone, Copy, Debug, PartialEq, Eq)]
pub enum Way {
    /// The key's last record that the lane sealed and that isn't merged yet.
    Pending,
    /// The index, also where it has no record of the key.
    Index,
}

/// What locating a key came to.
#[derive(Clone, Copy, Debug, PartialEq, Eq)]
pub struct Located {
    pub way: Way,
    /// Whether the key has a value that a get asked for, which the call's room then holds.
    pub held: bool,
}

/// What looking for room for a record came to.
#[derive(Clone, Copy)]
pub enum Room {
    /// The record fits behind the log.
    Found,
    /// It needs a segment, and the lane has 256, which a `counter` of 0 tells, or the counter of claimed segments that
    /// was read is at least the number of the pool's. The lane has so many `segments`.
    Full { counter: u64, segments: u32 },
}

/// Which record is sealed.
#[derive(Clone, Copy)]
pub enum Entry {
    /// The call's own, of its put or delete.
    Own,
}

/// What an exchange of the gate seals.
#[derive(Clone, Copy)]
pub struct Sealing {
    pub entry: Entry,
    /// The gate word that is exchanged.
    pub gate: u64,
    /// The stamp of the new one.
    pub stamp: u32,
}

/// What a call knows that loaded its gate and is to stand at a raised stamp.
#[derive(Clone, Copy)]
pub struct Raised {
    /// The deed that it loaded, by which its lane owns the key's slot.
    pub look: u64,
    pub located: Located,
    /// The gate word that it loaded, without the bit of a fence.
    pub gate: u64,
    /// Where it is to stand: by the position rule, behind the gate's stamp, the look's floor and the session's last
    /// position.
    pub to: Position,
}

/// Waits for the word that an action of the plan finds. `look` is the deed that the call loaded.
#[derive(Clone, Copy)]
pub enum ActPhase {
    /// Loads the deed of the key's slot: the call's look.
    Look,
    /// Loads the gate.
    Gate { look: u64, located: Located },
    /// A get exchanges the gate that it loaded for one with the raised stamp.
    Raise { raised: Raised },
}

/// Waits for the place of the key's record. `look` is the deed that the call loaded.
#[derive(Clone, Copy)]
pub enum LocatePhase {
    /// A call of the slot's owner.
    Owner { look: u64 },
}

/// Waits for room for a record.
#[derive(Clone, Copy)]
pub enum RoomPhase {
    /// The record of a put or delete.
    Write { raised: Raised },
}

/// Waits for a record to be sealed: its words flow, and then the gate is exchanged.
#[derive(Clone, Copy)]
pub enum SealPhase {
    /// The record of a put or delete.
    Write { raised: Raised },
}
