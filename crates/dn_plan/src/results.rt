use crate::phases::{ActPhase, LocatePhase, Located, RoomPhase, SealPhase};
use dn_word::{Position, Ref};

/// How a call's plan ends.
#[derive(Clone, Copy, Debug, PartialEq, Eq)]
pub enum Ending {
    /// The call stands in the history at `to`. A put or delete has sealed its record at `at`.
    Made {
        to: Position,
        at: Option<Ref>,
        located: Located,
    },
    /// The lane doesn't own the key's slot by the look, the deed that this call loaded.
    NotOwner {
        look: u64,
    },
    /// A gate word that this call read has the bit of a fence, or the gate isn't the one that it loaded.
    Fenced {
        gate: u64,
    },
    /// There is no room for the record, as [`Room::Full`](crate::Room::Full) says.
    Full {
        counter: u64,
        segments: u32,
    },
    /// A stamp behind the last one is needed, which is `stamp`.
    Worn {
        stamp: u32,
    },
}

/// What a lane comes to know by a step of a plan.
#[derive(Clone, Copy, Debug, PartialEq, Eq)]
pub enum Effect {
    /// The slot's deed is in this epoch. Where the lane knew another one, records of the slot that it sealed before are
    /// no longer looked for among the pending ones.
    Epoch { slot: u8, epoch: u32 },
    /// The records below this offset of the lane's log are merged, and no longer pending.
    DropBelow { mark: u64 },
    /// The gate was found to be this word: the lane seals nothing more, and takes no further call.
    Bar { gate: u64 },
}

/// What comes once there is room.
#[derive(Clone, Copy)]
pub enum Then {
    Act(ActPhase),
    Seal(SealPhase),
    End(Ending),
}

/// What comes once the key is located.
#[derive(Clone, Copy)]
pub enum After {
    Room(RoomPhase),
    Then(Then),
}

/// What comes after an action.
#[derive(Clone, Copy)]
pub enum Next {
    Locate(LocatePhase),
    After(After),
}

/// A step of a plan: the lane takes over the effect, and then the plan goes on.
#[derive(Clone, Copy)]
pub struct Step {
    pub effect: Option<Effect>,
    pub next: Next,
}
