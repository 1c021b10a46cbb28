use dn_plan::{ActPhase, Effect, Ending, LocatePhase, RoomPhase, SealPhase, Sealing, Way};
use dn_tend::{TaskAnswer, TendAct, TendFound, TendLocate, TendRoom, TendSeal, TendSealing};

/// An action of the plan's own, for whose word it waits.
#[derive(Clone, Copy)]
pub enum Act {
    Call(ActPhase),
    Task(TendAct),
}

/// The plan waits for the place of its key's record.
#[derive(Clone, Copy)]
pub enum Locate {
    Call(LocatePhase),
    Task(TendLocate),
}

/// It waits for room for its record.
#[derive(Clone, Copy)]
pub enum FindRoom {
    Call(RoomPhase),
    Task(TendRoom),
}

/// It waits for its record to be sealed.
#[derive(Clone, Copy)]
pub enum Seal {
    Call(SealPhase),
    Task(TendSealing),
}

/// How it ends.
#[derive(Clone, Copy)]
pub enum End {
    Call(Ending),
    Task(TaskAnswer),
}

/// What the plan asks for once there is room.
#[derive(Clone, Copy)]
pub enum Then {
    Act(Act),
    Seal(Seal),
    End(End),
}

/// What it asks for once its key is located.
#[derive(Clone, Copy)]
pub enum After {
    Room(FindRoom),
    Then(Then),
}

/// What it asks for after an action.
#[derive(Clone, Copy)]
pub enum Next {
    Locate(Locate),
    After(After),
}

/// A step of the plan: the lane takes over the effect, and then does what is asked for next.
#[derive(Clone, Copy)]
pub struct Step {
    pub effect: Option<Effect>,
    pub next: Next,
}

/// What locating the key came to.
#[derive(Clone, Copy)]
pub struct Here {
    pub way: Way,
    /// Whether the call's room holds a value that the key has.
    pub held: bool,
    /// What the key's record says.
    pub found: TendFound,
}

/// Which record is sealed, from which gate word, and at which stamp.
#[derive(Clone, Copy)]
pub enum Sealed {
    /// The call's own, of its put or delete.
    Call(Sealing),
    /// A task's Share or Unshare of this key.
    Task { key: u64, seal: TendSeal },
}
