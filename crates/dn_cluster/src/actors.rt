//! Who acts on the words of a pool, and what came of it.

use dn_lane::Turn;
use dn_merge::MergeTurn;
use dn_monitor::MonitorTurn;

/// Who acts on the words of a pool.
#[derive(Clone, Copy, Debug, PartialEq, Eq)]
pub enum Actor {
    /// The lane with this number.
    Lane(u8),
    /// The merger of the lane with this number.
    Merger(u8),
    /// The monitor.
    Monitor,
    /// The session with this number, which loads the deed of a slot.
    Session(u32),
}

/// What came of an action.
#[derive(Drop)]
pub enum Acted {
    /// The actor has no next action. Nothing is changed.
    Nothing,
    /// What the lane answered to the word that its action found.
    Lane(Turn),
    /// What the merger answered.
    Merger(MergeTurn),
    /// What the monitor answered.
    Monitor(MonitorTurn),
    /// The session has loaded this word of a deed.
    Session { word: u64 },
    /// The access failed. The action was done or not done, and the actor's own state is as it was.
    Fault,
}
