use dn_monitor::MonitorAnswer;

/// The monitor's order of a `move` line that is under way.
#[derive(Clone, Copy, Debug, PartialEq, Eq)]
pub struct MoveOrder {
    /// The key of the line, whose slot moves.
    pub key: u64,
    /// The lane, from 1 to 63, that is to have the slot.
    pub lane: u8,
    /// Whether the line runs the order to its end. One that is only started goes on by later lines.
    pub whole: bool,
    /// What the monitor told of it last, if it told anything yet.
    pub told: Option<MonitorAnswer>,
}
