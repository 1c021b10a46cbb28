use dn_hist::{Call, SessionView};
use dn_tend::Task;

/// A session's call between its start and its end.
#[derive(Drop)]
pub struct OpenCall {
    /// The call's number in its session, from 1. All attempts have it.
    pub number: u32,
    /// What was asked.
    pub call: Call,
    /// How many attempts were refused, at most 7.
    pub refused: u8,
    /// Where it stands.
    pub place: Place,
}

/// Where a call stands. Lanes are from 1 to 63.
#[derive(Clone, Copy, Debug, PartialEq, Eq)]
pub enum Place {
    /// The deed of its key's slot is to be loaded. Then it goes to the lane that is named here, else by the route.
    Loading { named: Option<u8> },
    /// An attempt waits in the queue of this lane.
    Queued { lane: u8 },
    /// An attempt is under way at this lane.
    Begun { lane: u8 },
}

/// How a call goes on.
#[derive(Clone, Copy, Debug, PartialEq, Eq)]
pub enum Course {
    /// The deed of its key's slot is to be loaded next.
    Load,
    /// Its next attempt waits in the queue of this lane, from 1 to 63.
    Wait { lane: u8 },
    /// It has ended with its answer.
    Answered,
    /// It has ended, given up.
    GivenUp,
}

/// How an attempt ends.
#[derive(Clone, Copy, Debug, PartialEq, Eq)]
pub enum AttemptEnd {
    /// The call was made: it has its answer.
    Made,
    /// There is no room for the record, or no stamp: no attempt elsewhere would do better.
    Spent,
    /// The lane doesn't own the key's slot, or is fenced.
    Refused,
}

/// What a lane with nothing under way takes up.
#[derive(Clone, Copy, Debug, PartialEq, Eq)]
pub enum Next {
    /// Nothing waits.
    Rest,
    /// This task.
    Tend(Task),
    /// The attempt of a call, with the view that its session showed.
    Try(SessionView),
}
