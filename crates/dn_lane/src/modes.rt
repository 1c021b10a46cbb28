use dn_ask::{Act, End, FindRoom, Locate, Seal as SealWait};
use dn_find::Find;
use dn_log::Claim;
use dn_services::Seal;

/// What a lane does for the plan that it carries out, and what the plan waits for.
#[derive(Clone, Copy)]
pub enum Mode {
    /// No plan is under way.
    Idle,
    /// An action of the plan's own.
    Acting { wait: Act },
    /// The plan's key is located.
    Finding { wait: Locate, find: Find },
    /// A segment is claimed.
    Claiming { wait: FindRoom, claim: Claim },
    /// The words of a record flow, in any order, and then the gate is exchanged.
    Sealing { wait: SealWait, seal: Seal },
}

/// How a plan goes on.
#[derive(Clone, Copy)]
pub enum Going {
    On { mode: Mode },
    End { end: End },
}
