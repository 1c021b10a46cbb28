//! Whom the monitor's order waits for, and the order that is given up.

ghost use Rattle.std.specs.Prelude.{◌≡◌, ◌≤◌, ℕ, List, Some, false, length};
ghost use Rattle.dn_callers.specs.Callers.{Standing as Stands};
ghost use Rattle.dn_cluster.specs.Machine.{IsMade, lane_in};
ghost use Rattle.dn_cluster.specs.State.{numbered};
ghost use Rattle.dn_lane.specs.State.{LaneState};
ghost use Rattle.dn_machine.specs.Events.{Drops};
ghost use Rattle.dn_outcomes.specs.Awaited.{is_releasing, is_tending, marked};
ghost use Rattle.dn_outcomes.specs.Orders.{drops};
ghost use Rattle.dn_outcomes.specs.State.{with_event};
ghost use Rattle.dn_route.specs.CallersOrder.{Told};
ghost use Rattle.dn_waiting.specs.State.{at_lane};
ghost use Rattle.dn_world.specs.Comes.{Moves, Turns, bare, has_failed};
ghost use Rattle.dn_world.specs.State.{world_of};

use super::Crew;
use crate::leaving::marked_by;
use dn_outcomes::Outcome;

impl Crew {
    /// Whether a lane has the release of a slot before it: a task is under way there, or this one waits.
    pub fn is_releasing(&self, lane: u8, slot: u8) -> bool
        requires { length self.now.cluster.nodes ≤ 63 }
        ensures { (words : List ℕ) (told : List Told) (receipts : List Stands)
            → result ≡ is_releasing (world_of words self.now told receipts) lane slot }
    {
        if !self.is_made(lane) {
            return false;
        }
        if self.cluster.is_stopped(lane) {
            return false;
        }
        self.is_tending(lane) || self.waiting.is_queued(lane, slot)
    }

    /// Whether a task is under way at a lane that runs.
    fn is_tending(&self, lane: u8) -> bool
        requires made { IsMade self.now.cluster lane }
        requires most { length self.now.cluster.nodes ≤ 63 }
        ensures { (l : LaneState) → lane_in (numbered self.now.cluster.nodes lane) ≡ Some l
            → result ≡ is_tending (at_lane self.now.waiting lane) l }
    {
        self.cluster.lane(lane).working() && self.waiting.begun(lane).is_none()
    }

    /// The lane whose merged mark the monitor loads next, or 0.
    pub fn marked(&self) -> u8
        ensures { (words : List ℕ) (told : List Told) (receipts : List Stands)
            → result ≡ marked (world_of words self.now told receipts) }
    {
        marked_by(self.monitor_next())
    }

    /// The order under way is given up, if there is one.
    pub fn end_order(&mut self) -> Outcome
        ensures came { (words : List ℕ) → Moves words self.old words self.new (bare result) drops }
        ensures done { has_failed result ≡ false }
    {
        self.drop_order();
        Outcome::Acted
    }

    /// The monitor's order is dropped.
    pub(super) fn drop_order(&mut self)
        ensures { Turns self.old self.new (λ w. with_event w Drops) }
    {
        self.cluster.drop_order();
    }
}
