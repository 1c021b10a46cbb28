//! A cluster with a pool of which an access fails only where that is asked for. Each thing is asked of the cluster where
//! it may be: what a caller gets wrong fails the test.

ghost use Rattle.std.specs.Prelude.{◌≡◌, ◌<◌, ◌≤◌, ℕ, [], Some, None, false, IsTrue, All};
ghost use Rattle.std.specs.List.Sorted.{IsStrictlyIncreasing};
ghost use Rattle.dn_hist.specs.Calls.{key_of};
ghost use Rattle.dn_callers.specs.Sessions.{IsSession};
ghost use Rattle.dn_lanes.specs.Calls.{IsCall};
ghost use Rattle.dn_monitor.specs.Monitor.{IsOrder};
ghost use Rattle.dn_record.specs.Grammar.{IsValue};
ghost use Rattle.dn_lane.specs.State.{LaneState};
ghost use Rattle.dn_machine.specs.Given.{HasNoCall, IsOfSession};
ghost use Rattle.dn_cluster.specs.State.{numbered};
ghost use Rattle.dn_cluster.specs.Acting.{failed};
ghost use Rattle.dn_cluster.specs.Machine.{machine_of, lane_in, IsMade, Runs, IsOpen};

use super::pools::Pool;
use crate::{Acted, Actor, AddFault, Cluster};
use dn_hist::{Call, Receipt};
use dn_lane::Refuse;
use dn_monitor::{MonitorAnswer, MonitorTurn, Order};
use dn_tend::Task;
use dn_word::Position;
use std::alloc::Global;
use std::marker::Model;
use std::process::Abort;
use std::test::Fail;

/// A cluster that can be sound over the words of its pool.
#[derive(Drop)]
pub struct Play {
    pool: Pool,
    cluster: Cluster,
}

impl Model for Play {
    ghost use Rattle.dn_cluster.specs.Does.{CanBeSound};

    ghost Value = { Unit {0} };

    ghost view = { λ _. tt };

    ghost invariant = { λ play. CanBeSound play.pool.0 play.cluster };
}

/// The key of a call.
pub fn key_in(call: &Call) -> u64
    ensures { result ≡ key_of call.now }
{
    match call {
        Call::Get { key } | Call::Put { key, .. } | Call::Delete { key } => *key,
    }
}

/// Whether bytes are few enough for a value.
fn is_value(bytes: &[u8]) -> bool
    ensures { IsTrue result → IsValue bytes.now }
{
    bytes.len() <= 1024
}

/// Whether it is a call on a key.
fn is_call(call: &Call) -> bool
    ensures { IsTrue result → IsCall call.now }
{
    match call {
        Call::Get { key } | Call::Delete { key } => *key != 0,
        Call::Put { key, value } => *key != 0 && is_value(value.as_bytes()),
    }
}

/// Whether a session has this number.
pub fn is_session(session: u32) -> bool
    ensures { IsTrue result → IsSession session }
{
    1 <= session && session <= 1000
}

/// Whether a lane with this number was made.
fn is_made(cluster: &Cluster, lane: u8) -> bool
    ensures { IsTrue result → IsMade cluster.now lane }
{
    1 <= lane && lane <= cluster.lanes()
}

/// Whether it was made and isn't stopped.
fn runs(cluster: &Cluster, lane: u8) -> bool
    ensures { IsTrue result → IsMade cluster.now lane × Runs cluster.now lane }
{
    is_made(cluster, lane) && !cluster.is_stopped(lane)
}

/// Whether a lane runs and has a call of this session.
fn is_calling(cluster: &Cluster, lane: u8, session: u32) -> bool
    requires { IsMade cluster.now lane }
    ensures { result ≡ false → (l : LaneState)
        → lane_in (numbered cluster.now.nodes lane) ≡ Some l
        → IsOfSession session l.asked → ⊥ }
{
    if cluster.is_stopped(lane) {
        return false;
    }
    cluster.lane(lane).session() == session
}

/// Whether any lane that runs has a call of this session.
fn has_call(cluster: &Cluster, session: u32) -> bool
    ensures { result ≡ false → HasNoCall (machine_of [] cluster.now [] []) session }
{
    for at in 0..cluster.lanes() {
        if is_calling(cluster, at + 1, session) {
            return true;
        }
    }
    false
}

/// Whether no order is under way.
fn is_free(cluster: &Cluster) -> bool
    ensures { IsTrue result → cluster.now.monitor ≡ None }
{
    cluster.monitor().is_none()
}

/// Whether a session with this number may make a call.
fn is_idle(cluster: &Cluster, session: u32) -> bool
    ensures { IsTrue result → IsSession session × IsOpen cluster.now session
        × HasNoCall (machine_of [] cluster.now [] []) session }
{
    is_session(session) && !cluster.is_closed(session) && !has_call(cluster, session)
}

impl Play {
    /// A formatted pool, of which all words were 0, with no lane.
    pub fn new(rt: &impl Abort, alloc: Global, segments: u32) -> Result<Play, Fail> {
        assert!(rt; segments <= 8192);
        let mut pool = Pool::new(alloc, segments)?;
        let cluster = Cluster::new(alloc, segments)?;
        let formatted = cluster.format(&mut pool);
        assert!(rt; is_formatted(&formatted));
        Ok(Play { pool, cluster })
    }

    /// The words of the pool.
    pub fn words(&self) -> &[u64] {
        self.pool.words()
    }

    /// The cluster, to be looked at.
    pub fn cluster(&self) -> &Cluster {
        &self.cluster
    }

    /// An actor makes its next action.
    pub fn act(&mut self, rt: &impl Abort, actor: Actor) -> Acted {
        let acted = self.cluster.act(&mut self.pool, actor);
        assert!(rt; !is_fault(&acted));
        acted
    }

    /// A staged word of a lane flows out of turn.
    pub fn flow(&mut self, rt: &impl Abort, lane: u8, index: u32) -> Acted {
        let acted = self.cluster.flow(&mut self.pool, lane, index);
        assert!(rt; !is_fault(&acted));
        acted
    }

    /// The next action of a lane fails, and is done or not done. Then the lane is stopped.
    pub fn fail(&mut self, rt: &impl Abort, lane: u8, done: bool) -> Option<Receipt> {
        self.pool.fail(done);
        let acted = self.cluster.act(&mut self.pool, Actor::Lane(lane));
        assert!(rt; is_fault(&acted));
        self.cluster.stop(lane)
    }

    /// The next action of a merger fails, and is done or not done. Then the merger begins anew.
    pub fn fail_merger(&mut self, rt: &impl Abort, lane: u8, done: bool) {
        self.pool.fail(done);
        let acted = self.cluster.act(&mut self.pool, Actor::Merger(lane));
        assert!(rt; is_fault(&acted));
        assert!(rt; is_made(&self.cluster, lane));
        self.cluster.renew(lane);
    }

    /// The next action of the monitor fails, and is done or not done. Then the order is dropped.
    pub fn fail_monitor(&mut self, rt: &impl Abort, done: bool) {
        self.pool.fail(done);
        let acted = self.cluster.act(&mut self.pool, Actor::Monitor);
        assert!(rt; is_fault(&acted));
        self.cluster.drop_order();
    }

    /// Makes the next lane.
    pub fn add_lane(&mut self) -> Result<u8, AddFault> {
        self.cluster.add_lane()
    }

    /// Whether a lane runs.
    pub fn runs(&self, lane: u8) -> bool {
        runs(&self.cluster, lane)
    }

    /// Whether a lane runs and has something under way.
    pub fn works(&self, lane: u8) -> bool {
        runs(&self.cluster, lane) && self.cluster.lane(lane).working()
    }

    /// The session whose call a lane has under way, or 0.
    pub fn session_at(&self, lane: u8) -> u32 {
        if runs(&self.cluster, lane) {
            self.cluster.lane(lane).session()
        } else {
            0
        }
    }

    /// Whether a session may make a call.
    pub fn is_idle(&self, session: u32) -> bool {
        is_idle(&self.cluster, session)
    }

    /// The lane that a session sends its calls on keys of a slot to, or 0.
    pub fn route(&self, rt: &impl Abort, session: u32, slot: u8) -> u8 {
        assert!(rt; is_session(session));
        assert!(rt; slot < 64);
        self.cluster.session(session).route(slot)
    }

    /// Whether the monitor has an order.
    pub fn has_order(&self) -> bool {
        self.cluster.monitor().is_some()
    }

    /// Gives a lane that runs the next call of a session that has none.
    pub fn ask(
        &mut self,
        rt: &impl Abort,
        session: u32,
        lane: u8,
        call: &Call,
    ) -> Result<(), Refuse> {
        let key = key_in(call);
        assert!(rt; is_call(call));
        assert!(rt; is_idle(&self.cluster, session));
        assert!(rt; runs(&self.cluster, lane));
        let calls = self.cluster.session(session).again(key).number;
        assert!(rt; calls < u32::MAX);
        let view = self.cluster.number(session, key);
        assert!(rt; view.hint.is_none());
        self.cluster.give_call(lane, &view, call)
    }

    /// Gives a lane that runs the task to give up a slot.
    pub fn release(&mut self, rt: &impl Abort, lane: u8, slot: u8) -> Result<(), Refuse> {
        assert!(rt; slot < 64);
        assert!(rt; runs(&self.cluster, lane));
        self.cluster.give_task(lane, Task::Release { slot })
    }

    /// Gives a lane that runs the task to forget its merged records.
    pub fn trim(&mut self, rt: &impl Abort, lane: u8) -> Result<(), Refuse> {
        assert!(rt; runs(&self.cluster, lane));
        self.cluster.give_task(lane, Task::Trim)
    }

    /// Gives the monitor, which has no order, this one.
    fn order(&mut self, rt: &impl Abort, order: Order, live: &[u8])
        requires order { IsOrder order }
        requires formatted { (segments : ℕ) → order ≡ Order.Format segments → ⊥ }
        requires rising { IsStrictlyIncreasing live.now }
        requires lanes { All (λ lane. (1 ≤ lane) × (lane < 64)) live.now }
    {
        assert!(rt; is_free(&self.cluster));
        self.cluster.give_order(order, live);
    }

    /// The monitor is to look at the deed of a slot.
    pub fn look(&mut self, rt: &impl Abort, slot: u8) {
        assert!(rt; slot < 64);
        self.order(rt, Order::Look { slot }, &[]);
    }

    /// The monitor is to give a slot to a lane.
    pub fn grant(&mut self, rt: &impl Abort, slot: u8, to: u8) {
        assert!(rt; slot < 64);
        assert!(rt; 0 < to && to < 64);
        self.order(rt, Order::Move { slot, to }, &[]);
    }

    /// It is to fence a lane.
    pub fn fence(&mut self, rt: &impl Abort, lane: u8) {
        assert!(rt; 0 < lane && lane < 64);
        self.order(rt, Order::Fence { lane }, &[]);
    }

    /// It is to give the slots of a fenced lane to another.
    pub fn take_over(&mut self, rt: &impl Abort, lane: u8, heir: u8) {
        assert!(rt; 0 < lane && lane < 64);
        assert!(rt; 0 < heir && heir < 64);
        self.order(rt, Order::Takeover { lane }, &[heir]);
    }

    /// Ends the order that is under way.
    pub fn drop_order(&mut self) {
        self.cluster.drop_order();
    }

    /// A session is to load the deed of a slot.
    pub fn load(&mut self, rt: &impl Abort, session: u32, slot: u8) {
        assert!(rt; is_session(session));
        assert!(rt; slot < 64);
        self.cluster.give_load(session, slot);
    }

    /// Tells a session that isn't closed a position.
    pub fn tell(&mut self, rt: &impl Abort, session: u32, position: Position) {
        assert!(rt; is_session(session));
        assert!(rt; !self.cluster.is_closed(session));
        assert!(rt; position.stamp < 0x80000000);
        self.cluster.tell(session, position);
    }

    /// Gives a session hints.
    pub fn hints(
        &mut self,
        rt: &impl Abort,
        session: u32,
        pairs: &[(u64, u8)],
    ) -> Result<(), Fail> {
        assert!(rt; is_session(session));
        self.cluster.hints(session, pairs)?;
        Ok(())
    }

    /// Stops a lane.
    pub fn stop(&mut self, lane: u8) -> Option<Receipt> {
        self.cluster.stop(lane)
    }

    /// Closes a session that has no call under way.
    pub fn close(&mut self, rt: &impl Abort, session: u32) {
        assert!(rt; is_session(session));
        assert!(rt; !has_call(&self.cluster, session));
        self.cluster.close(session);
    }

    /// The merger of a lane that was made begins anew.
    pub fn renew(&mut self, rt: &impl Abort, lane: u8) {
        assert!(rt; is_made(&self.cluster, lane));
        self.cluster.renew(lane);
    }
}

/// Whether an access failed.
fn is_fault(acted: &Acted) -> bool
    ensures { result ≡ failed acted.now }
{
    match acted {
        Acted::Fault => true,
        _ => false,
    }
}

/// Whether the format was stored over 0.
fn is_formatted(acted: &Acted) -> bool
    ensures { IsTrue result → failed acted.now ≡ false }
{
    match acted {
        Acted::Monitor(MonitorTurn::Answered(answer)) => {
            *answer == MonitorAnswer::Formatted { old: 0 }
        }
        _ => false,
    }
}
