//! A cluster with a pool of which listed accesses fail. All that is asked of it is asked where it may be: what its caller
//! gets wrong fails the test.

ghost use Rattle.std.specs.Prelude.{◌≡◌, ◌<◌, ◌≤◌, ℕ, [], false, None, Some, IfOk, IsTrue, All};
ghost use Rattle.std.specs.List.Sorted.{IsStrictlyIncreasing};
ghost use Rattle.dn_act.specs.Calls.{Ascend};
ghost use Rattle.dn_callers.specs.Sessions.{IsSession};
ghost use Rattle.dn_hist.specs.Calls.{key_of};
ghost use Rattle.dn_lane.specs.State.{LaneState};
ghost use Rattle.dn_lanes.specs.Calls.{IsCall};
ghost use Rattle.dn_machine.specs.Given.{HasNoCall, IsOfSession};
ghost use Rattle.dn_monitor.specs.Monitor.{IsOrder};
ghost use Rattle.dn_record.specs.Grammar.{IsValue};
ghost use Rattle.dn_cluster.specs.State.{numbered};
ghost use Rattle.dn_cluster.specs.Acting.{failed};
ghost use Rattle.dn_cluster.specs.Machine.{machine_of, lane_in, IsMade, Runs, IsOpen};
ghost use Rattle.dn_cluster.specs.Does.{CanBeSound};

use crate::{DrainFault, LaneFault, Merged, drain, drain_all};
use dn_act::{Memory, Plain};
use dn_cluster::{Acted, Actor, Cluster};
use dn_hist::Call;
use dn_lane::{Answer, Refuse, Turn};
use dn_monitor::Order;
use dn_word::Value;
use std::alloc::Global;
use std::marker::Model;
use std::process::Abort;
use std::test::Fail;

/// How many segments the pool has.
const SEGMENTS: u32 = 80;

/// A cluster that can be sound over the words of its pool, and how many accesses were made.
#[derive(Drop)]
pub struct Play {
    alloc: Global,
    pool: Plain,
    cluster: Cluster,
    accesses: u64,
}

impl Model for Play {
    ghost use Rattle.dn_cluster.specs.Does.{CanBeSound};

    ghost Value = { Unit {0} };

    ghost view = { λ _. tt };

    ghost invariant = { λ play. CanBeSound play.pool.words play.cluster };
}

/// The key of a call.
fn key_in(call: &Call) -> u64
    ensures { result ≡ key_of call.now }
{
    match call {
        Call::Get { key } | Call::Put { key, .. } | Call::Delete { key } => *key,
    }
}

/// Whether bytes are few enough for a value.
fn is_value(bytes: &[u8]) -> bool
    ensures { IsTrue result → IsValue bytes.now }
{
    bytes.len() <= 1024
}

/// Whether it is a call on a key.
fn is_call(call: &Call) -> bool
    ensures { IsTrue result → IsCall call.now }
{
    match call {
        Call::Get { key } | Call::Delete { key } => *key != 0,
        Call::Put { key, value } => *key != 0 && is_value(value.as_bytes()),
    }
}

/// Whether a session has this number.
fn is_session(session: u32) -> bool
    ensures { IsTrue result → IsSession session }
{
    1 <= session && session <= 1000
}

/// Whether a lane with this number was made.
fn is_made(cluster: &Cluster, lane: u8) -> bool
    ensures { IsTrue result → IsMade cluster.now lane }
{
    1 <= lane && lane <= cluster.lanes()
}

/// Whether it was made and isn't stopped.
fn runs(cluster: &Cluster, lane: u8) -> bool
    ensures { IsTrue result → IsMade cluster.now lane × Runs cluster.now lane }
{
    is_made(cluster, lane) && !cluster.is_stopped(lane)
}

/// Whether a lane runs and has a call of this session.
fn is_calling(cluster: &Cluster, lane: u8, session: u32) -> bool
    requires { IsMade cluster.now lane }
    ensures { result ≡ false → (l : LaneState)
        → lane_in (numbered cluster.now.nodes lane) ≡ Some l
        → IsOfSession session l.asked → ⊥ }
{
    if cluster.is_stopped(lane) {
        return false;
    }
    cluster.lane(lane).session() == session
}

/// Whether any lane that runs has a call of this session.
fn has_call(cluster: &Cluster, session: u32) -> bool
    ensures { result ≡ false → HasNoCall (machine_of [] cluster.now [] []) session }
{
    for at in 0..cluster.lanes() {
        if is_calling(cluster, at + 1, session) {
            return true;
        }
    }
    false
}

/// Whether no order is under way.
fn is_free(cluster: &Cluster) -> bool
    ensures { IsTrue result → cluster.now.monitor ≡ None }
{
    cluster.monitor().is_none()
}

/// Whether a session with this number may make a call.
fn is_idle(cluster: &Cluster, session: u32) -> bool
    ensures { IsTrue result → IsSession session × IsOpen cluster.now session
        × HasNoCall (machine_of [] cluster.now [] []) session }
{
    is_session(session) && !cluster.is_closed(session) && !has_call(cluster, session)
}

/// Whether an access failed.
fn is_fault(acted: &Acted) -> bool
    ensures { result ≡ failed acted.now }
{
    match acted {
        Acted::Fault => true,
        _ => false,
    }
}

/// Whether a put was made.
fn is_made_put(acted: &Acted) -> bool {
    match acted {
        Acted::Lane(Turn::Done(Answer::Made { .. })) => true,
        _ => false,
    }
}

/// The list of the accesses that fail: this one, if any.
fn listed(
    rt: &impl Abort,
    alloc: Global,
    failing: Option<(u64, bool)>,
) -> Result<Vec<(u64, bool)>, Fail>
    ensures { IfOk result (λ list. Ascend list.items) }
{
    let Some((number, done)) = failing else {
        return Ok(Vec::new(alloc));
    };
    assert!(rt; 0 < number);
    Ok(vec![in alloc; (number, done)]?)
}

impl Play {
    /// A formatted pool with no lane. The access with this number, if any, fails, and is then done or not done.
    pub fn new(rt: &impl Abort, alloc: Global, failing: Option<(u64, bool)>) -> Result<Play, Fail> {
        let failing = listed(rt, alloc, failing)?;
        let mut pool = Plain::new(alloc, SEGMENTS, failing)?;
        let cluster = Cluster::new(alloc, SEGMENTS)?;
        let formatted = cluster.format(&mut pool);
        assert!(rt; !is_fault(&formatted));
        Ok(Play {
            alloc,
            pool,
            cluster,
            accesses: 1,
        })
    }

    /// How many accesses were made.
    pub fn accesses(&self) -> u64 {
        self.accesses
    }

    /// The word at a place of the pool.
    pub fn word(&self, rt: &impl Abort, at: u32) -> u64 {
        assert!(rt; at < self.pool.size());
        self.pool.word(at)
    }

    /// An actor makes its next action.
    pub fn act(&mut self, rt: &impl Abort, actor: Actor) -> Acted {
        let acted = self.cluster.act(&mut self.pool, actor);
        self.accesses = self.accesses.saturating_add(1);
        assert!(rt; !is_fault(&acted));
        acted
    }

    /// Makes the next lane.
    fn add_lane(&mut self, rt: &impl Abort, lane: u8) {
        assert_eq!(rt; self.cluster.add_lane(), Ok(lane));
    }

    /// Gives the monitor, which has no order, this one.
    fn order(&mut self, rt: &impl Abort, order: Order, live: &[u8])
        requires order { IsOrder order }
        requires formatted { (segments : ℕ) → order ≡ Order.Format segments → ⊥ }
        requires rising { IsStrictlyIncreasing live.now }
        requires lanes { All (λ lane. (1 ≤ lane) × (lane < 64)) live.now }
    {
        assert!(rt; is_free(&self.cluster));
        self.cluster.give_order(order, live);
    }

    /// The monitor is to give a slot to a lane.
    fn grant(&mut self, rt: &impl Abort, slot: u8, to: u8) {
        assert!(rt; slot < 64);
        assert!(rt; 0 < to && to < 64);
        self.order(rt, Order::Move { slot, to }, &[]);
    }

    /// The monitor makes a lane the owner of a slot.
    pub fn own(&mut self, rt: &impl Abort, lane: u8, slot: u8) {
        self.grant(rt, slot, lane);
        for _ in 0..10 {
            if is_free(&self.cluster) {
                return;
            }
            self.act(rt, Actor::Monitor);
        }
        panic!(rt; "the slot is granted");
    }

    /// Makes the next lane, which owns a slot.
    pub fn lane(&mut self, rt: &impl Abort, lane: u8, slot: u8) {
        self.add_lane(rt, lane);
        self.own(rt, lane, slot);
    }

    /// Gives a lane that runs the next call of a session that has none.
    fn ask(&mut self, rt: &impl Abort, session: u32, lane: u8, call: &Call) -> Result<(), Refuse> {
        let key = key_in(call);
        assert!(rt; is_call(call));
        assert!(rt; is_idle(&self.cluster, session));
        assert!(rt; runs(&self.cluster, lane));
        let calls = self.cluster.session(session).again(key).number;
        assert!(rt; calls < u32::MAX);
        let view = self.cluster.number(session, key);
        assert!(rt; view.hint.is_none());
        self.cluster.give_call(lane, &view, call)
    }

    /// A lane puts `a` on a key, for session 1.
    pub fn put(&mut self, rt: &impl Abort, lane: u8, key: u64) -> Result<(), Fail> {
        let value = Value::from_bytes(self.alloc, b"a")?;
        let put = Call::Put { key, value };
        assert_eq!(rt; self.ask(rt, 1, lane, &put), Ok(()));
        for _ in 0..100 {
            if is_made_put(&self.act(rt, Actor::Lane(lane))) {
                return Ok(());
            }
        }
        panic!(rt; "the put is made");
    }

    /// Drains a lane. After a fault its merger is renewed.
    pub fn drain(&mut self, rt: &impl Abort, lane: u8) -> Result<Merged, DrainFault> {
        assert!(rt; is_made(&self.cluster, lane));
        match drain(&mut self.cluster, &mut self.pool, lane) {
            Ok(merged) => Ok(merged),
            Err(fault) => {
                self.cluster.renew(lane);
                Err(fault)
            }
        }
    }

    /// Drains all lanes. After a fault the merger of that lane is renewed.
    pub fn drain_all(&mut self, rt: &impl Abort, ended: &mut [Merged]) -> Result<(), LaneFault> {
        assert!(rt; ended.len() == usize::from(self.cluster.lanes()));
        match drain_all(&mut self.cluster, &mut self.pool, ended) {
            Ok(()) => Ok(()),
            Err(fault) => {
                self.cluster.renew(fault.lane);
                Err(fault)
            }
        }
    }
}
