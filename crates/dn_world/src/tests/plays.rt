//! A world with a pool of which no access fails. What a caller gets wrong fails the test.

ghost use Rattle.std.specs.Prelude.{◌≡◌, ◌<◌, ◌≤◌, ◌-◌, ◌^◌, ℕ, IsTrue};
ghost use Rattle.dn_callers.specs.Sessions.{IsSession};
ghost use Rattle.dn_cluster.specs.Machine.{session_at};
ghost use Rattle.dn_lanes.specs.Begun.{IsOwnTask};
ghost use Rattle.dn_lanes.specs.Calls.{IsCall};
ghost use Rattle.dn_monitor.specs.Monitor.{IsOrder};
ghost use Rattle.dn_record.specs.Grammar.{IsValue};
ghost use Rattle.dn_world.specs.Happens.{MayBeGiven, IsNoFormat};

use crate::World;
use dn_act::Sound;
use dn_hist::{Call, Reply};
use dn_monitor::Order;
use dn_outcomes::{Event, Outcome};
use dn_tend::Task;
use dn_word::Value;
use std::alloc::Global;
use std::marker::Model;
use std::process::Abort;
use std::test::Fail;

/// How many segments the pool has.
const SEGMENTS: u32 = 80;

/// More actions than any call, task or order has here.
const MANY: u32 = 100;

/// What a session asks of key 5.
#[derive(Clone, Copy)]
pub enum Ask {
    /// Its value.
    Get,
    /// To have a value of this byte.
    Put(u8),
}

/// What a world is given.
#[derive(Clone, Copy)]
pub enum Line {
    /// A session starts a call, perhaps at a lane that is named.
    Start(u32, Option<u8>, Ask),
    /// A session loads the deed that its call waits for.
    Load(u32),
    /// A lane makes its next action.
    Step(u8),
    /// A lane acts up to an outcome other than `Acted`.
    Run(u8),
    /// A staged word of a lane flows.
    Flow(u8, u32),
    /// The merger of a lane makes its next action.
    Merge(u8),
    /// The monitor makes its next action.
    Monitor,
    /// The monitor acts up to an outcome other than `Acted`.
    Watch,
    /// The monitor is given an order.
    Give(Order),
    /// A task arrives at a lane.
    Queue(u8, Task),
    /// A lane is added.
    Add,
    /// A session's last position is told to another.
    Tell(u32, u32),
}

/// A world that can be sound over the words of its pool.
#[derive(Drop)]
pub struct Play {
    alloc: Global,
    pool: Sound,
    world: World,
}

impl Model for Play {
    ghost use Rattle.dn_world.specs.Happens.{CanBeSound};
    ghost use Rattle.dn_world.specs.State.{WorldState};

    ghost Value = { WorldState };

    ghost view = { λ play. play.world };

    ghost invariant = { λ play. CanBeSound play.pool play.world };
}

/// Whether bytes are few enough for a value.
fn is_value(bytes: &[u8]) -> bool
    ensures { IsTrue result → IsValue bytes.now }
{
    bytes.len() <= 1024
}

/// Whether it is a call on a key.
fn is_call(call: &Call) -> bool
    ensures { IsTrue result → IsCall call.now }
{
    match call {
        Call::Get { key } | Call::Delete { key } => *key != 0,
        Call::Put { key, value } => *key != 0 && is_value(value.as_bytes()),
    }
}

/// Whether a session has this number.
fn is_session(session: u32) -> bool
    ensures { IsTrue result → IsSession session }
{
    1 <= session && session <= 1000
}

/// Whether a monitor may have this order.
fn is_order(order: Order) -> bool
    ensures order { IsTrue result → IsOrder order }
    ensures formatted { IsTrue result → IsNoFormat order }
{
    match order {
        Order::Format { .. } => false,
        Order::Look { slot } => slot < 64,
        Order::Move { slot, to } => slot < 64 && 0 < to && to < 64,
        Order::Fence { lane } | Order::Takeover { lane } => 0 < lane && lane < 64,
    }
}

/// Whether it is a task of a lane's own slots and log.
fn is_own(task: Task) -> bool
    ensures { IsTrue result → IsOwnTask task }
{
    match task {
        Task::Release { slot } => slot < 64,
        Task::Trim => true,
        Task::Share { .. } | Task::Unshare { .. } => false,
    }
}

impl Play {
    /// A world of so many nodes, which own all slots.
    pub fn new(rt: &impl Abort, alloc: Global, nodes: u8) -> Result<Play, Fail> {
        assert!(rt; 1 <= nodes && nodes <= 63);
        let mut pool = Sound::new(alloc, SEGMENTS)?;
        let world = World::open(alloc, &mut pool, SEGMENTS, nodes)?;
        Ok(Play { alloc, pool, world })
    }

    /// The world does an event.
    fn event(&mut self, rt: &impl Abort, event: Event) -> Outcome
        requires { MayBeGiven self.old event }
    {
        let Ok(outcome) = self.world.event(&mut self.pool, event) else {
            panic!(rt; "there is memory");
        };
        outcome
    }

    /// A session starts a call.
    fn start(&mut self, rt: &impl Abort, session: u32, lane: Option<u8>, call: Call) -> Outcome {
        assert!(rt; is_session(session));
        assert!(rt; is_call(&call));
        assert!(rt; self.world.cluster().session(session).again(0).number < u32::MAX);
        self.event(
            rt,
            Event::Start {
                session,
                lane,
                call,
            },
        )
    }

    /// A lane makes its next action.
    fn step(&mut self, rt: &impl Abort, lane: u8) -> Outcome {
        self.event(rt, Event::Step { lane })
    }

    /// A staged word flows.
    fn flow(&mut self, rt: &impl Abort, lane: u8, index: u32) -> Outcome {
        self.event(rt, Event::Flow { lane, index })
    }

    /// A merger makes its next action.
    fn merge(&mut self, rt: &impl Abort, lane: u8) -> Outcome {
        self.event(rt, Event::Merge { lane })
    }

    /// The monitor makes its next action.
    fn monitor(&mut self, rt: &impl Abort) -> Outcome {
        self.event(rt, Event::Monitor)
    }

    /// A session loads the deed that its call waits for.
    fn load(&mut self, rt: &impl Abort, session: u32) -> Outcome {
        assert!(rt; is_session(session));
        self.event(rt, Event::Refresh { session })
    }

    /// The monitor is given an order.
    fn give(&mut self, rt: &impl Abort, order: Order) -> Outcome {
        assert!(rt; is_order(order));
        self.event(rt, Event::Give { order })
    }

    /// A task arrives at a lane.
    fn queue(&mut self, rt: &impl Abort, lane: u8, task: Task) -> Outcome {
        assert!(rt; is_own(task));
        self.event(rt, Event::Queue { lane, task })
    }

    /// A lane is added.
    fn add(&mut self, rt: &impl Abort) -> Outcome {
        self.event(rt, Event::Add)
    }

    /// A session is told another one's last position.
    fn tell(&mut self, rt: &impl Abort, from: u32, to: u32) -> Outcome {
        assert!(rt; is_session(from));
        assert!(rt; is_session(to));
        self.event(rt, Event::Tell { from, to })
    }

    /// The call that a session makes.
    fn call(&self, ask: Ask) -> Result<Call, Fail> {
        match ask {
            Ask::Get => Ok(Call::Get { key: 5 }),
            Ask::Put(byte) => Ok(Call::Put {
                key: 5,
                value: Value::from_bytes(self.alloc, &[byte])?,
            }),
        }
    }

    /// A lane acts up to an outcome other than `Acted`.
    fn run(&mut self, rt: &impl Abort, lane: u8) -> Outcome {
        for _ in 0..MANY {
            let outcome = self.step(rt, lane);
            if outcome != Outcome::Acted {
                return outcome;
            }
        }
        Outcome::Acted
    }

    /// The monitor acts up to an outcome other than `Acted`.
    fn watch(&mut self, rt: &impl Abort) -> Outcome {
        for _ in 0..MANY {
            let outcome = self.monitor(rt);
            if outcome != Outcome::Acted {
                return outcome;
            }
        }
        Outcome::Acted
    }

    /// What a line comes to.
    fn line(&mut self, rt: &impl Abort, line: Line) -> Result<Outcome, Fail> {
        Ok(match line {
            Line::Start(session, lane, ask) => {
                let call = self.call(ask)?;
                self.start(rt, session, lane, call)
            }
            Line::Load(session) => self.load(rt, session),
            Line::Step(lane) => self.step(rt, lane),
            Line::Run(lane) => self.run(rt, lane),
            Line::Flow(lane, index) => self.flow(rt, lane, index),
            Line::Merge(lane) => self.merge(rt, lane),
            Line::Monitor => self.monitor(rt),
            Line::Watch => self.watch(rt),
            Line::Give(order) => self.give(rt, order),
            Line::Queue(lane, task) => self.queue(rt, lane, task),
            Line::Add => self.add(rt),
            Line::Tell(from, to) => self.tell(rt, from, to),
        })
    }

    /// Lines, each with the outcome that it has.
    pub fn lines(&mut self, rt: &impl Abort, lines: &[(Line, Outcome)]) -> Result<(), Fail> {
        for (line, wanted) in lines {
            let outcome = self.line(rt, *line)?;
            assert_eq!(rt; outcome, *wanted);
        }
        Ok(())
    }

    /// So many steps of a lane, none of which ends what it does.
    pub fn steps(&mut self, rt: &impl Abort, lane: u8, count: u32) {
        for _ in 0..count {
            assert_eq!(rt; self.step(rt, lane), Outcome::Acted);
        }
    }

    /// The receipts that stand, all answered, have these positions, in the order in which they came.
    pub fn stands(&self, rt: &impl Abort, positions: &[(u32, u32, u32)]) {
        let history = self.world.history();
        assert_eq!(rt; history.len(), positions.len());
        for (standing, position) in history.iter().zip(positions) {
            let at = standing.receipt.position;
            assert!(rt; standing.answered);
            assert_eq!(rt; (at.stamp, at.rank, at.session), *position);
        }
    }

    /// Whether the last receipt has found a value of this one byte.
    pub fn has_found(&self, byte: u8) -> bool {
        match self.world.history().last() {
            Some(standing) => match &standing.receipt.reply {
                Reply::Value(value) => value.as_bytes() == [byte].as_slice(),
                _ => false,
            },
            None => false,
        }
    }

    /// All that the lanes have sealed is merged.
    pub fn finish(&mut self, rt: &impl Abort) {
        let Ok(()) = self.world.finish(&mut self.pool) else {
            panic!(rt; "all is merged");
        };
    }

    /// What a lane has ended with.
    pub fn ended(&self, lane: u8) -> (u64, u64) {
        self.world.ended(lane)
    }

    /// The live lanes.
    pub fn live(&self) -> &[u8] {
        self.world.live()
    }
}
