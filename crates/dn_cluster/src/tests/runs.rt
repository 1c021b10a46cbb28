//! Two lanes with their mergers, the monitor and three sessions in a random order.

ghost use Rattle.std.specs.Prelude.{◌<◌};

use super::histories::History;
use super::plays::Play;
use super::{KEYS, SEGMENTS, SLOTS};
use crate::{Acted, Actor};
use dn_hist::Call;
use dn_lane::{Answer, Turn};
use dn_merge::MergeTurn;
use dn_tend::TaskAnswer;
use dn_word::{Value, slot_of};
use rand_pcg::Pcg32;
use rand_pcg::rand_core::Rng;
use std::alloc::Global;
use std::process::Abort;
use std::test::Fail;

/// A play with the receipts that came of it. Where it compares, the pool's map is what they leave, after each action.
#[derive(Drop)]
pub struct Run {
    alloc: Global,
    play: Play,
    history: History,
    rng: Pcg32,
    actions: u32,
    puts: u8,
    releases: u32,
    heir: u8,
    compares: bool,
}

impl Run {
    /// Lanes 1 and 2 run, and lane 1 has all slots.
    pub fn new(rt: &impl Abort, alloc: Global, seed: u64) -> Result<Run, Fail> {
        let mut play = Play::new(rt, alloc, SEGMENTS)?;
        assert_eq!(rt; play.add_lane(), Ok(1));
        assert_eq!(rt; play.add_lane(), Ok(2));
        let mut run = Run {
            alloc,
            play,
            history: History::new(alloc),
            rng: Pcg32::new(seed, 1),
            actions: 0,
            puts: 0,
            releases: 0,
            heir: 1,
            compares: false,
        };
        for slot in SLOTS {
            run.play.grant(rt, slot, 1);
            run.finish_order(rt)?;
        }
        Ok(run)
    }

    /// A random number below another.
    fn below(&mut self, count: u32) -> u32
        requires { 0 < count }
        ensures { result < count }
    {
        self.rng.next_u32() % count
    }

    /// A random key.
    fn key(&mut self) -> u64 {
        KEYS[self.below(8) as usize]
    }

    /// A random slot, of which most are slot 3.
    fn slot(&mut self) -> u8 {
        SLOTS[self.below(6).saturating_sub(3) as usize]
    }

    /// A random lane.
    fn lane(&mut self) -> u8 {
        1 + self.below(2) as u8
    }

    /// A value of one to three words that no other of the last 256 puts has.
    fn value(&mut self) -> Result<Value, Fail> {
        let len = 1 + self.below(24) as usize;
        self.puts = self.puts.wrapping_add(1);
        let bytes = vec![in self.alloc; self.puts; len]?;
        Ok(Value::from_bytes(self.alloc, bytes.as_slice())?)
    }

    /// A random call on a key: of four, one is a get, one a delete and two are puts.
    fn call(&mut self, key: u64) -> Result<Call, Fail> {
        Ok(match self.below(4) {
            0 => Call::Get { key },
            1 => Call::Delete { key },
            _ => Call::Put {
                key,
                value: self.value()?,
            },
        })
    }

    /// What came of an action.
    fn saw(&mut self, rt: &impl Abort, acted: Acted) -> Result<(), Fail> {
        match acted {
            Acted::Nothing => return Ok(()),
            Acted::Lane(Turn::Done(answer)) => self.answered(rt, answer)?,
            Acted::Lane(Turn::Tended(answer)) => {
                if answer == TaskAnswer::Released {
                    self.releases = self.releases.saturating_add(1);
                }
            }
            Acted::Merger(turn) => assert!(rt; !is_full(turn)),
            Acted::Lane(Turn::More) | Acted::Monitor(_) | Acted::Session { .. } => {}
            Acted::Fault => panic!(rt; "no access fails"),
        }
        self.actions = self.actions.saturating_add(1);
        if self.compares {
            self.history.is_of(rt, self.alloc, &self.play)?;
        }
        Ok(())
    }

    /// A call ended: it was made, or its lane isn't the owner.
    fn answered(&mut self, rt: &impl Abort, answer: Answer) -> Result<(), Fail> {
        match answer {
            Answer::Made { receipt, .. } => self.history.add(rt, receipt),
            Answer::NotOwner { .. } => Ok(()),
            _ => panic!(rt; "a call is made or refused"),
        }
    }

    /// An actor makes its next action.
    fn act(&mut self, rt: &impl Abort, actor: Actor) -> Result<(), Fail> {
        let acted = self.play.act(rt, actor);
        self.saw(rt, acted)
    }

    /// A random staged word of a lane flows.
    fn flow(&mut self, rt: &impl Abort, lane: u8) -> Result<(), Fail> {
        let index = self.below(5);
        let acted = self.play.flow(rt, lane, index);
        self.saw(rt, acted)
    }

    /// A session that has no call makes one at the lane that it knows as the owner, or looks who that is.
    fn ask(&mut self, rt: &impl Abort, session: u32) -> Result<(), Fail> {
        let key = self.key();
        let slot = slot_of(key);
        let lane = self.play.route(rt, session, slot);
        if self.below(4) == 0 || lane == 0 {
            self.play.load(rt, session, slot);
        } else if self.play.is_idle(session) && self.play.runs(lane) && !self.play.works(lane) {
            let call = self.call(key)?;
            assert_eq!(rt; self.play.ask(rt, session, lane, &call), Ok(()));
        }
        Ok(())
    }

    /// A lane that has nothing under way is to give up a slot, or to forget its merged records.
    fn tend(&mut self, rt: &impl Abort, lane: u8) {
        if !self.play.runs(lane) || self.play.works(lane) {
            return;
        }
        let begun = if self.below(4) == 0 {
            self.play.trim(rt, lane)
        } else {
            let slot = self.slot();
            self.play.release(rt, lane, slot)
        };
        assert_eq!(rt; begun, Ok(()));
    }

    /// The monitor, where it has no order, is to give a slot to the lane that was granted none the last time.
    fn order(&mut self, rt: &impl Abort) {
        if !self.play.has_order() {
            let slot = self.slot();
            self.heir = if self.heir == 1 { 2 } else { 1 };
            self.play.grant(rt, slot, self.heir);
        }
    }

    /// A session is told the last receipt's position.
    fn tell(&mut self, rt: &impl Abort, session: u32) {
        if let Some(position) = self.history.last() {
            self.play.tell(rt, session, position);
        }
    }

    /// Now and then the next action of a merger or of the monitor fails.
    fn fault(&mut self, rt: &impl Abort, lane: u8) -> Result<(), Fail> {
        let done = self.below(2) == 1;
        match self.below(8) {
            0 => self.play.fail_merger(rt, lane, done),
            1 | 2 if self.play.has_order() => self.play.fail_monitor(rt, done),
            _ => return Ok(()),
        }
        self.history.is_of(rt, self.alloc, &self.play)
    }

    /// One of all of them is next.
    pub fn turn(&mut self, rt: &impl Abort) -> Result<(), Fail> {
        let lane = self.lane();
        let session = 1 + self.below(3);
        match self.below(27) {
            0 | 1 | 2 | 3 | 4 | 5 | 6 | 7 | 8 | 9 => self.act(rt, Actor::Lane(lane))?,
            10 | 11 | 12 => self.act(rt, Actor::Merger(lane))?,
            13 | 14 => self.act(rt, Actor::Monitor)?,
            15 => self.act(rt, Actor::Session(session))?,
            16 => self.flow(rt, lane)?,
            17 | 18 | 19 | 20 => self.ask(rt, session)?,
            21 | 22 => self.tend(rt, lane),
            23 | 24 => self.order(rt),
            25 => self.fault(rt, lane)?,
            _ => self.tell(rt, session),
        }
        Ok(())
    }

    /// From now on the maps are compared after each action.
    pub fn compare(&mut self) {
        self.compares = true;
    }

    /// Turns until so many actions are made.
    pub fn turns(&mut self, rt: &impl Abort, actions: u32) -> Result<(), Fail> {
        for _ in 0..100000 {
            if self.actions >= actions {
                return Ok(());
            }
            self.turn(rt)?;
        }
        panic!(rt; "somebody acts");
    }

    /// The monitor goes on until its order ends.
    fn finish_order(&mut self, rt: &impl Abort) -> Result<(), Fail> {
        for _ in 0..1000 {
            if !self.play.has_order() {
                return Ok(());
            }
            self.act(rt, Actor::Monitor)?;
        }
        panic!(rt; "the order ends");
    }

    /// A lane goes on until nothing is under way there.
    fn finish_lane(&mut self, rt: &impl Abort, lane: u8) -> Result<(), Fail> {
        for _ in 0..1000 {
            if !self.play.works(lane) {
                return Ok(());
            }
            self.act(rt, Actor::Lane(lane))?;
        }
        panic!(rt; "the plan ends");
    }

    /// A merger goes on until all that its lane sealed is merged.
    fn merge(&mut self, rt: &impl Abort, lane: u8) -> Result<(), Fail> {
        for _ in 0..10000 {
            let acted = self.play.act(rt, Actor::Merger(lane));
            let idle = is_merged(&acted);
            self.saw(rt, acted)?;
            if idle {
                return Ok(());
            }
        }
        panic!(rt; "all is merged");
    }

    /// A slot comes to a lane that runs, which gives it up first where it was asked to.
    fn bring(&mut self, rt: &impl Abort, slot: u8, lane: u8) -> Result<(), Fail> {
        self.play.grant(rt, slot, lane);
        for _ in 0..10 {
            if !self.play.has_order() {
                return Ok(());
            }
            for _ in 0..6 {
                self.act(rt, Actor::Monitor)?;
            }
            assert_eq!(rt; self.play.release(rt, lane, slot), Ok(()));
            self.finish_lane(rt, lane)?;
            self.merge(rt, lane)?;
        }
        panic!(rt; "the slot is granted");
    }

    /// A lane is stopped. What its next action would end doesn't come to stand.
    pub fn stop(&mut self, rt: &impl Abort, lane: u8) -> Result<(), Fail> {
        self.play.stop(lane);
        self.history.is_of(rt, self.alloc, &self.play)
    }

    /// The next action of a lane fails, and it is stopped. The put or delete that this ends stands where it was done.
    pub fn fail(&mut self, rt: &impl Abort, lane: u8, done: bool) -> Result<(), Fail> {
        let ending = self.play.fail(rt, lane, done);
        if let Some(receipt) = ending
            && done
        {
            self.history.add(rt, receipt)?;
        }
        self.history.is_of(rt, self.alloc, &self.play)
    }

    /// A lane that was stopped is fenced, what it sealed is merged, and its slots go to the other lane.
    pub fn take_over(&mut self, rt: &impl Abort, lane: u8, heir: u8) -> Result<(), Fail> {
        self.play.drop_order();
        self.finish_lane(rt, heir)?;
        self.play.fence(rt, lane);
        self.finish_order(rt)?;
        self.merge(rt, lane)?;
        self.play.take_over(rt, lane, heir);
        self.finish_order(rt)?;
        for slot in SLOTS {
            self.bring(rt, slot, heir)?;
        }
        Ok(())
    }

    /// A session reads all keys at a lane that has their slots.
    pub fn read(&mut self, rt: &impl Abort, session: u32, lane: u8) -> Result<(), Fail> {
        for key in KEYS {
            let before = self.history.len();
            let get = Call::Get { key };
            assert_eq!(rt; self.play.ask(rt, session, lane, &get), Ok(()));
            self.finish_lane(rt, lane)?;
            assert!(rt; self.history.len() > before);
        }
        assert!(rt; self.history.is_legal());
        Ok(())
    }

    /// Whether a lane runs and has something under way.
    pub fn works(&self, lane: u8) -> bool {
        self.play.works(lane)
    }

    /// How many receipts came.
    pub fn receipts(&self) -> usize {
        self.history.len()
    }

    /// How often a lane gave up a slot.
    pub fn releases(&self) -> u32 {
        self.releases
    }

    /// Each reply is that of the plain map.
    pub fn is_legal(&self) -> bool {
        self.history.is_legal()
    }
}

/// Whether the index has no bucket left.
fn is_full(turn: MergeTurn) -> bool {
    match turn {
        MergeTurn::IndexFull { .. } => true,
        _ => false,
    }
}

/// Whether the merger found that all is merged.
fn is_merged(acted: &Acted) -> bool {
    match acted {
        Acted::Merger(MergeTurn::Idle { .. }) => true,
        _ => false,
    }
}

/// Slots go back and forth between two lanes while three sessions call, in five orders of 5,000 actions. Actions of
/// mergers and of the monitor fail at times.
#[test]
fn slots_come_and_go(rt: HostRuntime) -> Result<(), Fail> {
    for seed in 0..5u64 {
        let mut run = Run::new(&rt, rt.alloc(), seed)?;
        run.compare();
        run.turns(&rt, 5000)?;
        assert!(rt; run.receipts() > 40);
        assert!(rt; run.releases() > 10);
        assert!(rt; run.is_legal());
    }
    Ok(())
}
