ghost use Rattle.std.specs.Prelude.{◌≡◌, ◌<◌, ◌^◌, ℕ, List, [], length, IfOk, IfErr, OnOk, OnErr};
ghost use Rattle.dn_outcomes.specs.declared.events.Event.TheVariants as Given;
ghost use Rattle.dn_world.specs.Comes.{OnDone, CountsFault};
ghost use Rattle.dn_drain.specs.Acted.{LeavesActors};
ghost use Rattle.dn_drain.specs.All.{AreDrained};
ghost use Rattle.dn_drain.specs.Leaves.{LeavesLogs};
ghost use Rattle.dn_world.specs.Finishes.{Finishes, IsFinishFault, CountsFinish, HaveEnded, ended_at};
ghost use Rattle.dn_world.specs.Happens.{CanBeSound, MayBeGiven, Happens};

mod openings;

use crate::crews::Crew;
use crate::finishes::{FinishFault, fault_by};
use dn_act::Memory;
use dn_drain::Merged;
use dn_hist::Receipt;
use dn_outcomes::{Event, Outcome};
use dn_word::OutOfMemory;
use std::marker::Model;

/// A receipt that stands, and whether its session was answered it.
#[derive(Drop)]
pub struct Standing {
    /// The call, its reply and its place in the history.
    pub receipt: Receipt,
    /// Whether an outcome told that the call was made.
    pub answered: bool,
}

/// A world: a cluster with the calls and tasks that wait for its lanes, the receipts that stand, and what the last drain of
/// its lanes ended with. The words of the pool are handed to each call.
#[derive(Drop)]
pub struct World {
    crew: Crew,
    standing: Vec<Standing>,
    ended: Vec<Merged>,
}

impl Model for World {
    ghost use Rattle.dn_world.specs.State.{WorldState};

    ghost Value = { WorldState };

    ghost use Rattle.dn_world.specs.Inside.{world_in};

    ghost view = { world_in };
}

impl World {
    /// Does one event. What comes of it is `does` of `dn_outcomes`, a function of the world, the words of the pool and the
    /// event, and besides, for a takeover, of the live lanes' ring; the world is sound after it. The words are those that
    /// the world's events left. [`Event`] has the conditions of each event and its refusals, and [`Outcome`] what they mean.
    ///
    /// A receipt comes to stand, as the last one and answered, exactly where the outcome is `Answered` by `Made`.
    ///
    /// Want of memory changes nothing: no access was tried. `Fault` comes exactly where the access to the pool
    /// failed; then the action was done or not done, and nothing is said of the world after it.
    // Who gives an event names its kind, so that the choice among kinds is made before the program runs.
    #[inline(always)]
    pub fn event<M: Memory>(&mut self, mem: &mut M, event: Event) -> Result<Outcome, OutOfMemory>
        requires can { CanBeSound (M.words mem.old) self.old }
        requires event { MayBeGiven self.old event }
        ensures happens { IfOk result (λ outcome. OnDone outcome (Happens (M.words mem.old)
            self.old (M.words mem.new) self.new event outcome)) }
        ensures count { IfOk result (λ outcome. CountsFault outcome (M.faults mem.old)
            (M.faults mem.new)) }
        ensures same { OnErr result (self.new ≡ self.old) }
        ensures words { OnErr result (M.words mem.new ≡ M.words mem.old) }
        ensures faults { OnErr result (M.faults mem.new ≡ M.faults mem.old) }
        ensures ended { self.new.ended ≡ self.old.ended }
    {
        match event {
            Event::Step { lane } => self.step(mem, lane),
            other => self.do_event(mem, other),
        }
    }

    /// A lane makes its next action: the event that comes most often, by itself. All on its way to the lane is carried out in
    /// place, since each call would hand an outcome on through memory. Receipts go where they stand from where calls end.
    #[inline(always)]
    fn step<M: Memory>(&mut self, mem: &mut M, lane: u8) -> Result<Outcome, OutOfMemory>
        requires can { CanBeSound (M.words mem.old) self.old }
        ensures happens { IfOk result (λ outcome. OnDone outcome (Happens (M.words mem.old)
            self.old (M.words mem.new) self.new (Given.Step lane) outcome)) }
        ensures count { IfOk result (λ outcome. CountsFault outcome (M.faults mem.old)
            (M.faults mem.new)) }
        ensures same { OnErr result (self.new ≡ self.old) }
        ensures words { OnErr result (M.words mem.new ≡ M.words mem.old) }
        ensures faults { OnErr result (M.faults mem.new ≡ M.faults mem.old) }
        ensures ended { self.new.ended ≡ self.old.ended }
    {
        self.standing.reserve(1)?;
        self.crew.step(mem, lane, &mut self.standing)
    }

    /// Does one event, whatever it is.
    #[inline(never)]
    fn do_event<M: Memory>(&mut self, mem: &mut M, event: Event) -> Result<Outcome, OutOfMemory>
        requires can { CanBeSound (M.words mem.old) self.old }
        requires event { MayBeGiven self.old event }
        ensures happens { IfOk result (λ outcome. OnDone outcome (Happens (M.words mem.old)
            self.old (M.words mem.new) self.new event outcome)) }
        ensures count { IfOk result (λ outcome. CountsFault outcome (M.faults mem.old)
            (M.faults mem.new)) }
        ensures same { OnErr result (self.new ≡ self.old) }
        ensures words { OnErr result (M.words mem.new ≡ M.words mem.old) }
        ensures faults { OnErr result (M.faults mem.new ≡ M.faults mem.old) }
        ensures ended { self.new.ended ≡ self.old.ended }
    {
        self.standing.reserve(1)?;
        self.crew.event(mem, event, &mut self.standing)
    }

    /// Ends a world: the merger of each lane that was made acts until all is merged that the lane has sealed, up to its first
    /// answer of that by a gate which was loaded in this call; lanes in the order of their numbers. Nobody else acts: a call
    /// without an answer gets none, and a staged word doesn't reach the pool. All that happens is a run of events `Merge`. The
    /// world is sound after it with what was told before, and the words hold the map that they held.
    ///
    /// `IndexFull` comes exactly where a merger answers so, and ends it; `counter` is at least 4,096. The world is as after
    /// the events `Merge` up to that one: sound, with the same map. `Pool` comes exactly where an access failed; then the
    /// mergers are as before that action, which was done or not done, and the world is not known to be sound. `OutOfMemory`
    /// comes before any action, and changes nothing.
    ///
    /// Whatever comes, receipts, what waits, live lanes, sessions, lanes and the monitor stay, and all words but the lanes'
    /// merged marks, the overflow counter and the index. After a fault [`World::ended`] tells what it did before.
    pub fn finish<M: Memory>(&mut self, mem: &mut M) -> Result<(), FinishFault>
        requires can { CanBeSound (M.words mem.old) self.old }
        ensures finishes { OnOk result (Finishes (M.words mem.old) self.old (M.words mem.new)
            self.new (length self.old.crew.cluster.nodes)) }
        ensures drained { OnOk result (AreDrained (M.words mem.old) self.old.crew.cluster
            (length self.old.crew.cluster.nodes) (M.words mem.new) self.new.crew.cluster) }
        ensures ended { OnOk result (HaveEnded (M.words mem.new)
            (length self.old.crew.cluster.nodes) self.new.ended) }
        ensures places { OnOk result (length self.new.ended
            ≡ length self.old.crew.cluster.nodes) }
        ensures fault { IfErr result (IsFinishFault (M.words mem.old) self.old (M.words mem.new)
            self.new) }
        ensures still { OnErr result (self.new.ended ≡ self.old.ended) }
        ensures words { LeavesLogs (M.words mem.old) (M.words mem.new) }
        ensures actors { LeavesActors self.old.crew.cluster self.new.crew.cluster }
        ensures segments { self.new.crew.cluster.segments ≡ self.old.crew.cluster.segments }
        ensures lanes { length self.new.crew.cluster.nodes ≡ length self.old.crew.cluster.nodes }
        ensures waiting { self.new.crew.waiting ≡ self.old.crew.waiting }
        ensures live { self.new.crew.live ≡ self.old.crew.live }
        ensures history { self.new.history ≡ self.old.history }
        ensures count { OnOk result (M.faults mem.new ≡ M.faults mem.old) }
        ensures faults { IfErr result (CountsFinish (M.faults mem.old) (M.faults mem.new)) }
    {
        let alloc = *self.ended.allocator();
        let lanes = usize::from(self.crew.made());
        let Ok(mut ended) = vec![in alloc; Merged { gate: 0, mark: 0 }; lanes] else {
            return Err(FinishFault::OutOfMemory);
        };
        match self.crew.drain(mem, &mut ended) {
            Ok(()) => {
                self.ended = ended;
                Ok(())
            }
            Err(at) => Err(fault_by(at.fault)),
        }
    }

    /// The words of a lane's gate and merged mark, in that order, with which the last `finish` that went through has ended:
    /// the mark is the gate's length, in words of the lane's log. Both are 0 for a lane that wasn't made then, and where no
    /// `finish` went through.
    pub fn ended(&self, lane: u8) -> (u64, u64)
        ensures { result ≡ ended_at self.now.ended lane }
    {
        if lane == 0 {
            return (0, 0);
        }
        match self.ended.get(usize::from(lane - 1)) {
            Some(merged) => (merged.gate, merged.mark),
            None => (0, 0),
        }
    }
}
