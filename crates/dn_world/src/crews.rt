//! A cluster with what waits for its lanes: everything of a world but the receipts that stand.

ghost use Rattle.std.specs.Prelude.{◌≡◌, ◌≢◌, ◌==◌, ◌<◌, ◌≤◌, ◌-◌, ◌^◌, ◌++◌, [], ℕ, not, List, Option, Some, None, true, false, length, map, vec_len, vec_capacity, IfOk, IfErr, IsSome, OnOk, OnErr};
ghost use Rattle.std.specs.List.{list_any, filter};
ghost use Rattle.std.specs.Option.{option_copied};
ghost use Rattle.dn_route.specs.CallersOrder.{Told};
ghost use Rattle.dn_callers.specs.Callers.{Standing as Stands};
ghost use Rattle.dn_callers.specs.Sessions.{IsSession};
ghost use Rattle.dn_cluster.specs.Machine.{session_at, IsMade, Runs};
ghost use Rattle.dn_hist.specs.declared.receipts.SessionView.{SessionView as View};
ghost use Rattle.dn_outcomes.specs.Going.{goes_on, ends, told_of, end_of, slot_at, called, is_given};
ghost use Rattle.dn_outcomes.specs.Starts.{start, refresh, routes};
ghost use Rattle.dn_outcomes.specs.State.{is_made, is_live, may_name, on_lane, with_event};
ghost use Rattle.dn_outcomes.specs.Awaited.{next_by};
ghost use Rattle.dn_outcomes.specs.Does.{queues, adds, tells};
ghost use Rattle.dn_outcomes.specs.Orders.{monitor, release, unlive, may_order};
ghost use Rattle.dn_outcomes.specs.Steps.{step, acts, by_turn, flow, merge, told_by as merged_by};
ghost use Rattle.dn_monitor.specs.Monitor.{IsOrder};
ghost use Rattle.dn_waiting.specs.Sound.{IsLoading, Shows, IsLane};
ghost use Rattle.dn_lanes.specs.Stepped.{receipt_by, receipt_in};
ghost use Rattle.dn_lane.specs.Refused.{Refuses};
ghost use Rattle.dn_hist.specs.Calls.{key_of};
ghost use Rattle.dn_machine.specs.Events.{Asks};
ghost use Rattle.dn_cluster.specs.Asks.{refused_in};
ghost use Rattle.dn_cluster.specs.Does.{Does, CanBeSound};
ghost use Rattle.dn_waiting.specs.State.{call_of, at_lane};
ghost use Rattle.dn_world.specs.State.{CrewState, world_of};
ghost use Rattle.dn_world.specs.Comes.{CanBeWorld, Can, Turns, Moves, Carries, Comes, Keeps, bare, joining, OnDone, CountsFault, has_failed};
ghost use Rattle.dn_world.specs.Gives.{IsGivenBy};
ghost use Rattle.dn_world.specs.Happens.{MayBeGivenTo, HappensTo};
ghost use Rattle.dn_world.specs.Inside.{stands_as};
ghost use Rattle.dn_drain.specs.Acted.{LeavesActors};
ghost use Rattle.dn_drain.specs.All.{AreDrained, AreMerged, IsLaneFault};
ghost use Rattle.dn_drain.specs.Drained.{IsFullFault, CountsPool};
ghost use Rattle.dn_drain.specs.Leaves.{LeavesLogs};
ghost use Rattle.dn_world.specs.Opening.{MonitorFails};
ghost use Rattle.dn_world.specs.Takes.{IsFree, Takes, begins_at, tends_at, tries_at, IsSessionOf};

mod awaited;
mod openings;

use crate::leaving::{fenced_by, leaves_by, told_by};
use crate::routes::{key_of, lane_or_none};
use crate::worlds::Standing;
use dn_act::{Action, Memory};
use dn_cluster::{Acted, Actor, AddFault, Cluster};
use dn_drain::{LaneFault, Merged, drain_all};
use dn_hist::{Call, SessionView};
use dn_lane::{Answer, Refuse, Turn};
use dn_merge::MergeTurn;
use dn_monitor::Order;
use dn_outcomes::{CallAnswer, Event, Leaving, Outcome};
use dn_tend::{Task, TaskAnswer};
use dn_waiting::{AttemptEnd, Course, Next, OpenCall, Waiting};
use dn_word::{OutOfMemory, slot_of};
pub use openings::Opened;
use std::marker::Model;

/// A cluster, the calls and tasks that wait, and the lanes that are live, which rise.
#[derive(Drop)]
pub struct Crew {
    cluster: Cluster,
    waiting: Waiting,
    live: Vec<u8>,
}

impl Model for Crew {
    ghost use Rattle.dn_world.specs.State.{CrewState};

    ghost Value = { CrewState };

    ghost use Rattle.dn_world.specs.Inside.{state_of};

    ghost view = { state_of };
}

/// The slot of the key of a session's call.
fn slot_at(waiting: &Waiting, session: u32) -> u8
    requires { IsSession session }
    ensures value { result ≡ slot_at (call_of waiting.now session) }
    ensures slot { result < 64 }
{
    match waiting.call(session) {
        Some(call) => slot_of(key_of(&call.call)),
        None => slot_of(0),
    }
}

impl Crew {
    /// Does one event. A receipt that comes to stand by it goes behind those that stand, where there is room for it.
    pub fn event<M: Memory>(
        &mut self,
        mem: &mut M,
        event: Event,
        standing: &mut Vec<Standing>,
    ) -> Result<Outcome, OutOfMemory>
        requires can { CanBeWorld (M.words mem.old) self.old }
        requires event { MayBeGivenTo self.old event }
        requires room { vec_len standing.old < vec_capacity standing.old }
        ensures comes { IfOk result (λ outcome. OnDone outcome (Keeps standing.old.items
            standing.new.items outcome (λ came. HappensTo (M.words mem.old) self.old
            (M.words mem.new) self.new came event))) }
        ensures count { IfOk result (λ outcome. CountsFault outcome (M.faults mem.old)
            (M.faults mem.new)) }
        ensures same { OnErr result (self.new ≡ self.old) }
        ensures kept { OnErr result (standing.new.items ≡ standing.old.items) }
        ensures words { OnErr result (M.words mem.new ≡ M.words mem.old) }
        ensures faults { OnErr result (M.faults mem.new ≡ M.faults mem.old) }
    {
        let outcome = match event {
            Event::Start {
                session,
                lane,
                call,
            } => self.start(session, lane, call),
            Event::Step { lane } => return self.step(mem, lane, standing),
            Event::Flow { lane, index } => self.flow(mem, lane, index),
            Event::Merge { lane } => self.merge(mem, lane),
            Event::Monitor => self.monitor(mem),
            Event::Refresh { session } => self.refresh(mem, session),
            Event::Give { order } => self.give(order),
            Event::DropOrder => self.end_order(),
            Event::Queue { lane, task } => self.queue(lane, task)?,
            Event::Add => self.add()?,
            Event::Tell { from, to } => self.tell(from, to),
        };
        Ok(outcome)
    }

    /// How many lanes were made.
    pub fn made(&self) -> u8
        ensures { result ≡ length self.now.cluster.nodes }
    {
        self.cluster.lanes()
    }

    /// Drains each lane that was made, in the order of their numbers, up to the first fault. `ended` has a place for each.
    pub fn drain<M: Memory>(&mut self, mem: &mut M, ended: &mut [Merged]) -> Result<(), LaneFault>
        requires sound { CanBeSound (M.words mem.old) self.old.cluster }
        requires places { length ended.old ≡ length self.old.cluster.nodes }
        ensures drained { OnOk result (AreDrained (M.words mem.old) self.old.cluster
            (length self.old.cluster.nodes) (M.words mem.new) self.new.cluster) }
        ensures merged { OnOk result (AreMerged (M.words mem.new) (length self.old.cluster.nodes)
            ended.new) }
        ensures fault { IfErr result (IsLaneFault (M.words mem.old) self.old.cluster
            (M.words mem.new) self.new.cluster) }
        ensures full { IfErr result (λ at. IsFullFault (M.words mem.new) at.lane at.fault) }
        ensures words { LeavesLogs (M.words mem.old) (M.words mem.new) }
        ensures actors { LeavesActors self.old.cluster self.new.cluster }
        ensures segments { self.new.cluster.segments ≡ self.old.cluster.segments }
        ensures lanes { length self.new.cluster.nodes ≡ length self.old.cluster.nodes }
        ensures waiting { self.new.waiting ≡ self.old.waiting }
        ensures live { self.new.live ≡ self.old.live }
        ensures count { OnOk result (M.faults mem.new ≡ M.faults mem.old) }
        ensures faults { IfErr result (λ at. CountsPool (M.faults mem.old) (M.faults mem.new)
            at.fault) }
    {
        drain_all(&mut self.cluster, mem, ended)
    }

    /// Whether a lane with this number was made.
    fn is_made(&self, lane: u8) -> bool
        ensures { (words : List ℕ) (told : List Told) (receipts : List Stands)
            → result ≡ is_made (world_of words self.now told receipts) lane }
    {
        0 < lane && lane <= self.cluster.lanes()
    }

    /// Whether a line may name this lane, or none.
    fn may_name(&self, lane: Option<u8>) -> bool
        ensures { (words : List ℕ) (told : List Told) (receipts : List Stands)
            → result ≡ may_name (world_of words self.now told receipts) lane }
    {
        match lane {
            None => true,
            Some(lane) => self.is_made(lane),
        }
    }

    /// A session starts a call.
    pub fn start(&mut self, session: u32, lane: Option<u8>, call: Call) -> Outcome
        requires can { Can self.old }
        requires session { IsSession session }
        requires count { (session_at self.old.cluster session).number < 2 ^ 32 - 1 }
        ensures came { (words : List ℕ) → Carries words self.old words self.new (bare result)
            (λ w. start w session lane call) }
        ensures done { has_failed result ≡ false }
    {
        if !self.may_name(lane) {
            return Outcome::NoLane;
        }
        if self.waiting.call(session).is_some() {
            return Outcome::Busy;
        }
        if self.cluster.is_closed(session) {
            return Outcome::Closed;
        }
        let key = key_of(&call);
        let view = self.cluster.number(session, key);
        let route = lane_or_none(self.cluster.session(session).route(slot_of(key)));
        let course = self.waiting.start(call, view, lane, route);
        self.go_on(session, course);
        Outcome::Numbered {
            number: view.number,
        }
    }

    /// A session's call goes on: where its deed is to be loaded, that is the session's next action.
    fn go_on(&mut self, session: u32, course: Course)
        requires session { IsSession session }
        ensures { Turns self.old self.new (λ w. goes_on w session course) }
    {
        match course {
            Course::Load => {
                let slot = slot_at(&self.waiting, session);
                self.cluster.give_load(session, slot);
            }
            Course::Wait { .. } | Course::Answered | Course::GivenUp => {}
        }
    }

    /// A session loads the deed that its call waits for.
    pub fn refresh<M: Memory>(&mut self, mem: &mut M, session: u32) -> Outcome
        requires can { CanBeWorld (M.words mem.old) self.old }
        requires session { IsSession session }
        ensures came { OnDone result (Carries (M.words mem.old) self.old (M.words mem.new) self.new
            (bare result) (λ w. refresh w session)) }
        ensures count { CountsFault result (M.faults mem.old) (M.faults mem.new) }
    {
        match self.cluster.act(mem, Actor::Session(session)) {
            Acted::Session { .. } => self.routed(session),
            Acted::Fault => Outcome::Fault {
                actor: Actor::Session(session),
            },
            _ => Outcome::Nothing,
        }
    }

    /// A session has loaded the deed that its call waits for.
    fn routed(&mut self, session: u32) -> Outcome
        requires session { IsSession session }
        requires itself { (session_at self.old.cluster session).session ≡ session }
        requires loading { IsLoading (call_of self.old.waiting session) }
        requires number { (view : View)
            → view.number ≡ (session_at self.old.cluster session).number
            → Shows view (call_of self.old.waiting session) }
        ensures came { (words : List ℕ) → Moves words self.old words self.new (bare result)
            (λ w. routes w session (call_of w.waiting session)) }
        ensures done { has_failed result ≡ false }
    {
        let Some(call) = self.waiting.call(session) else {
            return Outcome::Acted;
        };
        let number = call.number;
        let key = key_of(&call.call);
        let caller = self.cluster.session(session);
        let view = caller.again(key);
        let route = lane_or_none(caller.route(slot_of(key)));
        let course = self.waiting.loaded(view, route);
        self.go_on(session, course);
        match course {
            Course::GivenUp => Outcome::GivenUp { session, number },
            Course::Load | Course::Wait { .. } | Course::Answered => Outcome::Acted,
        }
    }

    /// A lane makes its next action.
    #[inline(always)]
    pub fn step<M: Memory>(
        &mut self,
        mem: &mut M,
        lane: u8,
        standing: &mut Vec<Standing>,
    ) -> Result<Outcome, OutOfMemory>
        requires can { CanBeWorld (M.words mem.old) self.old }
        requires room { vec_len standing.old < vec_capacity standing.old }
        ensures came { IfOk result (λ outcome. OnDone outcome (Keeps standing.old.items
            standing.new.items outcome (λ came. Comes (M.words mem.old) self.old (M.words mem.new)
            self.new came (λ w. on_lane w lane (step w lane))))) }
        ensures count { IfOk result (λ outcome. CountsFault outcome (M.faults mem.old)
            (M.faults mem.new)) }
        ensures same { OnErr result (self.new ≡ self.old) }
        ensures kept { OnErr result (standing.new.items ≡ standing.old.items) }
        ensures words { OnErr result (M.words mem.new ≡ M.words mem.old) }
        ensures faults { OnErr result (M.faults mem.new ≡ M.faults mem.old) }
    {
        if !self.is_made(lane) {
            return Ok(Outcome::NoLane);
        }
        if self.cluster.is_stopped(lane) {
            return Ok(Outcome::Nothing);
        }
        if self.cluster.lane(lane).working() {
            return Ok(self.act(mem, lane, standing));
        }
        self.begin_next(mem, lane, standing)
    }

    /// A lane with nothing under way takes up what waits there. Most actions begin nothing.
    #[inline(never)]
    fn begin_next<M: Memory>(
        &mut self,
        mem: &mut M,
        lane: u8,
        standing: &mut Vec<Standing>,
    ) -> Result<Outcome, OutOfMemory>
        requires free { IsFree (M.words mem.old) self.old lane }
        requires room { vec_len standing.old < vec_capacity standing.old }
        ensures came { IfOk result (λ outcome. OnDone outcome (Keeps standing.old.items
            standing.new.items outcome (λ came. Comes (M.words mem.old) self.old (M.words mem.new)
            self.new came (λ w. begins_at w lane)))) }
        ensures count { IfOk result (λ outcome. CountsFault outcome (M.faults mem.old)
            (M.faults mem.new)) }
        ensures same { OnErr result (self.new ≡ self.old) }
        ensures kept { OnErr result (standing.new.items ≡ standing.old.items) }
        ensures words { OnErr result (M.words mem.new ≡ M.words mem.old) }
        ensures faults { OnErr result (M.faults mem.new ≡ M.faults mem.old) }
    {
        match self.waiting.next_for(lane) {
            Next::Rest => Ok(Outcome::Nothing),
            Next::Tend(task) => self.tend(mem, lane, task, standing),
            Next::Try(view) => self.attempt(mem, lane, view, standing),
        }
    }

    /// A lane with nothing under way takes up a task.
    fn tend<M: Memory>(
        &mut self,
        mem: &mut M,
        lane: u8,
        task: Task,
        standing: &mut Vec<Standing>,
    ) -> Result<Outcome, OutOfMemory>
        requires takes { Takes (M.words mem.old) self.old lane (Next.Tend task) }
        requires room { vec_len standing.old < vec_capacity standing.old }
        ensures came { IfOk result (λ outcome. OnDone outcome (Keeps standing.old.items
            standing.new.items outcome (λ came. Comes (M.words mem.old) self.old (M.words mem.new)
            self.new came (λ w. tends_at w lane task)))) }
        ensures count { IfOk result (λ outcome. CountsFault outcome (M.faults mem.old)
            (M.faults mem.new)) }
        ensures same { OnErr result (self.new ≡ self.old) }
        ensures kept { OnErr result (standing.new.items ≡ standing.old.items) }
        ensures words { OnErr result (M.words mem.new ≡ M.words mem.old) }
        ensures faults { OnErr result (M.faults mem.new ≡ M.faults mem.old) }
    {
        match self.cluster.give_task(lane, task) {
            Ok(()) => {
                self.waiting.take_up(lane);
                Ok(self.act(mem, lane, standing))
            }
            Err(Refuse::Fenced { word }) => {
                self.waiting.take_up(lane);
                Ok(Outcome::Tended(TaskAnswer::Fenced { word }))
            }
            Err(_) => Err(OutOfMemory),
        }
    }

    /// A lane with nothing under way takes up an attempt of a call.
    fn attempt<M: Memory>(
        &mut self,
        mem: &mut M,
        lane: u8,
        view: SessionView,
        standing: &mut Vec<Standing>,
    ) -> Result<Outcome, OutOfMemory>
        requires takes { Takes (M.words mem.old) self.old lane (Next.Try view) }
        requires room { vec_len standing.old < vec_capacity standing.old }
        ensures came { IfOk result (λ outcome. OnDone outcome (Keeps standing.old.items
            standing.new.items outcome (λ came. Comes (M.words mem.old) self.old (M.words mem.new)
            self.new came (λ w. tries_at w lane view)))) }
        ensures count { IfOk result (λ outcome. CountsFault outcome (M.faults mem.old)
            (M.faults mem.new)) }
        ensures same { OnErr result (self.new ≡ self.old) }
        ensures kept { OnErr result (standing.new.items ≡ standing.old.items) }
        ensures words { OnErr result (M.words mem.new ≡ M.words mem.old) }
        ensures faults { OnErr result (M.faults mem.new ≡ M.faults mem.old) }
    {
        match self.begin(lane, view) {
            Ok(()) => {
                self.waiting.take_up(lane);
                Ok(self.act(mem, lane, standing))
            }
            Err(Refuse::Fenced { word }) => {
                self.waiting.take_up(lane);
                Ok(self.end(lane, CallAnswer::Fenced { word }))
            }
            Err(_) => Err(OutOfMemory),
        }
    }

    /// A lane carries out its next action.
    #[inline(always)]
    fn act<M: Memory>(&mut self, mem: &mut M, lane: u8, standing: &mut Vec<Standing>) -> Outcome
        requires can { CanBeSound (M.words mem.old) self.old.cluster }
        requires lane { IsLane lane }
        requires session { IsSessionOf (at_lane self.old.waiting lane).begun }
        requires room { vec_len standing.old < vec_capacity standing.old }
        ensures came { OnDone result (Keeps standing.old.items standing.new.items result (λ came.
            Carries (M.words mem.old) self.old (M.words mem.new) self.new came
            (λ w. acts w lane))) }
        ensures count { CountsFault result (M.faults mem.old) (M.faults mem.new) }
    {
        match self.cluster.act(mem, Actor::Lane(lane)) {
            Acted::Lane(turn) => self.turned(lane, turn, standing),
            Acted::Fault => Outcome::Fault {
                actor: Actor::Lane(lane),
            },
            _ => Outcome::Nothing,
        }
    }

    /// A lane has answered.
    #[inline(always)]
    fn turned(&mut self, lane: u8, turn: Turn, standing: &mut Vec<Standing>) -> Outcome
        requires lane { IsLane lane }
        requires session { IsSessionOf (at_lane self.old.waiting lane).begun }
        requires room { vec_len standing.old < vec_capacity standing.old }
        ensures came { (words : List ℕ) → Moves words self.old words self.new (bare result)
            (λ w. by_turn w lane turn) }
        ensures kept { map stands_as standing.new.items
            ≡ map stands_as standing.old.items ++ joining (receipt_by turn) }
        ensures done { has_failed result ≡ false }
    {
        match turn {
            Turn::More => Outcome::Acted,
            Turn::Tended(answer) => Outcome::Tended(answer),
            Turn::Done(answer) => self.answered(lane, answer, standing),
        }
    }

    /// A lane has answered its call, whose receipt comes to stand if it was made. Most actions answer none.
    #[inline(never)]
    fn answered(&mut self, lane: u8, answer: Answer, standing: &mut Vec<Standing>) -> Outcome
        requires lane { IsLane lane }
        requires session { IsSessionOf (at_lane self.old.waiting lane).begun }
        requires room { vec_len standing.old < vec_capacity standing.old }
        ensures came { (words : List ℕ) → Moves words self.old words self.new (bare result)
            (λ w. ends w lane (told_of answer)) }
        ensures kept { map stands_as standing.new.items
            ≡ map stands_as standing.old.items ++ joining (receipt_in answer) }
        ensures done { has_failed result ≡ false }
    {
        let told = keep(standing, answer);
        self.end(lane, told)
    }

    /// The attempt that is under way at a lane has ended. Most actions end none.
    #[inline(never)]
    fn end(&mut self, lane: u8, answer: CallAnswer) -> Outcome
        requires lane { IsLane lane }
        requires session { IsSessionOf (at_lane self.old.waiting lane).begun }
        ensures came { (words : List ℕ) → Moves words self.old words self.new (bare result)
            (λ w. ends w lane answer) }
        ensures done { has_failed result ≡ false }
    {
        let Some(view) = self.waiting.begun(lane) else {
            return Outcome::Acted;
        };
        let course = self.waiting.answered(lane, end_of(answer));
        self.go_on(view.session, course);
        Outcome::Answered {
            session: view.session,
            number: view.number,
            answer,
            given: is_given(course),
        }
    }

    /// A lane with nothing under way is given the call that a view is of.
    fn begin(&mut self, lane: u8, view: SessionView) -> Result<(), Refuse>
        requires runs { Runs self.old.cluster lane }
        requires session { IsSession view.session }
        requires call { IsSome (call_of self.old.waiting view.session) }
        requires key { key_of (called (call_of self.old.waiting view.session)) ≢ 0 }
        requires last { view.last.stamp < 2 ^ 31 }
        requires hint { view.hint ≡ None }
        ensures does { OnOk result (Does self.old.cluster self.new.cluster (Asks lane view
            (called (call_of self.old.waiting view.session)))) }
        ensures waiting { self.new.waiting ≡ self.old.waiting }
        ensures live { self.new.live ≡ self.old.live }
        ensures segments { self.new.cluster.segments ≡ self.old.cluster.segments }
        ensures lanes { length self.new.cluster.nodes ≡ length self.old.cluster.nodes }
        ensures free { OnOk result (refused_in self.old.cluster lane ≡ None) }
        ensures cause { IfErr result (Refuses (refused_in self.old.cluster lane)) }
        ensures same { OnErr result (self.new ≡ self.old) }
    {
        match self.waiting.call(view.session) {
            Some(open) => self.cluster.give_call(lane, &view, &open.call),
            None => unreachable!(),
        }
    }

    /// A staged word of a lane flows out of turn.
    pub fn flow<M: Memory>(&mut self, mem: &mut M, lane: u8, index: u32) -> Outcome
        requires can { CanBeWorld (M.words mem.old) self.old }
        ensures came { OnDone result (Carries (M.words mem.old) self.old (M.words mem.new) self.new
            (bare result) (λ w. on_lane w lane (flow w lane index))) }
        ensures count { CountsFault result (M.faults mem.old) (M.faults mem.new) }
    {
        if !self.is_made(lane) {
            return Outcome::NoLane;
        }
        match self.cluster.flow(mem, lane, index) {
            Acted::Lane(_) => Outcome::Acted,
            Acted::Fault => Outcome::Fault {
                actor: Actor::Lane(lane),
            },
            _ => Outcome::Nothing,
        }
    }

    /// The merger of a lane makes its next action.
    pub fn merge<M: Memory>(&mut self, mem: &mut M, lane: u8) -> Outcome
        requires can { CanBeWorld (M.words mem.old) self.old }
        ensures came { OnDone result (Carries (M.words mem.old) self.old (M.words mem.new) self.new
            (bare result) (λ w. on_lane w lane (merge w lane))) }
        ensures count { CountsFault result (M.faults mem.old) (M.faults mem.new) }
    {
        if !self.is_made(lane) {
            return Outcome::NoLane;
        }
        match self.cluster.act(mem, Actor::Merger(lane)) {
            Acted::Merger(turn) => merged(turn),
            Acted::Fault => Outcome::Fault {
                actor: Actor::Merger(lane),
            },
            _ => Outcome::Nothing,
        }
    }

    /// The monitor makes its next action.
    pub fn monitor<M: Memory>(&mut self, mem: &mut M) -> Outcome
        requires can { CanBeWorld (M.words mem.old) self.old }
        ensures came { OnDone result (Carries (M.words mem.old) self.old (M.words mem.new) self.new
            (bare result) monitor) }
        ensures fails { has_failed result ≡ true → MonitorFails (M.words mem.old) self.old
            (M.words mem.new) }
        ensures same { has_failed result ≡ true → self.new ≡ self.old }
        ensures count { CountsFault result (M.faults mem.old) (M.faults mem.new) }
    {
        let action = self.monitor_next();
        match self.cluster.act(mem, Actor::Monitor) {
            Acted::Monitor(turn) => {
                let leaving = leaves_by(action, turn, self.monitor_next());
                self.release(leaving);
                self.unlive(fenced_by(action));
                told_by(turn)
            }
            Acted::Fault => Outcome::Fault {
                actor: Actor::Monitor,
            },
            _ => Outcome::Nothing,
        }
    }

    /// The monitor's next action, if an order is under way.
    fn monitor_next(&self) -> Option<Action>
        ensures { result ≡ next_by self.now.cluster.monitor }
    {
        match self.cluster.monitor() {
            Some(monitor) => monitor.next(),
            None => None,
        }
    }

    /// The release of a slot is queued at a lane that runs.
    fn release(&mut self, leaving: Option<Leaving>)
        requires can { length self.old.cluster.nodes ≤ 63 }
        ensures { Turns self.old self.new (λ w. release w leaving) }
    {
        if let Some(leaving) = leaving {
            self.release_at(leaving);
        }
    }

    /// The release of a slot is queued at a lane, if that runs.
    fn release_at(&mut self, leaving: Leaving)
        requires can { length self.old.cluster.nodes ≤ 63 }
        ensures { Turns self.old self.new (λ w. release w (Some leaving)) }
    {
        let Leaving { lane, slot } = leaving;
        if !self.is_made(lane) {
            return;
        }
        if slot >= 64 {
            return;
        }
        if self.cluster.is_stopped(lane) {
            return;
        }
        self.waiting.queue_release(lane, slot as u8);
    }

    /// A lane that is fenced is live no more.
    fn unlive(&mut self, lane: Option<u32>)
        ensures { Turns self.old self.new (λ w. unlive w lane) }
    {
        if let Some(lane) = lane {
            leave_out(&mut self.live, lane);
        }
    }

    /// The monitor is given an order.
    pub fn give(&mut self, order: Order) -> Outcome
        requires can { Can self.old }
        requires order { IsOrder order }
        requires formatted { (segments : ℕ) → order ≡ Order.Format segments → ⊥ }
        ensures came { (words : List ℕ) → IsGivenBy words self.old self.new result order }
        ensures done { has_failed result ≡ false }
    {
        if !self.may_order(order) {
            return Outcome::NoLane;
        }
        if self.cluster.monitor().is_some() {
            return Outcome::MonitorBusy;
        }
        self.cluster.give_order(order, &self.live);
        Outcome::Acted
    }

    /// Whether an order names lanes that were made, or a live one.
    fn may_order(&self, order: Order) -> bool
        ensures { (words : List ℕ) (told : List Told) (receipts : List Stands)
            → result ≡ may_order (world_of words self.now told receipts) order }
    {
        match order {
            Order::Format { .. } | Order::Look { .. } => true,
            Order::Move { to, .. } => self.is_live(to),
            Order::Fence { lane } | Order::Takeover { lane } => self.is_made(lane),
        }
    }

    /// Whether a lane is live.
    fn is_live(&self, lane: u8) -> bool
        ensures { (words : List ℕ) (told : List Told) (receipts : List Stands)
            → result ≡ is_live (world_of words self.now told receipts) lane }
    {
        holds(&self.live, lane)
    }

    /// A task arrives at a lane.
    pub fn queue(&mut self, lane: u8, task: Task) -> Result<Outcome, OutOfMemory>
        requires can { Can self.old }
        ensures came { (words : List ℕ) → IfOk result (λ outcome. Moves words self.old words
            self.new (bare outcome) (λ w. on_lane w lane
            (queues w lane task (w.machine.lanes lane)))) }
        ensures done { IfOk result (λ outcome. has_failed outcome ≡ false) }
        ensures same { OnErr result (self.new ≡ self.old) }
    {
        if !self.is_made(lane) {
            return Ok(Outcome::NoLane);
        }
        if self.cluster.is_stopped(lane) {
            return Ok(Outcome::Nothing);
        }
        self.waiting.queue_task(lane, task)?;
        Ok(Outcome::Acted)
    }

    /// A lane is added.
    pub fn add(&mut self) -> Result<Outcome, OutOfMemory>
        ensures came { (words : List ℕ) → IfOk result (λ outcome. Moves words self.old words
            self.new (bare outcome) adds) }
        ensures done { IfOk result (λ outcome. has_failed outcome ≡ false) }
        ensures same { OnErr result (self.new ≡ self.old) }
    {
        self.live.reserve(1)?;
        match self.cluster.add_lane() {
            Ok(lane) => {
                self.live.push_reserved(lane);
                Ok(Outcome::Added { lane })
            }
            Err(AddFault::Lanes { .. }) => Ok(Outcome::LanesFull),
            Err(AddFault::OutOfMemory) => Err(OutOfMemory),
        }
    }

    /// A session is told another one's last position.
    pub fn tell(&mut self, from: u32, to: u32) -> Outcome
        requires from { IsSession from }
        requires to { IsSession to }
        ensures came { (words : List ℕ) → Moves words self.old words self.new (bare result)
            (λ w. tells w from to) }
        ensures done { has_failed result ≡ false }
    {
        if self.cluster.is_closed(to) {
            return Outcome::Acted;
        }
        let position = self.cluster.session(from).last();
        self.cluster.tell(to, position);
        Outcome::Acted
    }
}

/// Whether a lane is among these.
fn holds(lanes: &[u8], lane: u8) -> bool
    ensures { result ≡ list_any (λ (n : ℕ). n == lane) lanes.now }
{
    lanes.iter().any(|n| *n == lane)
}

/// Takes a lane out of these, if it is there.
fn leave_out(lanes: &mut Vec<u8>, lane: u32)
    ensures { lanes.new.items ≡ filter (λ (n : ℕ). not (n == lane)) lanes.old.items }
{
    lanes.retain(|n| *n as u32 != lane);
}

/// What a merger's turn is told as.
fn merged(turn: MergeTurn) -> Outcome
    ensures { result ≡ merged_by turn }
{
    match turn {
        MergeTurn::More => Outcome::Acted,
        MergeTurn::Idle { .. } | MergeTurn::IndexFull { .. } => Outcome::Merged(turn),
    }
}

/// Whether a call that goes on so is given up.
fn is_given(course: Course) -> bool
    ensures { result ≡ is_given course }
{
    match course {
        Course::GivenUp => true,
        Course::Load | Course::Wait { .. } | Course::Answered => false,
    }
}

/// How an attempt with this answer ends.
fn end_of(answer: CallAnswer) -> AttemptEnd
    ensures { result ≡ end_of answer }
{
    match answer {
        CallAnswer::Made { .. } => AttemptEnd::Made,
        CallAnswer::NotOwner { .. } | CallAnswer::Fenced { .. } => AttemptEnd::Refused,
        CallAnswer::Full { .. } | CallAnswer::Worn { .. } => AttemptEnd::Spent,
    }
}

/// Keeps the receipt of an answer, if it has one, behind those that stand, and gives the answer without it. There is room.
#[inline(always)]
fn keep(standing: &mut Vec<Standing>, answer: Answer) -> CallAnswer
    requires { vec_len standing.old < vec_capacity standing.old }
    ensures told { result ≡ told_of answer }
    ensures kept { map stands_as standing.new.items
        ≡ map stands_as standing.old.items ++ joining (receipt_in answer) }
{
    match answer {
        Answer::Made { receipt, way } => {
            standing.push_reserved(Standing {
                receipt,
                answered: true,
            });
            CallAnswer::Made { way }
        }
        Answer::NotOwner { look, cell } => CallAnswer::NotOwner { look, cell },
        Answer::Fenced { word } => CallAnswer::Fenced { word },
        Answer::Full { counter, segments } => CallAnswer::Full { counter, segments },
        Answer::Worn { stamp } => CallAnswer::Worn { stamp },
    }
}
