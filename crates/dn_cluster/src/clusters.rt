ghost use Rattle.std.specs.Prelude.{◌≡◌, ◌≢◌, ◌<◌, ◌≤◌, ◌+◌, ◌-◌, ◌^◌, ◌↔◌, ℕ, Option, true, false, List, [], Some, None, length, slice_get, IfOk, IfErr, IfSome, IsSome, OnOk, OnErr, All};
ghost use Rattle.std.specs.List.Sorted.{IsStrictlyIncreasing};
ghost use Rattle.std.specs.Option.{option_copied};
ghost use Rattle.dn_hist.specs.Calls.{key_of};
ghost use Rattle.dn_callers.specs.Sessions.{IsSession};
ghost use Rattle.dn_tend.specs.Fit.{FitsTask};
ghost use Rattle.dn_monitor.specs.Monitor.{Monitoring, monitor_turn, IsOrder};
ghost use Rattle.dn_monitor.specs.Heirs.{AreHeirs, no_heirs};
ghost use Rattle.dn_route.specs.SessionState.{view_of, refreshed};
ghost use Rattle.dn_lane.specs.CallCauses.{CallCause};
ghost use Rattle.dn_lane.specs.State.{LaneState, halted};
ghost use Rattle.dn_lane.specs.Refused.{Refuses};
ghost use Rattle.dn_lane.specs.Turns.{turn_of, left_of, flowed_of, ending_of};
ghost use Rattle.dn_act.specs.Action.{MayPerform, words_after};
ghost use Rattle.dn_act.specs.Words.{IsZeros, pool_size};
ghost use Rattle.dn_machine.specs.Sound.{IsSound};
ghost use Rattle.dn_machine.specs.Events.{ordered, Acts, Flows, Fails, FlowFails, Asks, Tends, Orders, Loads, Adds, Numbers, Hints, Stops, Closes, Renews, Drops};
ghost use Rattle.dn_cluster.specs.State.{ClusterState, numbered};
ghost use Rattle.dn_cluster.specs.Machine.{machine_of, lane_in, closed_in, session_at, IsMade, Runs};
ghost use Rattle.dn_cluster.specs.Acting.{format_of, formatted_by, actor_of, answer_of, not_owner, IsNoOwner, flow_answer, is_nothing, joined, OnDone, OnFault, CountsActed};
ghost use Rattle.dn_cluster.specs.Asks.{refused_in, ending_in, IsAddFault, RunsAt, TakesAt, AreFresh};
ghost use Rattle.dn_cluster.specs.Changed.{with_node, with_client, heard_at, made_at, answered_in};
ghost use Rattle.dn_cluster.specs.Does.{Rests, CanBeSound, Does, IsTold, Happens, FailsAs};
ghost use Rattle.dn_cluster.specs.declared.nodes.Node.{Node};
ghost use Rattle.dn_cluster.specs.declared.clients.Client.{Client};

use crate::actors::{Acted, Actor};
use crate::clients::Client;
use crate::nodes::Node;
use dn_act::{Action, Memory, exec};
use dn_hist::{Call, Receipt, SessionView};
use dn_lane::{Answer, Lane, Refuse, Turn};
use dn_merge::Merger;
use dn_monitor::{Monitor, MonitorTurn, Order};
use dn_route::Session;
use dn_tend::Task;
use dn_word::regions::deed_at;
use dn_word::{OutOfMemory, Position};
use std::alloc::Global;
use std::marker::Model;
use thiserror::Error;

/// The most lanes.
const LANES: usize = 63;

/// How many sessions there are.
const SESSIONS: u32 = 1000;

/// Why no lane is added. Nothing is changed then.
#[derive(Clone, Copy, Debug, PartialEq, Eq, Error)]
pub enum AddFault {
    /// So many lanes were made, which is the most there may be.
    #[error("{made} lanes were made, the most there may be")]
    Lanes { made: u8 },
    /// Want of memory.
    #[error("out of memory")]
    OutOfMemory,
}

/// A cluster over a pool of so many segments. It keeps neither the receipts of calls nor what sessions were told:
/// contracts speak of all those with which the machine that it is over the pool's words is sound.
///
/// `act` and `flow` carry out one action; the other calls touch no word, and each is an event of that machine.
#[derive(Drop)]
pub struct Cluster {
    alloc: Global,
    segments: u32,
    nodes: Vec<Node>,
    monitor: Option<Monitor>,
    clients: Vec<Client>,
}

impl Model for Cluster {
    ghost use Rattle.dn_cluster.specs.State.{ClusterState};

    ghost Value = { ClusterState };

    ghost use Rattle.dn_cluster.specs.Inside.{state_of, IsInside};

    ghost view = { state_of };

    ghost invariant = { IsInside };
}

/// Where that with a number stands among so many, of which the first has number 1.
fn place_of(number: u32, count: usize) -> Option<usize>
    ensures some { IfSome result (λ at. (at + 1 ≡ number) × (at < count)) }
    ensures none { result ≡ None → 1 ≤ number → count < number }
{
    let at = (number as usize).checked_sub(1)?;
    if at < count { Some(at) } else { None }
}

/// The position of a call that a lane has made.
fn made_at(turn: &Turn) -> Option<Position>
    ensures { result ≡ made_at turn.now }
{
    match turn {
        Turn::Done(Answer::Made { receipt, .. }) => Some(receipt.position),
        Turn::Done(_) | Turn::Tended(_) | Turn::More => None,
    }
}

/// The sessions before their first calls.
fn clients(alloc: Global) -> Result<Vec<Client>, OutOfMemory>
    ensures { IfOk result (λ clients. AreFresh 1000 clients.items) }
{
    let mut clients = Vec::with_capacity(alloc, SESSIONS as usize)?;
    for number in 1..=SESSIONS {
        clients.push_reserved(Client {
            session: Session::new(alloc, number),
            closed: false,
            load: None,
        });
    }
    Ok(clients)
}

impl Cluster {
    /// A cluster for a pool of so many segments, at most 8,192: no lane is made, no order is under way, and the sessions
    /// 1 to 1,000 have made no call. Answers want of memory, or the cluster.
    pub fn new(alloc: Global, segments: u32) -> Result<Cluster, OutOfMemory>
        requires { segments ≤ 8192 }
        ensures segments { IfOk result (λ cluster. cluster.segments ≡ segments) }
        ensures rests { IfOk result Rests }
    {
        let clients = clients(alloc)?;
        Ok(Cluster {
            alloc,
            segments,
            nodes: Vec::new(alloc),
            monitor: None,
            clients,
        })
    }

    /// Formats the pool, which has as many words as so many segments need: carries out the monitor's order for that, one
    /// store. Where all words are 0 and no call but `new` was made before, all is sound then, with no receipts and nothing
    /// told. `Fault` comes exactly where the access failed, and the store was done or not done.
    pub fn format<M: Memory>(&self, mem: &mut M) -> Acted
        requires { pool_size self.now.segments ≤ length (M.words mem.old) }
        ensures sound { OnDone result (IsZeros (M.words mem.old) → Rests self.now
            → IsSound self.now.segments (machine_of (M.words mem.new) self.now [] [])) }
        ensures words { OnDone result (M.words mem.new
            ≡ words_after (format_of self.now.segments) (M.words mem.old)) }
        ensures answer { OnDone result (result ≡ formatted_by (M.words mem.old)) }
        ensures fails { OnFault result (MayPerform (format_of self.now.segments) (M.words mem.old)
            (M.words mem.new)) }
        ensures count { CountsActed result (M.faults mem.old) (M.faults mem.new) }
    {
        let order = Order::Format {
            segments: self.segments,
        };
        let mut monitor = Monitor::new(order, &[]);
        let Some(action) = monitor.next() else {
            unreachable!();
        };
        match exec(mem, &action) {
            Ok(word) => Acted::Monitor(monitor.take(word)),
            Err(_) => Acted::Fault,
        }
    }

    /// How many lanes were made. Their numbers are 1 to this.
    pub fn lanes(&self) -> u8
        ensures { result ≡ length self.now.nodes }
    {
        self.nodes.len() as u8
    }

    /// Makes the next lane, with its merger. `Lanes` comes exactly where 63 were made; after it and after want of memory
    /// nothing is changed.
    pub fn add_lane(&mut self) -> Result<u8, AddFault>
        ensures value { IfOk result (λ lane. lane ≡ length self.old.nodes + 1) }
        ensures does { IfOk result (λ lane. Does self.old self.new (Adds lane self.old.segments)) }
        ensures segments { self.new.segments ≡ self.old.segments }
        ensures lanes { OnOk result (length self.new.nodes ≡ length self.old.nodes + 1) }
        ensures full { IfErr result (IsAddFault (length self.old.nodes)) }
        ensures room { IfOk result (λ lane. length self.old.nodes < 63) }
        ensures same { OnErr result (self.new ≡ self.old) }
    {
        let made = self.lanes();
        if usize::from(made) == LANES {
            return Err(AddFault::Lanes { made });
        }
        let number = made + 1;
        if self.nodes.reserve(1).is_err() {
            return Err(AddFault::OutOfMemory);
        }
        let Ok(lane) = Lane::new(self.alloc, number, self.segments) else {
            return Err(AddFault::OutOfMemory);
        };
        self.nodes.push_reserved(Node {
            lane,
            stopped: false,
            merger: Merger::new(number),
        });
        Ok(number)
    }

    /// Where the lane with this number stands, if it runs.
    fn running(&self, lane: u8) -> Option<usize>
        ensures some { IfSome result (λ at. RunsAt self.now lane at) }
        ensures none { result ≡ None → lane_in (numbered self.now.nodes lane) ≡ None }
    {
        let at = place_of(u32::from(lane), self.nodes.len())?;
        if self.nodes[at].stopped {
            None
        } else {
            Some(at)
        }
    }

    /// The session hears of a position.
    fn hear(&mut self, session: u32, position: Position)
        requires session { IsSession session }
        requires stamp { position.stamp < 2 ^ 31 }
        ensures after { self.new ≡ heard_at self.old session position }
        ensures sessions { length self.old.clients ≡ 1000 }
    {
        self.clients[session as usize - 1].session.told(position);
    }

    /// Carries out the next action of an actor on the words of the pool. What comes of it is by the word that the action
    /// finds. `Nothing` comes exactly where the actor has no next action: it wasn't made, is stopped, or has nothing under
    /// way. At a `Made` the call's session is told the receipt's position. `NotOwner` comes only where the lane has loaded
    /// its call's deed in this call, and isn't its owner by that word. It takes no memory.
    ///
    /// `Fault` comes exactly where the access failed. Then the cluster is as it was, and the action was done or not done. So
    /// nobody may act next before that lane is stopped, that merger renewed or that order dropped; a session's load leaves
    /// the words, and is made again.
    #[inline(always)]
    pub fn act<M: Memory>(&mut self, mem: &mut M, actor: Actor) -> Acted
        requires { CanBeSound (M.words mem.old) self.old }
        ensures answer { OnDone result (result ≡ answer_of (M.words mem.old) self.old actor) }
        ensures event { OnDone result (Happens (M.words mem.old) self.old (M.words mem.new) self.new
            (joined result) (Acts (actor_of actor))) }
        ensures look { (n look : ℕ) (cell : Option ℕ) (l : LaneState) → actor ≡ Actor.Lane n
            → lane_in (numbered self.old.nodes n) ≡ Some l → result ≡ not_owner look cell
            → IsNoOwner (M.words mem.old) n l look }
        ensures same { OnFault result (self.new ≡ self.old) }
        ensures next { OnFault result
            (is_nothing (answer_of (M.words mem.old) self.old actor) ≡ false) }
        ensures fails { OnFault result (FailsAs (M.words mem.old) self.old (M.words mem.new)
            (Fails (actor_of actor))) }
        ensures segments { self.new.segments ≡ self.old.segments }
        ensures lanes { length self.new.nodes ≡ length self.old.nodes }
        ensures count { CountsActed result (M.faults mem.old) (M.faults mem.new) }
    {
        match actor {
            Actor::Lane(lane) => self.act_lane(mem, lane),
            Actor::Merger(lane) => self.act_merger(mem, lane),
            Actor::Monitor => self.act_monitor(mem),
            Actor::Session(session) => self.act_session(mem, session),
        }
    }

    // A lane acts far more often than the others, so its action stands where it is asked for, and theirs apart. What an
    // action comes to is large: a call would hand it on through memory.
    #[inline(always)]
    fn act_lane<M: Memory>(&mut self, mem: &mut M, lane: u8) -> Acted
        requires { CanBeSound (M.words mem.old) self.old }
        ensures answer { OnDone result (result
            ≡ answer_of (M.words mem.old) self.old (Actor.Lane lane)) }
        ensures event { OnDone result (Happens (M.words mem.old) self.old (M.words mem.new) self.new
            (joined result) (Acts (actor_of (Actor.Lane lane)))) }
        ensures look { (look : ℕ) (cell : Option ℕ) (l : LaneState)
            → lane_in (numbered self.old.nodes lane) ≡ Some l → result ≡ not_owner look cell
            → IsNoOwner (M.words mem.old) lane l look }
        ensures same { OnFault result (self.new ≡ self.old) }
        ensures next { OnFault result
            (is_nothing (answer_of (M.words mem.old) self.old (Actor.Lane lane)) ≡ false) }
        ensures fails { OnFault result (FailsAs (M.words mem.old) self.old (M.words mem.new)
            (Fails (actor_of (Actor.Lane lane)))) }
        ensures segments { self.new.segments ≡ self.old.segments }
        ensures lanes { length self.new.nodes ≡ length self.old.nodes }
        ensures count { CountsActed result (M.faults mem.old) (M.faults mem.new) }
    {
        let Some(at) = self.running(lane) else {
            return Acted::Nothing;
        };
        let Some(action) = self.nodes[at].lane.next() else {
            return Acted::Nothing;
        };
        match exec(mem, &action) {
            Ok(word) => Acted::Lane(self.lane_takes(at, word)),
            Err(_) => Acted::Fault,
        }
    }

    /// The lane that stands there takes the word that its action found. The session of a call that is made then is told
    /// its position.
    #[inline(always)]
    fn lane_takes(&mut self, at: usize, word: u64) -> Turn
        requires { TakesAt self.old at word }
        ensures turn { (x : Node) → slice_get self.old.nodes at ≡ Some x
            → result ≡ turn_of x.lane word }
        ensures after { (x : Node) → slice_get self.old.nodes at ≡ Some x
            → self.new ≡ answered_in
            (with_node self.old at (record x { lane = left_of x.lane word })) (made_at result) }
        ensures cause { (x : Node) (answer : Answer) → slice_get self.old.nodes at ≡ Some x
            → result ≡ Turn.Done answer → CallCause x.lane word answer }
    {
        let turn = self.nodes[at].lane.take(word);
        if let Some(position) = made_at(&turn) {
            self.hear(position.session, position);
        }
        turn
    }

    #[inline(never)]
    fn act_merger<M: Memory>(&mut self, mem: &mut M, lane: u8) -> Acted
        requires { CanBeSound (M.words mem.old) self.old }
        ensures answer { OnDone result (result
            ≡ answer_of (M.words mem.old) self.old (Actor.Merger lane)) }
        ensures event { OnDone result (Happens (M.words mem.old) self.old (M.words mem.new) self.new
            (joined result) (Acts (actor_of (Actor.Merger lane)))) }
        ensures same { OnFault result (self.new ≡ self.old) }
        ensures next { OnFault result
            (is_nothing (answer_of (M.words mem.old) self.old (Actor.Merger lane)) ≡ false) }
        ensures fails { OnFault result (FailsAs (M.words mem.old) self.old (M.words mem.new)
            (Fails (actor_of (Actor.Merger lane)))) }
        ensures segments { self.new.segments ≡ self.old.segments }
        ensures lanes { length self.new.nodes ≡ length self.old.nodes }
        ensures count { CountsActed result (M.faults mem.old) (M.faults mem.new) }
    {
        let Some(at) = place_of(u32::from(lane), self.nodes.len()) else {
            return Acted::Nothing;
        };
        let action = self.nodes[at].merger.next();
        match exec(mem, &action) {
            Ok(word) => Acted::Merger(self.nodes[at].merger.take(word)),
            Err(_) => Acted::Fault,
        }
    }

    #[inline(never)]
    fn act_monitor<M: Memory>(&mut self, mem: &mut M) -> Acted
        requires { CanBeSound (M.words mem.old) self.old }
        ensures answer { OnDone result (result
            ≡ answer_of (M.words mem.old) self.old (Actor.Monitor)) }
        ensures event { OnDone result (Happens (M.words mem.old) self.old (M.words mem.new) self.new
            (joined result) (Acts (actor_of (Actor.Monitor)))) }
        ensures same { OnFault result (self.new ≡ self.old) }
        ensures next { OnFault result
            (is_nothing (answer_of (M.words mem.old) self.old (Actor.Monitor)) ≡ false) }
        ensures fails { OnFault result (FailsAs (M.words mem.old) self.old (M.words mem.new)
            (Fails (actor_of (Actor.Monitor)))) }
        ensures segments { self.new.segments ≡ self.old.segments }
        ensures lanes { length self.new.nodes ≡ length self.old.nodes }
        ensures count { CountsActed result (M.faults mem.old) (M.faults mem.new) }
    {
        let Some(monitor) = &self.monitor else {
            return Acted::Nothing;
        };
        let Some(action) = monitor.next() else {
            return Acted::Nothing;
        };
        match exec(mem, &action) {
            Ok(word) => Acted::Monitor(self.monitor_takes(word)),
            Err(_) => Acted::Fault,
        }
    }

    /// The monitor takes the word that its action found. After the last answer no order is under way.
    fn monitor_takes(&mut self, word: u64) -> MonitorTurn
        requires { (x : Monitoring) × (self.old.monitor ≡ Some x) }
        ensures turn { (x : Monitoring) → self.old.monitor ≡ Some x
            → result ≡ monitor_turn x word }
        ensures after { (x : Monitoring) → self.old.monitor ≡ Some x
            → self.new ≡ record self.old { monitor = ordered x word } }
    {
        match self.monitor.take() {
            Some(mut monitor) => {
                let turn = monitor.take(word);
                if monitor.next().is_some() {
                    self.monitor = Some(monitor);
                }
                turn
            }
            None => unreachable!(),
        }
    }

    #[inline(never)]
    fn act_session<M: Memory>(&mut self, mem: &mut M, session: u32) -> Acted
        requires { CanBeSound (M.words mem.old) self.old }
        ensures answer { OnDone result (result
            ≡ answer_of (M.words mem.old) self.old (Actor.Session session)) }
        ensures event { OnDone result (Happens (M.words mem.old) self.old (M.words mem.new) self.new
            (joined result) (Acts (actor_of (Actor.Session session)))) }
        ensures same { OnFault result (self.new ≡ self.old) }
        ensures next { OnFault result
            (is_nothing (answer_of (M.words mem.old) self.old (Actor.Session session)) ≡ false) }
        ensures fails { OnFault result (FailsAs (M.words mem.old) self.old (M.words mem.new)
            (Fails (actor_of (Actor.Session session)))) }
        ensures segments { self.new.segments ≡ self.old.segments }
        ensures lanes { length self.new.nodes ≡ length self.old.nodes }
        ensures count { CountsActed result (M.faults mem.old) (M.faults mem.new) }
    {
        let Some(at) = place_of(session, self.clients.len()) else {
            return Acted::Nothing;
        };
        let Some(slot) = self.clients[at].load else {
            return Acted::Nothing;
        };
        let action = Action::Load { at: deed_at(slot) };
        match exec(mem, &action) {
            Ok(word) => {
                self.session_takes(at, slot, word);
                Acted::Session { word }
            }
            Err(_) => Acted::Fault,
        }
    }

    /// The session that stands there takes the word of a slot's deed.
    fn session_takes(&mut self, at: usize, slot: u8, word: u64)
        requires at { at < length self.old.clients }
        requires slot { slot < 64 }
        ensures { (x : Client) → slice_get self.old.clients at ≡ Some x → self.new
            ≡ with_client self.old at
            (record x { session = refreshed x.session slot word; load = None }) }
    {
        let client = &mut self.clients[at];
        client.session.refresh(slot, word);
        client.load = None;
    }

    /// The staged word of a lane at this place from the oldest, which is 0, flows out of turn. `Nothing` comes exactly
    /// where the lane doesn't run or no more than `index` words wait. Else it is as `act`, and the lane answers `More`.
    pub fn flow<M: Memory>(&mut self, mem: &mut M, lane: u8, index: u32) -> Acted
        requires { CanBeSound (M.words mem.old) self.old }
        ensures answer { OnDone result (result
            ≡ flow_answer (lane_in (numbered self.old.nodes lane)) index) }
        ensures event { OnDone result (Happens (M.words mem.old) self.old (M.words mem.new) self.new
            (joined result) (Flows lane index)) }
        ensures same { OnFault result (self.new ≡ self.old) }
        ensures next { OnFault result
            (is_nothing (flow_answer (lane_in (numbered self.old.nodes lane)) index) ≡ false) }
        ensures fails { OnFault result (FailsAs (M.words mem.old) self.old (M.words mem.new)
            (FlowFails lane index)) }
        ensures segments { self.new.segments ≡ self.old.segments }
        ensures lanes { length self.new.nodes ≡ length self.old.nodes }
        ensures count { CountsActed result (M.faults mem.old) (M.faults mem.new) }
    {
        let Some(at) = self.running(lane) else {
            return Acted::Nothing;
        };
        let Some(action) = self.nodes[at].lane.flow(index) else {
            return Acted::Nothing;
        };
        match exec(mem, &action) {
            Ok(_) => {
                self.lane_flows(at, index);
                Acted::Lane(Turn::More)
            }
            Err(_) => Acted::Fault,
        }
    }

    /// A staged word of the lane that stands there has flowed.
    fn lane_flows(&mut self, at: usize, index: u32)
        requires { at < length self.old.nodes }
        ensures { (x : Node) → slice_get self.old.nodes at ≡ Some x → self.new
            ≡ with_node self.old at (record x { lane = flowed_of x.lane index }) }
    {
        self.nodes[at].lane.flowed(index);
    }

    /// Gives a lane that runs a call, with what its session showed by `number` or, in a further attempt, by the session's
    /// `again`. It is refused as [`Lane::begin`] says, and then nothing is changed.
    ///
    /// What was sound stays so where the session isn't closed, no lane that runs has a call of it, and the view is good:
    /// it was shown for this call, and the call has no receipt.
    pub fn give_call(&mut self, lane: u8, view: &SessionView, call: &Call) -> Result<(), Refuse>
        requires runs { Runs self.old lane }
        requires session { IsSession view.now.session }
        requires key { key_of call.now ≢ 0 }
        requires last { view.now.last.stamp < 2 ^ 31 }
        requires hint { view.now.hint ≡ None }
        ensures does { OnOk result (Does self.old self.new (Asks lane view.now call.now)) }
        ensures free { OnOk result (refused_in self.old lane ≡ None) }
        ensures cause { IfErr result (Refuses (refused_in self.old lane)) }
        ensures same { OnErr result (self.new ≡ self.old) }
        ensures segments { self.new.segments ≡ self.old.segments }
        ensures lanes { length self.new.nodes ≡ length self.old.nodes }
    {
        self.nodes[usize::from(lane) - 1].lane.begin(view, call)
    }

    /// Gives a lane that runs a task. It is refused as [`Lane::begin_task`] says, and then nothing is changed.
    ///
    /// What was sound stays so for the release of a slot and for a trim; keys can't be shared yet.
    pub fn give_task(&mut self, lane: u8, task: Task) -> Result<(), Refuse>
        requires runs { Runs self.old lane }
        requires task { FitsTask task }
        ensures does { OnOk result (Does self.old self.new (Tends lane task)) }
        ensures free { OnOk result (refused_in self.old lane ≡ None) }
        ensures cause { IfErr result (Refuses (refused_in self.old lane)) }
        ensures same { OnErr result (self.new ≡ self.old) }
        ensures segments { self.new.segments ≡ self.old.segments }
        ensures lanes { length self.new.nodes ≡ length self.old.nodes }
    {
        self.nodes[usize::from(lane) - 1].lane.begin_task(task)
    }

    /// Gives the monitor an order. None is under way. The live lanes, from 1 to 63, rise; a takeover gives the slots to
    /// their owners on the ring of these. A pool is formatted by `format` alone.
    pub fn give_order(&mut self, order: Order, live: &[u8])
        requires free { self.old.monitor ≡ None }
        requires order { IsOrder order }
        requires formatted { (segments : ℕ) → order ≡ Order.Format segments → ⊥ }
        requires rising { IsStrictlyIncreasing live.now }
        requires lanes { All (λ lane. (1 ≤ lane) × (lane < 64)) live.now }
        ensures does { (x : Monitoring) → self.new.monitor ≡ Some x
            → Does self.old self.new (Orders order x.heirs) }
        ensures given { IsSome self.new.monitor }
        ensures heirs { (lane : ℕ) (x : Monitoring) → order ≡ Order.Takeover lane
            → self.new.monitor ≡ Some x → AreHeirs live.now x.heirs }
        ensures nobody { (x : Monitoring) → ((lane : ℕ) → order ≡ Order.Takeover lane → ⊥)
            → self.new.monitor ≡ Some x → x.heirs ≡ no_heirs }
        ensures segments { self.new.segments ≡ self.old.segments }
        ensures lanes { length self.new.nodes ≡ length self.old.nodes }
    {
        self.monitor = Some(Monitor::new(order, live));
    }

    /// Ends the order that is under way, if any.
    pub fn drop_order(&mut self)
        ensures does { Does self.old self.new Drops }
        ensures segments { self.new.segments ≡ self.old.segments }
        ensures lanes { length self.new.nodes ≡ length self.old.nodes }
    {
        self.monitor = None;
    }

    /// The next action of a session (from 1 to 1,000) is the load of the deed of a slot (from 0 to 63). `act` then
    /// refreshes its route of that slot.
    pub fn give_load(&mut self, session: u32, slot: u8)
        requires session { IsSession session }
        requires slot { slot < 64 }
        ensures does { Does self.old self.new (Loads session slot) }
        ensures segments { self.new.segments ≡ self.old.segments }
        ensures lanes { length self.new.nodes ≡ length self.old.nodes }
    {
        self.clients[session as usize - 1].load = Some(slot);
    }

    /// Stops a lane, and closes the session of the call that is under way there. `Some` comes exactly where the lane's
    /// next action is the exchange that would end a put or delete as made; it is the receipt which that would make. A lane
    /// that is stopped stays so, and so does one that wasn't made.
    pub fn stop(&mut self, lane: u8) -> Option<Receipt>
        ensures does { Does self.old self.new (Stops lane) }
        ensures receipt { result ≡ ending_in self.old lane }
        ensures segments { self.new.segments ≡ self.old.segments }
        ensures lanes { length self.new.nodes ≡ length self.old.nodes }
    {
        let at = self.running(lane)?;
        let session = self.nodes[at].lane.session();
        let receipt = self.halt(at);
        if let Some(at) = place_of(session, self.clients.len()) {
            self.clients[at].closed = true;
        }
        receipt
    }

    /// The lane that stands there is stopped.
    fn halt(&mut self, at: usize) -> Option<Receipt>
        requires { at < length self.old.nodes }
        ensures receipt { (x : Node) → slice_get self.old.nodes at ≡ Some x
            → result ≡ ending_of x.lane }
        ensures after { (x : Node) → slice_get self.old.nodes at ≡ Some x → self.new
            ≡ with_node self.old at (record x { lane = halted x.lane; stopped = true }) }
    {
        let node = &mut self.nodes[at];
        node.stopped = true;
        node.lane.halt()
    }

    /// Closes a session, from 1 to 1,000: it makes no call any more. What was sound stays so where no lane that runs has a
    /// call of it.
    pub fn close(&mut self, session: u32)
        requires session { IsSession session }
        ensures does { Does self.old self.new (Closes session) }
        ensures segments { self.new.segments ≡ self.old.segments }
        ensures lanes { length self.new.nodes ≡ length self.old.nodes }
    {
        self.clients[session as usize - 1].closed = true;
    }

    /// Drops the merger of a lane and makes a new one, which begins a turn.
    pub fn renew(&mut self, lane: u8)
        requires { IsMade self.old lane }
        ensures does { Does self.old self.new (Renews lane) }
        ensures segments { self.new.segments ≡ self.old.segments }
        ensures lanes { length self.new.nodes ≡ length self.old.nodes }
    {
        let node = &mut self.nodes[usize::from(lane) - 1];
        node.merger = Merger::new(lane);
    }

    /// Gives the next call of a session (from 1 to 1,000) on a key its number, and what the session shows with it. Fewer
    /// than 2^32 - 1 of its calls were numbered.
    pub fn number(&mut self, session: u32, key: u64) -> SessionView
        requires session { IsSession session }
        requires count { (session_at self.old session).number < 2 ^ 32 - 1 }
        ensures does { Does self.old self.new (Numbers session) }
        ensures value { result ≡ view_of (session_at self.new session) key }
        ensures last { result.last.stamp < 2 ^ 31 }
        ensures segments { self.new.segments ≡ self.old.segments }
        ensures lanes { length self.new.nodes ≡ length self.old.nodes }
    {
        self.clients[session as usize - 1].session.view(key)
    }

    /// Tells a session, from 1 to 1,000, the position of another's reply, whose stamp is below 2^31. What was sound stays
    /// so where the session isn't closed.
    pub fn tell(&mut self, session: u32, position: Position)
        requires session { IsSession session }
        requires stamp { position.stamp < 2 ^ 31 }
        ensures told { IsTold self.old self.new session position }
        ensures segments { self.new.segments ≡ self.old.segments }
        ensures lanes { length self.new.nodes ≡ length self.old.nodes }
    {
        self.hear(session, position);
    }

    /// Replaces all hints of a session, from 1 to 1,000, by these pairs of a key and a cell. At want of memory nothing is
    /// changed.
    pub fn hints(&mut self, session: u32, pairs: &[(u64, u8)]) -> Result<(), OutOfMemory>
        requires { IsSession session }
        ensures does { OnOk result (Does self.old self.new (Hints session pairs.now)) }
        ensures same { OnErr result (self.new ≡ self.old) }
        ensures segments { self.new.segments ≡ self.old.segments }
        ensures lanes { length self.new.nodes ≡ length self.old.nodes }
    {
        self.clients[session as usize - 1].session.hints(pairs)
    }

    /// A session, from 1 to 1,000. The stamp of its last position is below 2^31.
    pub fn session(&self, session: u32) -> &Session
        requires { IsSession session }
        ensures value { result.now ≡ session_at self.now session }
        ensures last { result.now.last.stamp < 2 ^ 31 }
    {
        &self.clients[session as usize - 1].session
    }

    /// Whether a session, from 1 to 1,000, is closed.
    pub fn is_closed(&self, session: u32) -> bool
        requires { IsSession session }
        ensures { result ≡ closed_in (numbered self.now.clients session) }
    {
        self.clients[session as usize - 1].closed
    }

    /// A lane that was made. Of one that is stopped nothing is said.
    pub fn lane(&self, lane: u8) -> &Lane
        requires { IsMade self.now lane }
        ensures { (l : LaneState) → lane_in (numbered self.now.nodes lane) ≡ Some l
            → result.now ≡ l }
    {
        &self.nodes[usize::from(lane) - 1].lane
    }

    /// Whether a lane that was made is stopped.
    pub fn is_stopped(&self, lane: u8) -> bool
        requires { IsMade self.now lane }
        ensures { result ≡ true ↔ (lane_in (numbered self.now.nodes lane) ≡ None) }
    {
        self.nodes[usize::from(lane) - 1].stopped
    }

    /// The order under way, None exactly where there is none.
    pub fn monitor(&self) -> Option<&Monitor>
        ensures { option_copied result ≡ self.now.monitor }
    {
        self.monitor.as_ref()
    }
}
