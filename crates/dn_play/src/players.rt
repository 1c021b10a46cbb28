//! A world that is played, event by event.

ghost use Rattle.std.specs.Prelude.{◌≡◌, ◌<◌, ◌≤◌, ◌+◌, ◌^◌, ◌++◌, [], ℕ, List, Some, true, length, IfOk, IfErr, OnOk};
ghost use Rattle.dn_act.specs.Words.{IsZeros, pool_size};
ghost use Rattle.dn_callers.specs.Sessions.{IsSession};
ghost use Rattle.dn_waiting.specs.State.{call_of};
ghost use Rattle.dn_run.specs.Doing.{finds_nothing, moves_at, doing_of};
ghost use Rattle.dn_run.specs.Doing as asks;
ghost use Rattle.dn_run.specs.Counts.{is_of_get};
ghost use Rattle.dn_run.specs.Happening.{loads_of, receipt_if, makes_call};
ghost use Rattle.dn_outcomes.specs.State.{World as WorldOf};
ghost use Rattle.dn_script.specs.declared.scripts.Line.{Line as LineOf};
ghost use Rattle.dn_run.specs.Run.{Run, loader, loads_deed};
ghost use Rattle.dn_outcomes.specs.declared.events.Event.TheVariants as happens;
ghost use Rattle.dn_outcomes.specs.Told.{is_made_by};
ghost use Rattle.dn_run.specs.Text.{receipt_text, answer_text, step_text};
ghost use Rattle.dn_world.specs.Comes.{has_failed};
ghost use Rattle.dn_play.specs.At.{IsAt, IsCounted, CanGo, Goes, Halts, IsMoved, IsMovedBy, IsToSession, Awaits, Repeats, Finishes, Ends, event_by, doing_in, left_by, CanLoad, Stops, CountsStop, CanGive, Gives, StopsEvent, place_of, loads_by, refused_by, refused_load, printed_step, Undone, runs_on, Follow, Reaches, IsStarted, StopsOpening};
ghost use Rattle.dn_play.specs.Tally.{HasRoom, added, one_if};

mod actions;
mod orders;

use crate::printing::{print, print_given, print_load, print_start};
use crate::stops::Stop;
use crate::tallies::{is_made, nothing, tally};
use dn_act::Memory;
use dn_hist::Call;
use dn_outcomes::{CallAnswer, Event, Outcome};
use dn_print::{EventLine, made as print_made};
use dn_run::{Counts, MoveOrder};
use dn_script::Line;
use dn_waiting::Place;
use dn_word::OutOfMemory;
use dn_world::{OpenFault, World};
use std::alloc::Global;

/// The most events of a play.
const MOST_EVENTS: u32 = 1 << 22;

/// The events of an opening: the format of the pool, and two for each slot.
const OPENING: u32 = 129;

/// What a line asks for so many times.
#[derive(Clone, Copy, Debug, PartialEq, Eq)]
pub enum Action {
    /// A lane makes its next action.
    Step { lane: u8 },
    /// The merger of a lane makes its next action.
    Merge { lane: u8 },
    /// The monitor makes its next action.
    Monitor,
    /// A staged word of a lane flows.
    Flow { lane: u8, index: u32 },
    /// A lane is added.
    Add,
    /// A session is told another one's last position.
    Tell { from: u32, to: u32 },
    /// A lane is asked to forget its pending records below the merged mark.
    Trim { lane: u8 },
}

/// A world, what was counted of its events, how many there were, those of the opening among them, and the order of a move that
/// is under way.
#[derive(Drop)]
pub struct Player {
    pub world: World,
    pub counts: Counts,
    pub events: u32,
    pub order: Option<MoveOrder>,
}

/// Whether a count of actions ends with this outcome.
fn finds_nothing(outcome: Outcome) -> bool
    ensures { result ≡ finds_nothing outcome }
{
    matches!(outcome, Outcome::Nothing | Outcome::NoLane)
}

/// Whether a call is run to its end once its start has this outcome.
fn runs_on(only: bool, outcome: Outcome) -> bool
    ensures { result ≡ runs_on only outcome }
{
    match outcome {
        Outcome::Numbered { .. } => !only,
        _ => false,
    }
}

/// The session that loads a deed by this event, if it is a load.
fn loader_of(event: &Event) -> Option<u32>
    ensures { result ≡ loads_by event.now }
{
    match event {
        Event::Refresh { session } => Some(*session),
        _ => None,
    }
}

impl Player {
    /// Opens a pool of zeros, of at most 8,192 segments, with lanes 1 to `nodes`, at most 63: a player of its world at the
    /// start of a run, which has had the 129 events of the opening.
    ///
    /// `Pool` comes where an access failed; then the words are those that the opening leaves. `OutOfMemory` comes before any
    /// access, and leaves the words.
    pub fn open<M: Memory>(
        alloc: Global,
        mem: &mut M,
        segments: u32,
        nodes: u8,
    ) -> Result<Player, Stop>
        requires size { pool_size segments ≤ length (M.words mem.old) }
        requires zeros { IsZeros (M.words mem.old) }
        requires segments { segments ≤ 8192 }
        requires some { 1 ≤ nodes }
        requires most { nodes ≤ 63 }
        ensures started { IfOk result (λ player. IsStarted (M.words mem.old) (M.words mem.new)
            player segments nodes) }
        ensures count { OnOk result (M.faults mem.new ≡ M.faults mem.old) }
        ensures stops { IfErr result (StopsOpening (M.words mem.old) (M.words mem.new)) }
        ensures faults { IfErr result (CountsStop (M.faults mem.old) (M.faults mem.new)) }
    {
        match World::open_whole(alloc, mem, segments, nodes) {
            Ok(world) => Ok(Player {
                world,
                counts: nothing(),
                events: OPENING,
                order: None,
            }),
            Err(OpenFault::Pool) => Err(Stop::Pool),
            Err(OpenFault::OutOfMemory) => Err(Stop::OutOfMemory),
        }
    }

    /// Where a session's call stands, if it has one.
    fn place(&self, session: u32) -> Option<Place>
        requires { IsSession session }
        ensures { result ≡ place_of (call_of self.now.world.crew.waiting session) }
    {
        match self.world.call(session) {
            Some(call) => Some(call.place),
            None => None,
        }
    }

    /// Whether the deed of a session's call is to be loaded.
    fn loads(&self, session: u32) -> bool
        requires { IsSession session }
        ensures { result ≡ loads_of (call_of self.now.world.crew.waiting session) }
    {
        match self.place(session) {
            Some(Place::Loading { .. }) => true,
            Some(Place::Queued { .. } | Place::Begun { .. }) | None => false,
        }
    }

    /// Whether an event has refused an attempt of a call, where it was a load of this session's, or none.
    #[inline(always)]
    fn refuses(&self, loader: Option<u32>, outcome: Outcome) -> bool
        requires { (s : ℕ) → loader ≡ Some s → IsSession s }
        ensures { result ≡ refused_by loader self.now.world.crew.waiting outcome }
    {
        match outcome {
            Outcome::Acted => match loader {
                Some(session) => self.loads(session),
                None => false,
            },
            Outcome::Answered { answer, .. } => !is_made(answer),
            Outcome::GivenUp { .. } => true,
            _ => false,
        }
    }

    /// Whether a get was made: its receipt is the last that has come.
    #[inline(always)]
    fn made_get(&self, outcome: Outcome) -> bool
        ensures { result ≡ is_of_get (receipt_if (makes_call outcome) self.now.world.history) }
    {
        match outcome {
            Outcome::Answered {
                answer: CallAnswer::Made { .. },
                ..
            } => match self.world.history().last() {
                Some(last) => matches!(last.receipt.call, Call::Get { .. }),
                None => false,
            },
            _ => false,
        }
    }

    /// The world does an event, which is counted.
    // Each event has a place of its own, where its kind is known and only what it needs is left.
    #[inline(always)]
    fn event<M: Memory>(&mut self, mem: &mut M, event: Event) -> Result<Outcome, Stop>
        requires can { CanGive (M.words mem.old) self.old event }
        ensures gives { IfOk result (Gives (M.words mem.old) self.old (M.words mem.new) self.new
            event) }
        ensures stops { IfErr result (StopsEvent (M.words mem.old) self.old (M.words mem.new)
            self.new) }
        ensures more { OnOk result (self.new.events ≡ self.old.events + 1) }
        ensures count { OnOk result (M.faults mem.new ≡ M.faults mem.old) }
        ensures faults { IfErr result (CountsStop (M.faults mem.old) (M.faults mem.new)) }
    {
        if self.events >= MOST_EVENTS {
            return Err(Stop::Long);
        }
        let loader = loader_of(&event);
        match self.world.event(mem, event) {
            Ok(outcome) => self.done(loader, outcome),
            Err(OutOfMemory) => Err(Stop::OutOfMemory),
        }
    }

    /// The world has done an event with this outcome: unless its access has failed, it is counted.
    #[inline(always)]
    fn done(&mut self, loader: Option<u32>, outcome: Outcome) -> Result<Outcome, Stop>
        requires room { HasRoom self.old.counts }
        requires events { self.old.events < 2 ^ 22 }
        requires loader { (s : ℕ) → loader ≡ Some s → IsSession s }
        ensures done { IfOk result (λ o. IsCounted self.old self.new loader outcome o) }
        ensures more { OnOk result (self.new.events ≡ self.old.events + 1) }
        ensures fault { IfErr result (λ stop. (stop ≡ Stop.Pool)
            × (has_failed outcome ≡ true)) }
    {
        match outcome {
            Outcome::Fault { .. } => Err(Stop::Pool),
            _ => {
                self.events += 1;
                self.count(loader, outcome);
                Ok(outcome)
            }
        }
    }

    /// Counts an event that the world has done. Most end nothing, and only a load among these can refuse an attempt.
    #[inline(always)]
    fn count(&mut self, loader: Option<u32>, outcome: Outcome)
        requires room { HasRoom self.old.counts }
        requires loader { (s : ℕ) → loader ≡ Some s → IsSession s }
        ensures { self.new ≡ record self.old {
          counts = added self.old.counts outcome
              (is_of_get (receipt_if (makes_call outcome) self.old.world.history))
              (refused_by loader self.old.world.crew.waiting outcome);
        } }
    {
        match outcome {
            Outcome::Acted => self.count_load(loader),
            _ => self.count_end(loader, outcome),
        }
    }

    /// Counts an event that ended nothing: it has refused an attempt where it was a load that leaves the deed to be loaded.
    #[inline(always)]
    fn count_load(&mut self, loader: Option<u32>)
        requires room { HasRoom self.old.counts }
        requires loader { (s : ℕ) → loader ≡ Some s → IsSession s }
        ensures { self.new ≡ record self.old {
          counts = record self.old.counts {
            refused = self.old.counts.refused
                + one_if (refused_load loader self.old.world.crew.waiting);
          };
        } }
    {
        match loader {
            Some(session) => {
                let refused = self.loads(session);
                self.counts.refused += u32::from(refused);
            }
            None => {}
        }
    }

    /// Counts an event, whatever it ended.
    #[inline(never)]
    fn count_end(&mut self, loader: Option<u32>, outcome: Outcome)
        requires room { HasRoom self.old.counts }
        requires loader { (s : ℕ) → loader ≡ Some s → IsSession s }
        ensures { self.new ≡ record self.old {
          counts = added self.old.counts outcome
              (is_of_get (receipt_if (makes_call outcome) self.old.world.history))
              (refused_by loader self.old.world.crew.waiting outcome);
        } }
    {
        let mut counts = self.counts;
        let refused = self.refuses(loader, outcome);
        tally(&mut counts, outcome, self.made_get(outcome), refused);
        self.counts = counts;
    }

    /// A session whose call the last event has moved loads the deed that it waits for.
    fn refresh<M: Memory>(
        &mut self,
        mem: &mut M,
        out: &mut Vec<u8>,
        session: u32,
    ) -> Result<(), Stop>
        requires can { CanLoad (M.words mem.old) self.old out.old.items session }
        requires session { IsSession session }
        ensures goes { OnOk result ((w : WorldOf) (lines : List LineOf) (r : Run)
            → IsAt w lines (M.words mem.old) self.old out.old.items r
            → IsAt w lines (M.words mem.new) self.new out.new.items (loads_deed r session)) }
        ensures stops { IfErr result (λ stop. (w : WorldOf) (lines : List LineOf) (r : Run)
            → IsAt w lines (M.words mem.old) self.old out.old.items r
            → loader r ≡ Some session
            → Stops w lines (M.words mem.new) self.new out.new.items r stop) }
        ensures more { OnOk result (self.old.events < self.new.events) }
        ensures count { OnOk result (M.faults mem.new ≡ M.faults mem.old) }
        ensures faults { IfErr result (CountsStop (M.faults mem.old) (M.faults mem.new)) }
    {
        let outcome = match self.event(mem, Event::Refresh { session }) {
            Ok(outcome) => outcome,
            Err(stop) => return Err(stop),
        };
        print_load(out, outcome)
    }

    /// A session whose call the last event has moved loads the deed that it waits for, until it waits for none.
    fn load<M: Memory>(&mut self, mem: &mut M, out: &mut Vec<u8>, session: u32) -> Result<(), Stop>
        requires can { CanGo (M.words mem.old) self.old out.old.items (IsMoved session) }
        requires session { IsSession session }
        ensures goes { OnOk result (Goes (M.words mem.old) self.old out.old.items
            (M.words mem.new) self.new out.new.items (IsMoved session) doing_in) }
        ensures halts { IfErr result (Halts (M.words mem.old) self.old out.old.items
            (M.words mem.new) self.new out.new.items (IsMoved session)) }
        ensures more { OnOk result (self.old.events ≤ self.new.events) }
        ensures count { OnOk result (M.faults mem.new ≡ M.faults mem.old) }
        ensures faults { IfErr result (CountsStop (M.faults mem.old) (M.faults mem.new)) }
    {
        while self.loads(session) {
            match self.refresh(mem, out, session) {
                Ok(()) => {}
                Err(stop) => return Err(stop),
            }
        }
        Ok(())
    }

    /// Prints a call that was made: its receipt is the last that has come.
    fn print_receipt(&self, out: &mut Vec<u8>, session: u32, number: u32) -> Result<(), Stop>
        ensures ok { OnOk result (out.new.items ≡ out.old.items
            ++ receipt_text session number (receipt_if true self.now.world.history)) }
        ensures want { IfErr result (λ stop. stop ≡ Stop.OutOfMemory) }
    {
        let Some(last) = self.world.history().last() else {
            return Ok(());
        };
        let receipt = &last.receipt;
        match print_made(out, session, number, &receipt.reply, receipt.position) {
            Ok(()) => Ok(()),
            Err(OutOfMemory) => Err(Stop::OutOfMemory),
        }
    }

    /// Prints how an attempt has ended.
    fn print_answer(
        &self,
        out: &mut Vec<u8>,
        session: u32,
        number: u32,
        answer: CallAnswer,
    ) -> Result<(), Stop>
        ensures ok { OnOk result (out.new.items ≡ out.old.items
            ++ answer_text session number
            (receipt_if (is_made_by answer) self.now.world.history) answer) }
        ensures want { IfErr result (λ stop. stop ≡ Stop.OutOfMemory) }
    {
        let line = match answer {
            CallAnswer::Made { .. } => return self.print_receipt(out, session, number),
            CallAnswer::NotOwner { look, cell } => EventLine::NotOwner {
                session,
                number,
                look,
                cell,
            },
            CallAnswer::Fenced { word } => EventLine::Fenced {
                session,
                number,
                word,
            },
            CallAnswer::Full { counter, segments } => EventLine::Full {
                session,
                number,
                counter,
                segments,
            },
            CallAnswer::Worn { stamp } => EventLine::Worn {
                session,
                number,
                stamp,
            },
        };
        print(out, line)
    }

    /// Prints what comes of a lane's action.
    fn print_step(&self, out: &mut Vec<u8>, lane: u8, outcome: Outcome) -> Result<(), Stop>
        ensures ok { OnOk result (out.new.items ≡ out.old.items ++ step_text lane
            (receipt_if (makes_call outcome) self.now.world.history) outcome) }
        ensures want { IfErr result (λ stop. stop ≡ Stop.OutOfMemory) }
    {
        match outcome {
            Outcome::Answered {
                session,
                number,
                answer,
                given,
            } => match self.print_answer(out, session, number, answer) {
                Ok(()) => print_given(out, session, number, given),
                Err(stop) => Err(stop),
            },
            Outcome::NoLane => print(out, EventLine::NoLane { lane }),
            _ => Ok(()),
        }
    }

    /// A session that an attempt was answered to loads the deed, where its call waits for that.
    fn load_answered<M: Memory>(
        &mut self,
        mem: &mut M,
        out: &mut Vec<u8>,
        outcome: Outcome,
    ) -> Result<(), Stop>
        requires can { CanGo (M.words mem.old) self.old out.old.items (IsMovedBy outcome) }
        requires session { IsToSession outcome }
        ensures goes { OnOk result (Goes (M.words mem.old) self.old out.old.items
            (M.words mem.new) self.new out.new.items (IsMovedBy outcome) doing_in) }
        ensures halts { IfErr result (Halts (M.words mem.old) self.old out.old.items
            (M.words mem.new) self.new out.new.items (IsMovedBy outcome)) }
        ensures more { OnOk result (self.old.events ≤ self.new.events) }
        ensures count { OnOk result (M.faults mem.new ≡ M.faults mem.old) }
        ensures faults { IfErr result (CountsStop (M.faults mem.old) (M.faults mem.new)) }
    {
        match outcome {
            Outcome::Answered { session, .. } => self.load(mem, out, session),
            _ => Ok(()),
        }
    }

    /// A lane makes its next action, and the session of an attempt that it refuses loads the deed.
    fn step<M: Memory>(&mut self, mem: &mut M, out: &mut Vec<u8>, lane: u8) -> Result<Outcome, Stop>
        requires can { CanGo (M.words mem.old) self.old out.old.items (Awaits (happens.Step lane)) }
        ensures goes { IfOk result (λ o. Goes (M.words mem.old) self.old out.old.items
            (M.words mem.new) self.new out.new.items (Awaits (happens.Step lane)) (left_by o)) }
        ensures halts { IfErr result (Halts (M.words mem.old) self.old out.old.items
            (M.words mem.new) self.new out.new.items (Awaits (happens.Step lane))) }
        ensures more { OnOk result (self.old.events < self.new.events) }
        ensures count { OnOk result (M.faults mem.new ≡ M.faults mem.old) }
        ensures faults { IfErr result (CountsStop (M.faults mem.old) (M.faults mem.new)) }
    {
        match self.event(mem, Event::Step { lane }) {
            Ok(Outcome::Acted) => Ok(Outcome::Acted),
            Ok(outcome) => match self.end_step(mem, out, lane, outcome) {
                Ok(()) => Ok(outcome),
                Err(stop) => Err(stop),
            },
            Err(stop) => Err(stop),
        }
    }

    /// What comes of a lane's action is printed, and the session of an attempt that it has refused loads the deed. Most actions
    /// end nothing, and don't come here.
    #[inline(never)]
    fn end_step<M: Memory>(
        &mut self,
        mem: &mut M,
        out: &mut Vec<u8>,
        lane: u8,
        outcome: Outcome,
    ) -> Result<(), Stop>
        requires can { CanGo (M.words mem.old) self.old
            (printed_step self.old out.old.items lane outcome) (IsMovedBy outcome) }
        requires session { IsToSession outcome }
        ensures goes { OnOk result (Goes (M.words mem.old) self.old
            (printed_step self.old out.old.items lane outcome) (M.words mem.new) self.new
            out.new.items (IsMovedBy outcome) doing_in) }
        ensures halts { IfErr result (Halts (M.words mem.old) self.old
            (printed_step self.old out.old.items lane outcome) (M.words mem.new) self.new
            out.new.items (IsMovedBy outcome)) }
        ensures more { OnOk result (self.old.events ≤ self.new.events) }
        ensures count { OnOk result (M.faults mem.new ≡ M.faults mem.old) }
        ensures faults { IfErr result (CountsStop (M.faults mem.old) (M.faults mem.new)) }
    {
        match self.print_step(out, lane, outcome) {
            Ok(()) => {}
            Err(stop) => return Err(stop),
        }
        self.load_answered(mem, out, outcome)
    }

    /// A session starts a call, and loads its deed where it knows no route.
    fn start<M: Memory>(
        &mut self,
        mem: &mut M,
        out: &mut Vec<u8>,
        session: u32,
        named: Option<u8>,
        call: Call,
    ) -> Result<Outcome, Stop>
        requires can { CanGo (M.words mem.old) self.old out.old.items
            (Awaits (happens.Start session named call)) }
        requires session { IsSession session }
        ensures goes { IfOk result (λ o. Goes (M.words mem.old) self.old out.old.items
            (M.words mem.new) self.new out.new.items (Awaits (happens.Start session named call))
            (left_by o)) }
        ensures halts { IfErr result (Halts (M.words mem.old) self.old out.old.items
            (M.words mem.new) self.new out.new.items
            (Awaits (happens.Start session named call))) }
        ensures count { OnOk result (M.faults mem.new ≡ M.faults mem.old) }
        ensures faults { IfErr result (CountsStop (M.faults mem.old) (M.faults mem.new)) }
    {
        let event = Event::Start {
            session,
            lane: named,
            call,
        };
        let outcome = match self.event(mem, event) {
            Ok(outcome) => outcome,
            Err(stop) => return Err(stop),
        };
        match print_start(out, session, named, outcome) {
            Ok(()) => {}
            Err(stop) => return Err(stop),
        }
        match self.load(mem, out, session) {
            Ok(()) => Ok(outcome),
            Err(stop) => Err(stop),
        }
    }

    /// The event of this action.
    fn act<M: Memory>(
        &mut self,
        mem: &mut M,
        out: &mut Vec<u8>,
        action: Action,
    ) -> Result<Outcome, Stop>
        requires can { CanGo (M.words mem.old) self.old out.old.items
            (Awaits (event_by action)) }
        ensures goes { IfOk result (λ o. Goes (M.words mem.old) self.old out.old.items
            (M.words mem.new) self.new out.new.items (Awaits (event_by action)) (left_by o)) }
        ensures halts { IfErr result (Halts (M.words mem.old) self.old out.old.items
            (M.words mem.new) self.new out.new.items (Awaits (event_by action))) }
        ensures count { OnOk result (M.faults mem.new ≡ M.faults mem.old) }
        ensures faults { IfErr result (CountsStop (M.faults mem.old) (M.faults mem.new)) }
    {
        match action {
            Action::Step { lane } => self.step(mem, out, lane),
            Action::Merge { lane } => self.merge(mem, out, lane),
            Action::Monitor => self.monitor(mem, out),
            Action::Flow { lane, index } => self.flow(mem, out, lane, index),
            Action::Add => self.add(mem, out),
            Action::Tell { from, to } => self.tell(mem, out, from, to),
            Action::Trim { lane } => self.trim(mem, out, lane),
        }
    }

    /// An action is done so many times, up to the first that finds nothing to do, or no lane.
    fn repeat<M: Memory>(
        &mut self,
        mem: &mut M,
        out: &mut Vec<u8>,
        action: Action,
        count: u32,
    ) -> Result<(), Stop>
        requires can { CanGo (M.words mem.old) self.old out.old.items
            (Repeats (event_by action) count) }
        ensures ends { OnOk result (Ends (M.words mem.old) self.old out.old.items
            (M.words mem.new) self.new out.new.items (Repeats (event_by action) count)) }
        ensures halts { IfErr result (Halts (M.words mem.old) self.old out.old.items
            (M.words mem.new) self.new out.new.items (Repeats (event_by action) count)) }
        ensures count { OnOk result (M.faults mem.new ≡ M.faults mem.old) }
        ensures faults { IfErr result (CountsStop (M.faults mem.old) (M.faults mem.new)) }
    {
        for done in 0..count {
            match self.act(mem, out, action) {
                Ok(outcome) => {
                    if finds_nothing(outcome) {
                        return Ok(());
                    }
                }
                Err(stop) => return Err(stop),
            }
        }
        Ok(())
    }

    /// A session loads the deed that its call waits for, as the next event of its line.
    fn reload<M: Memory>(
        &mut self,
        mem: &mut M,
        out: &mut Vec<u8>,
        session: u32,
    ) -> Result<Outcome, Stop>
        requires can { CanGo (M.words mem.old) self.old out.old.items
            (Awaits (happens.Refresh session)) }
        requires session { IsSession session }
        ensures goes { IfOk result (λ o. Goes (M.words mem.old) self.old out.old.items
            (M.words mem.new) self.new out.new.items (Awaits (happens.Refresh session))
            (left_by o)) }
        ensures halts { IfErr result (Halts (M.words mem.old) self.old out.old.items
            (M.words mem.new) self.new out.new.items (Awaits (happens.Refresh session))) }
        ensures more { OnOk result (self.old.events < self.new.events) }
        ensures count { OnOk result (M.faults mem.new ≡ M.faults mem.old) }
        ensures faults { IfErr result (CountsStop (M.faults mem.old) (M.faults mem.new)) }
    {
        let outcome = match self.event(mem, Event::Refresh { session }) {
            Ok(outcome) => outcome,
            Err(stop) => return Err(stop),
        };
        match print_load(out, outcome) {
            Ok(()) => {}
            Err(stop) => return Err(stop),
        }
        match self.load(mem, out, session) {
            Ok(()) => Ok(outcome),
            Err(stop) => Err(stop),
        }
    }

    /// A session's call, which stands at this place, goes on.
    fn go_on<M: Memory>(
        &mut self,
        mem: &mut M,
        out: &mut Vec<u8>,
        session: u32,
        place: Place,
    ) -> Result<Outcome, Stop>
        requires can { CanGo (M.words mem.old) self.old out.old.items
            (Awaits (moves_at session place)) }
        requires session { IsSession session }
        ensures goes { IfOk result (λ o. Goes (M.words mem.old) self.old out.old.items
            (M.words mem.new) self.new out.new.items (Awaits (moves_at session place))
            (left_by o)) }
        ensures halts { IfErr result (Halts (M.words mem.old) self.old out.old.items
            (M.words mem.new) self.new out.new.items (Awaits (moves_at session place))) }
        ensures more { OnOk result (self.old.events < self.new.events) }
        ensures count { OnOk result (M.faults mem.new ≡ M.faults mem.old) }
        ensures faults { IfErr result (CountsStop (M.faults mem.old) (M.faults mem.new)) }
    {
        match place {
            Place::Loading { .. } => self.reload(mem, out, session),
            Place::Queued { lane } => self.step(mem, out, lane),
            Place::Begun { lane } => self.step(mem, out, lane),
        }
    }

    /// The call that a session has is run to its end.
    fn finish<M: Memory>(
        &mut self,
        mem: &mut M,
        out: &mut Vec<u8>,
        session: u32,
    ) -> Result<(), Stop>
        requires can { CanGo (M.words mem.old) self.old out.old.items (Finishes session) }
        requires session { IsSession session }
        ensures ends { OnOk result (Ends (M.words mem.old) self.old out.old.items
            (M.words mem.new) self.new out.new.items (Finishes session)) }
        ensures halts { IfErr result (Halts (M.words mem.old) self.old out.old.items
            (M.words mem.new) self.new out.new.items (Finishes session)) }
        ensures count { OnOk result (M.faults mem.new ≡ M.faults mem.old) }
        ensures faults { IfErr result (CountsStop (M.faults mem.old) (M.faults mem.new)) }
    {
        while let Some(place) = self.place(session) {
            match self.go_on(mem, out, session, place) {
                Ok(_) => {}
                Err(stop) => return Err(stop),
            }
        }
        Ok(())
    }

    /// A session starts a call, and runs it to its end unless it is only started.
    fn call<M: Memory>(
        &mut self,
        mem: &mut M,
        out: &mut Vec<u8>,
        session: u32,
        named: Option<u8>,
        only: bool,
        call: Call,
    ) -> Result<(), Stop>
        requires can { CanGo (M.words mem.old) self.old out.old.items
            (Undone (asks.Start session named only call)) }
        requires session { IsSession session }
        ensures ends { OnOk result (Ends (M.words mem.old) self.old out.old.items
            (M.words mem.new) self.new out.new.items
            (Undone (asks.Start session named only call))) }
        ensures halts { IfErr result (Halts (M.words mem.old) self.old out.old.items
            (M.words mem.new) self.new out.new.items
            (Undone (asks.Start session named only call))) }
        ensures count { OnOk result (M.faults mem.new ≡ M.faults mem.old) }
        ensures faults { IfErr result (CountsStop (M.faults mem.old) (M.faults mem.new)) }
    {
        let outcome = match self.start(mem, out, session, named, call) {
            Ok(outcome) => outcome,
            Err(stop) => return Err(stop),
        };
        if runs_on(only, outcome) {
            self.finish(mem, out, session)
        } else {
            Ok(())
        }
    }

    /// Does what a line asks for. The lines that aren't played yet are none of the grammar; nothing is done for them.
    pub fn line<M: Memory>(
        &mut self,
        mem: &mut M,
        out: &mut Vec<u8>,
        line: Line,
    ) -> Result<(), Stop>
        requires can { CanGo (M.words mem.old) self.old out.old.items (Undone (doing_of line)) }
        ensures ends { OnOk result (Ends (M.words mem.old) self.old out.old.items
            (M.words mem.new) self.new out.new.items (Undone (doing_of line))) }
        ensures halts { IfErr result (Halts (M.words mem.old) self.old out.old.items
            (M.words mem.new) self.new out.new.items (Undone (doing_of line))) }
        ensures count { OnOk result (M.faults mem.new ≡ M.faults mem.old) }
        ensures faults { IfErr result (CountsStop (M.faults mem.old) (M.faults mem.new)) }
    {
        match line {
            Line::Call {
                session,
                lane,
                start,
                call,
            } => self.call(mem, out, session, lane, start, call),
            Line::Step { lane, count } => self.repeat(mem, out, Action::Step { lane }, count),
            Line::Merge { lane, count } => self.repeat(mem, out, Action::Merge { lane }, count),
            Line::Flow { lane, index } => self.repeat(mem, out, Action::Flow { lane, index }, 1),
            Line::Monitor { count } => self.repeat(mem, out, Action::Monitor, count),
            Line::Move { start, key, lane } => self.move_slot(mem, out, key, lane, !start),
            Line::Add => self.repeat(mem, out, Action::Add, 1),
            Line::Tell { from, to } => self.repeat(mem, out, Action::Tell { from, to }, 1),
            Line::Trim { lane } => self.repeat(mem, out, Action::Trim { lane }, 1),
            _ => Ok(()),
        }
    }

    /// Plays these lines, one after the other.
    pub fn lines<M: Memory>(
        &mut self,
        mem: &mut M,
        out: &mut Vec<u8>,
        lines: Vec<Line>,
    ) -> Result<(), Stop>
        requires can { CanGo (M.words mem.old) self.old out.old.items (Follow lines.items) }
        ensures all { OnOk result (Reaches (M.words mem.old) self.old out.old.items
            (M.words mem.new) self.new out.new.items (Follow lines.items) []) }
        ensures halts { IfErr result (Halts (M.words mem.old) self.old out.old.items
            (M.words mem.new) self.new out.new.items (Follow lines.items)) }
        ensures count { OnOk result (M.faults mem.new ≡ M.faults mem.old) }
        ensures faults { IfErr result (CountsStop (M.faults mem.old) (M.faults mem.new)) }
    {
        for line in lines {
            match self.line(mem, out, line) {
                Ok(()) => {}
                Err(stop) => return Err(stop),
            }
        }
        Ok(())
    }
}
