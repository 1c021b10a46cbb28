//! What a plan asks for, and how it goes on.

ghost use Rattle.std.specs.Prelude.{◌≡◌, ◌≢◌, ◌<◌, ◌≤◌, ◌↔◌, ℕ, true, false};
ghost use Rattle.dn_word.specs.Regions.{segments_at};
ghost use Rattle.dn_act.specs.Action.{at_of};
ghost use Rattle.dn_plan.specs.Fit.{FitsBrief};
ghost use Rattle.dn_tend.specs.Tend.{seal_in};
ghost use Rattle.dn_tend.specs.Fit.{FitsFound};
ghost use Rattle.dn_ask.specs.Ask.{action_in, taken_in, key_in, wish_in, located_in, roomed_in, task_gate, task_record_key, record_in, after_task_seal, sealed_in, goes, ends, barred};
ghost use Rattle.dn_ask.specs.Fit.{FitsAct, FitsLocate, FitsRoom, FitsSeal, FitsSealed, FitsThen, FitsAfter, FitsStep};
ghost use Rattle.dn_ask.specs.Rank.{rank_act, rank_locate, rank_room, rank_seal, rank_then, rank_after, rank_next, records_act, records_locate, records_room, records_seal, records_then, records_after, records_next, has_room_act, has_room_then, has_room_after, has_room_next};
ghost use Rattle.dn_ask.specs.Causes.{IsFull};

use crate::asks::{Act, After, End, FindRoom, Here, Locate, Next, Seal, Sealed, Step, Then};
use crate::calls::{call_after, call_step, call_then};
use crate::tasks::{task_after, task_next, task_step, task_then};
use dn_act::Action;
use dn_locate::Wish;
use dn_plan::{Brief, Effect, Kind, Located, Room};
use dn_tend::{TaskAnswer, TendLocate, TendSeal, TendSealing};
use dn_word::Ref;

/// How locating its key came out for a call.
fn located(here: Here) -> Located
    ensures { result ≡ record { way = here.way; held = here.held } }
{
    Located {
        way: here.way,
        held: here.held,
    }
}

impl Act {
    /// The action whose word the plan waits for: below the segments of the pool.
    pub fn action(self, brief: &Brief) -> Action
        requires { FitsAct brief.now self }
        ensures value { result ≡ action_in brief.now self }
        ensures within { at_of result < segments_at }
    {
        match self {
            Act::Call(phase) => phase.action(brief),
            Act::Task(phase) => phase.action(brief.lane),
        }
    }

    /// What comes after the word that the action found.
    pub fn take(self, brief: &Brief, word: u64) -> Step
        requires { FitsAct brief.now self }
        ensures value { result ≡ taken_in brief.now self word }
        ensures fits { FitsStep brief.now result }
        ensures falls { rank_next result.next < rank_act self }
        ensures records { records_next result.next ≤ records_act self }
        ensures room { has_room_next result.next ≡ true → has_room_act self ≡ true }
    {
        match self {
            Act::Call(phase) => call_step(brief, phase.take(brief, word)),
            Act::Task(phase) => task_step(brief, phase.take(brief.lane, word)),
        }
    }
}

impl Locate {
    /// The key that is located, which isn't 0.
    pub fn key(self, brief: &Brief) -> u64
        requires { FitsLocate brief.now self }
        ensures value { result ≡ key_in brief.now self }
        ensures named { result ≢ 0 }
    {
        match self {
            Locate::Call(_) => brief.key,
            Locate::Task(TendLocate::Share { key, .. } | TendLocate::Unshare { key, .. }) => key,
        }
    }

    /// What of the key's record is wanted: a get its value, a task its place.
    pub fn wish(self, brief: &Brief) -> Wish
        ensures { result ≡ wish_in brief.now self }
    {
        match self {
            Locate::Call(_) => match brief.kind {
                Kind::Get => Wish::Value,
                Kind::Put | Kind::Delete => Wish::Kind,
            },
            Locate::Task(_) => Wish::Place,
        }
    }

    /// What comes once the key is located.
    pub fn located(self, brief: &Brief, here: Here) -> After
        requires phase { FitsLocate brief.now self }
        requires found { FitsFound here.found }
        ensures value { result ≡ located_in here self }
        ensures fits { FitsAfter brief.now result }
        ensures falls { rank_after result < rank_locate self }
        ensures records { records_after result ≤ records_locate self }
        ensures room { has_room_after result ≡ false }
    {
        match self {
            Locate::Call(phase) => call_after(brief, phase.located(brief, located(here))),
            Locate::Task(phase) => task_after(brief, phase.located(brief.lane, here.found)),
        }
    }
}

impl FindRoom {
    /// What comes once room was looked for. Where there is none, the plan ends as Full.
    pub fn roomed(self, brief: &Brief, room: Room) -> Then
        requires { FitsRoom brief.now self }
        ensures value { result ≡ roomed_in room self }
        ensures fits { FitsThen brief.now result }
        ensures falls { rank_then result < rank_room self }
        ensures records { records_then result ≤ records_room self }
        ensures room { has_room_then result ≡ true → room ≡ Room.Found }
        ensures full { (counter segments : ℕ) → IsFull counter segments result
            ↔ (room ≡ Room.Full counter segments) }
    {
        match (self, room) {
            (FindRoom::Call(phase), room) => call_then(brief, phase.roomed(brief, room)),
            (FindRoom::Task(phase), Room::Found) => task_then(brief, phase.roomed(brief.lane)),
            (FindRoom::Task(_), Room::Full { counter, segments }) => {
                Then::End(End::Task(TaskAnswer::Full { counter, segments }))
            }
        }
    }
}

/// A task whose record was sealed goes on; one whose exchange found another gate ends, and the gate is closed to its lane.
fn after_task_seal(brief: &Brief, phase: TendSealing, gate: u64, word: u64) -> Step
    requires phase { FitsSeal brief.now (Seal.Task phase) }
    ensures value { result ≡ after_task_seal phase gate word }
    ensures fits { FitsStep brief.now result }
    ensures falls { rank_next result.next < rank_seal (Seal.Task phase) }
    ensures records { records_next result.next < records_seal (Seal.Task phase) }
    ensures room { has_room_next result.next ≡ false }
{
    if word == gate {
        return Step {
            effect: None,
            next: task_next(brief, phase.sealed(brief.lane)),
        };
    }
    Step {
        effect: Some(Effect::Bar { gate: word }),
        next: Next::After(After::Then(Then::End(End::Task(TaskAnswer::Fenced { word })))),
    }
}

/// The gate word from which the exchange begins that seals a task's record.
fn gate_of(phase: TendSealing) -> u64
    ensures { result ≡ task_gate (seal_in phase) }
{
    match phase.sealing() {
        TendSeal::Share { gate, .. } | TendSeal::Unshare { gate, .. } => gate,
    }
}

/// The key of a task's record.
fn key_of(phase: TendSealing) -> u64
    ensures { result ≡ task_record_key phase }
{
    match phase {
        TendSealing::Share { share, .. } => share.key,
        TendSealing::Unshare { unshare, .. } => unshare.key,
    }
}

impl Seal {
    /// The record that is sealed, and the gate word from which its exchange begins.
    pub fn record(self, brief: &Brief) -> Sealed
        requires { FitsSeal brief.now self }
        ensures value { result ≡ record_in self }
        ensures fits { FitsSealed brief.now result }
    {
        match self {
            Seal::Call(phase) => Sealed::Call(phase.sealing(brief)),
            Seal::Task(phase) => Sealed::Task {
                key: key_of(phase),
                seal: phase.sealing(),
            },
        }
    }

    /// What comes after the exchange of the gate, which found this word. Where it was done, the record stands at `at`.
    pub fn sealed(self, brief: &Brief, at: Ref, word: u64) -> Step
        requires { FitsSeal brief.now self }
        ensures value { result ≡ sealed_in at word self }
        ensures fits { FitsStep brief.now result }
        ensures falls { rank_next result.next < rank_seal self }
        ensures records { records_next result.next < records_seal self }
        ensures room { has_room_next result.next ≡ false }
    {
        match self {
            Seal::Call(phase) => call_step(brief, phase.sealed(brief, at, word)),
            Seal::Task(phase) => after_task_seal(brief, phase, gate_of(phase), word),
        }
    }
}
