//! What a plan does in each phase, and what comes after it.

ghost use Rattle.std.specs.Prelude.{◌≡◌, ◌≢◌, ◌<◌, ◌≤◌, ◌^◌, ◌↔◌, ℕ, Option, Some, None, true, false, IfSome};
ghost use Rattle.dn_act.specs.Action.{at_of};
ghost use Rattle.dn_word.specs.Regions.{segments_at};
ghost use Rattle.dn_word.specs.Gate.{gate_of};
ghost use Rattle.dn_word.specs.Need.{quiet_of, raised_of};
ghost use Rattle.dn_word.specs.declared.packed.place.Ref.{Ref};
ghost use Rattle.dn_word.specs.declared.positions.Position.{Position};
ghost use Rattle.dn_plan.specs.Plan.{sealing_word, action_of, sealing_of, acts, ends, goes, learns, is_owner, looked, need_of, raises, reads, writes, opened, barred, gated, exchanged, taken_of, located_of, roomed_of, sealed_of};
ghost use Rattle.dn_plan.specs.Fit.{FitsBrief, FitsAct, FitsLocate, FitsRoom, FitsSeal, FitsEnding, FitsThen, FitsAfter, FitsStep};
ghost use Rattle.dn_plan.specs.Rank.{rank_act, rank_locate, rank_room, rank_seal, rank_then, rank_after, rank_next, records_act, records_locate, records_room, records_seal, records_then, records_after, records_next, has_room_act, has_room_after, has_room_next};
ghost use Rattle.dn_plan.specs.Causes.{IsNotOwner, IsFenced, IsWorn, IsRead, IsWritten, IsShut};
ghost use Rattle.dn_plan.specs.Program.{Runs};
ghost use Rattle.dn_plan.specs.Sequence.{call_plan};

use crate::phases::{
    ActPhase, Brief, Entry, Kind, LocatePhase, Located, Raised, Room, RoomPhase, SealPhase, Sealing,
};
use crate::results::{After, Effect, Ending, Next, Step, Then};
use dn_act::Action;
use dn_word::regions::{deed_at, gate_at};
use dn_word::{Deed, DeedState, Gate, MAX_STAMP, Need, Position, Ref, slot_of};

/// The gate word that seals a log of this length at this stamp.
fn sealing_word(stamp: u32, len: u32) -> u64
    requires stamp { stamp < 2 ^ 31 }
    requires len { len < 2 ^ 24 }
    ensures { result ≡ sealing_word stamp len }
{
    let gate = Gate {
        fenced: false,
        stamp,
        len,
    };
    gate.word()
}

/// The plan goes on with no effect.
fn go(next: Next) -> Step
    ensures { result ≡ goes next }
{
    Step { effect: None, next }
}

/// The plan goes on, and the lane learns something.
fn learn(effect: Effect, next: Next) -> Step
    ensures { result ≡ learns effect next }
{
    Step {
        effect: Some(effect),
        next,
    }
}

/// An end as what comes after an action.
fn end(ending: Ending) -> Next
    ensures { result ≡ ends ending }
{
    Next::After(After::Then(Then::End(ending)))
}

/// The gate is closed to the lane.
fn bar(gate: u64) -> Step
    ensures { result ≡ barred gate }
{
    learn(Effect::Bar { gate }, end(Ending::Fenced { gate }))
}

/// After an exchange of the gate, which ends the call where it was done.
fn after_exchange(gate: u64, found: u64, ending: Ending) -> Step
    ensures { result ≡ exchanged gate found ending }
{
    if found == gate {
        go(end(ending))
    } else {
        bar(found)
    }
}

/// After the look.
fn after_look(brief: &Brief, deed: u64) -> Step
    requires brief { FitsBrief brief.now }
    ensures value { result ≡ looked brief.now deed }
    ensures fits { FitsStep brief.now result }
    ensures falls { rank_next result.next < 5 }
    ensures records { records_next result.next ≤ 1 }
    ensures room { has_room_next result.next ≡ false }
{
    let read = Deed::read(deed);
    let slot = slot_of(brief.key);
    let next = if read.state == DeedState::Owned && read.lane == brief.lane {
        Next::Locate(LocatePhase::Owner { look: deed })
    } else {
        end(Ending::NotOwner { look: deed })
    };
    learn(
        Effect::Epoch {
            slot,
            epoch: read.epoch,
        },
        next,
    )
}

/// What the call's position has to exceed.
fn need_of(brief: &Brief, look: u64) -> Need
    ensures { result ≡ need_of brief.now look }
{
    Need {
        floor: Deed::read(look).floor,
        last: brief.view.last,
        session: brief.view.session,
    }
}

/// A get that may not stay at the stamp of the gate raises it.
fn raise(look: u64, located: Located, gate: u64, raised: Option<Position>) -> After
    ensures { result ≡ raises look located gate raised }
{
    let Some(to) = raised else {
        return After::Then(Then::End(Ending::Worn { stamp: MAX_STAMP }));
    };
    let raised = Raised {
        look,
        located,
        gate,
        to,
    };
    After::Then(Then::Act(ActPhase::Raise { raised }))
}

/// A get that loaded its gate.
fn read(
    look: u64,
    located: Located,
    gate: u64,
    quiet: Option<Position>,
    raised: Option<Position>,
) -> After
    ensures { result ≡ reads look located gate quiet raised }
{
    match quiet {
        Some(to) => After::Then(Then::End(Ending::Made {
            to,
            at: None,
            located,
        })),
        None => raise(look, located, gate, raised),
    }
}

/// A put or delete that loaded its gate.
fn write(look: u64, located: Located, gate: u64, raised: Option<Position>) -> After
    ensures { result ≡ writes look located gate raised }
{
    let Some(to) = raised else {
        return After::Then(Then::End(Ending::Worn { stamp: MAX_STAMP }));
    };
    let raised = Raised {
        look,
        located,
        gate,
        to,
    };
    After::Room(RoomPhase::Write { raised })
}

/// After the load of a gate without the bit.
fn after_open(brief: &Brief, look: u64, located: Located, word: u64) -> After
    requires brief { FitsBrief brief.now }
    requires look { is_owner brief.now.lane look ≡ true }
    requires free { (gate_of word).fenced ≡ false }
    ensures value { result ≡ opened brief.now look located word brief.now.kind }
    ensures fits { FitsAfter brief.now result }
    ensures falls { rank_after result < 3 }
    ensures records { records_after result ≤ 1 }
    ensures room { has_room_after result ≡ false }
{
    let need = need_of(brief, look);
    let stamp = Gate::read(word).stamp;
    match brief.kind {
        Kind::Get => read(look, located, word, need.quiet(stamp), need.raised(stamp)),
        Kind::Put | Kind::Delete => write(look, located, word, need.raised(stamp)),
    }
}

/// After the load of the gate.
fn after_gate(brief: &Brief, look: u64, located: Located, word: u64) -> Step
    requires brief { FitsBrief brief.now }
    requires look { is_owner brief.now.lane look ≡ true }
    ensures value { result ≡ gated brief.now look located word }
    ensures fits { FitsStep brief.now result }
    ensures falls { rank_next result.next < 3 }
    ensures records { records_next result.next ≤ 1 }
    ensures room { has_room_next result.next ≡ false }
{
    if Gate::read(word).fenced {
        return bar(word);
    }
    go(Next::After(after_open(brief, look, located, word)))
}

impl Brief {
    /// Where the call begins: with its look.
    pub fn begin(&self) -> ActPhase
        requires { FitsBrief self.now }
        ensures value { result ≡ ActPhase.Look }
        ensures fits { FitsAct self.now result }
        ensures sequence { Runs self.now (call_plan self.now) result }
    {
        let _brief = *self;
        ActPhase::Look
    }
}

impl ActPhase {
    /// The action whose word the plan waits for: a load of the deed of the key's slot or of the lane's gate, or an
    /// exchange of that gate which leaves its length.
    pub fn action(self, brief: &Brief) -> Action
        requires brief { FitsBrief brief.now }
        requires phase { FitsAct brief.now self }
        ensures value { result ≡ action_of brief.now self }
        ensures within { at_of result < segments_at }
    {
        match self {
            ActPhase::Look => Action::Load {
                at: deed_at(slot_of(brief.key)),
            },
            ActPhase::Gate { .. } => Action::Load {
                at: gate_at(brief.lane),
            },
            ActPhase::Raise { raised } => Action::Cas {
                at: gate_at(brief.lane),
                old: raised.gate,
                new: sealing_word(raised.to.stamp, Gate::read(raised.gate).len),
            },
        }
    }

    /// What comes after the word that the action found. Each answer comes exactly where its clause says. `Full` never
    /// does: it is told by the finding of room.
    pub fn take(self, brief: &Brief, word: u64) -> Step
        requires brief { FitsBrief brief.now }
        requires phase { FitsAct brief.now self }
        ensures value { result ≡ taken_of brief.now self word }
        ensures fits { FitsStep brief.now result }
        ensures falls { rank_next result.next < rank_act self }
        ensures records { records_next result.next ≤ records_act self }
        ensures room { has_room_next result.next ≡ true → has_room_act self ≡ true }
        ensures not_owner { (look : ℕ) →
            (result.next ≡ ends (Ending.NotOwner look)) ↔ IsNotOwner brief.now look word self }
        ensures fenced { (gate : ℕ) →
            (result.next ≡ ends (Ending.Fenced gate)) ↔ IsFenced gate word self }
        ensures worn { (stamp : ℕ) →
            (result.next ≡ ends (Ending.Worn stamp)) ↔ IsWorn brief.now stamp word self }
        ensures made { (to : Position) (place : Option Ref) (located : Located) →
            (result.next ≡ ends (Ending.Made to place located))
            ↔ IsRead brief.now to place located word self }
        ensures full { (counter segments : ℕ) →
            result.next ≢ ends (Ending.Full counter segments) }
    {
        match self {
            ActPhase::Look => after_look(brief, word),
            ActPhase::Gate { look, located } => after_gate(brief, look, located, word),
            ActPhase::Raise { raised } => after_exchange(
                raised.gate,
                word,
                Ending::Made {
                    to: raised.to,
                    at: None,
                    located: raised.located,
                },
            ),
        }
    }
}

impl LocatePhase {
    /// What comes once the key is located.
    pub fn located(self, brief: &Brief, located: Located) -> After
        requires { FitsLocate brief.now self }
        ensures value { result ≡ located_of self located }
        ensures fits { FitsAfter brief.now result }
        ensures falls { rank_after result < rank_locate self }
        ensures records { records_after result ≤ records_locate self }
        ensures room { has_room_after result ≡ false }
    {
        match self {
            LocatePhase::Owner { look } => After::Then(Then::Act(ActPhase::Gate { look, located })),
        }
    }
}

impl RoomPhase {
    /// What comes once room was looked for. `Full` comes exactly where there is none, and tells the same.
    pub fn roomed(self, brief: &Brief, room: Room) -> Then
        requires { FitsRoom brief.now self }
        ensures value { result ≡ roomed_of self room }
        ensures fits { FitsThen brief.now result }
        ensures falls { rank_then result < rank_room self }
        ensures records { records_then result ≤ records_room self }
        ensures full { (counter segments : ℕ) →
            (result ≡ Then.End (Ending.Full counter segments))
            ↔ (room ≡ Room.Full counter segments) }
    {
        match (self, room) {
            (RoomPhase::Write { raised }, Room::Found) => Then::Seal(SealPhase::Write { raised }),
            (RoomPhase::Write { .. }, Room::Full { counter, segments }) => {
                Then::End(Ending::Full { counter, segments })
            }
        }
    }
}

impl SealPhase {
    /// What is to be sealed.
    pub fn sealing(self, brief: &Brief) -> Sealing
        requires { FitsSeal brief.now self }
        ensures value { result ≡ sealing_of self }
        ensures stamp { result.stamp < 2 ^ 31 }
    {
        match self {
            SealPhase::Write { raised } => Sealing {
                entry: Entry::Own,
                gate: raised.gate,
                stamp: raised.to.stamp,
            },
        }
    }

    /// What comes after the exchange of the gate, which found this word. Where it was done, the record stands at `at`.
    pub fn sealed(self, brief: &Brief, at: Ref, word: u64) -> Step
        requires { FitsSeal brief.now self }
        ensures value { result ≡ sealed_of self at word }
        ensures fits { FitsStep brief.now result }
        ensures falls { rank_next result.next < rank_seal self }
        ensures records { records_next result.next < records_seal self }
        ensures room { has_room_next result.next ≡ false }
        ensures made { (to : Position) (place : Option Ref) (located : Located) →
            (result.next ≡ ends (Ending.Made to place located))
            ↔ IsWritten to place located at word self }
        ensures fenced { (gate : ℕ) →
            (result.next ≡ ends (Ending.Fenced gate)) ↔ IsShut gate word self }
    {
        match self {
            SealPhase::Write { raised } => after_exchange(
                raised.gate,
                word,
                Ending::Made {
                    to: raised.to,
                    at: Some(at),
                    located: raised.located,
                },
            ),
        }
    }
}
