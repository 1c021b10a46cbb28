//! Where an order goes on by the word that an action found.

ghost use Rattle.std.specs.Prelude.{◌≡◌, ◌<◌, ◌≤◌, ◌+◌, ◌^◌, ◌↔◌, ℕ, IsTrue, true};
ghost use Rattle.dn_word.specs.Gate.{gate_of};
ghost use Rattle.dn_word.specs.Deed.{deed_of, deed_word};
ghost use Rattle.dn_monitor.specs.Grant.{owned_by, raised, granted, granted_word, leaving, leaving_word};
ghost use Rattle.dn_monitor.specs.Monitor.{is_lane, on, told, ended, granting, yielding, passed, after_deed, by_state, after_gate, after_mark, won, after_grant, step_in, IsErrand, IsGate, MayGate, NamesLane, IsPlace};

use crate::orders::{MonitorAnswer, MonitorTurn};
use crate::places::{Errand, MonitorPlace};
use dn_word::regions::{LANES, SLOTS};
use dn_word::{Deed, DeedState, Gate, MAX_EPOCH};

/// Where an order goes on, and what it answers.
#[derive(Clone, Copy)]
pub struct MonitorStep {
    pub place: MonitorPlace,
    pub turn: MonitorTurn,
}

/// The order goes on.
fn go(place: MonitorPlace) -> MonitorStep
    ensures { result ≡ on place }
{
    MonitorStep {
        place,
        turn: MonitorTurn::More,
    }
}

/// The order has an answer and goes on.
fn tell(place: MonitorPlace, answer: MonitorAnswer) -> MonitorStep
    ensures { result ≡ told place answer }
{
    MonitorStep {
        place,
        turn: MonitorTurn::Answered(answer),
    }
}

/// The order ends.
fn end(answer: MonitorAnswer) -> MonitorStep
    ensures { result ≡ ended answer }
{
    tell(MonitorPlace::Done, answer)
}

/// Whether a number is a lane's, from 1 to 63.
fn is_lane(lane: u8) -> bool
    ensures value { result ≡ is_lane lane }
    ensures least { result ≡ true → 0 < lane }
    ensures most { result ≡ true → lane < 64 }
{
    0 < lane && lane <= LANES
}

/// What a grant makes of a deed, by the gate of the lane that had the slot. Lane 0 stands for nobody.
pub(crate) fn grant(deed: u64, gate: Option<Gate>, to: u8) -> u64
    requires epoch { (deed_of deed).epoch + 1 < 2 ^ 23 }
    requires gate { MayGate gate }
    ensures value { result ≡ granted_word deed gate to }
    ensures again { deed_of result ≡ granted (deed_of deed) gate to }
{
    let deed = Deed::read(deed);
    let floor = match gate {
        Some(gate) => deed.floor.max(gate.stamp),
        None => deed.floor,
    };
    let state = if to == 0 {
        DeedState::Nobody
    } else {
        DeedState::Owned
    };
    let granted = Deed {
        state,
        epoch: deed.epoch + 1,
        lane: to,
        floor,
    };
    granted.word()
}

/// The deed that asks its lane to leave.
pub(crate) fn ask(deed: u64) -> u64
    ensures value { result ≡ leaving_word deed }
    ensures again { deed_of result ≡ leaving (deed_of deed) }
{
    let leaving = Deed {
        state: DeedState::Leaving,
        ..Deed::read(deed)
    };
    leaving.word()
}

/// The deed is granted next, unless its epoch is the last one.
fn before_grant(errand: Errand, deed: u64, gate: Option<Gate>) -> MonitorStep
    requires errand { IsErrand errand }
    requires gate { MayGate gate }
    ensures value { result ≡ granting errand deed gate }
    ensures bounds { IsPlace result.place }
{
    let epoch = Deed::read(deed).epoch;
    if epoch == MAX_EPOCH {
        end(MonitorAnswer::Worn { epoch })
    } else {
        go(MonitorPlace::Grant { errand, deed, gate })
    }
}

/// A lane leaves the slot or has left it.
fn after_yield(errand: Errand, deed: u64) -> MonitorStep
    requires errand { IsErrand errand }
    ensures value { result ≡ yielding errand deed }
    ensures bounds { IsPlace result.place }
{
    if is_lane(Deed::read(deed).lane) {
        go(MonitorPlace::Gate { errand, deed })
    } else {
        before_grant(errand, deed, None)
    }
}

/// After the deed of a slot that is moved.
fn after_moved(slot: u8, to: u8, deed: u64) -> MonitorStep
    requires errand { IsErrand (Errand.Move slot to) }
    ensures value { result ≡ by_state slot to deed (deed_of deed).state }
    ensures bounds { IsPlace result.place }
{
    let errand = Errand::Move { slot, to };
    let read = Deed::read(deed);
    match read.state {
        DeedState::Nobody => before_grant(errand, deed, None),
        DeedState::Owned if read.lane == to => end(MonitorAnswer::Granted { deed }),
        DeedState::Owned => go(MonitorPlace::Leave { slot, to, deed }),
        DeedState::Leaving | DeedState::Released => after_yield(errand, deed),
    }
}

/// A takeover is past a slot.
fn pass(lane: u8, slot: u8, granted: u8) -> MonitorStep
    requires slot { slot < 64 }
    requires least { 0 < lane }
    requires most { lane < 64 }
    requires granted { granted ≤ slot + 1 }
    ensures value { result ≡ passed lane slot granted }
    ensures bounds { IsPlace result.place }
{
    if slot == SLOTS - 1 {
        end(MonitorAnswer::Taken { slots: granted })
    } else {
        let errand = Errand::Takeover {
            lane,
            slot: slot + 1,
            granted,
        };
        go(MonitorPlace::Deed { errand })
    }
}

/// After the deed of a slot.
fn after_deed(errand: Errand, deed: u64) -> MonitorStep
    requires errand { IsErrand errand }
    ensures value { result ≡ after_deed errand deed }
    ensures bounds { IsPlace result.place }
{
    match errand {
        Errand::Move { slot, to } => after_moved(slot, to, deed),
        Errand::Takeover {
            lane,
            slot,
            granted,
        } => {
            if Deed::read(deed).lane == lane {
                go(MonitorPlace::Gate { errand, deed })
            } else {
                pass(lane, slot, granted)
            }
        }
    }
}

/// After the gate of the lane that has the slot or had it.
fn after_gate(errand: Errand, deed: u64, word: u64) -> MonitorStep
    requires errand { IsErrand errand }
    requires lane { NamesLane deed }
    ensures value { result ≡ after_gate errand deed word }
    ensures bounds { IsPlace result.place }
{
    let gate = Gate::read(word);
    let next = go(MonitorPlace::Mark { errand, deed, gate });
    match errand {
        Errand::Move { .. } => match Deed::read(deed).state {
            DeedState::Leaving if !gate.fenced => tell(
                MonitorPlace::Deed { errand },
                MonitorAnswer::Held { deed },
            ),
            _ => next,
        },
        Errand::Takeover { .. } if !gate.fenced => end(MonitorAnswer::NotFenced { word }),
        Errand::Takeover { .. } => next,
    }
}

/// After the mark of the lane that had the slot.
fn after_mark(errand: Errand, deed: u64, gate: Gate, mark: u64) -> MonitorStep
    requires errand { IsErrand errand }
    requires lane { NamesLane deed }
    requires gate { IsGate gate }
    ensures value { result ≡ after_mark errand deed gate mark }
    ensures bounds { IsPlace result.place }
{
    if mark < u64::from(gate.len) {
        tell(
            MonitorPlace::Mark { errand, deed, gate },
            MonitorAnswer::Waiting {
                mark,
                need: gate.len,
            },
        )
    } else {
        before_grant(errand, deed, Some(gate))
    }
}

/// After the exchange that grants, where it was done.
fn after_won(errand: Errand, deed: u64, gate: Option<Gate>) -> MonitorStep
    requires errand { IsErrand errand }
    requires epoch { (deed_of deed).epoch + 1 < 2 ^ 23 }
    requires gate { MayGate gate }
    ensures value { result ≡ won errand deed gate }
    ensures bounds { IsPlace result.place }
{
    match errand {
        Errand::Move { to, .. } => end(MonitorAnswer::Granted {
            deed: grant(deed, gate, to),
        }),
        Errand::Takeover {
            lane,
            slot,
            granted,
        } => pass(lane, slot, granted + 1),
    }
}

/// After the exchange that grants.
fn after_grant(errand: Errand, deed: u64, gate: Option<Gate>, found: u64) -> MonitorStep
    requires errand { IsErrand errand }
    requires epoch { (deed_of deed).epoch + 1 < 2 ^ 23 }
    requires gate { MayGate gate }
    ensures value { result ≡ after_grant errand deed gate found }
    ensures bounds { IsPlace result.place }
{
    if found == deed {
        after_won(errand, deed, gate)
    } else {
        go(MonitorPlace::Deed { errand })
    }
}

/// After a word.
pub(crate) fn after(place: MonitorPlace, word: u64) -> MonitorStep
    requires { IsPlace place }
    ensures value { result ≡ step_in word place }
    ensures bounds { IsPlace result.place }
{
    match place {
        MonitorPlace::Done => go(place),
        MonitorPlace::Format { .. } => end(MonitorAnswer::Formatted { old: word }),
        MonitorPlace::Look { .. } => end(MonitorAnswer::Looked { deed: word }),
        MonitorPlace::Fence { .. } => end(MonitorAnswer::Barred { old: word }),
        MonitorPlace::Deed { errand } => after_deed(errand, word),
        MonitorPlace::Leave { slot, to, .. } => go(MonitorPlace::Deed {
            errand: Errand::Move { slot, to },
        }),
        MonitorPlace::Gate { errand, deed } => after_gate(errand, deed, word),
        MonitorPlace::Mark { errand, deed, gate } => after_mark(errand, deed, gate, word),
        MonitorPlace::Grant { errand, deed, gate } => after_grant(errand, deed, gate, word),
    }
}
