//! Which release the monitor's actions lead to, and which lane they fence.

ghost use Rattle.std.specs.Prelude.{◌≡◌};
ghost use Rattle.dn_outcomes.specs.Awaited.{marked_by, lane_below};
ghost use Rattle.dn_outcomes.specs.Orders.{asks_to_leave, leaving, asked_by, held_at, held_by, leaves_by, fenced_by, told_by};

use dn_act::Action;
use dn_monitor::{MonitorAnswer, MonitorTurn};
use dn_outcomes::{Leaving, Outcome};
use dn_word::regions::{deed_at, gate_at, mark_at};
use dn_word::{Deed, DeedState};

/// Whether a deed in this state asks its lane to leave.
fn asks_to_leave(state: DeedState) -> bool
    ensures { result ≡ asks_to_leave state }
{
    match state {
        DeedState::Leaving => true,
        DeedState::Nobody | DeedState::Owned | DeedState::Released => false,
    }
}

/// The slot whose deed stands at this word of the pool, and its lane by the deed.
fn leaving(deed: u64, at: u32) -> Leaving
    ensures { result ≡ leaving deed at }
{
    Leaving {
        lane: Deed::read(deed).lane,
        slot: at.saturating_sub(deed_at(0)),
    }
}

/// The exchange of a deed for one that asks its lane to leave.
fn asked_by(action: Option<Action>) -> Option<Leaving>
    ensures { result ≡ asked_by action }
{
    match action {
        Some(Action::Cas { at, new, .. }) if asks_to_leave(Deed::read(new).state) => {
            Some(leaving(new, at))
        }
        _ => None,
    }
}

/// After the monitor was held up the deed that it told is loaded again.
fn held_at(deed: u64, next: Option<Action>) -> Option<Leaving>
    ensures { result ≡ held_at deed next }
{
    match next {
        Some(Action::Load { at }) => Some(leaving(deed, at)),
        _ => None,
    }
}

/// The slot that is to be released, and by which lane, by an action of the monitor, what it told, and its next action.
pub fn leaves_by(action: Option<Action>, turn: MonitorTurn, next: Option<Action>) -> Option<Leaving>
    ensures { result ≡ leaves_by action turn next }
{
    match turn {
        MonitorTurn::More => asked_by(action),
        MonitorTurn::Answered(MonitorAnswer::Held { deed }) => held_at(deed, next),
        MonitorTurn::Answered(_) => None,
    }
}

/// The lane whose gate got the bit of a fence by an action of the monitor.
pub fn fenced_by(action: Option<Action>) -> Option<u32>
    ensures { result ≡ fenced_by action }
{
    match action {
        Some(Action::Or { at, .. }) => Some(at.saturating_sub(gate_at(0))),
        _ => None,
    }
}

/// The lane whose merged mark the monitor loads by its next action, or 0.
pub fn marked_by(next: Option<Action>) -> u8
    ensures { result ≡ marked_by next }
{
    match next {
        Some(Action::Load { at }) => lane_below(at.saturating_sub(mark_at(0))),
        _ => 0,
    }
}

/// The lane with this number, or 0 where there is none.
fn lane_below(number: u32) -> u8
    ensures { result ≡ lane_below number }
{
    if number < 64 { number as u8 } else { 0 }
}

/// What a monitor's turn is told as.
pub fn told_by(turn: MonitorTurn) -> Outcome
    ensures { result ≡ told_by turn }
{
    match turn {
        MonitorTurn::More => Outcome::Acted,
        MonitorTurn::Answered(answer) => Outcome::Ordered(answer),
    }
}
