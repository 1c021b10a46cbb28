ghost use Rattle.std.specs.Prelude.{◌≡◌, ◌≢◌, ◌<◌, ◌≤◌, ◌+◌, ◌^◌, ◌↔◌, ℕ, Option, Some, IsNone, IsTrue, All};
ghost use Rattle.std.specs.List.Sorted.{IsStrictlyIncreasing};
ghost use Rattle.dn_monitor.specs.Monitor.{first_place, begun, monitor_next, monitor_turn, monitor_after, is_last, slot_in, heir_of, IsOrder, IsErrand};
ghost use Rattle.dn_monitor.specs.Heirs.{AreHeirs, no_heirs};
ghost use Rattle.dn_monitor.specs.Words.{IsOfMonitor};
ghost use Rattle.dn_monitor.specs.Causes.{IsFormatted, IsLooked, IsGranted, IsBarred, IsTaken, IsHeld, IsWaiting, IsNotFenced, IsWorn, IsToGrant};
ghost use Rattle.dn_monitor.specs.declared.orders.MonitorTurn.TheVariants.{Answered};
ghost use Rattle.dn_monitor.specs.declared.orders.MonitorAnswer.TheVariants.{Formatted, Looked, Granted, Barred, Taken, Held, Waiting, NotFenced, Worn};
ghost use Rattle.dn_monitor.specs.Sequence.{sequence, CarriesOut, CarriesOutRounds};

use crate::orders::{MonitorAnswer, MonitorTurn, Order};
use crate::places::{Errand, MonitorPlace};
use crate::steps::{after, ask, grant};
use dn_act::Action;
use dn_ring::assign;
use dn_word::regions::{FORMAT_AT, deed_at, gate_at, mark_at};
use dn_word::{Deed, FORMAT_NUMBER, Format, Gate};
use std::marker::Model;

/// The slots of the key space.
const SLOTS: usize = 64;

/// A monitor with its order, an action at a time. It stores the format, sets the bit of a gate, or exchanges deeds.
///
/// A slot is moved in three steps: its deed asks the lane that owns it to leave, the lane gives it up, and the
/// monitor grants it to another. A fenced lane needn't give it up, since it seals nothing more. The grant waits until
/// all that the lane sealed is merged into the index. It raises the deed's epoch by one, and its floor to at least
/// the stamp of the lane that had the slot, so that no later receipt stands below one of that lane. As in DINOMO no
/// record is moved.
#[derive(Drop)]
pub struct Monitor {
    /// The lane that a takeover gives each slot to, 0 being nobody.
    heirs: [u8; SLOTS],
    place: MonitorPlace,
}

impl Model for Monitor {
    ghost use Rattle.dn_monitor.specs.Monitor.{Monitoring, IsPlace};

    ghost Value = { Monitoring };

    ghost view = { λ m. record { heirs = m.heirs; place = m.place } };

    ghost invariant = { λ m. IsPlace m.place };
}

/// The slot that the monitor is at.
fn slot_of(errand: Errand) -> u8
    requires { IsErrand errand }
    ensures value { result ≡ slot_in errand }
    ensures below { result < 64 }
{
    match errand {
        Errand::Move { slot, .. } | Errand::Takeover { slot, .. } => slot,
    }
}

/// The lane that is granted the slot.
fn heir_in(heirs: &[u8; SLOTS], errand: Errand) -> u8
    requires { IsErrand errand }
    ensures { result ≡ heir_of heirs.now errand }
{
    match errand {
        Errand::Move { to, .. } => to,
        Errand::Takeover { slot, .. } => heirs[slot as usize],
    }
}

/// The word of a gate of which only the bit of the fence is set.
fn fence() -> u64
    ensures { result ≡ 2 ^ 63 }
{
    let gate = Gate {
        fenced: true,
        stamp: 0,
        len: 0,
    };
    gate.word()
}

/// Where an order begins.
fn begin(order: Order) -> MonitorPlace
    requires { IsOrder order }
    ensures { result ≡ first_place order }
{
    match order {
        Order::Format { segments } => MonitorPlace::Format { segments },
        Order::Look { slot } => MonitorPlace::Look { slot },
        Order::Move { slot, to } => MonitorPlace::Deed {
            errand: Errand::Move { slot, to },
        },
        Order::Fence { lane } => MonitorPlace::Fence { lane },
        Order::Takeover { lane } => MonitorPlace::Deed {
            errand: Errand::Takeover {
                lane,
                slot: 0,
                granted: 0,
            },
        },
    }
}

/// The lanes that the slots go to: in a takeover the owners by the ring of the live lanes.
fn heirs(order: Order, live: &[u8]) -> [u8; SLOTS]
    requires rising { IsStrictlyIncreasing live.now }
    requires lanes { All (λ lane. (1 ≤ lane) × (lane < 64)) live.now }
    ensures owners { (lane : ℕ) → order ≡ Order.Takeover lane → AreHeirs live.now result }
    ensures nobody { ((lane : ℕ) → order ≡ Order.Takeover lane → ⊥) → result ≡ no_heirs }
{
    match order {
        Order::Takeover { .. } => assign(live),
        Order::Format { .. } | Order::Look { .. } | Order::Move { .. } | Order::Fence { .. } => {
            [0; SLOTS]
        }
    }
}

impl Monitor {
    /// The monitor of an order, before its first action. A slot of the order is below 64, its lanes are from 1 to 63,
    /// and so are the live lanes, which rise. A takeover gives each slot to the live lane that the ring names for it,
    /// by consistent hashing, and to nobody where no lane is live; the other orders don't look at the live lanes.
    pub fn new(order: Order, live: &[u8]) -> Monitor
        requires order { IsOrder order }
        requires rising { IsStrictlyIncreasing live.now }
        requires lanes { All (λ lane. (1 ≤ lane) × (lane < 64)) live.now }
        ensures value { result ≡ begun order result.heirs }
        ensures heirs { (lane : ℕ) → order ≡ Order.Takeover lane
            → AreHeirs live.now result.heirs }
        ensures nobody { ((lane : ℕ) → order ≡ Order.Takeover lane → ⊥)
            → result.heirs ≡ no_heirs }
        ensures sequence { CarriesOut result (sequence result.heirs order) }
    {
        Monitor {
            heirs: heirs(order, live),
            place: begin(order),
        }
    }

    /// The next action, or None exactly after the last answer: a load of the gate or the merged mark of a lane or of
    /// a slot's deed, the store of the format, the or of the bit of a gate, or an exchange of a deed.
    pub fn next(&self) -> Option<Action>
        ensures value { result ≡ monitor_next self.now }
        ensures done { IsNone result ↔ (self.now.place ≡ MonitorPlace.Done) }
        ensures within { (action : Action) → result ≡ Some action → IsOfMonitor action }
    {
        let action = match self.place {
            MonitorPlace::Done => return None,
            MonitorPlace::Format { segments } => {
                let format = Format {
                    segments,
                    number: FORMAT_NUMBER,
                };
                Action::Store {
                    at: FORMAT_AT,
                    word: format.word(),
                }
            }
            MonitorPlace::Look { slot } => Action::Load { at: deed_at(slot) },
            MonitorPlace::Fence { lane } => Action::Or {
                at: gate_at(lane),
                bits: fence(),
            },
            MonitorPlace::Deed { errand } => Action::Load {
                at: deed_at(slot_of(errand)),
            },
            MonitorPlace::Leave { slot, deed, .. } => Action::Cas {
                at: deed_at(slot),
                old: deed,
                new: ask(deed),
            },
            MonitorPlace::Gate { deed, .. } => Action::Load {
                at: gate_at(Deed::read(deed).lane),
            },
            MonitorPlace::Mark { deed, .. } => Action::Load {
                at: mark_at(Deed::read(deed).lane),
            },
            MonitorPlace::Grant { errand, deed, gate } => Action::Cas {
                at: deed_at(slot_of(errand)),
                old: deed,
                new: grant(deed, gate, heir_in(&self.heirs, errand)),
            },
        };
        Some(action)
    }

    /// Takes the word that the action found; there is a next action. Each answer of [`MonitorAnswer`] comes exactly
    /// where it says. After `Held` the slot's deed is loaded again, after `Waiting` the mark is, and after each other
    /// answer the order is over.
    pub fn take(&mut self, word: u64) -> MonitorTurn
        requires { self.old.place ≢ MonitorPlace.Done }
        ensures turn { result ≡ monitor_turn self.old word }
        ensures after { self.new ≡ monitor_after self.old word }
        ensures last { IsTrue (is_last result) ↔ (self.new.place ≡ MonitorPlace.Done) }
        ensures formatted { (old : ℕ) →
            (result ≡ Answered (Formatted old)) ↔ IsFormatted old word self.old.place }
        ensures looked { (deed : ℕ) →
            (result ≡ Answered (Looked deed)) ↔ IsLooked deed word self.old.place }
        ensures granted { (deed : ℕ) →
            (result ≡ Answered (Granted deed)) ↔ IsGranted deed word self.old.place }
        ensures barred { (old : ℕ) →
            (result ≡ Answered (Barred old)) ↔ IsBarred old word self.old.place }
        ensures taken { (slots : ℕ) →
            (result ≡ Answered (Taken slots)) ↔ IsTaken slots word self.old.place }
        ensures held { (deed : ℕ) →
            (result ≡ Answered (Held deed)) ↔ IsHeld deed word self.old.place }
        ensures waiting { (mark need : ℕ) →
            (result ≡ Answered (Waiting mark need)) ↔ IsWaiting mark need word self.old.place }
        ensures waits { (mark need : ℕ) →
            result ≡ Answered (Waiting mark need) → self.new ≡ self.old }
        ensures not_fenced { (gate : ℕ) →
            (result ≡ Answered (NotFenced gate)) ↔ IsNotFenced gate word self.old.place }
        ensures worn { (epoch : ℕ) →
            (result ≡ Answered (Worn epoch)) ↔ IsWorn epoch word self.old.place }
        ensures grants { (errand : Errand) (deed : ℕ) (gate : Option Gate) →
            self.new.place ≡ MonitorPlace.Grant errand deed gate →
            IsToGrant deed word self.old.place }
        ensures rounds { CarriesOutRounds self.new }
    {
        let step = after(self.place, word);
        self.place = step.place;
        step.turn
    }
}
