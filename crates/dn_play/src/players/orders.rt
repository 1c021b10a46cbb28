//! The order of a move: given by its line, and gone on with by the monitor, by the lane that is to leave the slot, and by that
//! lane's merger.

ghost use Rattle.std.specs.Prelude.{◌≡◌, ◌<◌, ℕ, Some, IfOk, IfErr, OnOk};
ghost use Rattle.dn_outcomes.specs.declared.events.Event.TheVariants as happens;
ghost use Rattle.dn_run.specs.Doing.{monitor_left, merge_left, order_given};
ghost use Rattle.dn_run.specs.Doing as asks;
ghost use Rattle.dn_run.specs.Moving.{told_as, order_told};
ghost use Rattle.dn_play.specs.At.{CanGo, Goes, Halts, Awaits, Ends, Undone, left_by, moves_on, order_doing, CountsStop};

use super::Player;
use crate::printing::{print_dropped, print_give, print_monitor};
use crate::stops::Stop;
use dn_act::Memory;
use dn_merge::MergeTurn;
use dn_monitor::{MonitorAnswer, Order};
use dn_outcomes::{Event, Outcome};
use dn_run::MoveOrder;
use dn_word::{Deed, slot_of};

/// What is left of the order of a slot that is run to its end.
#[derive(Clone, Copy, Debug, PartialEq, Eq)]
pub enum Moving {
    /// The monitor goes on, but first this lane while it has the slot's release before it; 0 is none.
    Order { lane: u8 },
    /// The merger of the lane whose merged mark the monitor loads acts until all is merged.
    Merge,
    /// The order is given up.
    Drop,
}

/// Whether an order is run to its end once it was given with this outcome.
fn moves_on(whole: bool, outcome: Outcome) -> bool
    ensures { result ≡ moves_on whole outcome }
{
    match outcome {
        Outcome::Acted => whole,
        _ => false,
    }
}

/// The order that is under way once a move was given with this outcome, where this one was before.
fn order_given(
    order: Option<MoveOrder>,
    key: u64,
    lane: u8,
    whole: bool,
    outcome: Outcome,
) -> Option<MoveOrder>
    ensures { result ≡ order_given (asks.Give key lane whole) order outcome }
{
    match outcome {
        Outcome::Acted => Some(MoveOrder {
            key,
            lane,
            whole,
            told: None,
        }),
        _ => order,
    }
}

/// What is known of an order once the monitor has told this of it; nothing after its last answer.
fn told_as(order: MoveOrder, answer: MonitorAnswer) -> Option<MoveOrder>
    ensures { result ≡ told_as order answer }
{
    match answer {
        MonitorAnswer::Held { .. } | MonitorAnswer::Waiting { .. } => Some(MoveOrder {
            told: Some(answer),
            ..order
        }),
        _ => None,
    }
}

/// What is known of the order under way once the monitor's action had this outcome.
fn order_told(order: Option<MoveOrder>, outcome: Outcome) -> Option<MoveOrder>
    ensures { result ≡ order_told order outcome }
{
    match order {
        Some(order) => match outcome {
            Outcome::Ordered(answer) => told_as(order, answer),
            _ => Some(order),
        },
        None => None,
    }
}

/// What is left of an order once the monitor has told this.
fn told_left(answer: MonitorAnswer) -> Option<Moving>
    ensures { (slot : ℕ) → order_doing slot result ≡ asks.told_left slot answer }
{
    match answer {
        MonitorAnswer::Held { deed } => Some(Moving::Order {
            lane: Deed::read(deed).lane,
        }),
        MonitorAnswer::Waiting { .. } => Some(Moving::Merge),
        _ => None,
    }
}

/// What is left of an order once the monitor's action had this outcome.
fn monitor_left(outcome: Outcome) -> Option<Moving>
    ensures { (slot : ℕ) → order_doing slot result ≡ monitor_left slot outcome }
{
    match outcome {
        Outcome::Acted => Some(Moving::Order { lane: 0 }),
        Outcome::Ordered(answer) => told_left(answer),
        _ => None,
    }
}

/// What is left of an order once the merger that it waits for had this outcome.
fn merge_left(outcome: Outcome) -> Moving
    ensures { (slot : ℕ) → order_doing slot (Some result) ≡ merge_left slot outcome }
{
    match outcome {
        Outcome::Acted | Outcome::Merged(MergeTurn::More) => Moving::Merge,
        Outcome::Merged(MergeTurn::Idle { .. }) => Moving::Order { lane: 0 },
        _ => Moving::Drop,
    }
}

impl Player {
    /// The monitor makes its next action, and what it tells of the order of a move is printed.
    pub(super) fn monitor<M: Memory>(
        &mut self,
        mem: &mut M,
        out: &mut Vec<u8>,
    ) -> Result<Outcome, Stop>
        requires can { CanGo (M.words mem.old) self.old out.old.items (Awaits happens.Monitor) }
        ensures goes { IfOk result (λ o. Goes (M.words mem.old) self.old out.old.items
            (M.words mem.new) self.new out.new.items (Awaits happens.Monitor) (left_by o)) }
        ensures halts { IfErr result (Halts (M.words mem.old) self.old out.old.items
            (M.words mem.new) self.new out.new.items (Awaits happens.Monitor)) }
        ensures more { OnOk result (self.old.events < self.new.events) }
        ensures count { OnOk result (M.faults mem.new ≡ M.faults mem.old) }
        ensures faults { IfErr result (CountsStop (M.faults mem.old) (M.faults mem.new)) }
    {
        let outcome = match self.event(mem, Event::Monitor) {
            Ok(outcome) => outcome,
            Err(stop) => return Err(stop),
        };
        match print_monitor(out, self.order, outcome) {
            Ok(()) => {}
            Err(stop) => return Err(stop),
        }
        self.order = order_told(self.order, outcome);
        Ok(outcome)
    }

    /// The order under way is given up, and what was told of it last is printed.
    fn drop_order<M: Memory>(&mut self, mem: &mut M, out: &mut Vec<u8>) -> Result<Outcome, Stop>
        requires can { CanGo (M.words mem.old) self.old out.old.items (Awaits happens.DropOrder) }
        ensures goes { IfOk result (λ o. Goes (M.words mem.old) self.old out.old.items
            (M.words mem.new) self.new out.new.items (Awaits happens.DropOrder) (left_by o)) }
        ensures halts { IfErr result (Halts (M.words mem.old) self.old out.old.items
            (M.words mem.new) self.new out.new.items (Awaits happens.DropOrder)) }
        ensures more { OnOk result (self.old.events < self.new.events) }
        ensures count { OnOk result (M.faults mem.new ≡ M.faults mem.old) }
        ensures faults { IfErr result (CountsStop (M.faults mem.old) (M.faults mem.new)) }
    {
        let outcome = match self.event(mem, Event::DropOrder) {
            Ok(outcome) => outcome,
            Err(stop) => return Err(stop),
        };
        match print_dropped(out, self.order) {
            Ok(()) => {}
            Err(stop) => return Err(stop),
        }
        self.order = None;
        Ok(outcome)
    }

    /// The monitor is given the order that a key's slot goes to a lane.
    fn give<M: Memory>(
        &mut self,
        mem: &mut M,
        out: &mut Vec<u8>,
        key: u64,
        lane: u8,
        whole: bool,
    ) -> Result<Outcome, Stop>
        requires can { CanGo (M.words mem.old) self.old out.old.items
            (Undone (asks.Give key lane whole)) }
        ensures goes { IfOk result (λ o. Goes (M.words mem.old) self.old out.old.items
            (M.words mem.new) self.new out.new.items (Undone (asks.Give key lane whole))
            (left_by o)) }
        ensures halts { IfErr result (Halts (M.words mem.old) self.old out.old.items
            (M.words mem.new) self.new out.new.items (Undone (asks.Give key lane whole))) }
        ensures count { OnOk result (M.faults mem.new ≡ M.faults mem.old) }
        ensures faults { IfErr result (CountsStop (M.faults mem.old) (M.faults mem.new)) }
    {
        let order = Order::Move {
            slot: slot_of(key),
            to: lane,
        };
        let outcome = match self.event(mem, Event::Give { order }) {
            Ok(outcome) => outcome,
            Err(stop) => return Err(stop),
        };
        match print_give(out, lane, outcome) {
            Ok(()) => {}
            Err(stop) => return Err(stop),
        }
        self.order = order_given(self.order, key, lane, whole, outcome);
        Ok(outcome)
    }

    /// The order of a slot goes on by the monitor, or first by the lane that has the slot's release before it.
    fn order_turn<M: Memory>(
        &mut self,
        mem: &mut M,
        out: &mut Vec<u8>,
        slot: u8,
        lane: u8,
    ) -> Result<Option<Moving>, Stop>
        requires can { CanGo (M.words mem.old) self.old out.old.items
            (Undone (asks.Order slot lane)) }
        ensures goes { IfOk result (λ next. Goes (M.words mem.old) self.old out.old.items
            (M.words mem.new) self.new out.new.items (Undone (asks.Order slot lane))
            (λ r. order_doing slot next)) }
        ensures halts { IfErr result (Halts (M.words mem.old) self.old out.old.items
            (M.words mem.new) self.new out.new.items (Undone (asks.Order slot lane))) }
        ensures more { OnOk result (self.old.events < self.new.events) }
        ensures count { OnOk result (M.faults mem.new ≡ M.faults mem.old) }
        ensures faults { IfErr result (CountsStop (M.faults mem.old) (M.faults mem.new)) }
    {
        if self.world.is_releasing(lane, slot) {
            match self.step(mem, out, lane) {
                Ok(_) => Ok(Some(Moving::Order { lane })),
                Err(stop) => Err(stop),
            }
        } else {
            match self.monitor(mem, out) {
                Ok(outcome) => Ok(monitor_left(outcome)),
                Err(stop) => Err(stop),
            }
        }
    }

    /// The order of a slot goes on by one event.
    fn order_on<M: Memory>(
        &mut self,
        mem: &mut M,
        out: &mut Vec<u8>,
        slot: u8,
        moving: Moving,
    ) -> Result<Option<Moving>, Stop>
        requires can { CanGo (M.words mem.old) self.old out.old.items
            (Undone (order_doing slot (Some moving))) }
        ensures goes { IfOk result (λ next. Goes (M.words mem.old) self.old out.old.items
            (M.words mem.new) self.new out.new.items (Undone (order_doing slot (Some moving)))
            (λ r. order_doing slot next)) }
        ensures halts { IfErr result (Halts (M.words mem.old) self.old out.old.items
            (M.words mem.new) self.new out.new.items (Undone (order_doing slot (Some moving)))) }
        ensures more { OnOk result (self.old.events < self.new.events) }
        ensures count { OnOk result (M.faults mem.new ≡ M.faults mem.old) }
        ensures faults { IfErr result (CountsStop (M.faults mem.old) (M.faults mem.new)) }
    {
        match moving {
            Moving::Order { lane } => self.order_turn(mem, out, slot, lane),
            Moving::Merge => {
                let lane = self.world.marked();
                match self.merge(mem, out, lane) {
                    Ok(outcome) => Ok(Some(merge_left(outcome))),
                    Err(stop) => Err(stop),
                }
            }
            Moving::Drop => match self.drop_order(mem, out) {
                Ok(_) => Ok(None),
                Err(stop) => Err(stop),
            },
        }
    }

    /// The order of a slot is run to its end.
    fn order<M: Memory>(&mut self, mem: &mut M, out: &mut Vec<u8>, slot: u8) -> Result<(), Stop>
        requires can { CanGo (M.words mem.old) self.old out.old.items
            (Undone (asks.Order slot 0)) }
        ensures ends { OnOk result (Ends (M.words mem.old) self.old out.old.items
            (M.words mem.new) self.new out.new.items (Undone (asks.Order slot 0))) }
        ensures halts { IfErr result (Halts (M.words mem.old) self.old out.old.items
            (M.words mem.new) self.new out.new.items (Undone (asks.Order slot 0))) }
        ensures count { OnOk result (M.faults mem.new ≡ M.faults mem.old) }
        ensures faults { IfErr result (CountsStop (M.faults mem.old) (M.faults mem.new)) }
    {
        let mut left = Some(Moving::Order { lane: 0 });
        while let Some(moving) = left {
            match self.order_on(mem, out, slot, moving) {
                Ok(next) => left = next,
                Err(stop) => return Err(stop),
            }
        }
        Ok(())
    }

    /// The monitor is given the order that a key's slot goes to a lane, which is run to its end unless it is only started.
    pub(super) fn move_slot<M: Memory>(
        &mut self,
        mem: &mut M,
        out: &mut Vec<u8>,
        key: u64,
        lane: u8,
        whole: bool,
    ) -> Result<(), Stop>
        requires can { CanGo (M.words mem.old) self.old out.old.items
            (Undone (asks.Give key lane whole)) }
        ensures ends { OnOk result (Ends (M.words mem.old) self.old out.old.items
            (M.words mem.new) self.new out.new.items (Undone (asks.Give key lane whole))) }
        ensures halts { IfErr result (Halts (M.words mem.old) self.old out.old.items
            (M.words mem.new) self.new out.new.items (Undone (asks.Give key lane whole))) }
        ensures count { OnOk result (M.faults mem.new ≡ M.faults mem.old) }
        ensures faults { IfErr result (CountsStop (M.faults mem.old) (M.faults mem.new)) }
    {
        let outcome = match self.give(mem, out, key, lane, whole) {
            Ok(outcome) => outcome,
            Err(stop) => return Err(stop),
        };
        if moves_on(whole, outcome) {
            self.order(mem, out, slot_of(key))
        } else {
            Ok(())
        }
    }
}
