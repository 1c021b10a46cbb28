//! What is printed of an event, by its outcome.

ghost use Rattle.std.specs.Prelude.{◌≡◌, ◌++◌, ℕ, [], IfErr, OnOk};
ghost use Rattle.dn_monitor.specs.declared.orders.Order.TheVariants.{Move};
ghost use Rattle.dn_print.specs.CallLine.{event_text};
ghost use Rattle.dn_print.specs.OrderLine.{busy_text, moved_text};
ghost use Rattle.dn_run.specs.Moving.{is_silent, answer_text, monitor_text, dropped_text};
ghost use Rattle.dn_run.specs.Text.{load_text, no_lane_text, add_text, start_text, given_text, give_text};

use crate::stops::Stop;
use dn_monitor::MonitorAnswer;
use dn_outcomes::Outcome;
use dn_print::{EventLine, MoveAnswer, event as print_event, monitor_busy, moved};
use dn_run::MoveOrder;
use dn_word::OutOfMemory;

/// Prints a line.
pub fn print(out: &mut Vec<u8>, line: EventLine) -> Result<(), Stop>
    ensures ok { OnOk result (out.new.items ≡ out.old.items ++ event_text line) }
    ensures want { IfErr result (λ stop. stop ≡ Stop.OutOfMemory) }
{
    match print_event(out, &line) {
        Ok(()) => Ok(()),
        Err(OutOfMemory) => Err(Stop::OutOfMemory),
    }
}

/// Prints what comes of a load.
pub fn print_load(out: &mut Vec<u8>, outcome: Outcome) -> Result<(), Stop>
    ensures ok { OnOk result (out.new.items ≡ out.old.items ++ load_text outcome) }
    ensures want { IfErr result (λ stop. stop ≡ Stop.OutOfMemory) }
{
    match outcome {
        Outcome::GivenUp { session, number } => print(out, EventLine::Given { session, number }),
        _ => Ok(()),
    }
}

/// Prints nothing.
pub fn print_nothing(out: &mut Vec<u8>) -> Result<(), Stop>
    ensures ok { OnOk result (out.new.items ≡ out.old.items ++ []) }
    ensures want { IfErr result (λ stop. stop ≡ Stop.OutOfMemory) }
{
    Ok(())
}

/// Prints that a call is given up, where it is.
pub fn print_given(out: &mut Vec<u8>, session: u32, number: u32, given: bool) -> Result<(), Stop>
    ensures ok { OnOk result (out.new.items ≡ out.old.items ++ given_text session number given) }
    ensures want { IfErr result (λ stop. stop ≡ Stop.OutOfMemory) }
{
    if given {
        print(out, EventLine::Given { session, number })
    } else {
        Ok(())
    }
}

/// Prints what comes of an event that names a lane and has no answer.
pub fn print_lane(out: &mut Vec<u8>, lane: u8, outcome: Outcome) -> Result<(), Stop>
    ensures ok { OnOk result (out.new.items ≡ out.old.items ++ no_lane_text lane outcome) }
    ensures want { IfErr result (λ stop. stop ≡ Stop.OutOfMemory) }
{
    match outcome {
        Outcome::NoLane => print(out, EventLine::NoLane { lane }),
        _ => Ok(()),
    }
}

/// Prints what comes of a lane that is added.
pub fn print_add(out: &mut Vec<u8>, outcome: Outcome) -> Result<(), Stop>
    ensures ok { OnOk result (out.new.items ≡ out.old.items ++ add_text outcome) }
    ensures want { IfErr result (λ stop. stop ≡ Stop.OutOfMemory) }
{
    match outcome {
        Outcome::Added { lane } => print(out, EventLine::Lane { lane }),
        Outcome::LanesFull => print(out, EventLine::LanesFull),
        _ => Ok(()),
    }
}

/// Prints what comes of a session's start of a call.
pub fn print_start(
    out: &mut Vec<u8>,
    session: u32,
    named: Option<u8>,
    outcome: Outcome,
) -> Result<(), Stop>
    ensures ok { OnOk result (out.new.items
        ≡ out.old.items ++ start_text session named outcome) }
    ensures want { IfErr result (λ stop. stop ≡ Stop.OutOfMemory) }
{
    match outcome {
        Outcome::Busy => print(out, EventLine::Busy { session }),
        Outcome::Closed => print(out, EventLine::Closed { session }),
        Outcome::NoLane => match named {
            Some(lane) => print(out, EventLine::NoLane { lane }),
            None => Ok(()),
        },
        _ => Ok(()),
    }
}

/// Prints a line of a move.
fn print_move(out: &mut Vec<u8>, order: MoveOrder, answer: MoveAnswer) -> Result<(), Stop>
    ensures ok { OnOk result (out.new.items
        ≡ out.old.items ++ moved_text order.key order.lane answer) }
    ensures want { IfErr result (λ stop. stop ≡ Stop.OutOfMemory) }
{
    match moved(out, order.key, order.lane, answer) {
        Ok(()) => Ok(()),
        Err(OutOfMemory) => Err(Stop::OutOfMemory),
    }
}

/// Prints what the monitor has told of a move.
fn print_told(out: &mut Vec<u8>, order: MoveOrder, answer: MonitorAnswer) -> Result<(), Stop>
    ensures ok { OnOk result (out.new.items ≡ out.old.items ++ answer_text order answer) }
    ensures want { IfErr result (λ stop. stop ≡ Stop.OutOfMemory) }
{
    match answer {
        MonitorAnswer::Granted { deed } => print_move(out, order, MoveAnswer::Granted { deed }),
        MonitorAnswer::Held { deed } => print_move(out, order, MoveAnswer::Held { deed }),
        MonitorAnswer::Waiting { mark, need } => {
            print_move(out, order, MoveAnswer::Waiting { mark, need })
        }
        MonitorAnswer::Worn { epoch } => print_move(out, order, MoveAnswer::Worn { epoch }),
        MonitorAnswer::Formatted { .. }
        | MonitorAnswer::Looked { .. }
        | MonitorAnswer::Barred { .. }
        | MonitorAnswer::Taken { .. }
        | MonitorAnswer::NotFenced { .. } => Ok(()),
    }
}

/// Whether what the monitor has told of an order isn't printed: its line runs it to its end, and this is not the last answer.
fn is_silent(order: MoveOrder, answer: MonitorAnswer) -> bool
    ensures { result ≡ is_silent order answer }
{
    match answer {
        MonitorAnswer::Held { .. } | MonitorAnswer::Waiting { .. } => order.whole,
        _ => false,
    }
}

/// Prints what comes of the monitor's action, where this order is under way.
pub fn print_monitor(
    out: &mut Vec<u8>,
    order: Option<MoveOrder>,
    outcome: Outcome,
) -> Result<(), Stop>
    ensures ok { OnOk result (out.new.items ≡ out.old.items ++ monitor_text order outcome) }
    ensures want { IfErr result (λ stop. stop ≡ Stop.OutOfMemory) }
{
    match order {
        Some(order) => match outcome {
            Outcome::Ordered(answer) => {
                if is_silent(order, answer) {
                    Ok(())
                } else {
                    print_told(out, order, answer)
                }
            }
            _ => Ok(()),
        },
        None => Ok(()),
    }
}

/// Prints what was told last of an order that is given up.
pub fn print_dropped(out: &mut Vec<u8>, order: Option<MoveOrder>) -> Result<(), Stop>
    ensures ok { OnOk result (out.new.items ≡ out.old.items ++ dropped_text order) }
    ensures want { IfErr result (λ stop. stop ≡ Stop.OutOfMemory) }
{
    match order {
        Some(order) => match order.told {
            Some(answer) => print_told(out, order, answer),
            None => Ok(()),
        },
        None => Ok(()),
    }
}

/// Prints that an order is under way.
fn print_busy(out: &mut Vec<u8>) -> Result<(), Stop>
    ensures ok { OnOk result (out.new.items ≡ out.old.items ++ busy_text) }
    ensures want { IfErr result (λ stop. stop ≡ Stop.OutOfMemory) }
{
    match monitor_busy(out) {
        Ok(()) => Ok(()),
        Err(OutOfMemory) => Err(Stop::OutOfMemory),
    }
}

/// Prints what comes of the order that a slot goes to a lane, as it is given.
pub fn print_give(out: &mut Vec<u8>, lane: u8, outcome: Outcome) -> Result<(), Stop>
    ensures ok { (slot : ℕ) → OnOk result (out.new.items
        ≡ out.old.items ++ give_text (Move slot lane) outcome) }
    ensures want { IfErr result (λ stop. stop ≡ Stop.OutOfMemory) }
{
    match outcome {
        Outcome::MonitorBusy => print_busy(out),
        Outcome::NoLane => print(out, EventLine::NoLane { lane }),
        _ => Ok(()),
    }
}
