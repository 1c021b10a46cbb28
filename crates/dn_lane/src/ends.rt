//! How the end of a plan is told.

ghost use Rattle.std.specs.Prelude.{◌≡◌};
ghost use Rattle.dn_ask.specs.Fit.{FitsEnd};
ghost use Rattle.dn_lane.specs.Asked.{brief_of, FitsAsked};
ghost use Rattle.dn_lane.specs.Ends.{reply_in, receipt_of, answer_of, turn_by, receipt_by};

use crate::answers::{Answer, Turn};
use crate::asked::Asked;
use dn_ask::{After, End, Next, Then};
use dn_hist::{Call, Receipt, Reply, SessionView};
use dn_plan::Ending;
use dn_word::{Position, Ref, ValueRoom};

/// The reply of a call that is made.
fn reply(call: &Call, room: ValueRoom, held: bool) -> Reply
    ensures { result ≡ reply_in call.now room held }
{
    match call {
        Call::Get { .. } => {
            if held {
                Reply::Value(room.into_value())
            } else {
                Reply::Absent
            }
        }
        Call::Put { .. } => Reply::Stored,
        Call::Delete { .. } => Reply::Deleted,
    }
}

/// The receipt of a call that is made.
fn receipt(
    call: Call,
    view: SessionView,
    room: ValueRoom,
    to: Position,
    at: Option<Ref>,
    held: bool,
) -> Receipt
    ensures { result ≡ receipt_of call view room to at held }
{
    let reply = reply(&call, room, held);
    Receipt {
        position: to,
        number: view.number,
        call,
        reply,
        at,
    }
}

/// The answer of a call.
fn answer(call: Call, view: SessionView, room: ValueRoom, ending: Ending) -> Answer
    ensures { result ≡ answer_of call view room ending }
{
    match ending {
        Ending::Made { to, at, located } => Answer::Made {
            receipt: receipt(call, view, room, to, at, located.held),
            way: located.way,
        },
        Ending::NotOwner { look } => Answer::NotOwner { look, cell: None },
        Ending::Fenced { gate } => Answer::Fenced { word: gate },
        Ending::Full { counter, segments } => Answer::Full { counter, segments },
        Ending::Worn { stamp } => Answer::Worn { stamp },
    }
}

/// Tells the end. The call goes into its answer.
pub fn finish(lane: u8, asked: Asked, end: End) -> Turn
    requires { FitsEnd (brief_of lane asked) end }
    ensures { result ≡ turn_by asked end }
{
    match end {
        End::Task(answer) => Turn::Tended(answer),
        End::Call(ending) => match asked {
            Asked::Call { call, view, room } => Turn::Done(answer(call, view, room, ending)),
            Asked::Nothing | Asked::Task => unreachable!(),
        },
    }
}

/// The receipt of a call whose plan would end as made.
pub fn receipt_by(asked: Asked, next: Next) -> Option<Receipt>
    ensures { result ≡ receipt_by asked next }
{
    match (asked, next) {
        (
            Asked::Call { call, view, room },
            Next::After(After::Then(Then::End(End::Call(Ending::Made { to, at, located })))),
        ) => Some(receipt(call, view, room, to, at, located.held)),
        _ => None,
    }
}
