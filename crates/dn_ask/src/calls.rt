//! What the plan of a call asks for.

ghost use Rattle.std.specs.Prelude.{◌≡◌};
ghost use Rattle.dn_plan.specs.Fit.{FitsBrief, FitsThen as FitsCallThen, FitsAfter as FitsCallAfter, FitsNext as FitsCallNext, FitsStep as FitsCallStep};
ghost use Rattle.dn_plan.specs.Rank.{rank_then as call_rank_then, rank_after as call_rank_after, rank_next as call_rank_next, records_then as call_records_then, records_after as call_records_after, records_next as call_records_next, has_room_then as call_has_room_then, has_room_after as call_has_room_after, has_room_next as call_has_room_next};
ghost use Rattle.dn_ask.specs.Ask.{call_then, call_after, call_next, call_step};
ghost use Rattle.dn_ask.specs.Fit.{FitsThen, FitsAfter, FitsNext, FitsStep};
ghost use Rattle.dn_ask.specs.Rank.{rank_then, rank_after, rank_next, records_then, records_after, records_next, has_room_then, has_room_after, has_room_next};

use crate::asks::{Act, After, End, FindRoom, Locate, Next, Seal, Step, Then};
use dn_plan::Brief;

/// Once there is room.
pub(crate) fn call_then(brief: &Brief, then: dn_plan::Then) -> Then
    requires brief { FitsBrief brief.now }
    requires fits { FitsCallThen brief.now then }
    ensures value { result ≡ call_then then }
    ensures fits { FitsThen brief.now result }
    ensures rank { rank_then result ≡ call_rank_then then }
    ensures records { records_then result ≡ call_records_then then }
    ensures room { has_room_then result ≡ call_has_room_then then }
{
    let _brief = *brief;
    match then {
        dn_plan::Then::Act(phase) => Then::Act(Act::Call(phase)),
        dn_plan::Then::Seal(phase) => Then::Seal(Seal::Call(phase)),
        dn_plan::Then::End(ending) => Then::End(End::Call(ending)),
    }
}

/// Once the key is located.
pub(crate) fn call_after(brief: &Brief, after: dn_plan::After) -> After
    requires brief { FitsBrief brief.now }
    requires fits { FitsCallAfter brief.now after }
    ensures value { result ≡ call_after after }
    ensures fits { FitsAfter brief.now result }
    ensures rank { rank_after result ≡ call_rank_after after }
    ensures records { records_after result ≡ call_records_after after }
    ensures room { has_room_after result ≡ call_has_room_after after }
{
    match after {
        dn_plan::After::Room(phase) => After::Room(FindRoom::Call(phase)),
        dn_plan::After::Then(then) => After::Then(call_then(brief, then)),
    }
}

/// After an action.
pub(crate) fn call_next(brief: &Brief, next: dn_plan::Next) -> Next
    requires brief { FitsBrief brief.now }
    requires fits { FitsCallNext brief.now next }
    ensures value { result ≡ call_next next }
    ensures fits { FitsNext brief.now result }
    ensures rank { rank_next result ≡ call_rank_next next }
    ensures records { records_next result ≡ call_records_next next }
    ensures room { has_room_next result ≡ call_has_room_next next }
{
    match next {
        dn_plan::Next::Locate(phase) => Next::Locate(Locate::Call(phase)),
        dn_plan::Next::After(after) => Next::After(call_after(brief, after)),
    }
}

/// A step of a call's plan.
pub(crate) fn call_step(brief: &Brief, step: dn_plan::Step) -> Step
    requires brief { FitsBrief brief.now }
    requires fits { FitsCallStep brief.now step }
    ensures value { result ≡ call_step step }
    ensures fits { FitsStep brief.now result }
    ensures rank { rank_next result.next ≡ call_rank_next step.next }
    ensures records { records_next result.next ≡ call_records_next step.next }
    ensures room { has_room_next result.next ≡ call_has_room_next step.next }
{
    Step {
        effect: step.effect,
        next: call_next(brief, step.next),
    }
}
