//! What the plan of a task asks for.

ghost use Rattle.std.specs.Prelude.{◌≡◌};
ghost use Rattle.dn_tend.specs.Fit.{FitsThen as FitsTaskThen, FitsAfter as FitsTaskAfter, FitsNext as FitsTaskNext, FitsTurn as FitsTaskTurn};
ghost use Rattle.dn_tend.specs.Rank.{rank_then as task_rank_then, rank_after as task_rank_after, rank_next as task_rank_next, records_then as task_records_then, records_after as task_records_after, records_next as task_records_next, has_room_then as task_has_room_then, has_room_after as task_has_room_after, has_room_next as task_has_room_next};
ghost use Rattle.dn_ask.specs.Ask.{task_then, task_after, task_next, task_step};
ghost use Rattle.dn_ask.specs.Fit.{IsTask, FitsThen, FitsAfter, FitsNext, FitsStep};
ghost use Rattle.dn_ask.specs.Rank.{rank_then, rank_after, rank_next, records_then, records_after, records_next, has_room_then, has_room_after, has_room_next};

use crate::asks::{Act, After, End, FindRoom, Locate, Next, Seal, Step, Then};
use dn_plan::Brief;
use dn_tend::{TendAfter, TendNext, TendThen, TendTurn};

/// Once there is room.
pub(crate) fn task_then(brief: &Brief, then: TendThen) -> Then
    requires task { IsTask brief.now }
    requires fits { FitsTaskThen brief.now.lane then }
    ensures value { result ≡ task_then then }
    ensures fits { FitsThen brief.now result }
    ensures rank { rank_then result ≡ task_rank_then then }
    ensures records { records_then result ≡ task_records_then then }
    ensures room { has_room_then result ≡ task_has_room_then then }
{
    let _brief = *brief;
    match then {
        TendThen::Act(phase) => Then::Act(Act::Task(phase)),
        TendThen::Seal(phase) => Then::Seal(Seal::Task(phase)),
        TendThen::Done(answer) => Then::End(End::Task(answer)),
    }
}

/// Once the key is located.
pub(crate) fn task_after(brief: &Brief, after: TendAfter) -> After
    requires task { IsTask brief.now }
    requires fits { FitsTaskAfter brief.now.lane after }
    ensures value { result ≡ task_after after }
    ensures fits { FitsAfter brief.now result }
    ensures rank { rank_after result ≡ task_rank_after after }
    ensures records { records_after result ≡ task_records_after after }
    ensures room { has_room_after result ≡ task_has_room_after after }
{
    match after {
        TendAfter::Room(phase) => After::Room(FindRoom::Task(phase)),
        TendAfter::Then(then) => After::Then(task_then(brief, then)),
    }
}

/// After an action.
pub(crate) fn task_next(brief: &Brief, next: TendNext) -> Next
    requires task { IsTask brief.now }
    requires fits { FitsTaskNext brief.now.lane next }
    ensures value { result ≡ task_next next }
    ensures fits { FitsNext brief.now result }
    ensures rank { rank_next result ≡ task_rank_next next }
    ensures records { records_next result ≡ task_records_next next }
    ensures room { has_room_next result ≡ task_has_room_next next }
{
    match next {
        TendNext::Locate(phase) => Next::Locate(Locate::Task(phase)),
        TendNext::After(after) => Next::After(task_after(brief, after)),
    }
}

/// A step of a task's plan.
pub(crate) fn task_step(brief: &Brief, turn: TendTurn) -> Step
    requires task { IsTask brief.now }
    requires fits { FitsTaskTurn brief.now.lane turn }
    ensures value { result ≡ task_step turn }
    ensures fits { FitsStep brief.now result }
    ensures rank { rank_next result.next ≡ task_rank_next turn.next }
    ensures records { records_next result.next ≡ task_records_next turn.next }
    ensures room { has_room_next result.next ≡ task_has_room_next turn.next }
{
    Step {
        effect: turn.effect,
        next: task_next(brief, turn.next),
    }
}
