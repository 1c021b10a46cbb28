//! The actions of tasks, and what comes after the words that they find.

ghost use Rattle.std.specs.Prelude.{◌≡◌, ◌≢◌, ◌<◌, ◌≤◌, ◌^◌, ◌↔◌, ℕ, true, false};
ghost use Rattle.dn_act.specs.Action.{at_of};
ghost use Rattle.dn_word.specs.Regions.{segments_at};
ghost use Rattle.dn_plan.specs.Plan.{is_owner};
ghost use Rattle.dn_tend.specs.Tend.{given_up, opening_word, cell_in, closed_word, action_in, acts, rooms, seals, ends, goes, learns, left, looked, exchanged, barred, shares, share_stamp, share_gated, unshare_gated, counted, unshare_stamp, unshare_seal, closes, cell_met, taken_in};
ghost use Rattle.std.specs.Option.{ForSome};
ghost use Rattle.dn_tend.specs.Fit.{IsLook, WasOpen, FitsAct, FitsLocate, FitsNext, FitsTurn};
ghost use Rattle.dn_tend.specs.Rank.{rank_act, rank_next, records_act, records_next, has_room_act, has_room_next};
ghost use Rattle.dn_tend.specs.Causes.{IsReleased, IsNotLeaving, IsTrimmed, IsShared, IsNotOwner, IsFenced, IsAgain, HasNoCell, IsWorn};

use crate::phases::{
    Share, TendAct, TendAfter, TendLocate, TendNext, TendRoom, TendSealing, TendThen, TendTurn,
    Unshare,
};
use crate::tasks::TaskAnswer;
use dn_act::Action;
use dn_plan::Effect;
use dn_word::regions::{CELL_COUNTER_AT, cell_at, cell_key_at, deed_at, gate_at, mark_at};
use dn_word::{Cell, Deed, DeedState, Gate, MAX_STAMP, Ref, slot_of};

/// The cells of a pool.
const CELLS: u64 = 256;

/// The task waits for an action.
fn act(phase: TendAct) -> TendNext
    ensures { result ≡ acts phase }
{
    TendNext::After(TendAfter::Then(TendThen::Act(phase)))
}

/// It waits for a record to be sealed.
fn seal(phase: TendSealing) -> TendNext
    ensures { result ≡ seals phase }
{
    TendNext::After(TendAfter::Then(TendThen::Seal(phase)))
}

/// It ends.
fn end(answer: TaskAnswer) -> TendNext
    ensures { result ≡ ends answer }
{
    TendNext::After(TendAfter::Then(TendThen::Done(answer)))
}

/// The task goes on, and the lane learns nothing.
fn go(next: TendNext) -> TendTurn
    ensures { result ≡ goes next }
{
    TendTurn { effect: None, next }
}

/// The task goes on, and the lane learns something.
fn learn(effect: Effect, next: TendNext) -> TendTurn
    ensures { result ≡ learns effect next }
{
    TendTurn {
        effect: Some(effect),
        next,
    }
}

/// The gate is closed to the lane.
fn bar(gate: u64) -> TendTurn
    ensures { result ≡ barred gate }
{
    learn(Effect::Bar { gate }, end(TaskAnswer::Fenced { word: gate }))
}

/// The deed that says that its lane has given the slot up.
fn give_up(deed: u64) -> u64
    ensures { result ≡ given_up deed }
{
    let released = Deed {
        state: DeedState::Released,
        ..Deed::read(deed)
    };
    released.word()
}

/// What a cell says. One that isn't opened yet says what its opening word does.
fn read_cell(opening: u64, seen: u64) -> Cell
    ensures value { result ≡ cell_in opening seen }
    ensures stamp { result.stamp < 2 ^ 31 }
    ensures at { ForSome result.at (λ found. found.offset < 2 ^ 24) }
{
    if seen == 0 {
        Cell::read(opening)
    } else {
        Cell::read(seen)
    }
}

/// The cell's closed form, which has the same stamp and place.
fn close(opening: u64, seen: u64) -> u64
    ensures { result ≡ closed_word opening seen }
{
    let word = if seen == 0 { opening } else { seen };
    let closed = Cell {
        closed: true,
        ..Cell::read(word)
    };
    closed.word()
}

/// After the deed that a release loaded.
fn after_deed(lane: u8, slot: u8, word: u64) -> TendTurn
    requires slot { slot < 64 }
    ensures value { result ≡ left lane slot word }
    ensures fits { FitsTurn lane result }
    ensures falls { rank_next result.next < 2 }
    ensures records { records_next result.next ≤ 0 }
    ensures room { has_room_next result.next ≡ false }
{
    let deed = Deed::read(word);
    let next = if deed.state == DeedState::Leaving && deed.lane == lane {
        act(TendAct::GiveUp { slot, deed: word })
    } else {
        end(TaskAnswer::NotLeaving { look: word })
    };
    learn(
        Effect::Epoch {
            slot,
            epoch: deed.epoch,
        },
        next,
    )
}

/// After the deed of a key's slot.
fn after_look(lane: u8, key: u64, word: u64, phase: TendLocate) -> TendTurn
    requires { is_owner lane word ≡ true → FitsLocate lane phase }
    ensures value { result ≡ looked lane key word phase }
    ensures fits { FitsTurn lane result }
    ensures falls { rank_next result.next < 9 }
    ensures records { records_next result.next ≤ 1 }
    ensures room { has_room_next result.next ≡ false }
{
    let deed = Deed::read(word);
    let next = if deed.state == DeedState::Owned && deed.lane == lane {
        TendNext::Locate(phase)
    } else {
        end(TaskAnswer::NotOwner { look: word })
    };
    learn(
        Effect::Epoch {
            slot: slot_of(key),
            epoch: deed.epoch,
        },
        next,
    )
}

/// After an exchange: on, where it was done.
fn after_exchange(lane: u8, old: u64, seen: u64, next: TendNext) -> TendTurn
    requires { FitsNext lane next }
    ensures value { result ≡ exchanged old seen next }
    ensures fits { FitsTurn lane result }
    ensures falls { rank_next result.next ≤ rank_next next }
    ensures records { records_next result.next ≤ records_next next }
    ensures room { has_room_next result.next ≡ true → has_room_next next ≡ true }
{
    if seen == old {
        go(next)
    } else {
        go(end(TaskAnswer::Again { old, seen }))
    }
}

/// The word that a cell begins with.
fn opening(stamp: u32, at: Option<Ref>) -> u64
    requires stamp { stamp < 2 ^ 31 }
    requires at { ForSome at (λ found. found.offset < 2 ^ 24) }
    ensures { result ≡ opening_word stamp at }
{
    let cell = Cell {
        closed: false,
        stamp,
        at,
    };
    cell.word()
}

/// After the gate that a Share loaded.
fn after_share_gate(lane: u8, key: u64, look: u64, at: Option<Ref>, word: u64) -> TendTurn
    requires look { IsLook lane look }
    requires at { ForSome at (λ found. found.offset < 2 ^ 24) }
    ensures value { result ≡ share_gated key look at word }
    ensures fits { FitsTurn lane result }
    ensures falls { rank_next result.next < 7 }
    ensures records { records_next result.next ≤ 1 }
    ensures room { has_room_next result.next ≡ false }
{
    let gate = Gate::read(word);
    if gate.fenced {
        return bar(word);
    }
    let stamp = gate.stamp.max(Deed::read(look).floor);
    if stamp == MAX_STAMP {
        return go(end(TaskAnswer::Worn { stamp: MAX_STAMP }));
    }
    let share = Share {
        key,
        look,
        gate: word,
        opening: opening(stamp + 1, at),
    };
    go(TendNext::After(TendAfter::Room(TendRoom::Share { share })))
}

/// After the gate that an Unshare loaded.
fn after_unshare_gate(lane: u8, unshare: Unshare, word: u64) -> TendTurn
    requires { IsLook lane unshare.look }
    ensures value { result ≡ unshare_gated unshare word }
    ensures fits { FitsTurn lane result }
    ensures falls { rank_next result.next < 7 }
    ensures records { records_next result.next ≤ 1 }
    ensures room { has_room_next result.next ≡ false }
{
    if Gate::read(word).fenced {
        return bar(word);
    }
    let phase = TendRoom::Unshare {
        unshare,
        gate: word,
    };
    go(TendNext::After(TendAfter::Room(phase)))
}

/// After the counter of claimed cells.
fn after_count(lane: u8, share: Share, counter: u64) -> TendTurn
    requires look { IsLook lane share.look }
    requires gate { WasOpen share.gate }
    ensures value { result ≡ counted counter (acts (TendAct.Claim share)) }
    ensures fits { FitsTurn lane result }
    ensures falls { rank_next result.next < 5 }
    ensures records { records_next result.next ≤ 1 }
{
    if counter < CELLS {
        go(act(TendAct::Claim { share }))
    } else {
        go(end(TaskAnswer::NoCell { counter }))
    }
}

/// After the add that claims a cell, which found its number.
fn after_claim(lane: u8, share: Share, counter: u64) -> TendTurn
    requires look { IsLook lane share.look }
    requires gate { WasOpen share.gate }
    ensures value { result ≡ counted counter (acts (TendAct.Name share counter)) }
    ensures fits { FitsTurn lane result }
    ensures falls { rank_next result.next < 4 }
    ensures records { records_next result.next ≤ 1 }
{
    if counter < CELLS {
        go(act(TendAct::Name {
            share,
            cell: counter as u8,
        }))
    } else {
        go(end(TaskAnswer::NoCell { counter }))
    }
}

/// The record that ends the sharing.
fn unshare_seal(unshare: Unshare, gate: u64, seen: u64, stamp: u32) -> TendSealing
    ensures value { result ≡ unshare_seal unshare gate seen stamp }
    ensures at { ForSome (cell_in unshare.opening seen).at (λ found. found.offset < 2 ^ 24) }
{
    TendSealing::Unshare {
        unshare,
        at: read_cell(unshare.opening, seen).at,
        stamp,
        gate,
    }
}

/// After the cell, where there is a stamp for the record.
fn after_met(lane: u8, unshare: Unshare, gate: u64, seen: u64, stamp: u32) -> TendNext
    requires look { IsLook lane unshare.look }
    requires gate { WasOpen gate }
    requires stamp { stamp < 2 ^ 31 }
    ensures value { result ≡ closes unshare gate seen stamp }
    ensures fits { FitsNext lane result }
    ensures falls { rank_next result < 5 }
    ensures records { records_next result ≤ 1 }
{
    if read_cell(unshare.opening, seen).closed {
        seal(unshare_seal(unshare, gate, seen, stamp))
    } else {
        act(TendAct::Close {
            unshare,
            gate,
            seen,
            stamp,
        })
    }
}

/// After the cell that an Unshare loaded.
fn after_cell(lane: u8, unshare: Unshare, gate: u64, seen: u64) -> TendNext
    requires look { IsLook lane unshare.look }
    requires gate { WasOpen gate }
    ensures value { result ≡ cell_met unshare gate seen }
    ensures fits { FitsNext lane result }
    ensures falls { rank_next result < 5 }
    ensures records { records_next result ≤ 1 }
{
    let stamp = Gate::read(gate)
        .stamp
        .max(Deed::read(unshare.look).floor)
        .max(read_cell(unshare.opening, seen).stamp);
    if stamp == MAX_STAMP {
        end(TaskAnswer::Worn { stamp: MAX_STAMP })
    } else {
        after_met(lane, unshare, gate, seen, stamp + 1)
    }
}

impl TendAct {
    /// The action whose word the task waits for.
    pub fn action(self, lane: u8) -> Action
        requires lane { lane < 64 }
        requires phase { FitsAct lane self }
        ensures value { result ≡ action_in lane self }
        ensures within { at_of result < segments_at }
    {
        match self {
            TendAct::Deed { slot } => Action::Load { at: deed_at(slot) },
            TendAct::GiveUp { slot, deed } => Action::Cas {
                at: deed_at(slot),
                old: deed,
                new: give_up(deed),
            },
            TendAct::Mark => Action::Load { at: mark_at(lane) },
            TendAct::ShareLook { key } | TendAct::UnshareLook { key } => Action::Load {
                at: deed_at(slot_of(key)),
            },
            TendAct::ShareGate { .. } | TendAct::UnshareGate { .. } => {
                Action::Load { at: gate_at(lane) }
            }
            TendAct::Count { .. } => Action::Load {
                at: CELL_COUNTER_AT,
            },
            TendAct::Claim { .. } => Action::Add {
                at: CELL_COUNTER_AT,
                by: 1,
            },
            TendAct::Name { share, cell } => Action::Store {
                at: cell_key_at(cell),
                word: share.key,
            },
            TendAct::Open { share, cell } => Action::Cas {
                at: cell_at(cell),
                old: 0,
                new: share.opening,
            },
            TendAct::Cell { unshare, .. } => Action::Load {
                at: cell_at(unshare.cell),
            },
            TendAct::Close { unshare, seen, .. } => Action::Cas {
                at: cell_at(unshare.cell),
                old: seen,
                new: close(unshare.opening, seen),
            },
        }
    }

    /// What comes after the word that the action found.
    pub fn take(self, lane: u8, word: u64) -> TendTurn
        requires { FitsAct lane self }
        ensures value { result ≡ taken_in lane self word }
        ensures fits { FitsTurn lane result }
        ensures falls { rank_next result.next < rank_act self }
        ensures records { records_next result.next ≤ records_act self }
        ensures room { has_room_next result.next ≡ true → has_room_act self ≡ true }
        ensures released { (result.next ≡ ends TaskAnswer.Released) ↔ IsReleased word self }
        ensures not_leaving { (look : ℕ) →
            (result.next ≡ ends (TaskAnswer.NotLeaving look))
            ↔ IsNotLeaving lane look word self }
        ensures trimmed { (mark : ℕ) →
            (result.next ≡ ends (TaskAnswer.Trimmed mark)) ↔ IsTrimmed mark word self }
        ensures shared { (cell : ℕ) →
            (result.next ≡ ends (TaskAnswer.Shared cell)) ↔ IsShared cell word self }
        ensures not_owner { (look : ℕ) →
            (result.next ≡ ends (TaskAnswer.NotOwner look)) ↔ IsNotOwner lane look word self }
        ensures fenced { (told : ℕ) →
            (result.next ≡ ends (TaskAnswer.Fenced told)) ↔ IsFenced told word self }
        ensures again { (old seen : ℕ) →
            (result.next ≡ ends (TaskAnswer.Again old seen)) ↔ IsAgain old seen word self }
        ensures no_cell { (counter : ℕ) →
            (result.next ≡ ends (TaskAnswer.NoCell counter)) ↔ HasNoCell counter word self }
        ensures worn { (stamp : ℕ) →
            (result.next ≡ ends (TaskAnswer.Worn stamp)) ↔ IsWorn stamp word self }
    {
        match self {
            TendAct::Deed { slot } => after_deed(lane, slot, word),
            TendAct::GiveUp { deed, .. } => after_exchange(
                lane,
                deed,
                word,
                end(TaskAnswer::Released),
            ),
            TendAct::Mark => learn(
                Effect::DropBelow { mark: word },
                end(TaskAnswer::Trimmed { mark: word }),
            ),
            TendAct::ShareLook { key } => {
                after_look(lane, key, word, TendLocate::Share { key, look: word })
            }
            TendAct::ShareGate { key, look, at } => after_share_gate(lane, key, look, at, word),
            TendAct::Count { share } => after_count(lane, share, word),
            TendAct::Claim { share } => after_claim(lane, share, word),
            TendAct::Name { share, cell } => { go(seal(TendSealing::Share { share, cell })) },
            TendAct::Open { cell, .. } => go(end(TaskAnswer::Shared { cell })),
            TendAct::UnshareLook { key } => {
                after_look(lane, key, word, TendLocate::Unshare { key, look: word })
            }
            TendAct::UnshareGate { unshare } => after_unshare_gate(lane, unshare, word),
            TendAct::Cell { unshare, gate } => go(after_cell(lane, unshare, gate, word)),
            TendAct::Close {
                unshare,
                gate,
                seen,
                stamp,
            } => after_exchange(
                lane,
                seen,
                word,
                seal(unshare_seal(unshare, gate, seen, stamp)),
            ),
        }
    }
}
