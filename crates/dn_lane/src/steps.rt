//! A lane takes a word: what its plan asks for next, and the service that gives it.

ghost use Rattle.std.specs.Prelude.{◌≡◌, ◌≢◌, ◌<◌, ◌≤◌, ◌^◌, ◌+◌, ◌*◌, ℕ, [], true, false, length};
ghost use Rattle.dn_plan.specs.Fit.{FitsEffect};
ghost use Rattle.dn_tend.specs.Fit.{FitsFound};
ghost use Rattle.dn_ask.specs.Fit.{FitsThen, FitsAfter, FitsNext, FitsRoom, FitsLocate, FitsSealed, FitsStep};
ghost use Rattle.dn_ask.specs.Rank.{rank_then, rank_after, rank_next, rank_room, records_then, records_after, records_next, records_room, has_room_then, has_room_after, has_room_next};
ghost use Rattle.dn_find.specs.Fit.{FitsFind, find_left};
ghost use Rattle.dn_services.specs.Sealing.{IsReady, IsSealing};
ghost use Rattle.dn_lane.specs.Asked.{brief_of, FitsAsked, SameAsked, words_in};
ghost use Rattle.dn_lane.specs.Taken.{sealing_by, waits_by, entered_then, entered_room, entered_after, located, entered_next, learnt_by, entered, acted, here_of, sought, claimed, sealed, taken_by};
ghost use Rattle.dn_lane.specs.Fit.{HasRoom, FitsMode, FitsGoing, SameLane};
ghost use Rattle.dn_lane.specs.Left.{mode_left, going_left, is_working};

use crate::asked::Asked;
use crate::base::Base;
use crate::found::{keep_value, said};
use crate::modes::{Going, Mode};
use dn_ask::{Act, After, FindRoom, Here, Locate, Next, Seal as SealWait, Sealed, Step, Then};
use dn_find::{Find, Found};
use dn_known::Known;
use dn_locate::Fetch;
use dn_log::Claim;
use dn_plan::{Brief, Effect, Way};
use dn_services::{RoomTurn, Seal, SealTurn, claim_on, find_room};
use dn_tend::TendFound;

/// What the plan under way knows of what was asked.
fn brief(base: &Base, asked: &Asked) -> Brief
    ensures { result ≡ brief_of base.now.known.log.lane asked.now }
{
    asked.brief(base.known.number())
}

/// Begins to seal a record: its words wait from then on.
fn begin_seal(base: &mut Base, asked: &Asked, sealed: Sealed) -> Seal
    requires asked { FitsAsked asked.now }
    requires fits { FitsSealed (brief_of base.old.known.log.lane asked.now) sealed }
    requires empty { base.old.staging ≡ [] }
    requires ready { IsReady base.old.known (words_in asked.now) }
    ensures seal { result ≡ sealing_by asked.now sealed }
    ensures base { base.new
        ≡ record base.old { staging = waits_by base.old.known asked.now sealed } }
    ensures fits { IsSealing base.new.known result base.new.staging }
    ensures left { length base.new.staging ≤ 132 }
{
    match (sealed, asked) {
        (Sealed::Call(sealing), Asked::Call { call, .. }) => {
            Seal::of_call(&base.known, &mut base.staging, call, &sealing)
        }
        (Sealed::Call(_), Asked::Nothing | Asked::Task) => unreachable!(),
        (Sealed::Task { key, seal }, _) => {
            Seal::of_task(&base.known, &mut base.staging, key, seal)
        }
    }
}

/// The plan goes on once there is room.
fn enter_then(base: &mut Base, asked: &Asked, then: Then) -> Going
    requires asked { FitsAsked asked.now }
    requires fits { FitsThen (brief_of base.old.known.log.lane asked.now) then }
    requires empty { base.old.staging ≡ [] }
    requires records { records_then then ≤ base.old.known.pending.spare }
    requires room { has_room_then then ≡ true → HasRoom base.old.known asked.now }
    ensures going { result ≡ (entered_then base.old asked.now then).going }
    ensures base { base.new ≡ (entered_then base.old asked.now then).base }
    ensures fits { FitsGoing base.new asked.now result }
    ensures same { SameLane base.old base.new }
    ensures left { going_left base.new result < (1 + rank_then then) * 1048576 }
{
    match then {
        Then::Act(wait) => Going::On {
            mode: Mode::Acting { wait },
        },
        Then::Seal(wait) => {
            let sealed = wait.record(&brief(base, asked));
            let seal = begin_seal(base, asked, sealed);
            Going::On {
                mode: Mode::Sealing { wait, seal },
            }
        }
        Then::End(end) => Going::End { end },
    }
}

/// Room is looked for: it is there, or the lane claims a segment, or it has all that it may have.
fn enter_room(base: &mut Base, asked: &Asked, wait: FindRoom) -> Going
    requires asked { FitsAsked asked.now }
    requires fits { FitsRoom (brief_of base.old.known.log.lane asked.now) wait }
    requires empty { base.old.staging ≡ [] }
    requires records { records_room wait ≤ base.old.known.pending.spare }
    ensures going { result ≡ (entered_room base.old asked.now wait).going }
    ensures base { base.new ≡ (entered_room base.old asked.now wait).base }
    ensures fits { FitsGoing base.new asked.now result }
    ensures same { SameLane base.old base.new }
    ensures left { going_left base.new result < (1 + rank_room wait) * 1048576 }
{
    match find_room(&base.known, asked.words()) {
        RoomTurn::Told { room } => {
            let then = wait.roomed(&brief(base, asked), room);
            enter_then(base, asked, then)
        }
        RoomTurn::More { claim } => Going::On {
            mode: Mode::Claiming { wait, claim },
        },
    }
}

/// The plan goes on once its key is located.
fn enter_after(base: &mut Base, asked: &Asked, after: After) -> Going
    requires asked { FitsAsked asked.now }
    requires fits { FitsAfter (brief_of base.old.known.log.lane asked.now) after }
    requires empty { base.old.staging ≡ [] }
    requires records { records_after after ≤ base.old.known.pending.spare }
    requires room { has_room_after after ≡ true → HasRoom base.old.known asked.now }
    ensures going { result ≡ (entered_after base.old asked.now after).going }
    ensures base { base.new ≡ (entered_after base.old asked.now after).base }
    ensures fits { FitsGoing base.new asked.now result }
    ensures same { SameLane base.old base.new }
    ensures left { going_left base.new result < (1 + rank_after after) * 1048576 }
{
    match after {
        After::Room(wait) => enter_room(base, asked, wait),
        After::Then(then) => enter_then(base, asked, then),
    }
}

/// Begins to locate the plan's key.
fn enter_find(base: &mut Base, asked: &Asked, wait: Locate) -> Find
    requires fits { FitsLocate (brief_of base.old.known.log.lane asked.now) wait }
    ensures find { result ≡ (located base.old asked.now wait).find }
    ensures base { base.new ≡ record base.old {
      fetch =
          (located base.old asked.now wait).fetch;
    } }
    ensures fits { FitsFind base.new.fetch result }
    ensures pool { base.new.fetch.segments ≡ base.old.fetch.segments }
    ensures left { find_left base.new.fetch result < 590000 }
{
    let brief = brief(base, asked);
    let key = wait.key(&brief);
    let pending = base.known.pending(key);
    Find::start(&mut base.fetch, key, wait.wish(&brief), pending)
}

/// The plan goes on after an action or a seal.
fn enter_next(base: &mut Base, asked: &Asked, next: Next) -> Going
    requires asked { FitsAsked asked.now }
    requires fits { FitsNext (brief_of base.old.known.log.lane asked.now) next }
    requires empty { base.old.staging ≡ [] }
    requires records { records_next next ≤ base.old.known.pending.spare }
    requires room { has_room_next next ≡ true → HasRoom base.old.known asked.now }
    ensures going { result ≡ (entered_next base.old asked.now next).going }
    ensures base { base.new ≡ (entered_next base.old asked.now next).base }
    ensures fits { FitsGoing base.new asked.now result }
    ensures same { SameLane base.old base.new }
    ensures left { going_left base.new result < (1 + rank_next next) * 1048576 }
{
    match next {
        Next::Locate(wait) => {
            let find = enter_find(base, asked, wait);
            Going::On {
                mode: Mode::Finding { wait, find },
            }
        }
        Next::After(after) => enter_after(base, asked, after),
    }
}

/// The lane learns what the step of its plan tells.
fn learn(known: &mut Known, effect: Option<Effect>)
    requires { FitsEffect effect }
    ensures value { known.new ≡ learnt_by known.old effect }
    ensures log { known.new.log ≡ known.old.log }
    ensures spare { known.new.pending.spare ≡ known.old.pending.spare }
{
    if let Some(effect) = effect {
        known.learn(effect);
    }
}

/// The lane takes a step of its plan.
fn enter(base: &mut Base, asked: &Asked, step: Step) -> Going
    requires asked { FitsAsked asked.now }
    requires fits { FitsStep (brief_of base.old.known.log.lane asked.now) step }
    requires empty { base.old.staging ≡ [] }
    requires records { records_next step.next ≤ base.old.known.pending.spare }
    requires room { has_room_next step.next ≡ true → HasRoom base.old.known asked.now }
    ensures going { result ≡ (entered base.old asked.now step).going }
    ensures base { base.new ≡ (entered base.old asked.now step).base }
    ensures fits { FitsGoing base.new asked.now result }
    ensures same { SameLane base.old base.new }
    ensures left { going_left base.new result < (1 + rank_next step.next) * 1048576 }
{
    learn(&mut base.known, step.effect);
    enter_next(base, asked, step.next)
}

/// An action of the plan's own was done.
fn act_on(base: &mut Base, asked: &Asked, wait: Act, word: u64) -> Going
    requires asked { FitsAsked asked.now }
    requires fits { FitsMode base.old asked.now (Mode.Acting wait) }
    ensures going { result ≡ (acted base.old asked.now wait word).going }
    ensures base { base.new ≡ (acted base.old asked.now wait word).base }
    ensures fits { FitsGoing base.new asked.now result }
    ensures same { SameLane base.old base.new }
    ensures falls { going_left base.new result < mode_left base.old (Mode.Acting wait) }
{
    let step = wait.take(&brief(base, asked), word);
    enter(base, asked, step)
}

/// What was located: the fetched record, if there is one.
fn here(asked: &mut Asked, fetch: &Fetch, way: Way, fetched: bool) -> Here
    ensures here { result ≡ (here_of asked.old fetch.now way fetched).here }
    ensures asked { asked.new ≡ (here_of asked.old fetch.now way fetched).asked }
    ensures same { SameAsked asked.old asked.new }
    ensures fits { FitsFound result.found }
{
    if !fetched {
        return Here {
            way,
            held: false,
            found: TendFound::Nothing,
        };
    }
    Here {
        way,
        held: keep_value(asked, fetch.words()),
        found: said(fetch.words(), fetch.place()),
    }
}

/// A load of the location was done.
fn find_on(base: &mut Base, asked: &mut Asked, wait: Locate, find: Find, word: u64) -> Going
    requires asked { FitsAsked asked.old }
    requires fits { FitsMode base.old asked.old (Mode.Finding wait find) }
    ensures going { result ≡ (sought base.old asked.old wait find word).going }
    ensures base { base.new ≡ (sought base.old asked.old wait find word).base }
    ensures asked { asked.new ≡ (sought base.old asked.old wait find word).asked }
    ensures still { FitsAsked asked.new }
    ensures fits { FitsGoing base.new asked.new result }
    ensures same { SameLane base.old base.new }
    ensures falls { going_left base.new result < mode_left base.old (Mode.Finding wait find) }
{
    let brief = brief(base, asked);
    match find.take(&mut base.fetch, wait.key(&brief), wait.wish(&brief), word) {
        Found::More { find } => Going::On {
            mode: Mode::Finding { wait, find },
        },
        Found::Here { way, record } => {
            let here = here(asked, &base.fetch, way, record);
            let after = wait.located(&brief, here);
            enter_after(base, asked, after)
        }
    }
}

/// An action of the claim of a segment was done.
fn claim_more(base: &mut Base, asked: &Asked, wait: FindRoom, claim: Claim, word: u64) -> Going
    requires asked { FitsAsked asked.now }
    requires fits { FitsMode base.old asked.now (Mode.Claiming wait claim) }
    ensures going { result ≡ (claimed base.old asked.now wait claim word).going }
    ensures base { base.new ≡ (claimed base.old asked.now wait claim word).base }
    ensures fits { FitsGoing base.new asked.now result }
    ensures same { SameLane base.old base.new }
    ensures falls { going_left base.new result < mode_left base.old (Mode.Claiming wait claim) }
{
    let _words = asked.words();
    match claim_on(&mut base.known, claim, word) {
        RoomTurn::More { claim } => Going::On {
            mode: Mode::Claiming { wait, claim },
        },
        RoomTurn::Told { room } => {
            let then = wait.roomed(&brief(base, asked), room);
            enter_then(base, asked, then)
        }
    }
}

/// A word has flowed, or the gate was exchanged.
fn seal_on(base: &mut Base, asked: &Asked, wait: SealWait, seal: Seal, word: u64) -> Going
    requires asked { FitsAsked asked.now }
    requires fits { FitsMode base.old asked.now (Mode.Sealing wait seal) }
    ensures going { result ≡ (sealed base.old asked.now wait seal word).going }
    ensures base { base.new ≡ (sealed base.old asked.now wait seal word).base }
    ensures fits { FitsGoing base.new asked.now result }
    ensures same { SameLane base.old base.new }
    ensures falls { going_left base.new result < mode_left base.old (Mode.Sealing wait seal) }
{
    match seal.take(&mut base.known, &mut base.staging, word) {
        SealTurn::More => Going::On {
            mode: Mode::Sealing { wait, seal },
        },
        SealTurn::Sealed { at } | SealTurn::Shut { at } => {
            let step = wait.sealed(&brief(base, asked), at, word);
            enter(base, asked, step)
        }
    }
}

/// A plan under way takes the word that its action found. It takes no memory.
pub fn step(base: &mut Base, asked: &mut Asked, mode: Mode, word: u64) -> Going
    requires asked { FitsAsked asked.old }
    requires fits { FitsMode base.old asked.old mode }
    ensures going { result ≡ (taken_by base.old asked.old mode word).going }
    ensures base { base.new ≡ (taken_by base.old asked.old mode word).base }
    ensures asked { asked.new ≡ (taken_by base.old asked.old mode word).asked }
    ensures still { FitsAsked asked.new }
    ensures fits { FitsGoing base.new asked.new result }
    ensures same { SameLane base.old base.new }
    ensures falls { is_working mode ≡ true
        → going_left base.new result < mode_left base.old mode }
{
    match mode {
        Mode::Idle => Going::On { mode },
        Mode::Acting { wait } => act_on(base, asked, wait, word),
        Mode::Finding { wait, find } => find_on(base, asked, wait, find, word),
        Mode::Claiming { wait, claim } => claim_more(base, asked, wait, claim, word),
        Mode::Sealing { wait, seal } => seal_on(base, asked, wait, seal, word),
    }
}
