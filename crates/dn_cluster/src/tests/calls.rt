//! Each call once, as what it says. The words of the pool are worked out by hand: the deed of slot 3 stands at 195, the
//! gate of lane 1 at 65, its directory at 1280, and its first segment at 98304.

use super::SEGMENTS;
use super::plays::{Play, is_session};
use crate::{Acted, Actor, AddFault};
use dn_hist::{Call, Receipt, Reply};
use dn_lane::{Answer, Refuse, Turn};
use dn_merge::MergeTurn;
use dn_monitor::{MonitorAnswer, MonitorTurn};
use dn_tend::TaskAnswer;
use dn_word::{Position, Value};
use std::alloc::Global;
use std::process::Abort;
use std::test::Fail;

/// Slot 3 is owned by lane 1 in epoch 1, with floor 0.
const OWNED: u64 = 0x4000008080000000;

/// The header of a Put of one byte.
const SHORT: u64 = 0x0100010000000300;

/// Whether an actor has nothing to go on with.
pub fn is_end(acted: &Acted) -> bool {
    match acted {
        Acted::Lane(Turn::More)
        | Acted::Merger(MergeTurn::More)
        | Acted::Monitor(MonitorTurn::More) => false,
        _ => true,
    }
}

/// An actor goes on until its turn ends.
pub fn end_of(rt: &impl Abort, play: &mut Play, actor: Actor) -> Acted {
    for _ in 0..300 {
        let acted = play.act(rt, actor);
        if is_end(&acted) {
            return acted;
        }
    }
    panic!(rt; "the turn ends");
}

/// The receipt of a call that is made.
pub fn made(rt: &impl Abort, acted: Acted) -> Receipt {
    match acted {
        Acted::Lane(Turn::Done(Answer::Made { receipt, .. })) => receipt,
        _ => panic!(rt; "the call is made"),
    }
}

/// What a task is answered.
fn tended(rt: &impl Abort, acted: &Acted) -> TaskAnswer {
    match acted {
        Acted::Lane(Turn::Tended(answer)) => *answer,
        _ => panic!(rt; "the task ends"),
    }
}

/// The bytes of a reply, or its name.
pub fn told(reply: &Reply) -> &[u8] {
    match reply {
        Reply::Value(value) => value.as_bytes(),
        Reply::Absent => b"(absent)",
        Reply::Stored => b"(stored)",
        Reply::Deleted => b"(deleted)",
    }
}

fn at(stamp: u32, rank: u32, session: u32) -> Position {
    Position {
        stamp,
        rank,
        session,
    }
}

/// One lane, which owns slot 3.
pub fn one_lane(rt: &impl Abort, alloc: Global) -> Result<Play, Fail> {
    let mut play = Play::new(rt, alloc, SEGMENTS)?;
    assert_eq!(rt; play.add_lane(), Ok(1));
    play.grant(rt, 3, 1);
    let granted = end_of(rt, &mut play, Actor::Monitor);
    let deed = MonitorTurn::Answered(MonitorAnswer::Granted { deed: OWNED });
    assert!(rt; is_answer(&granted, deed));
    Ok(play)
}

/// Whether the monitor answered so.
fn is_answer(acted: &Acted, turn: MonitorTurn) -> bool {
    match acted {
        Acted::Monitor(found) => *found == turn,
        _ => false,
    }
}

/// A call is carried out at lane 1.
fn call(
    rt: &impl Abort,
    play: &mut Play,
    session: u32,
    call: &Call,
    position: Position,
    text: &[u8],
) {
    assert_eq!(rt; play.ask(rt, session, 1, call), Ok(()));
    let acted = end_of(rt, play, Actor::Lane(1));
    let receipt = made(rt, acted);
    assert_eq!(rt; receipt.position, position);
    assert_eq!(rt; told(&receipt.reply), text);
    assert!(rt; is_session(session));
    assert_eq!(rt; play.cluster().session(session).last(), position);
}

#[test]
fn lanes_up_to_63(rt: HostRuntime) -> Result<(), Fail> {
    let mut play = Play::new(&rt, rt.alloc(), SEGMENTS)?;
    assert_eq!(rt; play.cluster().lanes(), 0);
    for lane in 1..64u8 {
        assert!(rt; !play.runs(lane));
        assert_eq!(rt; play.add_lane(), Ok(lane));
        assert!(rt; play.runs(lane));
    }
    let full = Err(AddFault::Lanes { made: 63 });
    assert_eq!(rt; play.add_lane(), full);
    assert_eq!(rt; play.cluster().lanes(), 63);
    Ok(())
}

#[test]
fn calls_of_two_sessions(rt: HostRuntime) -> Result<(), Fail> {
    let mut play = one_lane(&rt, rt.alloc())?;
    let get = Call::Get { key: 5 };
    call(&rt, &mut play, 2, &get, at(0, 1, 2), b"(absent)");
    let value = Value::from_bytes(rt.alloc(), b"a")?;
    let put = Call::Put { key: 5, value };
    call(&rt, &mut play, 1, &put, at(1, 0, 1), b"(stored)");
    call(&rt, &mut play, 1, &get, at(1, 1, 1), b"a");
    call(&rt, &mut play, 1, &get, at(1, 2, 1), b"a");
    call(&rt, &mut play, 2, &get, at(1, 1, 2), b"a");
    // a session that was told of a later position reads behind it
    play.tell(&rt, 2, at(5, 0, 9));
    call(&rt, &mut play, 2, &get, at(6, 0, 2), b"a");
    let delete = Call::Delete { key: 5 };
    call(&rt, &mut play, 1, &delete, at(7, 0, 1), b"(deleted)");
    call(&rt, &mut play, 3, &get, at(7, 1, 3), b"(absent)");
    Ok(())
}

#[test]
fn what_is_under_way(rt: HostRuntime) -> Result<(), Fail> {
    let mut play = one_lane(&rt, rt.alloc())?;
    let get = Call::Get { key: 5 };
    assert_eq!(rt; play.ask(&rt, 1, 1, &get), Ok(()));
    assert_eq!(rt; (play.session_at(1), play.works(1)), (1, true));
    assert!(rt; !play.is_idle(1) && play.is_idle(2));
    let busy = Err(Refuse::Busy { number: 1 });
    assert_eq!(rt; play.ask(&rt, 2, 1, &get), busy);
    assert_eq!(rt; play.trim(&rt, 1), busy);
    let acted = end_of(&rt, &mut play, Actor::Lane(1));
    assert_eq!(rt; made(&rt, acted).number, 1);
    assert_eq!(rt; play.trim(&rt, 1), Ok(()));
    let busy = Err(Refuse::Busy { number: 0 });
    assert_eq!(rt; play.ask(&rt, 2, 1, &get), busy);
    let acted = end_of(&rt, &mut play, Actor::Lane(1));
    assert_eq!(rt; tended(&rt, &acted), TaskAnswer::Trimmed { mark: 0 });
    assert_eq!(rt; play.release(&rt, 1, 3), Ok(()));
    let acted = end_of(&rt, &mut play, Actor::Lane(1));
    assert_eq!(rt; tended(&rt, &acted), TaskAnswer::NotLeaving { look: OWNED });
    // session 2 numbered two calls that were refused
    assert_eq!(rt; play.ask(&rt, 2, 1, &get), Ok(()));
    let acted = end_of(&rt, &mut play, Actor::Lane(1));
    assert_eq!(rt; made(&rt, acted).number, 3);
    Ok(())
}

/// Whether the lane isn't the owner by this deed.
fn is_not_owner(acted: &Acted, deed: u64) -> bool {
    match acted {
        Acted::Lane(Turn::Done(Answer::NotOwner { look, cell })) => *look == deed && cell.is_none(),
        _ => false,
    }
}

#[test]
fn routes_are_loaded(rt: HostRuntime) -> Result<(), Fail> {
    let mut play = one_lane(&rt, rt.alloc())?;
    assert_eq!(rt; play.route(&rt, 1, 3), 0);
    play.load(&rt, 1, 3);
    let acted = play.act(&rt, Actor::Session(1));
    assert!(rt; matches!(acted, Acted::Session { word: OWNED }));
    assert_eq!(rt; play.route(&rt, 1, 3), 1);
    assert!(rt; is_nothing(&play.act(&rt, Actor::Session(1))));
    // key 13 is in slot 1, which is nobody's
    assert_eq!(rt; play.ask(&rt, 1, 1, &Call::Get { key: 13 }), Ok(()));
    let acted = end_of(&rt, &mut play, Actor::Lane(1));
    assert!(rt; is_not_owner(&acted, 0));
    assert!(rt; play.is_idle(1));
    Ok(())
}

/// Whether the actor has no next action.
fn is_nothing(acted: &Acted) -> bool {
    matches!(acted, Acted::Nothing)
}

#[test]
fn nobody_acts(rt: HostRuntime) -> Result<(), Fail> {
    let mut play = one_lane(&rt, rt.alloc())?;
    for actor in [
        Actor::Lane(0),
        Actor::Lane(1),
        Actor::Lane(2),
        Actor::Merger(0),
        Actor::Merger(2),
        Actor::Monitor,
        Actor::Session(0),
        Actor::Session(1),
        Actor::Session(1001),
    ] {
        assert!(rt; is_nothing(&play.act(&rt, actor)), "at {actor:?}");
    }
    assert!(rt; is_nothing(&play.flow(&rt, 1, 0)));
    assert!(rt; is_nothing(&play.flow(&rt, 2, 0)));
    Ok(())
}

/// The word at a place.
fn word(play: &Play, at: usize) -> Option<u64> {
    play.words().get(at).copied()
}

#[test]
fn words_flow_out_of_turn(rt: HostRuntime) -> Result<(), Fail> {
    let mut play = one_lane(&rt, rt.alloc())?;
    let value = Value::from_bytes(rt.alloc(), b"a")?;
    let put = Call::Put { key: 5, value };
    assert_eq!(rt; play.ask(&rt, 1, 1, &put), Ok(()));
    // the loads of the deed, the bucket's four words and the gate, and the claim of a segment
    for _ in 0..8 {
        assert!(rt; !is_end(&play.act(&rt, Actor::Lane(1))));
    }
    assert!(rt; is_nothing(&play.flow(&rt, 1, 4)));
    assert!(rt; !is_end(&play.flow(&rt, 1, 3)));
    assert_eq!(rt;
        (word(&play, 1280), word(&play, 98306)),
        (Some(0), Some(0x61))
    );
    assert!(rt; !is_end(&play.flow(&rt, 1, 0)));
    assert_eq!(rt; (word(&play, 1280), word(&play, 98304)), (Some(1), Some(0)));
    assert!(rt; !is_end(&play.act(&rt, Actor::Lane(1))));
    assert_eq!(rt;
        (word(&play, 98304), word(&play, 98305)),
        (Some(SHORT), Some(0))
    );
    assert!(rt; !is_end(&play.act(&rt, Actor::Lane(1))));
    assert_eq!(rt; (word(&play, 98305), word(&play, 65)), (Some(5), Some(0)));
    let acted = play.act(&rt, Actor::Lane(1));
    assert_eq!(rt; made(&rt, acted).position, at(1, 0, 1));
    assert_eq!(rt; word(&play, 65), Some(0x0000000100000003));
    Ok(())
}

/// Whether the merger found these.
fn is_idle(acted: &Acted, gate: u64, mark: u64) -> bool {
    match acted {
        Acted::Merger(turn) => *turn == MergeTurn::Idle { gate, mark },
        _ => false,
    }
}

#[test]
fn orders_and_mergers_begin_anew(rt: HostRuntime) -> Result<(), Fail> {
    let mut play = one_lane(&rt, rt.alloc())?;
    assert!(rt; !play.has_order());
    play.look(&rt, 3);
    assert!(rt; play.has_order() && play.cluster().monitor().is_some());
    let looked = MonitorTurn::Answered(MonitorAnswer::Looked { deed: OWNED });
    assert!(rt; is_answer(&play.act(&rt, Actor::Monitor), looked));
    assert!(rt; !play.has_order());
    play.fence(&rt, 1);
    play.drop_order();
    assert!(rt; is_nothing(&play.act(&rt, Actor::Monitor)));
    assert_eq!(rt; word(&play, 65), Some(0));
    // a turn of a merger loads the gate and then the mark
    assert!(rt; !is_end(&play.act(&rt, Actor::Merger(1))));
    play.renew(&rt, 1);
    assert!(rt; !is_end(&play.act(&rt, Actor::Merger(1))));
    assert!(rt; is_idle(&play.act(&rt, Actor::Merger(1)), 0, 0));
    Ok(())
}

#[test]
fn sessions_and_lanes_end(rt: HostRuntime) -> Result<(), Fail> {
    let mut play = one_lane(&rt, rt.alloc())?;
    play.hints(&rt, 4, &[(5, 1), (6, 2)])?;
    assert_eq!(rt; play.cluster().session(4).again(6).hint, Some(2));
    assert!(rt; play.is_idle(3));
    play.close(&rt, 3);
    assert!(rt; play.cluster().is_closed(3) && !play.is_idle(3));
    assert_eq!(rt; play.ask(&rt, 1, 1, &Call::Delete { key: 5 }), Ok(()));
    assert!(rt; !is_end(&play.act(&rt, Actor::Lane(1))));
    assert!(rt; play.stop(1).is_none());
    assert!(rt; play.cluster().is_closed(1) && !play.cluster().is_closed(2));
    assert!(rt; !play.runs(1));
    assert_eq!(rt; play.cluster().lanes(), 1);
    assert!(rt; is_nothing(&play.act(&rt, Actor::Lane(1))));
    assert!(rt; play.stop(1).is_none() && play.stop(2).is_none());
    // its merger goes on
    assert!(rt; is_idle(&end_of(&rt, &mut play, Actor::Merger(1)), 0, 0));
    Ok(())
}
