//! A lane is stopped, by itself or by an access that failed, and another takes over its slots.

use super::calls::{end_of, is_end, made, one_lane, told};
use super::plays::Play;
use super::runs::Run;
use crate::Actor;
use dn_hist::Call;
use dn_word::Value;
use std::alloc::Global;
use std::process::Abort;
use std::test::Fail;

/// How a lane comes to its end.
#[derive(Clone, Copy)]
enum End {
    /// It is stopped.
    Stops,
    /// Its next action fails, and is done or not done.
    Fails { done: bool },
}

/// Lane 1 is given a put on key 5.
fn put(
    rt: &impl Abort,
    alloc: Global,
    play: &mut Play,
    session: u32,
    text: &[u8],
) -> Result<(), Fail> {
    let value = Value::from_bytes(alloc, text)?;
    let put = Call::Put { key: 5, value };
    assert_eq!(rt; play.ask(rt, session, 1, &put), Ok(()));
    Ok(())
}

/// Key 5 has the value `a`, and lane 1 comes to its end after so many actions of a put of `b`. Whether a receipt was
/// told then, and what lane 2 reads of the key once it has taken over, is compared.
fn put_ends(
    rt: &impl Abort,
    alloc: Global,
    actions: u32,
    end: End,
    tells: bool,
    text: &[u8],
) -> Result<(), Fail> {
    let mut play = one_lane(rt, alloc)?;
    assert_eq!(rt; play.add_lane(), Ok(2));
    put(rt, alloc, &mut play, 1, b"a")?;
    end_of(rt, &mut play, Actor::Lane(1));
    put(rt, alloc, &mut play, 2, b"b")?;
    for _ in 0..actions {
        let acted = play.act(rt, Actor::Lane(1));
        assert!(rt; !is_end(&acted));
    }
    let ending = match end {
        End::Stops => play.stop(1),
        End::Fails { done } => play.fail(rt, 1, done),
    };
    assert_eq!(rt; ending.is_some(), tells);
    play.fence(rt, 1);
    end_of(rt, &mut play, Actor::Monitor);
    end_of(rt, &mut play, Actor::Merger(1));
    play.take_over(rt, 1, 2);
    end_of(rt, &mut play, Actor::Monitor);
    assert_eq!(rt; play.ask(rt, 3, 2, &Call::Get { key: 5 }), Ok(()));
    let acted = end_of(rt, &mut play, Actor::Lane(2));
    assert_eq!(rt; told(&made(rt, acted).reply), text);
    Ok(())
}

/// A put over a pending record loads the deed, the directory, the record's header and the gate, stores the record's
/// three words, and exchanges the gate by its eighth action. Only where that is done the put stands.
#[test]
fn lanes_end_at_each_action_of_a_put(rt: HostRuntime) -> Result<(), Fail> {
    let alloc = rt.alloc();
    for actions in 0..8u32 {
        let tells = actions == 7;
        let done = if tells { b"b" } else { b"a" };
        put_ends(&rt, alloc, actions, End::Stops, tells, b"a")?;
        put_ends(&rt, alloc, actions, End::Fails { done: false }, tells, b"a")?;
        put_ends(&rt, alloc, actions, End::Fails { done: true }, tells, done)?;
    }
    Ok(())
}

/// After so many random actions one of the lanes comes to its end, and the other takes over.
fn ends(
    rt: &impl Abort,
    alloc: Global,
    seed: u64,
    actions: u32,
    lane: u8,
    end: End,
) -> Result<(), Fail> {
    let heir = if lane == 1 { 2 } else { 1 };
    let mut run = Run::new(rt, alloc, seed)?;
    run.turns(rt, actions)?;
    match end {
        End::Fails { done } if run.works(lane) => run.fail(rt, lane, done)?,
        _ => run.stop(rt, lane)?,
    }
    run.take_over(rt, lane, heir)?;
    run.compare();
    run.read(rt, 4, heir)
}

#[test]
fn lanes_end_at_random(rt: HostRuntime) -> Result<(), Fail> {
    for seed in 0..60u32 {
        let end = match seed % 3 {
            0 => End::Stops,
            1 => End::Fails { done: false },
            _ => End::Fails { done: true },
        };
        let lane = 1 + (seed % 2) as u8;
        let actions = 300 + 7 * seed;
        ends(&rt, rt.alloc(), u64::from(seed), actions, lane, end)?;
    }
    Ok(())
}
