//! Scripts, with the lines that are printed of their events, written out by hand from the rules.

use crate::Player;
use dn_act::Sound;
use dn_script::{Mode, Script, Verb, parse_with};
use std::alloc::Global;
use std::process::Abort;
use std::test::Fail;

/// The verbs of the lines that are played.
const VERBS: [Verb; 16] = [
    Verb::Pool,
    Verb::Nodes,
    Verb::Get,
    Verb::Put,
    Verb::Delete,
    Verb::Lane,
    Verb::Sessions,
    Verb::Start,
    Verb::Step,
    Verb::Flow,
    Verb::Merge,
    Verb::Monitor,
    Verb::Add,
    Verb::Move,
    Verb::Tell,
    Verb::Trim,
];

/// Plays a script over a fresh pool, and compares what is printed of its events.
fn plays(rt: &impl Abort, alloc: Global, script: &str, wanted: &str) -> Result<(), Fail> {
    let Ok(script) = parse_with(alloc, script.as_bytes(), Mode::Play, 1024, &VERBS) else {
        return Err(Fail::new("no script"));
    };
    let Script {
        segments,
        nodes,
        lines,
        ..
    } = script;
    let mut pool = Sound::new(alloc, segments)?;
    let mut player = Player::open(alloc, &mut pool, segments, nodes)?;
    let mut out = Vec::new(alloc);
    player.lines(&mut pool, &mut out, lines.into_vec())?;
    assert_eq!(rt; out.as_slice(), wanted.as_bytes());
    Ok(())
}

#[test]
fn a_stale_route(rt: HostRuntime) -> Result<(), Fail> {
    let script = "nodes 4\nc1 put 5 =a\nc1 @3 get 5\n";
    let wanted = "c1 1 stored 1.0.1\nc1 2 notowner 4000008100000000 -\nc1 2 =a 1.1.1\n";
    plays(&rt, rt.alloc(), script, wanted)
}

#[test]
fn a_walk_beside_a_merger(rt: HostRuntime) -> Result<(), Fail> {
    let script = "c1 put 5 =a\nmerge 1 10\nc1 start get 13561\nstep 1 2\nmerge 1 2\nstep 1 5\n";
    plays(
        &rt,
        rt.alloc(),
        script,
        "c1 1 stored 1.0.1\nc1 2 absent 1.1.1\n",
    )
}

#[test]
fn puts_and_a_merger(rt: HostRuntime) -> Result<(), Fail> {
    let script = "c1 put 5 =a\nc1 put 5 =b\nc1 put 5 =c\nmerge 1 10\nc1 get 5\n";
    let wanted = "c1 1 stored 1.0.1\nc1 2 stored 2.0.1\nc1 3 stored 3.0.1\nc1 4 =c 3.1.1\n";
    plays(&rt, rt.alloc(), script, wanted)
}

#[test]
fn calls_that_are_refused_at_once_and_lanes(rt: HostRuntime) -> Result<(), Fail> {
    let script =
        "c1 start put 5 =a\nc1 get 5\nc1 @2 get 5\nstep 2\nflow 2 0\nmerge 2\nadd\nc1 get 5\nstep 1 100\n";
    let wanted =
        "c1 busy\nnolane 2\nnolane 2\nnolane 2\nnolane 2\nlane 2\nc1 busy\nc1 1 stored 1.0.1\n";
    plays(&rt, rt.alloc(), script, wanted)
}

#[test]
fn no_lane_is_added_to_63(rt: HostRuntime) -> Result<(), Fail> {
    plays(&rt, rt.alloc(), "nodes 63\nadd\ntell 1 2\n", "lanes full\n")
}
