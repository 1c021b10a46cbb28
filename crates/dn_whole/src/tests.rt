//! Scripts with their whole outputs, written out by hand from the rules.

use crate::{End, play};
use dn_act::Sound;
use dn_script::{Mode, Verb, parse_with};
use std::alloc::Global;
use std::process::Abort;
use std::test::Fail;

/// The verbs of the lines in these scripts.
const VERBS: [Verb; 6] = [
    Verb::Nodes,
    Verb::Get,
    Verb::Put,
    Verb::Lane,
    Verb::Start,
    Verb::Merge,
];

/// Plays a script over a fresh pool to its end, and compares the output.
fn plays(rt: &impl Abort, alloc: Global, script: &str, wanted: &str) -> Result<(), Fail> {
    let Ok(script) = parse_with(alloc, script.as_bytes(), Mode::Play, 1024, &VERBS) else {
        return Err(Fail::new("no script"));
    };
    let mut pool = Sound::new(alloc, script.segments)?;
    let mut out = Vec::new(alloc);
    let end = play(alloc, &mut pool, script, &mut out)?;
    assert!(rt; end == End::Done);
    assert_eq!(rt; out.as_slice(), wanted.as_bytes());
    Ok(())
}

#[test]
fn a_stale_route(rt: HostRuntime) -> Result<(), Fail> {
    let script = "nodes 4\nc1 put 5 =a\nc1 @3 get 5\n";
    let wanted =
        "c1 1 stored 1.0.1\nc1 2 notowner 4000008100000000 -\nc1 2 =a 1.1.1\nhistory 2\n1.0.1 1 put 5 =a stored\n1.1.1 2 get 5 =a\nlane 1 live stamp 0 len 0 mark 0\nlane 2 live stamp 1 len 3 mark 3\nlane 3 live stamp 0 len 0 mark 0\nlane 4 live stamp 0 len 0 mark 0\ncalls 2 made 2 refused 1 unanswered 0 given 0\nways value 0 shortcut 0 pending 1 index 0 cell 0\nmap 1\n";
    plays(&rt, rt.alloc(), script, wanted)
}

#[test]
fn puts_and_a_merger(rt: HostRuntime) -> Result<(), Fail> {
    let script = "c1 put 5 =a\nc1 put 5 =b\nc1 put 5 =c\nmerge 1 10\nc1 get 5\n";
    let wanted =
        "c1 1 stored 1.0.1\nc1 2 stored 2.0.1\nc1 3 stored 3.0.1\nc1 4 =c 3.1.1\nhistory 4\n1.0.1 1 put 5 =a stored\n2.0.1 2 put 5 =b stored\n3.0.1 3 put 5 =c stored\n3.1.1 4 get 5 =c\nlane 1 live stamp 3 len 9 mark 9\ncalls 4 made 4 refused 0 unanswered 0 given 0\nways value 0 shortcut 0 pending 1 index 0 cell 0\nmap 1\n";
    plays(&rt, rt.alloc(), script, wanted)
}

#[test]
fn a_call_without_an_answer(rt: HostRuntime) -> Result<(), Fail> {
    let wanted =
        "c1 1 unanswered\nhistory 0\nlane 1 live stamp 0 len 0 mark 0\ncalls 1 made 0 refused 0 unanswered 1 given 0\nways value 0 shortcut 0 pending 0 index 0 cell 0\nmap 0\n";
    plays(&rt, rt.alloc(), "c1 start put 5 =a\n", wanted)
}
