//! What is printed at the end, by lines written out by hand.

use crate::{counted, history_lines, keys_left, lanes, order, unanswered};
use dn_act::Sound;
use dn_hist::{Call, Receipt, Reply};
use dn_run::Counts;
use dn_word::{Position, Value};
use dn_world::{Standing, World};
use std::alloc::Global;
use std::test::Fail;

/// What stands of a session's first call.
fn standing(stamp: u32, session: u32, call: Call, reply: Reply) -> Standing {
    Standing {
        receipt: Receipt {
            position: Position {
                stamp,
                rank: 0,
                session,
            },
            number: 1,
            call,
            reply,
            at: None,
        },
        answered: session != 4,
    }
}

/// A put of a byte at a key.
fn put(alloc: Global, key: u64) -> Result<Call, Fail> {
    Ok(Call::Put {
        key,
        value: Value::from_bytes(alloc, b"a")?,
    })
}

/// Two keys are put, of which one is deleted; each session has made one call, and session 4 has no answer.
fn history(alloc: Global) -> Result<Vec<Standing>, Fail> {
    let mut history = Vec::new(alloc);
    history.push(standing(2, 4, Call::Delete { key: 5 }, Reply::Deleted))?;
    history.push(standing(1, 3, put(alloc, 6)?, Reply::Stored))?;
    history.push(standing(1, 2, put(alloc, 5)?, Reply::Stored))?;
    history.push(standing(3, 1, Call::Get { key: 5 }, Reply::Absent))?;
    Ok(history)
}

#[test]
fn a_history_in_order(rt: HostRuntime) -> Result<(), Fail> {
    let mut out = Vec::new(rt.alloc());
    let mut history = history(rt.alloc())?;
    order(&mut history);
    history_lines(&mut out, &history)?;
    let wanted =
        "history 4\n1.0.2 1 put 5 =a stored\n1.0.3 1 put 6 =a stored\n2.0.4 1 del 5 deleted unanswered\n3.0.1 1 get 5 absent\n";
    assert_eq!(rt; out.as_slice(), wanted.as_bytes());
    assert_eq!(rt; keys_left(rt.alloc(), &history)?, 1);
    Ok(())
}

#[test]
fn calls_without_an_answer_and_counts(rt: HostRuntime) -> Result<(), Fail> {
    let mut out = Vec::new(rt.alloc());
    unanswered(&mut out, &[(2, 1), (7, 30)])?;
    let counts = Counts {
        calls: 6,
        made: 3,
        refused: 4,
        given: 1,
        pending: 2,
        index: 5,
    };
    counted(&mut out, counts, 2, 8)?;
    let wanted =
        "c2 1 unanswered\nc7 30 unanswered\ncalls 6 made 3 refused 4 unanswered 2 given 1\nways value 0 shortcut 0 pending 2 index 5 cell 0\nmap 8\n";
    assert_eq!(rt; out.as_slice(), wanted.as_bytes());
    Ok(())
}

#[test]
fn lanes_of_a_world_that_made_no_call(rt: HostRuntime) -> Result<(), Fail> {
    let mut out = Vec::new(rt.alloc());
    let mut pool = Sound::new(rt.alloc(), 64)?;
    let mut world = World::open(rt.alloc(), &mut pool, 64, 2)?;
    let Ok(()) = world.finish(&mut pool) else {
        return Err(Fail::new("not finished"));
    };
    lanes(&mut out, &world)?;
    let wanted = "lane 1 live stamp 0 len 0 mark 0\nlane 2 live stamp 0 len 0 mark 0\n";
    assert_eq!(rt; out.as_slice(), wanted.as_bytes());
    Ok(())
}
