//! Keys 5, 13561, 14939 and 17520 lie in bucket 222 of slot 3, which has three places, so that the fourth needs a further
//! bucket. Keys 13 and 34 lie in slot 1. The words are worked out by hand: a put of one byte is a record of three words, and
//! the stamp of its gate is the number of puts.

mod plays;

use crate::{DrainFault, LaneFault, Merged};
use dn_cluster::{Acted, Actor};
use dn_merge::MergeTurn;
use plays::Play;
use std::alloc::Global;
use std::process::Abort;
use std::test::Fail;

/// The gate word with this stamp and the mark, after so many puts of one byte in a lane.
fn after(stamp: u64, puts: u64) -> Merged {
    Merged {
        gate: stamp
            .saturating_mul(0x100000000)
            .saturating_add(puts.saturating_mul(3)),
        mark: puts.saturating_mul(3),
    }
}

/// Lane 1 with slot 3, which has made puts on the four keys.
fn four_puts(rt: &impl Abort, alloc: Global, failing: Option<(u64, bool)>) -> Result<Play, Fail> {
    let mut play = Play::new(rt, alloc, failing)?;
    play.lane(rt, 1, 3);
    for key in [5, 13561, 14939, 17520] {
        play.put(rt, 1, key)?;
    }
    Ok(play)
}

/// Bucket 222 with three keys leads to the first overflow bucket, which has the fourth. The mark is past them.
fn expect_merged(rt: &impl Abort, play: &Play) {
    for (at, word) in [
        (34545, 5),
        (34546, 13561),
        (34547, 14939),
        (34548, 0x01000000),
        (34549, 0x01000003),
        (34550, 0x01000006),
        (34551, 4096),
        (65537, 17520),
        (65540, 0x01000009),
        (3, 1),
        (129, 12),
    ] {
        assert_eq!(rt; play.word(rt, at), word, "word {at}");
    }
}

#[test]
fn an_empty_log(rt: HostRuntime) -> Result<(), Fail> {
    let mut play = Play::new(&rt, rt.alloc(), None)?;
    play.lane(&rt, 1, 3);
    assert_eq!(rt; play.drain(&rt, 1), Ok(Merged { gate: 0, mark: 0 }));
    assert_eq!(rt; play.drain(&rt, 1), Ok(Merged { gate: 0, mark: 0 }));
    Ok(())
}

#[test]
fn four_records(rt: HostRuntime) -> Result<(), Fail> {
    let mut play = four_puts(&rt, rt.alloc(), None)?;
    assert_eq!(rt; play.word(&rt, 129), 0);
    assert_eq!(rt; play.drain(&rt, 1), Ok(after(4, 4)));
    expect_merged(&rt, &play);
    Ok(())
}

/// A drain may begin at each action of a turn.
#[test]
fn a_turn_goes_on(rt: HostRuntime) -> Result<(), Fail> {
    for actions in 0..40 {
        let mut play = four_puts(&rt, rt.alloc(), None)?;
        for _ in 0..actions {
            play.act(&rt, Actor::Merger(1));
        }
        assert_eq!(rt; play.drain(&rt, 1), Ok(after(4, 4)));
        expect_merged(&rt, &play);
    }
    Ok(())
}

/// Whether the merger found that all was merged by an empty gate.
fn is_old(acted: &Acted) -> bool {
    match acted {
        Acted::Merger(turn) => *turn == MergeTurn::Idle { gate: 0, mark: 0 },
        _ => false,
    }
}

/// The merger has loaded the gate before the lane seals a record.
#[test]
fn an_old_gate_ends_nothing(rt: HostRuntime) -> Result<(), Fail> {
    let mut play = Play::new(&rt, rt.alloc(), None)?;
    play.lane(&rt, 1, 3);
    play.act(&rt, Actor::Merger(1));
    play.put(&rt, 1, 5)?;
    assert_eq!(rt; play.drain(&rt, 1), Ok(after(1, 1)));
    // by one action it would have ended
    let mut play = Play::new(&rt, rt.alloc(), None)?;
    play.lane(&rt, 1, 3);
    play.act(&rt, Actor::Merger(1));
    play.put(&rt, 1, 5)?;
    assert!(rt; is_old(&play.act(&rt, Actor::Merger(1))));
    Ok(())
}

/// Each access of a drain fails in turn, done or not done. The next drain ends it.
#[test]
fn each_access_fails(rt: HostRuntime) -> Result<(), Fail> {
    let before = four_puts(&rt, rt.alloc(), None)?.accesses();
    for access in 1..=30u64 {
        for done in [false, true] {
            let failing = Some((before.saturating_add(access), done));
            let mut play = four_puts(&rt, rt.alloc(), failing)?;
            assert_eq!(rt; play.drain(&rt, 1), Err(DrainFault::Pool));
            assert_eq!(rt; play.drain(&rt, 1), Ok(after(4, 4)));
            assert_eq!(rt; play.word(&rt, 129), 12);
        }
    }
    Ok(())
}

/// Two lanes with a record each.
fn two_lanes(rt: &impl Abort, alloc: Global, failing: Option<(u64, bool)>) -> Result<Play, Fail> {
    let mut play = Play::new(rt, alloc, failing)?;
    play.lane(rt, 1, 3);
    play.lane(rt, 2, 1);
    play.put(rt, 1, 5)?;
    play.put(rt, 2, 13)?;
    Ok(play)
}

#[test]
fn all_lanes(rt: HostRuntime) -> Result<(), Fail> {
    let none = Merged { gate: 0, mark: 0 };
    let mut play = two_lanes(&rt, rt.alloc(), None)?;
    let before = play.accesses();
    let mut ended = [none; 2];
    assert_eq!(rt; play.drain_all(&rt, &mut ended), Ok(()));
    assert_eq!(rt; ended, [after(1, 1), after(2, 1)]);
    assert_eq!(rt; (play.word(&rt, 129), play.word(&rt, 130)), (3, 3));
    // the first lane's drain takes 15 actions
    let failing = Some((before.saturating_add(20), false));
    let mut play = two_lanes(&rt, rt.alloc(), failing)?;
    let mut ended = [none; 2];
    let fault = Err(LaneFault {
        lane: 2,
        fault: DrainFault::Pool,
    });
    assert_eq!(rt; play.drain_all(&rt, &mut ended), fault);
    assert_eq!(rt; ended, [after(1, 1), none]);
    assert_eq!(rt; (play.word(&rt, 129), play.word(&rt, 130)), (3, 0));
    assert_eq!(rt; play.drain_all(&rt, &mut ended), Ok(()));
    assert_eq!(rt; ended, [after(1, 1), after(2, 1)]);
    Ok(())
}

/// Puts on the keys from 1 on, each time followed by a drain after so many, until that ends with a fault.
fn fill(rt: &impl Abort, play: &mut Play) -> Result<DrainFault, Fail> {
    for key in 1..=25000u64 {
        play.put(rt, 1, key)?;
        if key % 500 == 0
            && let Err(fault) = play.drain(rt, 1)
        {
            return Ok(fault);
        }
    }
    panic!(rt; "the index is full");
}

/// Five keys for each bucket of the table take all 4,096 further ones.
#[test]
fn a_full_index(rt: HostRuntime) -> Result<(), Fail> {
    let mut play = Play::new(&rt, rt.alloc(), None)?;
    play.lane(&rt, 1, 0);
    for slot in 1..64 {
        play.own(&rt, 1, slot);
    }
    let full = DrainFault::IndexFull { counter: 4096 };
    assert_eq!(rt; fill(&rt, &mut play)?, full);
    assert_eq!(rt; play.word(&rt, 3), 4096);
    assert!(rt; play.word(&rt, 129) != play.word(&rt, 65) % 0x100000000);
    assert_eq!(rt; play.drain(&rt, 1), Err(full));
    assert_eq!(rt; play.word(&rt, 3), 4096);
    Ok(())
}
