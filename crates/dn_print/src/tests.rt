//! Each line once.

use super::*;
use dn_hist::{Call, Receipt, Reply};
use dn_word::{OutOfMemory, Position, Value};
use std::alloc::Global;
use std::test::Fail;

const PLACE: Position = Position {
    stamp: 7,
    rank: 2,
    session: 3,
};

/// The reply of a get that found these bytes.
fn found(alloc: Global, bytes: &[u8]) -> Result<Reply, Fail> {
    match Value::from_bytes(alloc, bytes) {
        Ok(value) => Ok(Reply::Value(value)),
        Err(_) => Err(Fail::new("no value")),
    }
}

/// The lines of calls with these replies, made at one place.
fn made_lines(alloc: Global, out: &mut Vec<u8>) -> Result<(), Fail> {
    for bytes in [b"!~".as_slice(), b"".as_slice(), b"a \x7f\xff".as_slice()] {
        let reply = found(alloc, bytes)?;
        done(made(out, 3, 12, &reply, PLACE))?;
    }
    done(made(out, 3, 13, &Reply::Absent, PLACE))?;
    done(made(out, 3, 14, &Reply::Stored, PLACE))?;
    done(made(out, 3, 15, &Reply::Deleted, PLACE))
}

/// Turns want of memory into a failed test.
fn done(printed: Result<(), OutOfMemory>) -> Result<(), Fail> {
    match printed {
        Ok(()) => Ok(()),
        Err(_) => Err(Fail::new("out of memory")),
    }
}

#[test]
fn calls_that_were_made(rt: HostRuntime) -> Result<(), Fail> {
    let alloc = rt.alloc();
    let mut out = Vec::new(alloc);
    made_lines(alloc, &mut out)?;
    let lines =
        "c3 12 =!~ 7.2.3\nc3 12 = 7.2.3\nc3 12 %61207fff 7.2.3\nc3 13 absent 7.2.3\nc3 14 stored 7.2.3\nc3 15 deleted 7.2.3\n";
    assert_eq!(rt; out.as_slice(), lines.as_bytes());
    Ok(())
}

#[test]
fn attempts_that_were_refused(rt: HostRuntime) -> Result<(), Fail> {
    let alloc = rt.alloc();
    let mut out = Vec::new(alloc);
    let (session, number) = (2, 9);
    for (look, cell) in [
        (0x0123_4567_89ab_cdef, None),
        (1, Some(0xfe00_0000_0000_0000)),
    ] {
        let line = EventLine::NotOwner {
            session,
            number,
            look,
            cell,
        };
        done(event(&mut out, &line))?;
    }
    for line in [
        EventLine::Fenced {
            session,
            number,
            word: 10,
        },
        EventLine::Again {
            session,
            number,
            old: 1,
            seen: 2,
        },
        EventLine::Full {
            session,
            number,
            counter: 18446744073709551615,
            segments: 8192,
        },
        EventLine::Worn {
            session,
            number,
            stamp: 2147483647,
        },
        EventLine::Given { session, number },
        EventLine::Unanswered { session, number },
    ] {
        done(event(&mut out, &line))?;
    }
    let lines =
        "c2 9 notowner 0123456789abcdef -\nc2 9 notowner 0000000000000001 fe00000000000000\nc2 9 fenced 000000000000000a\nc2 9 again 0000000000000001 0000000000000002\nc2 9 full 18446744073709551615 8192\nc2 9 worn 2147483647\nc2 9 given\nc2 9 unanswered\n";
    assert_eq!(rt; out.as_slice(), lines.as_bytes());
    Ok(())
}

#[test]
fn lines_of_sessions_and_lanes(rt: HostRuntime) -> Result<(), Fail> {
    let mut out = Vec::new(rt.alloc());
    for line in [
        EventLine::Busy { session: 1000 },
        EventLine::Closed { session: 2 },
        EventLine::Lane { lane: 63 },
        EventLine::LanesFull,
        EventLine::NoLane { lane: 4 },
    ] {
        done(event(&mut out, &line))?;
    }
    let lines = "c1000 busy\nc2 closed\nlane 63\nlanes full\nnolane 4\n";
    assert_eq!(rt; out.as_slice(), lines.as_bytes());
    Ok(())
}

/// A receipt at one place.
fn receipt(call: Call, reply: Reply) -> Receipt {
    Receipt {
        position: PLACE,
        number: 12,
        call,
        reply,
        at: None,
    }
}

#[test]
fn a_history(rt: HostRuntime) -> Result<(), Fail> {
    let alloc = rt.alloc();
    let mut out = Vec::new(alloc);
    done(history_head(&mut out, 4))?;
    let Ok(value) = Value::from_bytes(alloc, b"ab") else {
        return Err(Fail::new("no value"));
    };
    let put = receipt(Call::Put { key: 5, value }, Reply::Stored);
    done(history_line(&mut out, &put, true))?;
    let get = receipt(
        Call::Get {
            key: 18446744073709551615,
        },
        found(alloc, b"ab")?,
    );
    done(history_line(&mut out, &get, true))?;
    let absent = receipt(Call::Get { key: 6 }, Reply::Absent);
    done(history_line(&mut out, &absent, true))?;
    let delete = receipt(Call::Delete { key: 5 }, Reply::Deleted);
    done(history_line(&mut out, &delete, false))?;
    let lines =
        "history 4\n7.2.3 12 put 5 =ab stored\n7.2.3 12 get 18446744073709551615 =ab\n7.2.3 12 get 6 absent\n7.2.3 12 del 5 deleted unanswered\n";
    assert_eq!(rt; out.as_slice(), lines.as_bytes());
    Ok(())
}

#[test]
fn a_summary(rt: HostRuntime) -> Result<(), Fail> {
    let alloc = rt.alloc();
    let mut out = Vec::new(alloc);
    done(lane_line(&mut out, 1, LaneState::Live, 8, 1154, 0))?;
    done(lane_line(&mut out, 2, LaneState::Fenced, 0, 0, 0))?;
    done(lane_line(&mut out, 63, LaneState::Stopped, 0, 3, 2))?;
    done(calls_line(&mut out, 5, 2, 4, 1, 2))?;
    done(ways_line(&mut out, 1, 2, 3, 4, 5))?;
    done(map_line(&mut out, 8))?;
    let lines =
        "lane 1 live stamp 8 len 1154 mark 0\nlane 2 fenced stamp 0 len 0 mark 0\nlane 63 stopped stamp 0 len 3 mark 2\ncalls 5 made 2 refused 4 unanswered 1 given 2\nways value 1 shortcut 2 pending 3 index 4 cell 5\nmap 8\n";
    assert_eq!(rt; out.as_slice(), lines.as_bytes());
    Ok(())
}

#[test]
fn refusals(rt: HostRuntime) -> Result<(), Fail> {
    let alloc = rt.alloc();
    let mut out = Vec::new(alloc);
    done(bad_line(&mut out, 3, "verb"))?;
    done(bad_words(&mut out))?;
    assert_eq!(rt; out.as_slice(), b"line 3: verb\nbad words\n".as_slice());
    Ok(())
}

#[test]
fn orders_of_the_monitor(rt: HostRuntime) -> Result<(), Fail> {
    let alloc = rt.alloc();
    let mut out = Vec::new(alloc);
    let (key, lane) = (18_446_744_073_709_551_615, 63);
    let deed = 0x4000_0101_0000_0002;
    for answer in [
        MoveAnswer::Granted { deed },
        MoveAnswer::Held { deed },
        MoveAnswer::Waiting { mark: 3, need: 12 },
        MoveAnswer::Worn { epoch: 8_388_607 },
    ] {
        done(moved(&mut out, key, lane, answer))?;
    }
    done(monitor_busy(&mut out))?;
    done(balanced(&mut out, 64))?;
    let lines =
        "move 18446744073709551615 63 granted 4000010100000002\nmove 18446744073709551615 63 held 4000010100000002\nmove 18446744073709551615 63 waiting 3 12\nmove 18446744073709551615 63 worn 8388607\nmonitor busy\nbalance 64\n";
    assert_eq!(rt; out.as_slice(), lines.as_bytes());
    Ok(())
}
