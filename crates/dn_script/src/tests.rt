//! The table of lines at the ends of its ranges, and the causes of bad lines, each with those that come after it.

use super::*;
use dn_hist::Call;
use std::alloc::Global;
use std::test::Fail;

/// All of the grammar.
const ALL: [Verb; 24] = [
    Verb::Pool,
    Verb::Nodes,
    Verb::Cache,
    Verb::Get,
    Verb::Put,
    Verb::Delete,
    Verb::Lane,
    Verb::Sessions,
    Verb::Start,
    Verb::Step,
    Verb::Flow,
    Verb::Merge,
    Verb::Monitor,
    Verb::Add,
    Verb::Move,
    Verb::Fence,
    Verb::Takeover,
    Verb::Balance,
    Verb::Remove,
    Verb::Stop,
    Verb::Fuse,
    Verb::Fail,
    Verb::Trim,
    Verb::Tell,
];

/// The first bad line and its cause.
fn bad(alloc: Global, bytes: &[u8], mode: Mode, verbs: &[Verb]) -> Option<(u64, Cause)> {
    match parse_with(alloc, bytes, mode, 1024, verbs) {
        Err(ParseFault::Bad { line, cause }) => Some((line, cause)),
        _ => None,
    }
}

/// A line as a word and its numbers, in the order of its fields; of a call the session, the lane or 0, 1 for `start`,
/// and the key.
fn seen(line: &Line) -> (&'static str, [u64; 4]) {
    match line {
        Line::Call {
            session,
            lane,
            start,
            call,
        } => {
            let (word, key) = match call {
                Call::Get { key } => ("get", *key),
                Call::Put { key, .. } => ("put", *key),
                Call::Delete { key } => ("del", *key),
            };
            let lane = lane.unwrap_or(0) as u64;
            (word, [*session as u64, lane, *start as u64, key])
        }
        Line::Step { lane, count } => ("step", [*lane as u64, *count as u64, 0, 0]),
        Line::Flow { lane, index } => ("flow", [*lane as u64, *index as u64, 0, 0]),
        Line::Merge { lane, count } => ("merge", [*lane as u64, *count as u64, 0, 0]),
        Line::Monitor { count } => ("monitor", [*count as u64, 0, 0, 0]),
        Line::Add => ("add", [0; 4]),
        Line::Move { start, key, lane } => ("move", [*start as u64, *key, *lane as u64, 0]),
        Line::Fence { lane } => ("fence", [*lane as u64, 0, 0, 0]),
        Line::Takeover { start, lane } => ("takeover", [*start as u64, *lane as u64, 0, 0]),
        Line::Balance => ("balance", [0; 4]),
        Line::Remove { lane } => ("remove", [*lane as u64, 0, 0, 0]),
        Line::Stop { lane } => ("stop", [*lane as u64, 0, 0, 0]),
        Line::Fuse { lane, actions } => ("fuse", [*lane as u64, *actions as u64, 0, 0]),
        Line::Fail { lane } => ("fail", [*lane as u64, 0, 0, 0]),
        Line::Trim { lane } => ("trim", [*lane as u64, 0, 0, 0]),
        Line::Tell { from, to } => ("tell", [*from as u64, *to as u64, 0, 0]),
        _ => ("other", [0; 4]),
    }
}

/// The greatest key.
const LAST: u64 = 18_446_744_073_709_551_615;

/// Each row of the table, with its least and greatest numbers.
const ROWS: [(&str, &str, [u64; 4]); 36] = [
    ("c1 get 1\n", "get", [1, 0, 0, 1]),
    (
        "c1000 get 18446744073709551615\n",
        "get",
        [1000, 0, 0, LAST],
    ),
    ("c7 put 5 =\n", "put", [7, 0, 0, 5]),
    ("c7 del 5\n", "del", [7, 0, 0, 5]),
    ("c1 @1 get 5\n", "get", [1, 1, 0, 5]),
    ("c1 @63 put 5 %00\n", "put", [1, 63, 0, 5]),
    ("c1 @2 del 5\n", "del", [1, 2, 0, 5]),
    ("c1 start get 5\n", "get", [1, 0, 1, 5]),
    ("c1 start put 5 #0*0\n", "put", [1, 0, 1, 5]),
    ("c1 start del 5\n", "del", [1, 0, 1, 5]),
    ("c1 @2 start get 5\n", "get", [1, 2, 1, 5]),
    ("c1 @2 start put 5 =\n", "put", [1, 2, 1, 5]),
    ("c1 @2 start del 5\n", "del", [1, 2, 1, 5]),
    ("step 1\n", "step", [1, 1, 0, 0]),
    ("step 63 1000000\n", "step", [63, 1_000_000, 0, 0]),
    ("flow 1 0\n", "flow", [1, 0, 0, 0]),
    ("flow 63 139\n", "flow", [63, 139, 0, 0]),
    ("merge 1\n", "merge", [1, 1, 0, 0]),
    ("merge 63 1000000\n", "merge", [63, 1_000_000, 0, 0]),
    ("monitor\n", "monitor", [1, 0, 0, 0]),
    ("monitor 1000000\n", "monitor", [1_000_000, 0, 0, 0]),
    ("add\n", "add", [0; 4]),
    ("move 1 63\n", "move", [0, 1, 63, 0]),
    (
        "start move 18446744073709551615 1\n",
        "move",
        [1, LAST, 1, 0],
    ),
    ("fence 63\n", "fence", [63, 0, 0, 0]),
    ("takeover 1\n", "takeover", [0, 1, 0, 0]),
    ("start takeover 63\n", "takeover", [1, 63, 0, 0]),
    ("balance\n", "balance", [0; 4]),
    ("remove 1\n", "remove", [1, 0, 0, 0]),
    ("stop 63\n", "stop", [63, 0, 0, 0]),
    ("fuse 1 1\n", "fuse", [1, 1, 0, 0]),
    ("fuse 63 1000000\n", "fuse", [63, 1_000_000, 0, 0]),
    ("fail 1\n", "fail", [1, 0, 0, 0]),
    ("trim 63\n", "trim", [63, 0, 0, 0]),
    ("tell 1 1000\n", "tell", [1, 1000, 0, 0]),
    ("tell 1000 1\n", "tell", [1000, 1, 0, 0]),
];

#[test]
fn each_row(rt: HostRuntime) -> Result<(), Fail> {
    for (text, word, numbers) in ROWS {
        let Ok(script) = parse_with(rt.alloc(), text.as_bytes(), Mode::Play, 1024, &ALL) else {
            return Err(Fail::new(text));
        };
        let [line] = script.lines.as_slice() else {
            return Err(Fail::new(text));
        };
        assert!(rt; seen(line) == (word, numbers), "{text}");
    }
    Ok(())
}

/// Bad lines: the text, its mode, the line, and its first cause.
const CAUSES: [(&str, Mode, u64, Cause); 83] = [
    (";", Mode::Play, 1, Cause::Cut),
    ("\n\t", Mode::Play, 2, Cause::Cut),
    ("fly", Mode::Play, 1, Cause::Cut),
    ("step 0", Mode::Storm, 1, Cause::Cut),
    ("add\npool 0", Mode::Play, 2, Cause::Cut),
    ("c1 get", Mode::Play, 1, Cause::Cut),
    ("c0 @0 put 0 a", Mode::Play, 1, Cause::Cut),
    ("pool 0", Mode::Play, 1, Cause::Cut),
    ("nodes 0", Mode::Play, 1, Cause::Cut),
    (";\u{7f}\n", Mode::Play, 1, Cause::Byte),
    ("c1\tget 5\n", Mode::Play, 1, Cause::Byte),
    ("step 0\t\n", Mode::Storm, 1, Cause::Byte),
    ("add\npool 0\t\n", Mode::Play, 2, Cause::Byte),
    ("c1 put 5 5\t\n", Mode::Play, 1, Cause::Byte),
    ("c1 @0 get 0\t\n", Mode::Play, 1, Cause::Byte),
    ("c0 get 5\t\n", Mode::Play, 1, Cause::Byte),
    ("nodes 0\t\n", Mode::Play, 1, Cause::Byte),
    ("fly 1\n", Mode::Play, 1, Cause::Verb),
    ("get 5\n", Mode::Play, 1, Cause::Verb),
    ("c get 5\n", Mode::Play, 1, Cause::Verb),
    ("c1  get 5\n", Mode::Play, 1, Cause::Verb),
    ("c0 fly\n", Mode::Play, 1, Cause::Verb),
    ("c1 @0 fly\n", Mode::Play, 1, Cause::Verb),
    ("c1 @1 @2 get 5\n", Mode::Play, 1, Cause::Verb),
    ("c1 start fly 0\n", Mode::Storm, 1, Cause::Verb),
    ("start stop 0\n", Mode::Storm, 1, Cause::Verb),
    ("add\nmix 0 0\n", Mode::Play, 2, Cause::Verb),
    ("c1 start get 5\n", Mode::Storm, 1, Cause::Mode),
    ("c1 start\n", Mode::Storm, 1, Cause::Mode),
    ("start\n", Mode::Storm, 1, Cause::Mode),
    ("c0 @0 start put 0 a\n", Mode::Storm, 1, Cause::Mode),
    ("step 0\n", Mode::Storm, 1, Cause::Mode),
    ("start move 0 0\n", Mode::Storm, 1, Cause::Mode),
    ("flow 1 140\n", Mode::Storm, 1, Cause::Mode),
    ("tell 0 0\n", Mode::Storm, 1, Cause::Mode),
    ("c1 get 5\nnodes 2\n", Mode::Play, 2, Cause::Header),
    (
        "pool 5\n\n;\nnodes 1\npool 0\n",
        Mode::Storm,
        5,
        Cause::Header,
    ),
    ("nodes 1\nnodes 1\n", Mode::Play, 2, Cause::Header),
    ("cache 0\npool 5\ncache\n", Mode::Play, 3, Cause::Header),
    ("add\npool 0\n", Mode::Play, 2, Cause::Header),
    ("add\ncache 1000001\n", Mode::Play, 2, Cause::Header),
    ("c1\n", Mode::Play, 1, Cause::Count),
    ("c0 @0\n", Mode::Storm, 1, Cause::Count),
    ("c1 @0 start\n", Mode::Play, 1, Cause::Count),
    ("start\n", Mode::Play, 1, Cause::Count),
    ("start move\n", Mode::Play, 1, Cause::Count),
    ("c1 get\n", Mode::Play, 1, Cause::Count),
    ("c1 get 5 \n", Mode::Play, 1, Cause::Count),
    ("c1 put 0 a 6\n", Mode::Play, 1, Cause::Count),
    ("pool 0 0\n", Mode::Play, 1, Cause::Count),
    ("nodes\n", Mode::Play, 1, Cause::Count),
    ("monitor 0 0\n", Mode::Play, 1, Cause::Count),
    ("add 1\n", Mode::Play, 1, Cause::Count),
    ("c0 get 5\n", Mode::Play, 1, Cause::Session),
    ("c1001 get 5\n", Mode::Play, 1, Cause::Session),
    ("c01 @0 put 0 a\n", Mode::Play, 1, Cause::Session),
    ("tell 1 0\n", Mode::Play, 1, Cause::Session),
    ("tell 1001 0\n", Mode::Play, 1, Cause::Session),
    ("c1 @ get 5\n", Mode::Play, 1, Cause::Lane),
    ("c1 @64 put 0 a\n", Mode::Play, 1, Cause::Lane),
    ("step 64\n", Mode::Play, 1, Cause::Lane),
    ("step 0 0\n", Mode::Play, 1, Cause::Lane),
    ("fuse 64 0\n", Mode::Play, 1, Cause::Lane),
    ("move 5 64\n", Mode::Play, 1, Cause::Lane),
    ("move 0 64\n", Mode::Play, 1, Cause::Key),
    ("c1 get 05\n", Mode::Play, 1, Cause::Key),
    ("c1 get 18446744073709551616\n", Mode::Play, 1, Cause::Key),
    ("c1 put 0 a\n", Mode::Play, 1, Cause::Key),
    ("c1 put 5 a\n", Mode::Play, 1, Cause::Value),
    ("c1 put 5 \n", Mode::Play, 1, Cause::Value),
    ("c1 put 5 %0\n", Mode::Play, 1, Cause::Value),
    ("c1 put 5 %0A\n", Mode::Play, 1, Cause::Value),
    ("c1 put 5 #256*1\n", Mode::Play, 1, Cause::Value),
    ("c1 put 5 #65*1025\n", Mode::Play, 1, Cause::Value),
    ("c1 put 5 #1*1*1\n", Mode::Play, 1, Cause::Value),
    ("pool 1025\n", Mode::Play, 1, Cause::Pool),
    ("pool 0\n", Mode::Storm, 1, Cause::Pool),
    ("pool a\n", Mode::Play, 1, Cause::Pool),
    ("step 1 0\n", Mode::Play, 1, Cause::Number),
    ("step 1 1000001\n", Mode::Play, 1, Cause::Number),
    ("flow 1 140\n", Mode::Play, 1, Cause::Number),
    ("nodes 64\n", Mode::Play, 1, Cause::Number),
    ("cache 1000001\n", Mode::Play, 1, Cause::Number),
];

#[test]
fn each_cause(rt: HostRuntime) -> Result<(), Fail> {
    for (text, mode, line, cause) in CAUSES {
        let found = bad(rt.alloc(), text.as_bytes(), mode, &ALL);
        assert!(rt; found == Some((line, cause)), "{text}");
    }
    Ok(())
}

#[test]
fn what_is_played(rt: HostRuntime) -> Result<(), Fail> {
    for (text, found) in [
        (
            "pool 5\nnodes 2\nc1 put 5 %6162\n;\n\nc1000 @2 start del 5\n",
            None,
        ),
        (
            "step 1 2\nflow 1 0\nmerge 2\nadd\ntell 1 2\ntrim 63\n",
            None,
        ),
        ("move 5 1\nstart move 5 2\nmonitor\nmonitor 3\n", None),
        ("cache 5\n", Some((1, Cause::Verb))),
        ("balance\n", Some((1, Cause::Verb))),
        ("start takeover 1\n", Some((1, Cause::Verb))),
        ("mix 1 2\n", Some((1, Cause::Verb))),
        ("c1001 get 5\n", Some((1, Cause::Session))),
    ] {
        let text = text.as_bytes();
        assert_eq!(rt; bad(rt.alloc(), text, Mode::Play, &PLAYED), found);
    }
    Ok(())
}

/// The bytes in front, so many of this byte, and those behind.
fn filled(alloc: Global, front: &str, byte: u8, count: usize, end: &str) -> Result<Vec<u8>, Fail> {
    let mut bytes = Vec::from_slice(alloc, front.as_bytes())?;
    for _ in 0..count {
        bytes.push(byte)?;
    }
    bytes.extend_from_slice(end.as_bytes())?;
    Ok(bytes)
}

#[test]
fn long_lines(rt: HostRuntime) -> Result<(), Fail> {
    let alloc = rt.alloc();
    for (front, byte, count, end, cause) in [
        ("c1 put 5 =", b'~', 1024, "\n", None),
        ("c1 put 5 =", b'~', 1025, "\n", Some(Cause::Value)),
        ("c1 put 5 %", b'0', 2048, "\n", None),
        ("c1 put 5 %", b'0', 2050, "\n", Some(Cause::Value)),
        (";", b'a', 4095, "\n", None),
        (";", b'a', 4096, "\n", Some(Cause::Long)),
        ("c0 put 0 =", b'\t', 4096, "\n", Some(Cause::Long)),
        ("fly ", b'a', 4096, "\n", Some(Cause::Long)),
        ("c1 put 5 =", b'a', 4096, "", Some(Cause::Cut)),
    ] {
        let bytes = filled(alloc, front, byte, count, end)?;
        let found = bad(alloc, bytes.as_slice(), Mode::Play, &ALL);
        assert_eq!(rt; found, cause.map(|cause| (1, cause)), "{front} {count}");
    }
    for (end, fault) in [
        ("", None),
        ("\n", Some(ParseFault::Lines)),
        ("a", Some(ParseFault::Lines)),
    ] {
        let bytes = filled(alloc, "", b'\n', 1_000_000, end)?;
        let found = parse(alloc, bytes.as_slice(), Mode::Play, 1024).err();
        assert_eq!(rt; found, fault, "{end}");
    }
    Ok(())
}

#[test]
fn values_and_headers(rt: HostRuntime) -> Result<(), Fail> {
    let text = b"pool 16\n;\nnodes 63\ncache 0\nc1 put 5 =ab\nc1 put 5 %00ff61\nc1 put 5 #255*3\n";
    let Ok(script) = parse_with(rt.alloc(), text, Mode::Storm, 16, &ALL) else {
        return Err(Fail::new("no script"));
    };
    assert_eq!(rt; (script.segments, script.nodes, script.units), (16, 63, 0));
    let wanted = [
        b"ab".as_slice(),
        b"\x00\xffa".as_slice(),
        b"\xff\xff\xff".as_slice(),
    ];
    for (line, bytes) in script.lines.as_slice().iter().zip(wanted) {
        let Line::Call {
            call: Call::Put { value, .. },
            ..
        } = line
        else {
            return Err(Fail::new("no put"));
        };
        assert_eq!(rt; value.as_bytes(), bytes);
    }
    let Ok(script) = parse(rt.alloc(), b"c1 get 5\n", Mode::Play, 16) else {
        return Err(Fail::new("no script"));
    };
    assert_eq!(rt;
        (script.segments, script.nodes, script.units),
        (16, 1, 4096)
    );
    assert_eq!(rt; Cause::Header.name(), "header");
    Ok(())
}

/// Scripts, and whether they are serial.
const SERIAL: [(&str, bool); 16] = [
    ("", true),
    ("pool 5\nnodes 2\n;\n\n", true),
    ("c1 put 5 =a\nadd\nmove 5 2\nbalance\nc2 @1 get 5\n", true),
    ("trim 1\nmerge 1 9\ntell 1 2\nc1 del 5\n", true),
    ("c1 start get 5\n", false),
    ("c1 get 5\nc1 @1 start get 5\n", false),
    ("start move 5 1\n", false),
    ("start takeover 1\n", false),
    ("takeover 1\n", false),
    ("fence 1\n", false),
    ("step 1\n", false),
    ("flow 1 0\n", false),
    ("monitor\n", false),
    ("remove 1\n", false),
    ("stop 1\n", false),
    ("fuse 1 1\nc1 get 5\n", false),
];

#[test]
fn serial_scripts(rt: HostRuntime) -> Result<(), Fail> {
    for (text, serial) in SERIAL {
        let Ok(script) = parse_with(rt.alloc(), text.as_bytes(), Mode::Play, 1024, &ALL) else {
            return Err(Fail::new(text));
        };
        assert!(rt; script.is_serial() == serial, "{text}");
    }
    Ok(())
}

#[test]
fn calls_of_a_run(rt: HostRuntime) -> Result<(), Fail> {
    let text =
        b"c1 put 7 =a\nadd\nc2 get 8\nc1 get 9\nc1 start del 6\ntell 1 2\nc2 get 5\nc1 get 4\n";
    let Ok(script) = parse_with(rt.alloc(), text, Mode::Play, 1024, &ALL) else {
        return Err(Fail::new("no script"));
    };
    let taken = [true, true, true, false, true, false, true, true];
    let lines = script.lines.as_slice();
    if lines.len() != taken.len() {
        return Err(Fail::new("eight lines"));
    }
    let asked = asked_by(rt.alloc(), lines, &taken)?;
    let wanted = [(1, 1, 7), (2, 1, 8), (1, 2, 6), (2, 2, 5), (1, 3, 4)];
    assert_eq!(rt; asked.len(), wanted.len());
    for (one, (session, number, key)) in asked.iter().zip(wanted) {
        let (Call::Get { key: found }
        | Call::Put { key: found, .. }
        | Call::Delete { key: found }) = one.call;
        assert_eq!(rt; (one.session, one.number, found), (session, number, key));
    }
    Ok(())
}
