ghost use Rattle.std.specs.Prelude.{◌<◌, ◌≤◌};

use crate::command::run;
use dn_act::{Memory, Plain, Sound};
use dn_hist::PlainMap;
use dn_io::{BytesIn, BytesOut, Status};
use dn_model::pool_map;
use std::alloc::{AllocError, Global};
use std::test::Fail;

const EMPTY: &str = "history 0
lane 1 live stamp 0 len 0 mark 0
calls 0 made 0 refused 0 unanswered 0 given 0
ways value 0 shortcut 0 pending 0 index 0 cell 0
map 0
";

const FIRST: &str = "c1 put 5 =a
c1 get 5
c1 get 6
";

const FIRST_OUTPUT: &str = "c1 1 stored 1.0.1
c1 2 =a 1.1.1
c1 3 absent 1.2.1
history 3
1.0.1 1 put 5 =a stored
1.1.1 2 get 5 =a
1.2.1 3 get 6 absent
lane 1 live stamp 1 len 3 mark 3
calls 3 made 3 refused 0 unanswered 0 given 0
ways value 0 shortcut 0 pending 1 index 1 cell 0
map 1
";

/// Scripts, and how their outputs begin and end.
const ROWS: [(&str, &str, &str); 21] = [
    (
        "c1 put 5 =a\nc1 put 5 =b\nc1 put 5 =c\nmerge 1 10\nc1 get 5\n",
        "c1 1 stored 1.0.1\nc1 2 stored 2.0.1\nc1 3 stored 3.0.1\nc1 4 =c 3.1.1\nhistory 4\n",
        "lane 1 live stamp 3 len 9 mark 9\ncalls 4 made 4 refused 0 unanswered 0 given 0\nways value 0 shortcut 0 pending 1 index 0 cell 0\nmap 1\n",
    ),
    (
        "nodes 4\nc1 put 5 =a\nc1 @3 get 5\n",
        "c1 1 stored 1.0.1\nc1 2 notowner 4000008100000000 -\nc1 2 =a 1.1.1\nhistory 2\n",
        "lane 1 live stamp 0 len 0 mark 0\nlane 2 live stamp 1 len 3 mark 3\nlane 3 live stamp 0 len 0 mark 0\nlane 4 live stamp 0 len 0 mark 0\ncalls 2 made 2 refused 1 unanswered 0 given 0\nways value 0 shortcut 0 pending 1 index 0 cell 0\nmap 1\n",
    ),
    // a walk beside a merger
    (
        "c1 put 5 =a\nmerge 1 10\nc1 start get 13561\nstep 1 2\nmerge 1 2\nstep 1 5\n",
        "c1 1 stored 1.0.1\nc1 2 absent 1.1.1\nhistory 2\n",
        "ways value 0 shortcut 0 pending 0 index 1 cell 0\nmap 1\n",
    ),
    // words that flow out of order
    (
        "c1 start put 5 =a\nstep 1 8\nflow 1 3\nstep 1 3\nstep 1 1\n",
        "c1 1 stored 1.0.1\nhistory 1\n",
        "lane 1 live stamp 1 len 3 mark 3\ncalls 1 made 1 refused 0 unanswered 0 given 0\nways value 0 shortcut 0 pending 0 index 0 cell 0\nmap 1\n",
    ),
    (
        "c1 start put 5 =a\nstep 1 8\nflow 1 3\nstep 1 3\n",
        "c1 1 unanswered\nhistory 0\n",
        "lane 1 live stamp 0 len 0 mark 0\ncalls 1 made 0 refused 0 unanswered 1 given 0\nways value 0 shortcut 0 pending 0 index 0 cell 0\nmap 0\n",
    ),
    // one call at a time
    (
        "c1 start get 5\nc1 get 6\n",
        "c1 busy\nc1 1 unanswered\nhistory 0\n",
        "calls 1 made 0 refused 0 unanswered 1 given 0\nways value 0 shortcut 0 pending 0 index 0 cell 0\nmap 0\n",
    ),
    // what a caller was told
    (
        "nodes 2\nc1 put 1 =a\nc1 put 1 =b\ntell 1 2\nc2 get 2\n",
        "c1 1 stored 1.0.1\nc1 2 stored 2.0.1\nc2 1 absent 3.0.2\nhistory 3\n",
        "map 1\n",
    ),
    // a delete, and a key that is put again
    (
        "c1 put 5 =a\nc1 del 5\nc2 get 5\nc2 put 5 =b\n",
        "c1 1 stored 1.0.1\nc1 2 deleted 2.0.1\nc2 1 absent 2.1.2\nc2 2 stored 3.0.2\nhistory 4\n",
        "lane 1 live stamp 3 len 8 mark 8\ncalls 4 made 4 refused 0 unanswered 0 given 0\nways value 0 shortcut 0 pending 1 index 0 cell 0\nmap 1\n",
    ),
    // values in three forms
    (
        "c1 put 5 %61\nc1 get 5\nc1 put 5 #0*2\nc1 get 5\n",
        "c1 1 stored 1.0.1\nc1 2 =a 1.1.1\nc1 3 stored 2.0.1\nc1 4 %0000 2.1.1\n",
        "map 1\n",
    ),
    (
        "step 2\nadd\nmerge 2 3\nflow 3 0\n",
        "nolane 2\nlane 2\nnolane 3\nhistory 0\n",
        "lane 2 live stamp 0 len 0 mark 0\ncalls 0 made 0 refused 0 unanswered 0 given 0\nways value 0 shortcut 0 pending 0 index 0 cell 0\nmap 0\n",
    ),
    // a node forgets its merged records, or keeps them
    (
        "c1 put 5 =a\nmerge 1 12\ntrim 1\nc1 get 5\n",
        "c1 1 stored 1.0.1\nc1 2 =a 1.1.1\nhistory 2\n",
        "lane 1 live stamp 1 len 3 mark 3\ncalls 2 made 2 refused 0 unanswered 0 given 0\nways value 0 shortcut 0 pending 0 index 1 cell 0\nmap 1\n",
    ),
    (
        "c1 put 5 =a\nmerge 1 12\nc1 get 5\n",
        "c1 1 stored 1.0.1\nc1 2 =a 1.1.1\nhistory 2\n",
        "lane 1 live stamp 1 len 3 mark 3\ncalls 2 made 2 refused 0 unanswered 0 given 0\nways value 0 shortcut 0 pending 1 index 0 cell 0\nmap 1\n",
    ),
    (
        "c1 put 5 =a\nmerge 1 2\ntrim 1\ntrim 2\nc1 get 5\n",
        "c1 1 stored 1.0.1\nnolane 2\nc1 2 =a 1.1.1\nhistory 2\n",
        "lane 1 live stamp 1 len 3 mark 3\ncalls 2 made 2 refused 0 unanswered 0 given 0\nways value 0 shortcut 0 pending 1 index 0 cell 0\nmap 1\n",
    ),
    (
        "c1 put 5 =a\nmerge 1 12\ntrim 1\nc1 get 5\n",
        "c1 1 stored 1.0.1\nc1 2 =a 1.1.1\nhistory 2\n",
        "ways value 0 shortcut 0 pending 0 index 1 cell 0\nmap 1\n",
    ),
    // an old route
    (
        "add\nc2 put 5 =a\nc1 put 5 =b\nmove 5 2\nc2 get 5\n",
        "lane 2\nc2 1 stored 1.0.2\nc1 1 stored 2.0.1\nmove 5 2 granted 4000010100000002\nc2 2 notowner 4000010100000002 -\nc2 2 =b 3.0.2\nhistory 3\n1.0.2 1 put 5 =a stored\n2.0.1 1 put 5 =b stored\n3.0.2 2 get 5 =b\n",
        "lane 1 live stamp 2 len 6 mark 6\nlane 2 live stamp 3 len 0 mark 0\ncalls 3 made 3 refused 1 unanswered 0 given 0\nways value 0 shortcut 0 pending 0 index 1 cell 0\nmap 1\n",
    ),
    // an order that waits for the mark
    (
        "add\nc1 put 5 =a\nstart move 5 2\nmonitor 2\nstep 1 2\nmonitor 3\nmerge 1 12\nmonitor 2\n",
        "lane 2\nc1 1 stored 1.0.1\nmove 5 2 waiting 0 3\nmove 5 2 granted 4000010100000001\nhistory 1\n",
        "map 1\n",
    ),
    // a slot that leaves and returns
    (
        "add\nc1 put 5 =a\nmove 5 2\nc2 put 5 =b\nmove 5 1\nc1 get 5\n",
        "lane 2\nc1 1 stored 1.0.1\nmove 5 2 granted 4000010100000001\nc2 1 stored 2.0.2\nmove 5 1 granted 4000018080000002\nc1 2 =b 3.0.1\nhistory 3\n",
        "ways value 0 shortcut 0 pending 0 index 1 cell 0\nmap 1\n",
    ),
    // a slot that is the target's already
    (
        "move 5 1\n",
        "move 5 1 granted 4000008080000000\nhistory 0\n",
        "map 0\n",
    ),
    // orders at once, and a lane that wasn't made
    (
        "add\nmove 5 3\nstart move 5 2\nmove 6 2\nstart move 7 2\nmove 5 3\n",
        "lane 2\nnolane 3\nmonitor busy\nmonitor busy\nnolane 3\nhistory 0\n",
        "map 0\n",
    ),
    // calls that wait while a slot moves
    (
        "add\nc1 put 5 =a\nc1 start put 5 =b\nmove 5 2\nc2 get 5\nstep 1 20\nstep 2 20\n",
        "lane 2\nc1 1 stored 1.0.1\nmove 5 2 granted 4000010100000001\nc2 1 =a 2.0.2\nc1 2 notowner 4000010100000001 -\nc1 2 stored 3.0.1\nhistory 3\n",
        "map 1\n",
    ),
    (
        "monitor\nmonitor 3\nc1 get 5\n",
        "c1 1 absent 0.1.1\nhistory 1\n",
        "map 0\n",
    ),
];

/// What a run ends with, and what it writes.
#[derive(Drop)]
struct Ended {
    status: Status,
    sink: BytesOut,
    pool: Sound,
}

/// Runs one word over a script, with the numbers of a read and a write that fail, 0 for none.
fn run_word(
    alloc: Global,
    word: &str,
    script: &[u8],
    segments: u32,
    read: u64,
    write: u64,
) -> Result<Ended, Fail>
    requires least { 1 ≤ segments }
    requires most { segments ≤ 8192 }
{
    let words = vec![in alloc; String::from_str(alloc, word)?]?;
    let mut source = BytesIn::new(Vec::from_slice(alloc, script)?, vec![in alloc; read]?);
    let mut sink = BytesOut::new(alloc, 67_108_864, vec![in alloc; write]?)?;
    let mut pool = Sound::new(alloc, segments)?;
    let status = run(alloc, words.as_slice(), &mut source, &mut sink, &mut pool);
    Ok(Ended { status, sink, pool })
}

/// Appends the line of a put of so many bytes `A`.
fn add_put(alloc: Global, script: &mut Vec<u8>, key: u32, bytes: usize) -> Result<(), AllocError> {
    let line = format!(in alloc; "c1 put {key} =")?;
    script.extend_from_slice(line.as_bytes())?;
    for _ in 0..bytes {
        script.push(b'A')?;
    }
    script.push(b'\n')?;
    Ok(())
}

/// The script of puts of so many bytes on the keys from 1.
fn puts(alloc: Global, count: u32, bytes: usize) -> Result<Vec<u8>, AllocError> {
    let mut script = Vec::new(alloc);
    for index in 0..count {
        add_put(alloc, &mut script, index.saturating_add(1), bytes)?;
    }
    Ok(script)
}

#[test]
fn scripts_end_by_their_status(rt: HostRuntime) -> Result<(), Fail> {
    for (word, script, read, write, status, output) in [
        ("play", "", 0, 0, Status::Ok, EMPTY),
        ("play", FIRST, 0, 0, Status::Ok, FIRST_OUTPUT),
        ("play", "fly 1\n", 0, 0, Status::BadScript, "line 1: verb\n"),
        (
            "play",
            ";\n\nc1 get 05\n",
            0,
            0,
            Status::BadScript,
            "line 3: key\n",
        ),
        (
            "play",
            "c1 put 5 #65*1025\n",
            0,
            0,
            Status::BadScript,
            "line 1: value\n",
        ),
        (
            "play",
            "c1 get 0\n",
            0,
            0,
            Status::BadScript,
            "line 1: key\n",
        ),
        (
            "play",
            "c1 put 5 =a\nc1 get",
            0,
            0,
            Status::BadScript,
            "line 2: cut\n",
        ),
        (
            "play",
            "balance\n",
            0,
            0,
            Status::BadScript,
            "line 1: verb\n",
        ),
        ("play", FIRST, 2, 0, Status::ReadFault, ""),
        ("play", FIRST, 0, 1, Status::WriteFault, ""),
        ("fly", FIRST, 0, 0, Status::BadWords, "bad words\n"),
    ] {
        let ended = run_word(rt.alloc(), word, script.as_bytes(), 1024, read, write)?;
        assert_eq!(rt; ended.status, status, "{word} {script}");
        assert_eq!(rt; ended.sink.bytes(), output.as_bytes(), "{word} {script}");
    }
    Ok(())
}

#[test]
fn outputs_begin_and_end(rt: HostRuntime) -> Result<(), Fail> {
    for (script, begin, end) in ROWS {
        let ended = run_word(rt.alloc(), "play", script.as_bytes(), 1024, 0, 0)?;
        assert_eq!(rt; ended.status, Status::Ok, "{script}");
        assert!(rt;
            ended.sink.bytes().starts_with(begin.as_bytes()),
            "{script}"
        );
        assert!(rt; ended.sink.bytes().ends_with(end.as_bytes()), "{script}");
    }
    Ok(())
}

#[test]
fn a_slot_moves_while_its_lane_makes_a_put(rt: HostRuntime) -> Result<(), Fail> {
    let begin =
        "lane 2\nc1 1 stored 1.0.1\nc1 2 stored 2.0.1\nmove 5 2 granted 4000010100000002\nc2 1 =b 3.0.2\nhistory 3\n";
    for steps in 1..16u32 {
        let script = format!(in rt.alloc();
            "add\nc1 put 5 =a\nc1 start put 5 =b\nstep 1 {steps}\nmove 5 2\nc2 get 5\n"
        )?;
        let ended = run_word(rt.alloc(), "play", script.as_bytes(), 1024, 0, 0)?;
        assert_eq!(rt; ended.status, Status::Ok, "{steps}");
        assert!(rt; ended.sink.bytes().starts_with(begin.as_bytes()), "{steps}");
    }
    Ok(())
}

#[test]
fn an_opened_pool_has_its_format_and_its_deeds(rt: HostRuntime) -> Result<(), Fail> {
    let ended = run_word(rt.alloc(), "play", b"", 1024, 0, 0)?;
    for at in 0..ended.pool.size() {
        let word = match at {
            0 => 0x0000_0400_0000_0001u64,
            192..256 => 0x4000_0080_8000_0000,
            _ => 0,
        };
        assert!(rt; has_word(&ended.pool, at, word), "at {at}");
    }
    Ok(())
}

#[test]
fn a_value_has_at_most_1024_bytes(rt: HostRuntime) -> Result<(), Fail> {
    let most = puts(rt.alloc(), 1, 1024)?;
    let ended = run_word(rt.alloc(), "play", most.as_slice(), 1024, 0, 0)?;
    assert_eq!(rt; ended.status, Status::Ok);
    assert!(rt;
        ended
            .sink
            .bytes()
            .starts_with(b"c1 1 stored 1.0.1\nhistory 1\n")
    );
    let more = puts(rt.alloc(), 1, 1025)?;
    let ended = run_word(rt.alloc(), "play", more.as_slice(), 1024, 0, 0)?;
    assert_eq!(rt; ended.status, Status::BadScript);
    assert_eq!(rt; ended.sink.bytes(), b"line 1: value\n".as_slice());
    assert!(rt; has_word(&ended.pool, 0, 0));
    Ok(())
}

#[test]
fn the_end_of_a_segment_is_padded(rt: HostRuntime) -> Result<(), Fail> {
    let script = puts(rt.alloc(), 8, 1024)?;
    let ended = run_word(rt.alloc(), "play", script.as_slice(), 1024, 0, 0)?;
    assert_eq!(rt; ended.status, Status::Ok);
    for (at, word) in [
        (1, 2),
        (65, 0x0000_0008_0000_0482u64),
        (129, 0x482),
        (1280, 1),
        (1281, 2),
        (98304, 0x0104_0000_0000_8200),
        (99214, 0x0700_0000_0000_7200),
        (99328, 0x0104_0000_0000_8200),
    ] {
        assert!(rt; has_word(&ended.pool, at, word), "at {at}");
    }
    Ok(())
}

#[test]
fn a_lane_has_at_most_256_segments(rt: HostRuntime) -> Result<(), Fail> {
    let script = puts(rt.alloc(), 1793, 1024)?;
    let ended = run_word(rt.alloc(), "play", script.as_slice(), 1024, 0, 0)?;
    assert_eq!(rt; ended.status, Status::Ok);
    assert!(rt;
        ended.sink.bytes().ends_with(
            b"lane 1 live stamp 1792 len 262030 mark 262030
calls 1793 made 1792 refused 1 unanswered 0 given 1
ways value 0 shortcut 0 pending 0 index 0 cell 0
map 1792
"
        )
    );
    let text = b"c1 1793 full 0 256\nc1 1793 given\nhistory 1792\n";
    assert!(rt;
        ended
            .sink
            .bytes()
            .windows(text.len())
            .any(|part| part == text.as_slice())
    );
    Ok(())
}

#[test]
fn gets_give_back_what_was_put(rt: HostRuntime) -> Result<(), Fail> {
    let mut script = puts(rt.alloc(), 8, 1024)?;
    script.extend_from_slice(b"c1 get 1\nc1 get 8\nc1 put 5 =a\nc1 put 5 =bc\nc1 get 5\n")?;
    let ended = run_word(rt.alloc(), "play", script.as_slice(), 1024, 0, 0)?;
    assert_eq!(rt; ended.status, Status::Ok);
    let long = vec![in rt.alloc(); b'A'; 1024]?;
    let mut text = Vec::from_slice(rt.alloc(), b"c1 9 =")?;
    text.extend_from_slice(long.as_slice())?;
    text.extend_from_slice(b" 8.1.1\nc1 10 =")?;
    text.extend_from_slice(long.as_slice())?;
    text.extend_from_slice(
        b" 8.2.1\nc1 11 stored 9.0.1\nc1 12 stored 10.0.1\nc1 13 =bc 10.1.1\nhistory 13\n",
    )?;
    assert!(rt;
        ended
            .sink
            .bytes()
            .windows(text.len())
            .any(|part| part == text.as_slice())
    );
    let map = map_of(rt.alloc(), &ended.pool)?;
    assert_eq!(rt;
        map.get(8).map(|value| value.as_bytes()),
        Some(long.as_slice())
    );
    assert_eq!(rt;
        map.get(5).map(|value| value.as_bytes()),
        Some(b"bc".as_slice())
    );
    Ok(())
}

/// The map that a pool holds.
fn map_of(alloc: Global, pool: &Sound) -> Result<PlainMap, Fail> {
    let mut words = Vec::new(alloc);
    for at in 0..pool.size() {
        words.push(pool.word(at))?;
    }
    Ok(pool_map(alloc, words.as_slice())?)
}

/// Whether a pool has this word there.
fn has_word(pool: &Sound, at: u32, word: u64) -> bool {
    at < pool.size() && pool.word(at) == word
}

#[test]
fn the_words_hold_what_was_put(rt: HostRuntime) -> Result<(), Fail> {
    let script = b"c1 put 5 =a\nc1 put 6 =b\nc1 put 5 =cc\nc1 get 7\n";
    let ended = run_word(rt.alloc(), "play", script, 1, 0, 0)?;
    assert!(rt; ended.sink.bytes().ends_with(b"map 2\n"));
    let map = map_of(rt.alloc(), &ended.pool)?;
    assert_eq!(rt; map.len(), 2);
    for (key, value) in [(5, "cc"), (6, "b")] {
        let found = map.get(key).ok_or("no value")?;
        assert_eq!(rt; found.as_bytes(), value.as_bytes(), "at {key}");
    }
    assert!(rt; map.get(7).is_none());
    Ok(())
}

#[test]
fn a_full_pool_gives_calls_up(rt: HostRuntime) -> Result<(), Fail> {
    let script = puts(rt.alloc(), 8, 1024)?;
    let ended = run_word(rt.alloc(), "play", script.as_slice(), 1, 0, 0)?;
    assert_eq!(rt; ended.status, Status::Ok);
    assert!(rt;
        ended.sink.bytes().ends_with(
            b"lane 1 live stamp 7 len 910 mark 910
calls 8 made 7 refused 1 unanswered 0 given 1
ways value 0 shortcut 0 pending 0 index 0 cell 0
map 7
"
        )
    );
    let text = b"c1 7 stored 7.0.1\nc1 8 full 1 1\nc1 8 given\nhistory 7\n";
    assert!(rt;
        ended
            .sink
            .bytes()
            .windows(text.len())
            .any(|part| part == text.as_slice())
    );
    Ok(())
}

/// Whether the play of a put ends with a pool fault and writes nothing where this call of the pool fails.
fn faults_at(alloc: Global, call: u64) -> Result<bool, Fail>
    requires { 0 < call }
{
    let words = vec![in alloc; String::from_str(alloc, "play")?]?;
    let mut source = BytesIn::new(Vec::from_slice(alloc, b"c1 put 5 =a\n")?, Vec::new(alloc));
    let mut sink = BytesOut::new(alloc, 65536, Vec::new(alloc))?;
    let mut pool = Plain::new(alloc, 1024, vec![in alloc; (call, true)]?)?;
    let status = run(alloc, words.as_slice(), &mut source, &mut sink, &mut pool);
    Ok(status == Status::PoolFault && sink.bytes().is_empty())
}

#[test]
fn a_failed_access_of_the_pool_ends_the_play(rt: HostRuntime) -> Result<(), Fail> {
    assert!(rt; faults_at(rt.alloc(), 1)?, "the format word");
    assert!(rt; faults_at(rt.alloc(), 129)?, "the last grant");
    assert!(rt; faults_at(rt.alloc(), 130)?, "the session's load");
    assert!(rt; faults_at(rt.alloc(), 143)?, "the exchange of the put");
    assert!(rt; faults_at(rt.alloc(), 144)?, "the first load of the drain");
    Ok(())
}

#[test]
fn more_than_1000000_lines_are_too_long(rt: HostRuntime) -> Result<(), Fail> {
    let script = vec![in rt.alloc(); b'\n'; 1_000_001]?;
    let ended = run_word(rt.alloc(), "play", script.as_slice(), 1, 0, 0)?;
    assert_eq!(rt; ended.status, Status::TooLong);
    assert_eq!(rt; ended.sink.bytes(), b"".as_slice());
    assert!(rt; has_word(&ended.pool, 0, 0));
    Ok(())
}

#[test]
fn more_than_67108864_bytes_are_too_long(rt: HostRuntime) -> Result<(), Fail> {
    let script = vec![in rt.alloc(); b'\n'; 67_108_865]?;
    let ended = run_word(rt.alloc(), "play", script.as_slice(), 1, 0, 0)?;
    assert_eq!(rt; ended.status, Status::TooLong);
    assert_eq!(rt; ended.sink.bytes(), b"".as_slice());
    assert!(rt; has_word(&ended.pool, 0, 0));
    Ok(())
}

/// The buckets of one home: keys 5, 13561, 14939, 17520 and 18337 all have it.
#[test]
fn a_bucket_flows_over_and_a_freed_place_is_taken(rt: HostRuntime) -> Result<(), Fail> {
    let script =
        b"c1 put 5 =a\nc1 put 13561 =a\nc1 put 14939 =a\nc1 put 17520 =a\nc1 del 13561\nc1 put 18337 =a\n";
    for (lines, words) in [
        (
            60,
            [
                (3, 1),
                (65, 0x0000_0004_0000_000cu64),
                (34546, 13561),
                (34551, 4096),
                (65537, 17520),
                (65540, 0x0100_0009),
            ],
        ),
        (
            89,
            [
                (3, 1),
                (65, 0x0000_0006_0000_0011),
                (34546, 18337),
                (34549, 0x0100_000e),
                (65537, 17520),
                (65540, 0x0100_0009),
            ],
        ),
    ] {
        let script = &script[..script.len().min(lines)];
        let ended = run_word(rt.alloc(), "play", script, 1024, 0, 0)?;
        assert_eq!(rt; ended.status, Status::Ok);
        for (at, word) in words {
            assert!(rt; has_word(&ended.pool, at, word), "at {at}");
        }
    }
    Ok(())
}

/// How many lines there are.
fn lines_in(bytes: &[u8]) -> usize {
    bytes.iter().filter(|byte| **byte == b'\n').count()
}

#[test]
fn an_index_is_full_at_the_end(rt: HostRuntime) -> Result<(), Fail> {
    for (count, status, lines) in [
        (20_482, Status::Ok, 40_969),
        (20_483, Status::IndexFull, 20_483),
    ] {
        let script = puts(rt.alloc(), count, 1)?;
        let ended = run_word(rt.alloc(), "play", script.as_slice(), 1024, 0, 0)?;
        assert_eq!(rt; ended.status, status, "{count}");
        assert_eq!(rt; lines_in(ended.sink.bytes()), lines, "{count}");
    }
    Ok(())
}

#[test]
fn more_than_4194304_events_are_too_long(rt: HostRuntime) -> Result<(), Fail> {
    let mut script = Vec::new(rt.alloc());
    for _ in 0..599_167 {
        script.extend_from_slice(b"c1 get 5\n")?;
    }
    let ended = run_word(rt.alloc(), "play", script.as_slice(), 1, 0, 0)?;
    assert_eq!(rt; ended.status, Status::Ok);
    script.extend_from_slice(b"c1 get 5\n")?;
    let ended = run_word(rt.alloc(), "play", script.as_slice(), 1, 0, 0)?;
    assert_eq!(rt; ended.status, Status::TooLong);
    assert_eq!(rt; lines_in(ended.sink.bytes()), 599_167);
    Ok(())
}

#[test]
fn there_are_at_most_63_lanes(rt: HostRuntime) -> Result<(), Fail> {
    let mut script = Vec::new(rt.alloc());
    for _ in 0..63 {
        script.extend_from_slice(b"add\n")?;
    }
    let ended = run_word(rt.alloc(), "play", script.as_slice(), 1024, 0, 0)?;
    assert_eq!(rt; ended.status, Status::Ok);
    let text = b"lane 62\nlane 63\nlanes full\nhistory 0\n";
    assert!(rt;
        ended
            .sink
            .bytes()
            .windows(text.len())
            .any(|part| part == text.as_slice())
    );
    Ok(())
}

#[test]
fn a_script_plays_in_the_segments_that_it_names(rt: HostRuntime) -> Result<(), Fail> {
    let ended = run_word(rt.alloc(), "play", b"pool 2\nc1 put 5 =a\n", 8192, 0, 0)?;
    assert_eq!(rt; ended.status, Status::Ok);
    assert!(rt; has_word(&ended.pool, 0, 0x0000_0002_0000_0001));
    assert!(rt; ended.sink.bytes().ends_with(b"map 1\n"));
    Ok(())
}
