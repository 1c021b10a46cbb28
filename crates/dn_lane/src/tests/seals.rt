use super::{DELETE, LONG, Node, Outcome, SHORT, key_in, made, told};
use crate::lanes::Lane;
use dn_act::{Memory, Sound, exec};
use dn_plan::Way;
use dn_tend::Task;
use dn_word::{Position, Ref, Value};
use std::process::Abort;
use std::test::Fail;

/// A value of 1,024 bytes: eight bytes 0, eight bytes 1, and so on to eight bytes 127.
fn long_bytes() -> [u8; 1024] {
    let mut bytes = [0u8; 1024];
    for (index, byte) in bytes.iter_mut().enumerate() {
        *byte = (index / 8) as u8;
    }
    bytes
}

/// A staged word flows out of turn.
fn flow(rt: &impl Abort, node: &mut Node, index: u32) {
    let Some(store) = node.lane.flow(index) else {
        panic!(rt; "the word waits");
    };
    assert!(rt; store.at() < node.pool.size());
    assert!(rt; exec(&mut node.pool, &store).is_ok());
    node.lane.flowed(index);
}

/// All but one of the 131 words that wait flow out of turn: from the front, the middle and the end of those that are left.
fn flow_shuffled(rt: &impl Abort, node: &mut Node) {
    for left in 0..130u32 {
        let waiting = 131 - left;
        assert_eq!(rt; node.lane.staged(), waiting);
        assert_eq!(rt; node.lane.flow(waiting), None);
        flow(rt, node, 37 * left % waiting);
    }
}

#[test]
fn words_flow_in_any_order(rt: HostRuntime) -> Result<(), Fail> {
    let pool = Sound::new(rt.alloc(), 1)?;
    let mut node = Node::new(&rt, pool, Lane::new(rt.alloc(), 1, 1)?);
    node.put(&rt, 5, Value::from_bytes(rt.alloc(), &long_bytes())?);
    node.loads(&rt, &[195, 34545, 34546, 34547, 34551, 65]);
    node.claims(&rt, 1);
    flow_shuffled(&rt, &mut node);
    node.act(&rt);
    node.exchanges(&rt, 65, 0, 0x0000000100000082);
    node.ends(&rt, made(5, (1, 0), Some(0), Way::Index), b"(stored)");
    for (at, word) in [(1280, 1), (98304, LONG), (98305, 5)] {
        assert_eq!(rt; node.word(&rt, at), word);
    }
    for number in 0..128u32 {
        let word = u64::from(number) * 0x0101010101010101;
        assert_eq!(rt; node.word(&rt, 98306 + number), word);
    }
    node.get(&rt, 5, 0);
    node.finish(&rt);
    node.ends(&rt, made(5, (1, 1), None, Way::Pending), &long_bytes());
    Ok(())
}

/// Seven records of 130 words leave 114 of a segment, which a pad fills.
#[test]
fn a_record_that_the_segment_has_no_room_for(rt: HostRuntime) -> Result<(), Fail> {
    let pool = Sound::new(rt.alloc(), 2)?;
    let mut node = Node::new(&rt, pool, Lane::new(rt.alloc(), 1, 2)?);
    for _ in 0..7 {
        node.put(&rt, 5, Value::from_bytes(rt.alloc(), &[65u8; 1024])?);
        node.finish(&rt);
    }
    node.put(&rt, 5, Value::from_bytes(rt.alloc(), &[65u8; 1024])?);
    node.loads(&rt, &[195, 1280, 99084, 65]);
    node.claims(&rt, 1);
    node.stores(
        &rt,
        &[
            (1281, 2),
            (99214, 0x0700000000007200),
            (99328, LONG),
            (99329, 5),
        ],
    );
    node.finish(&rt);
    node.ends(&rt, made(5, (8, 0), Some(1024), Way::Pending), b"(stored)");
    assert_eq!(rt; node.word(&rt, 65), 0x0000000800000482);
    Ok(())
}

/// The plan ends without a receipt, and nothing waits any more.
fn halts(rt: &impl Abort, node: &mut Node) {
    assert!(rt; node.lane.working());
    assert!(rt; node.lane.halt().is_none());
    assert_eq!(rt; (node.lane.working(), node.lane.staged()), (false, 0));
    assert_eq!(rt; node.lane.next(), None);
}

/// The plan ends with the receipt of a put on key 5 at stamp 1, whose record would stand at the log's begin.
fn halts_with_a_receipt(rt: &impl Abort, node: &mut Node) {
    let Some(receipt) = node.lane.halt() else {
        panic!(rt; "the exchange was next");
    };
    let to = Position {
        stamp: 1,
        rank: 0,
        session: 1,
    };
    let at = Some(Ref { lane: 1, offset: 0 });
    assert_eq!(rt; (receipt.position, receipt.number, receipt.at), (to, 4, at));
    assert_eq!(rt; key_in(&receipt.call), 5);
    assert_eq!(rt; told(&receipt.reply), b"(stored)".as_slice());
    assert_eq!(rt; (node.lane.working(), node.word(rt, 65)), (false, 0));
}

#[test]
fn halted_plans(rt: HostRuntime) -> Result<(), Fail> {
    let pool = Sound::new(rt.alloc(), 1)?;
    let mut node = Node::new(&rt, pool, Lane::new(rt.alloc(), 1, 1)?);
    node.put(&rt, 5, Value::from_bytes(rt.alloc(), b"a")?);
    node.loads(&rt, &[195, 34545, 34546, 34547, 34551, 65]);
    node.claims(&rt, 1);
    node.stores(&rt, &[(1280, 1)]);
    assert_eq!(rt; node.lane.staged(), 3);
    halts(&rt, &mut node);
    // the segment that was claimed is used
    node.put(&rt, 5, Value::from_bytes(rt.alloc(), b"a")?);
    node.loads(&rt, &[195, 34545, 34546, 34547, 34551, 65]);
    node.stores(&rt, &[(1280, 1), (98304, SHORT), (98305, 5), (98306, 0x61)]);
    halts_with_a_receipt(&rt, &mut node);
    // a get that is to raise its stamp, and a share whose record is to be sealed
    node.get(&rt, 5, 3);
    node.loads(&rt, &[195, 34545, 34546, 34547, 34551, 65]);
    halts(&rt, &mut node);
    node.task(&rt, Task::Share { key: 5 });
    node.loads(&rt, &[195, 34545, 34546, 34547, 34551, 65]);
    node.claims(&rt, 2);
    node.stores(&rt, &[(512, 5), (1280, 1), (98304, 0x0300000000000300)]);
    node.stores(&rt, &[(98305, 5), (98306, 0x0000000100000000)]);
    halts(&rt, &mut node);
    node.delete(&rt, 5);
    node.finish(&rt);
    node.ends(&rt, made(5, (1, 0), Some(0), Way::Index), b"(deleted)");
    assert_eq!(rt; node.word(&rt, 98304), DELETE);
    Ok(())
}

/// Seven records of 130 words go to a segment.
#[test]
fn a_lane_with_256_segments_is_full(rt: HostRuntime) -> Result<(), Fail> {
    let pool = Sound::new(rt.alloc(), 257)?;
    let mut node = Node::new(&rt, pool, Lane::new(rt.alloc(), 1, 257)?);
    for _ in 0..1792 {
        node.put(&rt, 5, Value::from_bytes(rt.alloc(), &[65u8; 1024])?);
        node.finish(&rt);
    }
    // the last of them begins 244 words before the log's end
    let last = Some(261900);
    node.ends(&rt, made(5, (1792, 0), last, Way::Pending), b"(stored)");
    node.put(&rt, 5, Value::from_bytes(rt.alloc(), &[65u8; 1024])?);
    node.finish(&rt);
    let full = Outcome::Full {
        counter: 0,
        segments: 256,
    };
    node.ends(&rt, full, b"");
    assert_eq!(rt; node.word(&rt, 1), 256);
    Ok(())
}
