use super::{DELETE, Node, SHORT, made};
use crate::lanes::Lane;
use dn_act::Sound;
use dn_plan::Way;
use dn_word::Value;
use std::process::Abort;
use std::test::Fail;

/// The key words of bucket 222 and its next word.
const BUCKET: [u32; 4] = [34545, 34546, 34547, 34551];

/// Nothing is known of the keys.
fn on_an_empty_index(rt: &impl Abort, node: &mut Node, a: Value, b: Value) {
    node.get(rt, 5, 0);
    node.loads(rt, &[195]);
    node.loads(rt, &BUCKET);
    node.loads(rt, &[65]);
    node.ends(rt, made(5, (0, 1), None, Way::Index), b"(absent)");
    node.put(rt, 5, a);
    node.loads(rt, &[195]);
    node.loads(rt, &BUCKET);
    node.loads(rt, &[65]);
    node.claims(rt, 1);
    node.stores(rt, &[(1280, 1), (98304, SHORT), (98305, 5), (98306, 0x61)]);
    node.exchanges(rt, 65, 0, 0x0000000100000003);
    node.ends(rt, made(5, (1, 0), Some(0), Way::Index), b"(stored)");
    node.put(rt, 13561, b);
    node.loads(rt, &[195]);
    node.loads(rt, &BUCKET);
    node.loads(rt, &[65]);
    node.stores(rt, &[(98307, SHORT), (98308, 13561), (98309, 0x62)]);
    node.exchanges(rt, 65, 0x0000000100000003, 0x0000000200000006);
    node.ends(rt, made(13561, (2, 0), Some(3), Way::Index), b"(stored)");
    node.delete(rt, 14939);
    node.loads(rt, &[195]);
    node.loads(rt, &BUCKET);
    node.loads(rt, &[65]);
    node.stores(rt, &[(98310, DELETE), (98311, 14939)]);
    node.exchanges(rt, 65, 0x0000000200000006, 0x0000000300000008);
    node.ends(rt, made(14939, (3, 0), Some(6), Way::Index), b"(deleted)");
}

/// The key's last record is pending.
fn over_a_pending_record(rt: &impl Abort, node: &mut Node, c: Value) {
    node.put(rt, 14939, c);
    node.loads(rt, &[195, 1280, 98310, 65]);
    node.stores(rt, &[(98312, SHORT), (98313, 14939), (98314, 0x63)]);
    node.exchanges(rt, 65, 0x0000000300000008, 0x000000040000000b);
    node.ends(rt, made(14939, (4, 0), Some(8), Way::Pending), b"(stored)");
    node.get(rt, 14939, 4);
    node.loads(rt, &[195, 1280, 98312, 98313, 98314, 65]);
    node.ends(rt, made(14939, (4, 1), None, Way::Pending), b"c");
    node.delete(rt, 5);
    node.loads(rt, &[195, 1280, 98304, 65]);
    node.stores(rt, &[(98315, DELETE), (98316, 5)]);
    node.exchanges(rt, 65, 0x000000040000000b, 0x000000050000000d);
    node.ends(rt, made(5, (5, 0), Some(11), Way::Pending), b"(deleted)");
    // its session was elsewhere at stamp 7
    node.get(rt, 5, 7);
    node.loads(rt, &[195, 1280, 98315, 65]);
    node.exchanges(rt, 65, 0x000000050000000d, 0x000000080000000d);
    node.ends(rt, made(5, (8, 0), None, Way::Pending), b"(absent)");
}

/// All records are merged: key 5 has come to the bucket's first place and has gone, and the others stand behind it.
fn through_the_index(rt: &impl Abort, node: &mut Node, d: Value) {
    for (at, word) in [
        (34548, 0x01000000),
        (34549, 0x01000003),
        (34546, 13561),
        (34550, 0x01000008),
        (34547, 14939),
    ] {
        node.write(rt, at, word);
    }
    node.trims(rt, 13);
    node.get(rt, 5, 0);
    node.loads(rt, &[195]);
    node.loads(rt, &BUCKET);
    node.loads(rt, &[65]);
    node.ends(rt, made(5, (8, 1), None, Way::Index), b"(absent)");
    node.get(rt, 13561, 8);
    node.loads(
        rt,
        &[195, 34545, 34546, 34549, 1280, 98307, 98308, 98309, 65],
    );
    node.ends(rt, made(13561, (8, 1), None, Way::Index), b"b");
    node.put(rt, 13561, d);
    node.loads(rt, &[195, 34545, 34546, 34549, 1280, 98307, 65]);
    node.stores(rt, &[(98317, SHORT), (98318, 13561), (98319, 0x64)]);
    node.exchanges(rt, 65, 0x000000080000000d, 0x0000000900000010);
    node.ends(rt, made(13561, (9, 0), Some(13), Way::Index), b"(stored)");
}

/// Slot 3 was lane 2's in epoch 2 and is lane 1's again in epoch 3, with floor 20. Lane 2 has put `z` on key 13561, which is
/// merged. The `d` that lane 1 sealed before is pending and doesn't count.
fn after_the_slot_came_back(rt: &impl Abort, node: &mut Node) {
    for (at, word) in [
        (195, 0x4000018080000014),
        (34549, 0x02000000),
        (1536, 2),
        (99328, SHORT),
        (99329, 13561),
        (99330, 0x7a),
    ] {
        node.write(rt, at, word);
    }
    node.get(rt, 13561, 9);
    node.loads(
        rt,
        &[195, 34545, 34546, 34549, 1536, 99328, 99329, 99330, 65],
    );
    node.exchanges(rt, 65, 0x0000000900000010, 0x0000001500000010);
    node.ends(rt, made(13561, (21, 0), None, Way::Index), b"z");
    node.delete(rt, 13561);
    node.loads(rt, &[195, 34545, 34546, 34549, 1536, 99328, 65]);
    node.stores(rt, &[(98320, DELETE), (98321, 13561)]);
    node.exchanges(rt, 65, 0x0000001500000010, 0x0000001600000012);
    node.ends(rt, made(13561, (22, 0), Some(16), Way::Index), b"(deleted)");
    // what is sealed in the new epoch counts
    node.get(rt, 13561, 0);
    node.loads(rt, &[195, 1280, 98320, 65]);
    node.ends(rt, made(13561, (22, 1), None, Way::Pending), b"(absent)");
}

#[test]
fn calls_action_by_action(rt: HostRuntime) -> Result<(), Fail> {
    let pool = Sound::new(rt.alloc(), 2)?;
    let mut node = Node::new(&rt, pool, Lane::new(rt.alloc(), 1, 2)?);
    let a = Value::from_bytes(rt.alloc(), b"a")?;
    let b = Value::from_bytes(rt.alloc(), b"b")?;
    on_an_empty_index(&rt, &mut node, a, b);
    let c = Value::from_bytes(rt.alloc(), b"c")?;
    over_a_pending_record(&rt, &mut node, c);
    let d = Value::from_bytes(rt.alloc(), b"d")?;
    through_the_index(&rt, &mut node, d);
    after_the_slot_came_back(&rt, &mut node);
    assert_eq!(rt; node.lane.number(), 1);
    Ok(())
}
