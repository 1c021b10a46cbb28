use super::{Node, OWNED, SHORT, made};
use crate::lanes::Lane;
use dn_act::Sound;
use dn_plan::Way;
use dn_tend::{Task, TaskAnswer};
use dn_word::Value;
use std::process::Abort;
use std::test::Fail;

/// The header of a Share by cell 0; by cell 1, 2^24 more.
const SHARE: u64 = 0x0300000000000300;

/// The header of an Unshare.
const UNSHARE: u64 = 0x0400000000000300;

/// Key 5 has no value and is shared by cell 0; then its sharing ends.
fn of_an_absent_key(rt: &impl Abort, node: &mut Node) {
    node.task(rt, Task::Share { key: 5 });
    node.loads(rt, &[195, 34545, 34546, 34547, 34551, 65]);
    node.claims(rt, 1);
    node.claims(rt, 2);
    let opening = 0x0000000100000000;
    node.stores(
        rt,
        &[
            (512, 5),
            (1280, 1),
            (98304, SHARE),
            (98305, 5),
            (98306, opening),
        ],
    );
    node.exchanges(rt, 65, 0, 0x0000000100000003);
    node.exchanges(rt, 256, 0, opening);
    node.tended(rt, TaskAnswer::Shared { cell: 0 });
    node.task(rt, Task::Unshare { key: 5 });
    node.loads(rt, &[195, 1280, 98304, 98305, 98306, 65, 256]);
    node.exchanges(rt, 256, opening, 0x8000000100000000);
    node.stores(rt, &[(98307, UNSHARE), (98308, 5), (98309, 0)]);
    node.exchanges(rt, 65, 0x0000000100000003, 0x0000000200000006);
    node.tended(rt, TaskAnswer::Unshared);
    node.task(rt, Task::Unshare { key: 13561 });
    node.loads(rt, &[195, 34545, 34546, 34547, 34551]);
    node.tended(rt, TaskAnswer::Plain);
}

/// Key 5 gets the value `a`, and is shared by cell 1 over the pending Put; it is shared already when it is asked again.
fn over_a_pending_record(rt: &impl Abort, node: &mut Node, a: Value) {
    node.put(rt, 5, a);
    node.loads(rt, &[195, 1280, 98307, 65]);
    node.stores(rt, &[(98310, SHORT), (98311, 5), (98312, 0x61)]);
    node.exchanges(rt, 65, 0x0000000200000006, 0x0000000300000009);
    node.ends(rt, made(5, (3, 0), Some(6), Way::Pending), b"(stored)");
    node.task(rt, Task::Share { key: 5 });
    node.loads(rt, &[195, 1280, 98310, 65]);
    node.claims(rt, 2);
    let opening = 0x0000000401000006;
    node.stores(
        rt,
        &[
            (513, 5),
            (98313, SHARE + 0x1000000),
            (98314, 5),
            (98315, opening),
        ],
    );
    node.exchanges(rt, 65, 0x0000000300000009, 0x000000040000000c);
    node.exchanges(rt, 257, 0, opening);
    node.tended(rt, TaskAnswer::Shared { cell: 1 });
    node.task(rt, Task::Share { key: 5 });
    node.loads(rt, &[195, 1280, 98313, 98314, 98315]);
    node.tended(rt, TaskAnswer::Shared { cell: 1 });
}

/// The Share at 9 is merged, and later the Unshare at 12. Both lead to the Put at 6.
fn through_the_index(rt: &impl Abort, node: &mut Node) {
    node.write(rt, 34548, 0x01000009);
    node.write(rt, 34545, 5);
    node.trims(rt, 12);
    node.task(rt, Task::Unshare { key: 5 });
    node.loads(rt, &[195, 34545, 34548, 1280, 98313, 98314, 98315, 65, 257]);
    node.exchanges(rt, 257, 0x0000000401000006, 0x8000000401000006);
    node.stores(rt, &[(98316, UNSHARE), (98317, 5), (98318, 0x01000006)]);
    node.exchanges(rt, 65, 0x000000040000000c, 0x000000050000000f);
    node.tended(rt, TaskAnswer::Unshared);
    node.get(rt, 5, 5);
    node.loads(
        rt,
        &[
            195, 1280, 98316, 98317, 98318, 1280, 98310, 98311, 98312, 65,
        ],
    );
    node.ends(rt, made(5, (5, 1), None, Way::Pending), b"a");
    node.write(rt, 34548, 0x0100000c);
    node.trims(rt, 15);
    node.task(rt, Task::Share { key: 5 });
    node.loads(rt, &[195, 34545, 34548, 1280, 98316, 98317, 98318, 65]);
    node.claims(rt, 2);
    let opening = 0x0000000601000006;
    node.stores(
        rt,
        &[
            (514, 5),
            (98319, SHARE + 0x2000000),
            (98320, 5),
            (98321, opening),
        ],
    );
    node.exchanges(rt, 65, 0x000000050000000f, 0x0000000600000012);
    node.exchanges(rt, 258, 0, opening);
    node.tended(rt, TaskAnswer::Shared { cell: 2 });
}

/// Slot 3 is given up where lane 1 is asked to leave it; its floor stays.
fn releases(rt: &impl Abort, node: &mut Node) {
    let leaving = 0x8000008080000009;
    let released = 0xc000008080000009;
    let release = Task::Release { slot: 3 };
    node.task(rt, release);
    node.loads(rt, &[195]);
    node.tended(rt, TaskAnswer::NotLeaving { look: OWNED });
    node.write(rt, 195, leaving);
    node.task(rt, release);
    node.loads(rt, &[195]);
    node.exchanges(rt, 195, leaving, released);
    node.tended(rt, TaskAnswer::Released);
    let look = node.word(rt, 195);
    assert_eq!(rt; look, released);
    node.task(rt, Task::Share { key: 5 });
    node.loads(rt, &[195]);
    node.tended(rt, TaskAnswer::NotOwner { look });
    node.write(rt, 195, leaving);
    node.task(rt, release);
    node.loads(rt, &[195]);
    node.write(rt, 195, OWNED);
    node.exchanges(rt, 195, leaving, released);
    node.tended(
        rt,
        TaskAnswer::Again {
            old: leaving,
            seen: OWNED,
        },
    );
}

#[test]
fn tasks_action_by_action(rt: HostRuntime) -> Result<(), Fail> {
    let pool = Sound::new(rt.alloc(), 1)?;
    let mut node = Node::new(&rt, pool, Lane::new(rt.alloc(), 1, 1)?);
    of_an_absent_key(&rt, &mut node);
    let a = Value::from_bytes(rt.alloc(), b"a")?;
    over_a_pending_record(&rt, &mut node, a);
    through_the_index(&rt, &mut node);
    releases(&rt, &mut node);
    Ok(())
}
