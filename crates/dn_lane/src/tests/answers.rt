use super::{Node, OWNED, Outcome};
use crate::answers::Refuse;
use crate::lanes::Lane;
use dn_act::Sound;
use dn_hist::Call;
use dn_tend::{Task, TaskAnswer};
use std::process::Abort;
use std::test::Fail;

/// The gate of lane 1 with the bit of a fence, of stamp 1 and an empty log.
const SHUT: u64 = 0x8000000100000000;

/// The gate at the last stamp.
const LAST: u64 = 0x7fffffff00000000;

/// Both a call and a task are refused so.
fn refused(rt: &impl Abort, node: &mut Node, refuse: Refuse) {
    let call = Call::Delete { key: 5 };
    assert_eq!(rt; node.try_call(rt, 0, &call), Err(refuse));
    assert_eq!(rt; node.try_task(rt, Task::Trim), Err(refuse));
}

/// What isn't made by the deed, the segment counter and the gate that are found, of a delete.
fn deletes(rt: &impl Abort, node: &mut Node) {
    let other = 0x4000008100000000;
    for (deed, counter, gate, outcome) in [
        (
            other,
            0,
            0,
            Outcome::NotOwner {
                look: other,
                cell: None,
            },
        ),
        (
            OWNED,
            1,
            0,
            Outcome::Full {
                counter: 1,
                segments: 0,
            },
        ),
        (OWNED, 0, LAST, Outcome::Worn { stamp: 0x7fffffff }),
        (OWNED, 0, SHUT, Outcome::Fenced { word: SHUT }),
    ] {
        node.write(rt, 195, deed);
        node.write(rt, 1, counter);
        node.write(rt, 65, gate);
        node.delete(rt, 5);
        refused(rt, node, Refuse::Busy { number: 4 });
        node.finish(rt);
        node.ends(rt, outcome, b"");
    }
    refused(rt, node, Refuse::Fenced { word: SHUT });
}

/// And of a share.
fn shares(rt: &impl Abort, node: &mut Node) {
    node.write(rt, 195, OWNED);
    let worn = TaskAnswer::Worn { stamp: 0x7fffffff };
    let full = TaskAnswer::Full {
        counter: 1,
        segments: 0,
    };
    let no_cell = TaskAnswer::NoCell { counter: 256 };
    for (segments, cells, gate, answer) in [
        (0, 0, LAST, worn),
        (1, 0, 0, full),
        (0, 256, 0, no_cell),
        (0, 0, SHUT, TaskAnswer::Fenced { word: SHUT }),
    ] {
        node.write(rt, 1, segments);
        node.write(rt, 2, cells);
        node.write(rt, 65, gate);
        node.task(rt, Task::Share { key: 5 });
        refused(rt, node, Refuse::Busy { number: 0 });
        node.finish(rt);
        node.tended(rt, answer);
    }
    refused(rt, node, Refuse::Fenced { word: SHUT });
}

#[test]
fn calls_and_tasks_that_come_to_nothing(rt: HostRuntime) -> Result<(), Fail> {
    let pool = Sound::new(rt.alloc(), 1)?;
    let mut node = Node::new(&rt, pool, Lane::new(rt.alloc(), 1, 1)?);
    deletes(&rt, &mut node);
    node.lane = Lane::new(rt.alloc(), 1, 1)?;
    shares(&rt, &mut node);
    Ok(())
}

/// Somebody takes the last segment between the load and the add, and the last cell. A segment that was claimed stays the
/// lane's.
fn loses_races_for_numbers(rt: &impl Abort, node: &mut Node) {
    node.delete(rt, 5);
    node.loads(rt, &[195, 34545, 34546, 34547, 34551, 65, 1]);
    node.write(rt, 1, 1);
    node.finish(rt);
    node.ends(
        rt,
        Outcome::Full {
            counter: 1,
            segments: 0,
        },
        b"",
    );
    node.write(rt, 1, 0);
    node.write(rt, 2, 255);
    let share = Task::Share { key: 5 };
    node.task(rt, share);
    node.loads(rt, &[195, 34545, 34546, 34547, 34551, 65]);
    node.claims(rt, 1);
    node.loads(rt, &[2]);
    node.write(rt, 2, 256);
    node.finish(rt);
    node.tended(rt, TaskAnswer::NoCell { counter: 256 });
    node.write(rt, 2, 0);
    node.task(rt, share);
    node.loads(rt, &[195, 34545, 34546, 34547, 34551, 65]);
    node.claims(rt, 2);
    node.finish(rt);
    node.tended(rt, TaskAnswer::Shared { cell: 0 });
}

/// The gate, of stamp 1 and length 3, is fenced while this get raises its stamp.
fn fenced_get(rt: &impl Abort, node: &mut Node) {
    node.get(rt, 13561, 3);
    node.loads(rt, &[195, 34545, 34546, 34547, 34551, 65]);
    node.write(rt, 65, 0x8000000100000003);
    node.exchanges(rt, 65, 0x0000000100000003, 0x0000000400000003);
    let word = 0x8000000100000003;
    node.ends(rt, Outcome::Fenced { word }, b"");
    refused(rt, node, Refuse::Fenced { word });
}

/// The gate is fenced after a delete has loaded it.
fn fenced_delete(rt: &impl Abort, node: &mut Node) {
    node.delete(rt, 5);
    node.loads(rt, &[195, 34545, 34546, 34547, 34551, 65]);
    node.claims(rt, 1);
    node.write(rt, 65, 0x8000000000000000);
    node.finish(rt);
    let word = 0x8000000000000000;
    node.ends(rt, Outcome::Fenced { word }, b"");
    refused(rt, node, Refuse::Fenced { word });
}

/// The gate is fenced after a share has loaded it.
fn fenced_share(rt: &impl Abort, node: &mut Node) {
    node.task(rt, Task::Share { key: 5 });
    node.loads(rt, &[195, 34545, 34546, 34547, 34551, 65]);
    node.write(rt, 65, 0x8000000000000000);
    node.finish(rt);
    let word = 0x8000000000000000;
    node.tended(rt, TaskAnswer::Fenced { word });
    refused(rt, node, Refuse::Fenced { word });
}

#[test]
fn what_changes_while_a_plan_is_under_way(rt: HostRuntime) -> Result<(), Fail> {
    let pool = Sound::new(rt.alloc(), 1)?;
    let mut node = Node::new(&rt, pool, Lane::new(rt.alloc(), 1, 1)?);
    loses_races_for_numbers(&rt, &mut node);
    fenced_get(&rt, &mut node);
    let pool = Sound::new(rt.alloc(), 2)?;
    let mut node = Node::new(&rt, pool, Lane::new(rt.alloc(), 1, 2)?);
    fenced_delete(&rt, &mut node);
    node.lane = Lane::new(rt.alloc(), 1, 2)?;
    node.write(&rt, 65, 0);
    fenced_share(&rt, &mut node);
    Ok(())
}
