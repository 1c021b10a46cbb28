use crate::{Monitor, MonitorAnswer, MonitorTurn, Order};
use dn_act::{Memory, Sound, exec};
use std::process::Abort;
use std::test::Fail;

/// What comes next in a play of a monitor.
#[derive(Clone, Copy)]
enum Event {
    /// Another actor writes this word at this place.
    Write(u32, u64),
    /// So many actions of the monitor, without an answer.
    More(u32),
    /// One action, which has this answer.
    Answer(MonitorAnswer),
    /// The pool has this word at this place.
    Word(u32, u64),
}

use Event::{Answer, More, Word, Write};
use MonitorAnswer::{Barred, Formatted, Granted, Held, Looked, NotFenced, Taken, Waiting, Worn};

/// The deed of lane 1 in epoch 1 with floor 0, Owned, Leaving and Released.
const OWNED: u64 = 0x4000008080000000;

const LEAVING: u64 = 0x8000008080000000;

const RELEASED: u64 = 0xc000008080000000;

/// Slot 3, whose deed stands at 195, goes from lane 1, whose gate and mark stand at 65 and 129, to lane 2. The lane
/// seals a record between the gate that showed it Held and its release, and is merged after two loads of the mark.
const HANDED_OVER: [Event; 16] = [
    Write(195, OWNED),
    Write(65, 0x0000000100000003),
    More(2),
    Word(195, LEAVING),
    More(1),
    Answer(Held { deed: LEAVING }),
    Write(65, 0x0000000200000006),
    Write(195, RELEASED),
    More(2),
    Answer(Waiting { mark: 0, need: 6 }),
    Write(129, 3),
    Answer(Waiting { mark: 3, need: 6 }),
    Write(129, 6),
    More(1),
    Answer(Granted {
        deed: 0x4000010100000002,
    }),
    Word(195, 0x4000010100000002),
];

/// A lane that is asked to leave is fenced before it does. The deed's floor is above its stamp.
const FENCED_ON_LEAVING: [Event; 9] = [
    Write(195, 0x8000008080000009),
    Write(65, 0x0000000500000004),
    Write(129, 4),
    More(1),
    Answer(Held {
        deed: 0x8000008080000009,
    }),
    Write(65, 0x8000000500000004),
    More(3),
    Answer(Granted {
        deed: 0x4000010100000009,
    }),
    Word(195, 0x4000010100000009),
];

/// The deed is another one at each exchange: before the lane is asked to leave, and before the grant.
const MET_BY_ANOTHER: [Event; 10] = [
    Write(195, OWNED),
    More(1),
    Write(195, RELEASED),
    More(1),
    Word(195, RELEASED),
    More(3),
    Write(195, 0x0000018000000005),
    More(2),
    Answer(Granted {
        deed: 0x4000020100000005,
    }),
    Word(195, 0x4000020100000005),
];

/// A deed that is the target's already, one that names lane 77, one that names lane 0, and two of the last epoch.
const LONE: [(u64, u32, MonitorAnswer); 5] = [
    (
        0x4000010100000001,
        0,
        Granted {
            deed: 0x4000010100000001,
        },
    ),
    (
        0xc00000a680000000,
        1,
        Granted {
            deed: 0x4000010100000000,
        },
    ),
    (
        0x8000008000000004,
        1,
        Granted {
            deed: 0x4000010100000004,
        },
    ),
    (0x3fffff8000000000, 0, Worn { epoch: 8388607 }),
    (0xffffff8080000000, 2, Worn { epoch: 8388607 }),
];

/// Lane 1, fenced with stamp 1 and length 3, has slot 3, which is Leaving, and slot 63. Another epoch is met at slot
/// 3.
const TAKEN_OVER: [Event; 15] = [
    Write(195, LEAVING),
    Write(255, OWNED),
    Write(192, 0x4000008100000000),
    Write(65, 0x8000000100000003),
    More(5),
    Answer(Waiting { mark: 0, need: 3 }),
    Write(129, 3),
    More(1),
    Write(195, 0x4000010080000006),
    More(1),
    Word(195, 0x4000010080000006),
    More(4),
    More(59 + 3),
    Answer(Taken { slots: 2 }),
    Word(192, 0x4000008100000000),
];

/// Plays a monitor, whose words are all 0 at first, and compares all that is told.
fn play(
    rt: &impl Abort,
    pool: &mut Sound,
    monitor: &mut Monitor,
    events: &[Event],
) -> Result<(), Fail> {
    for event in events {
        match *event {
            Write(at, word) => {
                assert!(rt; at < pool.size());
                pool.store(at, word)?;
            }
            More(count) => {
                for _ in 0..count {
                    assert_eq!(rt; act(rt, pool, monitor)?, MonitorTurn::More);
                }
            }
            Answer(answer) => {
                assert_eq!(rt; act(rt, pool, monitor)?, MonitorTurn::Answered(answer));
            }
            Word(at, word) => {
                assert!(rt; at < pool.size());
                assert_eq!(rt; pool.word(at), word, "word {at}");
            }
        }
    }
    Ok(())
}

/// One action of a monitor.
fn act(rt: &impl Abort, pool: &mut Sound, monitor: &mut Monitor) -> Result<MonitorTurn, Fail> {
    let Some(action) = monitor.next() else {
        panic!(rt; "the order is over");
    };
    assert!(rt; action.at() < pool.size());
    let word = exec(pool, &action)?;
    Ok(monitor.take(word))
}

#[test]
fn orders_of_one_action(rt: HostRuntime) -> Result<(), Fail> {
    let mut pool = Sound::new(rt.alloc(), 1)?;
    let mut format = Monitor::new(Order::Format { segments: 1024 }, &[]);
    play(
        &rt,
        &mut pool,
        &mut format,
        &[Answer(Formatted { old: 0 }), Word(0, 0x0000040000000001)],
    )?;
    assert!(rt; format.next().is_none());
    let mut look = Monitor::new(Order::Look { slot: 63 }, &[1]);
    play(
        &rt,
        &mut pool,
        &mut look,
        &[Write(255, OWNED), Answer(Looked { deed: OWNED })],
    )?;
    let mut fence = Monitor::new(Order::Fence { lane: 63 }, &[63]);
    let fenced = [
        Write(127, 0x0000000100000003),
        Answer(Barred {
            old: 0x0000000100000003,
        }),
        Word(127, 0x8000000100000003),
    ];
    play(&rt, &mut pool, &mut fence, &fenced)?;
    assert!(rt; fence.next().is_none());
    let mut opening = Monitor::new(Order::Move { slot: 0, to: 1 }, &[1]);
    play(
        &rt,
        &mut pool,
        &mut opening,
        &[More(1), Answer(Granted { deed: OWNED }), Word(192, OWNED)],
    )?;
    assert!(rt; opening.next().is_none());
    Ok(())
}

#[test]
fn moves(rt: HostRuntime) -> Result<(), Fail> {
    let order = Order::Move { slot: 3, to: 2 };
    let plays: [&[Event]; 3] = [&HANDED_OVER, &FENCED_ON_LEAVING, &MET_BY_ANOTHER];
    for events in plays {
        let mut pool = Sound::new(rt.alloc(), 1)?;
        let mut monitor = Monitor::new(order, &[1, 2]);
        play(&rt, &mut pool, &mut monitor, events)?;
        assert!(rt; monitor.next().is_none());
    }
    let mut pool = Sound::new(rt.alloc(), 1)?;
    for (deed, count, answer) in LONE {
        let mut monitor = Monitor::new(order, &[1, 2]);
        play(
            &rt,
            &mut pool,
            &mut monitor,
            &[Write(195, deed), More(count), Answer(answer)],
        )?;
        assert!(rt; monitor.next().is_none());
    }
    Ok(())
}

#[test]
fn takeovers(rt: HostRuntime) -> Result<(), Fail> {
    let order = Order::Takeover { lane: 1 };
    let mut pool = Sound::new(rt.alloc(), 1)?;
    let mut early = Monitor::new(order, &[2]);
    let open = [Write(192, OWNED), More(1), Answer(NotFenced { word: 0 })];
    play(&rt, &mut pool, &mut early, &open)?;
    assert!(rt; early.next().is_none());
    let mut pool = Sound::new(rt.alloc(), 1)?;
    let mut monitor = Monitor::new(order, &[2, 3, 4]);
    play(&rt, &mut pool, &mut monitor, &TAKEN_OVER)?;
    assert!(rt; monitor.next().is_none());
    play(
        &rt,
        &mut pool,
        &mut monitor,
        &[Word(195, 0x4000018100000006), Word(255, 0x4000010180000001)],
    )?;
    let mut pool = Sound::new(rt.alloc(), 1)?;
    let mut nobody = Monitor::new(order, &[]);
    let left = [
        Write(192, OWNED),
        Write(65, 0x8000000100000000),
        More(4 + 63 - 1),
        Answer(Taken { slots: 1 }),
        Word(192, 0x0000010000000001),
    ];
    play(&rt, &mut pool, &mut nobody, &left)?;
    assert!(rt; nobody.next().is_none());
    Ok(())
}
