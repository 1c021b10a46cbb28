ghost use Rattle.std.specs.Prelude.{IsTrue};
ghost use Rattle.dn_tend.specs.Fit.{FitsTask, FitsFound};

use crate::{Task, TaskAnswer, TendFound, TendPlan, TendSeal, TendStep};
use dn_act::Action;
use dn_plan::Effect;
use dn_word::Ref;
use std::process::Abort;
use std::test::Fail;

/// What a task of lane 1 asks for, and what it finds.
#[derive(Clone, Copy)]
enum Event {
    /// This action, which finds this word; the lane learns this.
    Does(Action, u64, Option<Effect>),
    Locates(TendFound),
    Rooms,
    Seals(TendSeal),
    Ends(TaskAnswer),
}

use Action::{Add, Cas, Load, Store};
use Event::{Does, Ends, Locates, Rooms, Seals};
use TaskAnswer::{
    Again, Fenced, NoCell, NotLeaving, NotOwner, Plain, Released, Shared, Trimmed, Unshared, Worn,
};

/// Lane 1 is asked to leave slot 3, whose deed stands at 195, in epoch 1 with floor 9; and it has given it up.
const LEAVING: u64 = 0x8000008080000009;

const RELEASED: u64 = 0xc000008080000009;

/// Owned by lane 1 in epoch 1 with floor 9. Key 1 is in slot 34, whose deed stands at 226.
const OWNED: u64 = 0x4000008080000009;

/// The gate, at 65: stamp 4 and length 12; and the same with the bit.
const OPEN: u64 = 0x000000040000000c;

const SHUT: u64 = 0x800000040000000c;

/// The opening word of a cell, of stamp 10 and the record at offset 12 of lane 1.
const OPENING: u64 = 0x0000000a0100000c;

/// A cell of stamp 12 and the record at offset 3 of lane 2, open and closed.
const CELL: u64 = 0x0000000c02000003;

const CLOSED: u64 = 0x8000000c02000003;

const LEFT: Event = Does(
    Load { at: 195 },
    LEAVING,
    Some(Effect::Epoch { slot: 3, epoch: 1 }),
);

const LOOK: Event = Does(
    Load { at: 226 },
    OWNED,
    Some(Effect::Epoch { slot: 34, epoch: 1 }),
);

const GATE: Event = Does(Load { at: 65 }, OPEN, None);

const BARRED: Event = Does(Load { at: 65 }, SHUT, Some(Effect::Bar { gate: SHUT }));

const FOUND: Event = Locates(TendFound::At(Ref {
    lane: 1,
    offset: 12,
}));

const SHARED: Event = Locates(TendFound::Shared {
    cell: 5,
    opening: OPENING,
});

const GIVES_UP: Action = Cas {
    at: 195,
    old: LEAVING,
    new: RELEASED,
};

const CLOSES: Action = Cas {
    at: 261,
    old: CELL,
    new: CLOSED,
};

/// Whether what was found may be told to a task.
fn is_place(found: TendFound) -> bool
    ensures { IsTrue result → FitsFound found }
{
    match found {
        TendFound::At(at) => at.offset < 0x1000000,
        TendFound::Nothing | TendFound::Shared { .. } => true,
    }
}

/// Asks for what each event says, tells what it found, and ends as it says.
fn play(rt: &impl Abort, task: Task, events: &[Event])
    requires { FitsTask task }
{
    let mut plan = TendPlan::new(task, 1);
    for event in events {
        match *event {
            Does(action, word, effect) => {
                assert_eq!(rt; plan.step(), TendStep::Act(action));
                assert_eq!(rt; plan.take(word), effect);
            }
            Locates(found) => {
                assert_eq!(rt; plan.step(), TendStep::Locate);
                let fits = is_place(found);
                assert!(rt; fits);
                plan.located(found);
            }
            Rooms => {
                assert_eq!(rt; plan.step(), TendStep::Room);
                plan.roomed();
            }
            Seals(seal) => {
                assert_eq!(rt; plan.step(), TendStep::Seal(seal));
                plan.sealed();
            }
            Ends(answer) => assert_eq!(rt; plan.step(), TendStep::Done(answer)),
        }
    }
}

#[test]
fn slots_are_released_and_tables_trimmed(rt: HostRuntime) -> Result<(), Fail> {
    let release = Task::Release { slot: 3 };
    play(
        &rt,
        release,
        &[LEFT, Does(GIVES_UP, LEAVING, None), Ends(Released)],
    );
    let again = Again {
        old: LEAVING,
        seen: OWNED,
    };
    play(
        &rt,
        release,
        &[LEFT, Does(GIVES_UP, OWNED, None), Ends(again)],
    );
    // Owned, given up already, and another lane's
    for look in [OWNED, RELEASED, 0x8000008100000000] {
        let deed = Does(
            Load { at: 195 },
            look,
            Some(Effect::Epoch { slot: 3, epoch: 1 }),
        );
        play(&rt, release, &[deed, Ends(NotLeaving { look })]);
    }
    let mark = Does(Load { at: 129 }, 77, Some(Effect::DropBelow { mark: 77 }));
    play(&rt, Task::Trim, &[mark, Ends(Trimmed { mark: 77 })]);
    Ok(())
}

#[test]
fn keys_are_shared(rt: HostRuntime) -> Result<(), Fail> {
    let share = Task::Share { key: 1 };
    let count = Does(Load { at: 2 }, 5, None);
    let seal = Seals(TendSeal::Share {
        cell: 5,
        opening: OPENING,
        gate: OPEN,
    });
    let name = Does(Store { at: 517, word: 1 }, 0, None);
    let opens = Does(
        Cas {
            at: 261,
            old: 0,
            new: OPENING,
        },
        CELL,
        None,
    );
    let claim = Does(Add { at: 2, by: 1 }, 5, None);
    play(
        &rt,
        share,
        &[
            LOOK,
            FOUND,
            GATE,
            Rooms,
            count,
            claim,
            name,
            seal,
            opens,
            Ends(Shared { cell: 5 }),
        ],
    );
    play(&rt, share, &[LOOK, SHARED, Ends(Shared { cell: 5 })]);
    play(
        &rt,
        share,
        &[LOOK, FOUND, BARRED, Ends(Fenced { word: SHUT })],
    );
    let none = Does(Load { at: 2 }, 256, None);
    let lost = Does(Add { at: 2, by: 1 }, 256, None);
    let no_cell = Ends(NoCell { counter: 256 });
    play(&rt, share, &[LOOK, FOUND, GATE, Rooms, none, no_cell]);
    play(
        &rt,
        share,
        &[LOOK, FOUND, GATE, Rooms, count, lost, no_cell],
    );
    let last = Does(Load { at: 65 }, 0x7fffffff0000000c, None);
    play(
        &rt,
        share,
        &[
            LOOK,
            Locates(TendFound::Nothing),
            last,
            Ends(Worn { stamp: 0x7fffffff }),
        ],
    );
    let other = Does(
        Load { at: 226 },
        LEAVING,
        Some(Effect::Epoch { slot: 34, epoch: 1 }),
    );
    play(&rt, share, &[other, Ends(NotOwner { look: LEAVING })]);
    Ok(())
}

/// The record that ends the sharing of key 1.
fn ends_sharing(at: Option<Ref>, stamp: u32) -> Event {
    Seals(TendSeal::Unshare {
        at,
        stamp,
        gate: OPEN,
    })
}

#[test]
fn sharings_end(rt: HostRuntime) -> Result<(), Fail> {
    let unshare = Task::Unshare { key: 1 };
    let cell = Does(Load { at: 261 }, CELL, None);
    let place = Some(Ref { lane: 2, offset: 3 });
    play(
        &rt,
        unshare,
        &[
            LOOK,
            SHARED,
            GATE,
            Rooms,
            cell,
            Does(CLOSES, CELL, None),
            ends_sharing(place, 13),
            Ends(Unshared),
        ],
    );
    let again = Again {
        old: CELL,
        seen: OPENING,
    };
    play(
        &rt,
        unshare,
        &[
            LOOK,
            SHARED,
            GATE,
            Rooms,
            cell,
            Does(CLOSES, OPENING, None),
            Ends(again),
        ],
    );
    // a cell that is closed already, and one that isn't open yet
    let closed = Does(Load { at: 261 }, CLOSED, None);
    play(
        &rt,
        unshare,
        &[
            LOOK,
            SHARED,
            GATE,
            Rooms,
            closed,
            ends_sharing(place, 13),
            Ends(Unshared),
        ],
    );
    let none = Does(Load { at: 261 }, 0, None);
    let closes = Does(
        Cas {
            at: 261,
            old: 0,
            new: 0x8000000a0100000c,
        },
        0,
        None,
    );
    let first = Some(Ref {
        lane: 1,
        offset: 12,
    });
    play(
        &rt,
        unshare,
        &[
            LOOK,
            SHARED,
            GATE,
            Rooms,
            none,
            closes,
            ends_sharing(first, 11),
            Ends(Unshared),
        ],
    );
    play(&rt, unshare, &[LOOK, FOUND, Ends(Plain)]);
    let last = Does(Load { at: 261 }, 0x7fffffff00000000, None);
    play(
        &rt,
        unshare,
        &[
            LOOK,
            SHARED,
            GATE,
            Rooms,
            last,
            Ends(Worn { stamp: 0x7fffffff }),
        ],
    );
    play(
        &rt,
        unshare,
        &[LOOK, SHARED, BARRED, Ends(Fenced { word: SHUT })],
    );
    Ok(())
}
