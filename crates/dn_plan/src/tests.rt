ghost use Rattle.dn_plan.specs.Fit.{FitsBrief, FitsLocate, FitsStep};

use crate::{
    After, Brief, Effect, Ending, Kind, LocatePhase, Located, Next, Room, Step, Then, Way,
};
use dn_act::Action;
use dn_hist::SessionView;
use dn_word::{Gate, Position, Ref};
use std::process::Abort;
use std::test::Fail;

/// What a call of lane 1 on key 1 finds, and what it comes to. The key is in slot 34, whose deed stands at 226; the
/// gate stands at 65. Its log has 12 words, and the call's record is to have three.
#[derive(Clone, Copy)]
struct Row {
    kind: Kind,
    /// Stamp and rank of the last position of session 7.
    last: (u32, u32),
    deed: u64,
    gate: u64,
    room: Room,
    /// What the exchange of the gate finds.
    found: u64,
    /// The new gate that it asks for, or 0.
    new: u64,
    effect: Option<Effect>,
    ending: Ending,
}

use Ending::{Fenced, Full, NotOwner, Worn};
use Kind::{Delete, Get, Put};

const LOCATED: Located = Located {
    way: Way::Pending,
    held: true,
};

/// Owned by lane 1 in epoch 1, with floor 0 and floor 9.
const OWNED: u64 = 0x4000008080000000;

const HIGH: u64 = 0x4000008080000009;

/// Stamp 4, and the same with the bit.
const OPEN: u64 = 0x000000040000000c;

const SHUT: u64 = 0x800000040000000c;

const EPOCH: Option<Effect> = Some(Effect::Epoch { slot: 34, epoch: 1 });

const BAR: Option<Effect> = Some(Effect::Bar { gate: SHUT });

const FULL: Room = Room::Full {
    counter: 8,
    segments: 2,
};

/// A row of a call that isn't sealed.
fn unsealed(
    kind: Kind,
    last: (u32, u32),
    deed: u64,
    gate: u64,
    effect: Option<Effect>,
    ending: Ending,
) -> Row {
    Row {
        kind,
        last,
        deed,
        gate,
        room: FULL,
        found: 0,
        new: 0,
        effect,
        ending,
    }
}

/// A row of a call that exchanges the gate.
fn exchange(
    kind: Kind,
    last: (u32, u32),
    deed: u64,
    new: u64,
    found: u64,
    effect: Option<Effect>,
    ending: Ending,
) -> Row {
    Row {
        kind,
        last,
        deed,
        gate: OPEN,
        room: Room::Found,
        found,
        new,
        effect,
        ending,
    }
}

/// The call stands at this stamp and rank.
fn made(stamp: u32, rank: u32, at: Option<Ref>) -> Ending {
    Ending::Made {
        to: Position {
            stamp,
            rank,
            session: 7,
        },
        at,
        located: LOCATED,
    }
}

const RECORD: Ref = Ref {
    lane: 1,
    offset: 12,
};

fn rows() -> [Row; 18] {
    [
        // nobody's, lane 2's, and one that lane 1 is asked to leave
        unsealed(
            Get,
            (0, 0),
            0,
            OPEN,
            Some(Effect::Epoch { slot: 34, epoch: 0 }),
            NotOwner { look: 0 },
        ),
        unsealed(
            Put,
            (0, 0),
            0x4000008100000000,
            OPEN,
            EPOCH,
            NotOwner {
                look: 0x4000008100000000,
            },
        ),
        unsealed(
            Delete,
            (0, 0),
            0x8000008080000000,
            OPEN,
            EPOCH,
            NotOwner {
                look: 0x8000008080000000,
            },
        ),
        // quiet: at a later stamp, at the last one's next rank, and at the floor
        unsealed(Get, (3, 8), OWNED, OPEN, None, made(4, 1, None)),
        unsealed(Get, (4, 8), OWNED, OPEN, None, made(4, 9, None)),
        unsealed(
            Get,
            (0, 0),
            HIGH,
            0x0000000900000000,
            None,
            made(9, 1, None),
        ),
        // closed when loaded
        unsealed(Get, (0, 0), OWNED, SHUT, BAR, Fenced { gate: SHUT }),
        unsealed(Put, (0, 0), OWNED, SHUT, BAR, Fenced { gate: SHUT }),
        // the session, the gate or the floor is at the last stamp
        unsealed(
            Get,
            (0x7fffffff, 1),
            OWNED,
            OPEN,
            None,
            Worn { stamp: 0x7fffffff },
        ),
        unsealed(
            Put,
            (0, 0),
            OWNED,
            0x7fffffff0000000c,
            None,
            Worn { stamp: 0x7fffffff },
        ),
        unsealed(
            Delete,
            (0, 0),
            0x40000080ffffffff,
            OPEN,
            None,
            Worn { stamp: 0x7fffffff },
        ),
        // no room
        unsealed(
            Put,
            (0, 0),
            OWNED,
            OPEN,
            None,
            Full {
                counter: 8,
                segments: 2,
            },
        ),
        // a get raises the stamp: behind the session's, above the floor, and past the last rank
        exchange(
            Get,
            (6, 2),
            OWNED,
            0x000000070000000c,
            OPEN,
            None,
            made(7, 0, None),
        ),
        exchange(
            Get,
            (0, 0),
            HIGH,
            0x0000000a0000000c,
            OPEN,
            None,
            made(10, 0, None),
        ),
        exchange(
            Get,
            (4, 0xffffffff),
            OWNED,
            0x000000050000000c,
            SHUT,
            BAR,
            Fenced { gate: SHUT },
        ),
        // records are sealed: behind the gate's stamp, and above the floor
        exchange(
            Put,
            (3, 1),
            OWNED,
            0x000000050000000f,
            OPEN,
            None,
            made(5, 0, Some(RECORD)),
        ),
        exchange(
            Delete,
            (3, 1),
            HIGH,
            0x0000000a0000000f,
            OPEN,
            None,
            made(10, 0, Some(RECORD)),
        ),
        exchange(
            Put,
            (3, 1),
            OWNED,
            0x000000050000000f,
            SHUT,
            BAR,
            Fenced { gate: SHUT },
        ),
    ]
}

/// What a call asks for last, and how it ends.
#[derive(Clone, Copy)]
struct Outcome {
    new: u64,
    step: Step,
}

/// After the gate: at once, or by the exchange of a gate.
fn exchanges(rt: &impl Abort, brief: &Brief, row: &Row, step: Step) -> Outcome
    requires brief { FitsBrief brief.now }
    requires step { FitsStep brief.now step }
{
    match step.next {
        Next::After(After::Then(Then::Act(phase))) => {
            let Action::Cas { at, old, new } = phase.action(brief) else {
                panic!(rt; "a get exchanges the gate");
            };
            assert_eq!(rt; (at, old), (65, OPEN));
            Outcome {
                new,
                step: phase.take(brief, row.found),
            }
        }
        Next::After(After::Room(phase)) => match phase.roomed(brief, row.room) {
            Then::Seal(phase) => {
                let sealing = phase.sealing(brief);
                assert_eq!(rt; sealing.gate, OPEN);
                let gate = Gate {
                    fenced: false,
                    stamp: sealing.stamp,
                    len: 15,
                };
                Outcome {
                    new: gate.word(),
                    step: phase.sealed(brief, RECORD, row.found),
                }
            }
            then => Outcome {
                new: 0,
                step: Step {
                    effect: None,
                    next: Next::After(After::Then(then)),
                },
            },
        },
        _ => Outcome { new: 0, step },
    }
}

/// The key is located, and the gate is loaded.
fn passes(rt: &impl Abort, brief: &Brief, row: &Row, phase: LocatePhase) -> Outcome
    requires brief { FitsBrief brief.now }
    requires phase { FitsLocate brief.now phase }
{
    let After::Then(Then::Act(phase)) = phase.located(brief, LOCATED) else {
        panic!(rt; "the gate is next");
    };
    assert_eq!(rt; phase.action(brief), Action::Load { at: 65 });
    exchanges(rt, brief, row, phase.take(brief, row.gate))
}

fn plays(rt: &impl Abort, brief: &Brief, row: &Row) -> Outcome
    requires { FitsBrief brief.now }
{
    let look = brief.begin();
    assert_eq!(rt; look.action(brief), Action::Load { at: 226 });
    let step = look.take(brief, row.deed);
    match step.next {
        Next::Locate(phase) => passes(rt, brief, row, phase),
        _ => Outcome { new: 0, step },
    }
}

#[test]
fn calls_by_what_they_find(rt: HostRuntime) -> Result<(), Fail> {
    for row in rows() {
        let (stamp, rank) = row.last;
        assert!(rt; stamp < 0x80000000);
        let brief = Brief {
            lane: 1,
            key: 1,
            kind: row.kind,
            view: SessionView {
                session: 7,
                number: 3,
                last: Position {
                    stamp,
                    rank,
                    session: 7,
                },
                hint: None,
            },
        };
        let outcome = plays(&rt, &brief, &row);
        assert_eq!(rt; outcome.new, row.new);
        assert_eq!(rt; outcome.step.effect, row.effect);
        let Next::After(After::Then(Then::End(ending))) = outcome.step.next else {
            panic!(rt; "the call ends");
        };
        assert_eq!(rt; ending, row.ending);
    }
    Ok(())
}
