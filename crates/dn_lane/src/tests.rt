//! Lane 1 over a pool of which no access fails. Its gate stands at 65, its mark at 129, its directory at 1280. The keys 5
//! and 13561 are in slot 3, whose deed stands at 195, and in bucket 222, at 34544. The words are worked out by hand.

ghost use Rattle.std.specs.Prelude.{◌≡◌};
ghost use Rattle.dn_hist.specs.Calls.{key_of};

mod answers;
mod calls;
mod seals;
mod tasks;

use crate::answers::{Answer, Refuse, Turn};
use crate::lanes::Lane;
use dn_act::{Action, Memory, Sound, exec};
use dn_hist::{Call, Reply, SessionView};
use dn_plan::Way;
use dn_tend::{Task, TaskAnswer};
use dn_word::{Position, Ref, Value};
use std::process::Abort;

/// Slot 3 is owned by lane 1 in epoch 1, with floor 0.
const OWNED: u64 = 0x4000008080000000;

/// The header of a Put of one byte.
const SHORT: u64 = 0x0100010000000300;

/// The header of a Put of 1,024 bytes.
const LONG: u64 = 0x0104000000008200;

/// The header of a Delete.
const DELETE: u64 = 0x0200000000000200;

/// What a plan came to, but for the reply of a call.
#[derive(Clone, Copy, Debug, PartialEq, Eq)]
enum Outcome {
    More,
    Made {
        key: u64,
        number: u32,
        to: Position,
        at: Option<Ref>,
        way: Way,
    },
    NotOwner {
        look: u64,
        cell: Option<u64>,
    },
    Fenced {
        word: u64,
    },
    Full {
        counter: u64,
        segments: u32,
    },
    Worn {
        stamp: u32,
    },
    Tended(TaskAnswer),
}

/// A call is made at this stamp and rank. Its record, where it has one, stands at this offset.
fn made(key: u64, (stamp, rank): (u32, u32), at: Option<u32>, way: Way) -> Outcome {
    let to = Position {
        stamp,
        rank,
        session: 1,
    };
    let at = match at {
        Some(offset) => Some(Ref { lane: 1, offset }),
        None => None,
    };
    Outcome::Made {
        key,
        number: 4,
        to,
        at,
        way,
    }
}

fn key_in(call: &Call) -> u64
    ensures { result ≡ key_of call.now }
{
    match call {
        Call::Get { key } | Call::Put { key, .. } | Call::Delete { key } => *key,
    }
}

fn outcome_of(turn: &Turn) -> Outcome {
    match turn {
        Turn::More => Outcome::More,
        Turn::Tended(answer) => Outcome::Tended(*answer),
        Turn::Done(Answer::Made { receipt, way }) => Outcome::Made {
            key: key_in(&receipt.call),
            number: receipt.number,
            to: receipt.position,
            at: receipt.at,
            way: *way,
        },
        Turn::Done(Answer::NotOwner { look, cell }) => Outcome::NotOwner {
            look: *look,
            cell: *cell,
        },
        Turn::Done(Answer::Fenced { word }) => Outcome::Fenced { word: *word },
        Turn::Done(Answer::Full { counter, segments }) => Outcome::Full {
            counter: *counter,
            segments: *segments,
        },
        Turn::Done(Answer::Worn { stamp }) => Outcome::Worn { stamp: *stamp },
    }
}

/// The bytes of a reply, or its name.
fn told(reply: &Reply) -> &[u8] {
    match reply {
        Reply::Value(value) => value.as_bytes(),
        Reply::Absent => b"(absent)",
        Reply::Stored => b"(stored)",
        Reply::Deleted => b"(deleted)",
    }
}

/// The reply of a call that is made.
fn reply_of(turn: &Turn) -> &[u8] {
    match turn {
        Turn::Done(Answer::Made { receipt, .. }) => told(&receipt.reply),
        _ => b"",
    }
}

/// The lane, the pool, and what the lane answered last.
#[derive(Drop)]
struct Node {
    pool: Sound,
    lane: Lane,
    turn: Turn,
}

impl Node {
    /// The lane owns slot 3.
    fn new(rt: &impl Abort, pool: Sound, lane: Lane) -> Node {
        let mut node = Node {
            pool,
            lane,
            turn: Turn::More,
        };
        node.write(rt, 195, OWNED);
        node
    }

    /// Somebody else stores a word.
    fn write(&mut self, rt: &impl Abort, at: u32, word: u64) {
        assert!(rt; at < self.pool.size());
        assert!(rt; self.pool.store(at, word).is_ok());
    }

    fn word(&self, rt: &impl Abort, at: u32) -> u64 {
        assert!(rt; at < self.pool.size());
        self.pool.word(at)
    }

    /// Begins the fourth call of session 1, whose last position has this stamp and rank 0.
    fn try_call(&mut self, rt: &impl Abort, stamp: u32, call: &Call) -> Result<(), Refuse> {
        assert!(rt; stamp < 0x80000000);
        assert!(rt; key_in(call) != 0);
        let session = SessionView {
            session: 1,
            number: 4,
            last: Position {
                stamp,
                rank: 0,
                session: 1,
            },
            hint: None,
        };
        self.lane.begin(&session, call)
    }

    fn call(&mut self, rt: &impl Abort, stamp: u32, call: &Call) {
        assert_eq!(rt; self.try_call(rt, stamp, call), Ok(()));
    }

    fn get(&mut self, rt: &impl Abort, key: u64, stamp: u32) {
        self.call(rt, stamp, &Call::Get { key });
    }

    fn put(&mut self, rt: &impl Abort, key: u64, value: Value) {
        self.call(rt, 0, &Call::Put { key, value });
    }

    fn delete(&mut self, rt: &impl Abort, key: u64) {
        self.call(rt, 0, &Call::Delete { key });
    }

    fn try_task(&mut self, rt: &impl Abort, task: Task) -> Result<(), Refuse> {
        match task {
            Task::Release { slot } => assert!(rt; slot < 64),
            Task::Trim => {}
            Task::Share { key } | Task::Unshare { key } => assert!(rt; key != 0),
        }
        self.lane.begin_task(task)
    }

    fn task(&mut self, rt: &impl Abort, task: Task) {
        assert_eq!(rt; self.try_task(rt, task), Ok(()));
    }

    /// Carries out the next action.
    fn act(&mut self, rt: &impl Abort) -> Action {
        let Some(action) = self.lane.next() else {
            panic!(rt; "a plan is under way");
        };
        assert!(rt; action.at() < self.pool.size());
        let Ok(found) = exec(&mut self.pool, &action) else {
            panic!(rt; "no access fails");
        };
        self.turn = self.lane.take(found);
        action
    }

    /// The next actions are loads of these words.
    fn loads(&mut self, rt: &impl Abort, words: &[u32]) {
        for at in words {
            assert_eq!(rt; self.act(rt), Action::Load { at: *at });
        }
    }

    /// The next actions are these stores.
    fn stores(&mut self, rt: &impl Abort, words: &[(u32, u64)]) {
        for (at, word) in words {
            let store = Action::Store {
                at: *at,
                word: *word,
            };
            assert_eq!(rt; self.act(rt), store);
        }
    }

    /// The next actions are the load of a counter and an add of 1.
    fn claims(&mut self, rt: &impl Abort, at: u32) {
        assert_eq!(rt; self.act(rt), Action::Load { at });
        assert_eq!(rt; self.act(rt), Action::Add { at, by: 1 });
    }

    /// The next action is an exchange.
    fn exchanges(&mut self, rt: &impl Abort, at: u32, old: u64, new: u64) {
        assert_eq!(rt; self.act(rt), Action::Cas { at, old, new });
    }

    /// Carries the plan through, whatever its actions are.
    fn finish(&mut self, rt: &impl Abort) {
        for _ in 0..200 {
            if !self.lane.working() {
                return;
            }
            self.act(rt);
        }
        panic!(rt; "the plan ends");
    }

    /// The plan has ended so.
    fn ends(&self, rt: &impl Abort, expected: Outcome, text: &[u8]) {
        assert_eq!(rt; outcome_of(&self.turn), expected);
        assert_eq!(rt; reply_of(&self.turn), text);
        assert!(rt; !self.lane.working());
        assert_eq!(rt; (self.lane.next(), self.lane.staged()), (None, 0));
    }

    fn tended(&self, rt: &impl Abort, answer: TaskAnswer) {
        self.ends(rt, Outcome::Tended(answer), b"");
    }

    /// The records below the mark are merged, and the lane forgets them.
    fn trims(&mut self, rt: &impl Abort, mark: u64) {
        self.write(rt, 129, mark);
        self.task(rt, Task::Trim);
        self.loads(rt, &[129]);
        self.tended(rt, TaskAnswer::Trimmed { mark });
    }
}
