//! The same calls by nodes and mergers alone: no session waits, and nothing is asked of a world. One call is made after the other,
//! and no receipt is kept; or all nodes act in turn, as in a world, and the receipts are kept as there.

ghost use Rattle.std.specs.Prelude.{◌≡◌};
ghost use Rattle.dn_hist.specs.Calls.{key_of};

use crate::loads::call;
use crate::plays::{LANES, SEGMENTS};
use crate::tallies::Tally;
use dn_act::{Action, Memory, Sound, exec};
use dn_hist::{Call, Receipt, SessionView};
use dn_lane::{Answer, Lane, Turn};
use dn_merge::Merger;
use dn_word::regions::deed_at;
use dn_word::{Deed, MAX_STAMP, Position, slot_of};
use dn_world::World;
use std::alloc::Global;

/// How many sessions make calls.
const SESSIONS: u32 = 50;

/// More actions than any call needs.
const MOST: u32 = 10_000;

/// More turns than any number of calls takes here.
const MOST_TURNS: u32 = 100_000_000;

/// After every fifth call its node's merger makes so many actions.
const MERGES: u32 = 12;

/// What a session knows between its calls.
#[derive(Clone, Copy)]
struct Client {
    number: u32,
    last: Position,
}

/// Nodes with their mergers, over a pool in which they own all slots.
#[derive(Drop)]
struct Alone {
    alloc: Global,
    pool: Sound,
    lanes: Vec<Lane>,
    mergers: Vec<Merger>,
    owners: [u8; 64],
    clients: [Client; 51],
    /// The numbers of the calls that each node has yet to make, the first one last.
    queues: Vec<Vec<u32>>,
    kept: Vec<Receipt>,
    tally: Tally,
}

/// The key that a call is on.
fn key_of(call: &Call) -> u64
    ensures { result ≡ key_of call.now }
{
    match call {
        Call::Get { key } | Call::Put { key, .. } | Call::Delete { key } => *key,
    }
}

/// Makes an action. None where its word lies behind the pool.
fn act(pool: &mut Sound, action: &Action) -> Option<u64> {
    if action.at() < pool.size() {
        exec(pool, action).ok()
    } else {
        None
    }
}

impl Alone {
    /// Nodes over the pool that the opening of a world leaves. None where memory is wanting.
    fn new(alloc: Global) -> Option<Alone> {
        let mut pool = Sound::new(alloc, SEGMENTS).ok()?;
        World::open(alloc, &mut pool, SEGMENTS, LANES).ok()?;
        let mut lanes = Vec::new(alloc);
        let mut mergers = Vec::new(alloc);
        let mut queues = Vec::new(alloc);
        for lane in 1..=LANES {
            queues.push(Vec::new(alloc)).ok()?;
            lanes.push(Lane::new(alloc, lane, SEGMENTS).ok()?).ok()?;
            mergers.push(Merger::new(lane)).ok()?;
        }
        let mut owners = [0; 64];
        for slot in 0..64u8 {
            let word = act(&mut pool, &Action::Load { at: deed_at(slot) })?;
            owners[slot as usize] = Deed::read(word).lane;
        }
        let last = Position {
            stamp: 0,
            rank: 0,
            session: 0,
        };
        Some(Alone {
            alloc,
            pool,
            lanes,
            mergers,
            owners,
            clients: [Client { number: 0, last }; 51],
            queues,
            kept: Vec::new(alloc),
            tally: Tally::new(),
        })
    }

    /// A node carries out its call, action by action. None where it has none.
    fn drive(&mut self, at: usize) -> Option<Answer> {
        let lane = self.lanes.get_mut(at)?;
        for _ in 0..MOST {
            let action = lane.next()?;
            let word = act(&mut self.pool, &action)?;
            self.tally.count();
            if let Turn::Done(answer) = lane.take(word) {
                return Some(answer);
            }
        }
        None
    }

    /// A merger makes its next action.
    fn merge(&mut self, at: usize) -> Option<()> {
        let merger = self.mergers.get_mut(at)?;
        let word = act(&mut self.pool, &merger.next())?;
        if !merger.accepts(word) {
            return None;
        }
        merger.take(word);
        self.tally.count();
        Some(())
    }

    /// Where the owner of a call's key stands.
    fn owner_of(&self, call: &Call) -> Option<usize> {
        (self.owners[slot_of(key_of(call)) as usize] as usize).checked_sub(1)
    }

    /// A node begins a session's call.
    fn begin(&mut self, at: usize, session: u32, call: &Call) -> Option<()> {
        let client = self.clients.get_mut(session as usize)?;
        if key_of(call) == 0 || client.last.stamp > MAX_STAMP {
            return None;
        }
        client.number = client.number.saturating_add(1);
        let view = SessionView {
            session,
            number: client.number,
            last: Position {
                session,
                ..client.last
            },
            hint: None,
        };
        self.lanes.get_mut(at)?.begin(&view, call).ok()
    }

    /// The answer of a call is counted, and its session told. None where the call wasn't made.
    fn answered(&mut self, answer: Answer) -> Option<Receipt> {
        let Answer::Made { receipt, way } = answer else {
            return None;
        };
        self.tally.pass(way);
        self.tally.make(&receipt);
        let client = self.clients.get_mut(receipt.position.session as usize)?;
        client.last = receipt.position;
        Some(receipt)
    }

    /// The owner of its key makes a session's call.
    fn call(&mut self, session: u32, call: &Call) -> Option<()> {
        let at = self.owner_of(call)?;
        self.begin(at, session, call)?;
        let answer = self.drive(at)?;
        let receipt = self.answered(answer)?;
        if receipt.number % 5 == 0 {
            for _ in 0..MERGES {
                self.merge(at)?;
            }
        }
        Some(())
    }

    /// A node makes its next action, and begins its next call where it has none. Whether it had anything to do.
    fn step(&mut self, at: usize) -> Option<bool> {
        if !self.lanes.get(at)?.working() {
            let Some(number) = self.queues.get_mut(at)?.pop() else {
                return Some(false);
            };
            let call = call(self.alloc, number).ok()?;
            self.begin(at, number % SESSIONS + 1, &call)?;
        }
        let lane = self.lanes.get_mut(at)?;
        let action = lane.next()?;
        let word = act(&mut self.pool, &action)?;
        self.tally.count();
        if let Turn::Done(answer) = lane.take(word) {
            let receipt = self.answered(answer)?;
            self.kept.push(receipt).ok()?;
        }
        Some(true)
    }

    /// Every node has a turn, and with `merges` every merger. Whether a node had anything to do.
    fn turn(&mut self, merges: bool) -> Option<bool> {
        let mut busy = false;
        for at in 0..LANES as usize {
            busy |= self.step(at)?;
            if merges {
                self.merge(at)?;
            }
        }
        Some(busy)
    }
}

/// Makes so many calls, session by session. None where memory is wanting or a call isn't made.
pub fn play(alloc: Global, calls: u32) -> Option<Tally> {
    let mut alone = Alone::new(alloc)?;
    for number in 0..calls {
        let call = call(alloc, number).ok()?;
        alone.call(number % SESSIONS + 1, &call)?;
    }
    Some(alone.tally)
}

/// Makes so many calls, each by its key's owner as soon as that is free; all nodes act in turn, and in every fourth turn their
/// mergers too. None where memory is wanting or a call isn't made.
pub fn play_in_turn(alloc: Global, calls: u32) -> Option<Tally> {
    let mut alone = Alone::new(alloc)?;
    for number in (0..calls).rev() {
        let at = alone.owner_of(&call(alloc, number).ok()?)?;
        alone.queues.get_mut(at)?.push(number).ok()?;
    }
    for turn in 0..MOST_TURNS {
        if !alone.turn(turn % 4 == 0)? {
            break;
        }
    }
    Some(alone.tally)
}
