//! The calls of the sessions of a world, and the turns in which they are made.

ghost use Rattle.std.specs.Prelude.{◌≤◌, ◌<◌};

use crate::loads::call;
use crate::plays::{LANES, Play};
use crate::tallies::Tally;
use dn_hist::Call;
use dn_outcomes::{CallAnswer, Event, Outcome};
use dn_word::{OutOfMemory, slot_of};
use std::alloc::Global;

/// How many sessions make calls.
const SESSIONS: u32 = 50;

/// More turns than any number of calls takes here.
const MOST_TURNS: u32 = 100_000_000;

/// A world, and for each session, by its number, the slots whose deed it has loaded, a bit each.
#[derive(Drop)]
struct Player {
    alloc: Global,
    play: Play,
    known: [u64; 51],
    calls: u32,
    started: u32,
    answered: u32,
    tally: Tally,
}

/// The bit of the slot of a call's key.
fn bit_of(call: &Call) -> u64 {
    match call {
        Call::Get { key } | Call::Put { key, .. } | Call::Delete { key } => 1 << slot_of(*key),
    }
}

impl Player {
    /// A world of nodes that own all slots, over a pool in the process. So many calls are to be made.
    fn new(alloc: Global, calls: u32) -> Result<Player, OutOfMemory> {
        let play = Play::new(alloc)?;
        Ok(Player {
            alloc,
            play,
            known: [0; 51],
            calls,
            started: 0,
            answered: 0,
            tally: Tally::new(),
        })
    }

    /// A session starts a call, if more are to be made and it can number one more, and loads the deed that it doesn't know.
    fn start(&mut self, session: u32) -> Result<(), OutOfMemory>
        requires low { 1 ≤ session }
        requires high { session ≤ 50 }
    {
        if self.started >= self.calls || !self.play.can_number(session) {
            return Ok(());
        }
        let Ok(call) = call(self.alloc, self.started) else {
            return Err(OutOfMemory);
        };
        let bit = bit_of(&call);
        self.play.event(Event::Start {
            session,
            lane: None,
            call,
        })?;
        self.started = self.started.saturating_add(1);
        if self.known[session as usize] & bit == 0 {
            self.known[session as usize] |= bit;
            return self.load(session);
        }
        Ok(())
    }

    /// A session loads the deed that its call waits for.
    fn load(&mut self, session: u32) -> Result<(), OutOfMemory>
        requires low { 1 ≤ session }
        requires high { session ≤ 50 }
    {
        let outcome = self.play.event(Event::Refresh { session })?;
        self.tally.act(outcome);
        Ok(())
    }

    /// A node makes its next action.
    fn step(&mut self, lane: u8) -> Result<(), OutOfMemory> {
        let outcome = self.play.event(Event::Step { lane })?;
        self.tally.act(outcome);
        match outcome {
            Outcome::Answered {
                session,
                answer,
                given,
                ..
            } => self.told(session, answer, given),
            _ => Ok(()),
        }
    }

    /// An attempt of a session's call has ended: it starts its next call, or loads the deed again.
    fn told(&mut self, session: u32, answer: CallAnswer, given: bool) -> Result<(), OutOfMemory> {
        if session < 1 || SESSIONS < session {
            return Ok(());
        }
        if let CallAnswer::Made { .. } = answer {
            if let Some(last) = self.play.history().last() {
                self.tally.make(&last.receipt);
            }
        } else if !given {
            return self.load(session);
        }
        self.answered = self.answered.saturating_add(1);
        self.start(session)
    }

    /// Every node has a turn, and with `merges` every merger.
    fn turn(&mut self, merges: bool) -> Result<(), OutOfMemory> {
        for lane in 1..=LANES {
            self.step(lane)?;
            if merges {
                let outcome = self.play.event(Event::Merge { lane })?;
                self.tally.act(outcome);
            }
        }
        Ok(())
    }
}

/// Makes so many calls.
pub fn play(alloc: Global, calls: u32) -> Result<Tally, OutOfMemory> {
    let mut player = Player::new(alloc, calls)?;
    for session in 1..=SESSIONS {
        player.start(session)?;
    }
    for turn in 0..MOST_TURNS {
        if player.answered >= calls {
            break;
        }
        player.turn(turn % 4 == 0)?;
    }
    Ok(player.tally)
}
