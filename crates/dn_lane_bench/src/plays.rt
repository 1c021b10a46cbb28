//! A lane over a pool in the process, and its calls.

ghost use Rattle.std.specs.Prelude.{◌≢◌, ◌≡◌, ◌≤◌, ◌<◌, ◌^◌, IfOk, length};
ghost use Rattle.dn_act.specs.Words.{pool_size};
ghost use Rattle.dn_hist.specs.Calls.{key_of};

use crate::loads::Load;
use crate::tallies::Tally;
use anyhow::bail;
use dn_act::{Failed, Memory, Sound, exec};
use dn_hist::{Call, SessionView};
use dn_lane::{Answer, Lane, Turn};
use dn_word::regions::{FORMAT_AT, SLOTS, deed_at};
use dn_word::{Deed, DeedState, FORMAT_NUMBER, Format, MAX_STAMP, Position};
use std::alloc::Global;

/// The number of the lane.
const LANE: u8 = 1;

/// The number of the session that calls.
const SESSION: u32 = 1;

/// More calls than any log has room for; a log of 256 segments has it for 87,296 puts.
const MOST_CALLS: u32 = 1_000_000;

/// A lane with a pool of its own, and the last position of the session that calls it.
#[derive(Drop)]
struct Player {
    lane: Lane,
    pool: Sound,
    last: Position,
    ghost reach: { pool_size lane.base.known.log.pool ≤ length pool },
    ghost stamp: { last.stamp < 2 ^ 31 },
}

/// Gives all slots of a pool of zeros to the lane.
fn grant(pool: &mut Sound, segments: u32) -> Result<(), Failed>
    requires { pool_size 0 ≤ length pool.old }
    ensures { length pool.new ≡ length pool.old }
{
    let format = Format {
        segments,
        number: FORMAT_NUMBER,
    };
    pool.store(FORMAT_AT, format.word())?;
    let owned = Deed {
        state: DeedState::Owned,
        epoch: 1,
        lane: LANE,
        floor: 0,
    };
    for slot in 0..SLOTS {
        pool.store(deed_at(slot), owned.word())?;
    }
    Ok(())
}

impl Player {
    /// A fresh lane over a fresh pool of so many segments.
    fn new(alloc: Global, segments: u32) -> anyhow::Result<Player>
        requires { segments ≤ 8192 }
    {
        let mut pool = Sound::new(alloc, segments)?;
        grant(&mut pool, segments)?;
        let lane = Lane::new(alloc, LANE, segments)?;
        Ok(Player {
            lane,
            pool,
            last: Position {
                stamp: 0,
                rank: 0,
                session: SESSION,
            },
        })
    }

    /// Carries out the call under way, action by action. None where nothing is under way.
    fn drive(&mut self, tally: &mut Tally) -> Result<Option<Answer>, Failed> {
        while let Some(action) = self.lane.next() {
            let word = exec(&mut self.pool, &action)?;
            tally.act(word);
            if let Turn::Done(answer) = self.lane.take(word) {
                return Ok(Some(answer));
            }
        }
        Ok(None)
    }

    /// Makes a call. Answers false where the log has no room for its record.
    fn play(&mut self, number: u32, call: &Call, tally: &mut Tally) -> anyhow::Result<bool>
        requires { key_of call.now ≢ 0 }
    {
        let view = SessionView {
            session: SESSION,
            number,
            last: self.last,
            hint: None,
        };
        self.lane.begin(&view, call)?;
        match self.drive(tally)? {
            Some(Answer::Made { receipt, way }) if receipt.position.stamp <= MAX_STAMP => {
                tally.make(&receipt, way);
                self.last = receipt.position;
                Ok(true)
            }
            Some(Answer::Full { .. }) => Ok(false),
            _ => bail!("call {number} isn't made"),
        }
    }
}

/// Plays one round of a load.
fn round(alloc: Global, load: &Load, tally: &mut Tally) -> anyhow::Result<()> {
    let mut player = Player::new(alloc, load.segments)?;
    for number in 0..MOST_CALLS {
        let call = load.call(alloc, number)?;
        if !player.play(number + 1, &call, tally)? {
            break;
        }
    }
    Ok(())
}

/// Plays all rounds of a load.
pub fn play(alloc: Global, load: &Load) -> anyhow::Result<Tally> {
    let mut tally = Tally::new();
    for _ in 0..load.rounds {
        round(alloc, load, &mut tally)?;
    }
    Ok(tally)
}
