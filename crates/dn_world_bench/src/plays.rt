//! A world with a pool in the process, of which no access fails.

ghost use Rattle.std.specs.Prelude.{IsTrue};
ghost use Rattle.dn_callers.specs.Sessions.{IsSession};
ghost use Rattle.dn_world.specs.Happens.{HasNumber, MayBeGiven};

use dn_act::Sound;
use dn_outcomes::{Event, Outcome};
use dn_word::OutOfMemory;
use dn_world::{Standing, World};
use std::alloc::Global;
use std::marker::Model;

/// How many segments the pool has.
pub const SEGMENTS: u32 = 1_024;

/// How many nodes there are.
pub const LANES: u8 = 8;

/// A world over the words of its pool. Contracts see it as the world, which some told positions make sound.
#[derive(Drop)]
pub struct Play {
    pool: Sound,
    world: World,
}

impl Model for Play {
    ghost use Rattle.dn_world.specs.Happens.{CanBeSound};
    ghost use Rattle.dn_world.specs.State.{WorldState};

    ghost Value = { WorldState };

    ghost view = { λ play. play.world };

    ghost invariant = { λ play. CanBeSound play.pool play.world };
}

impl Play {
    /// A world of nodes that own all slots.
    pub fn new(alloc: Global) -> Result<Play, OutOfMemory> {
        let Ok(mut pool) = Sound::new(alloc, SEGMENTS) else {
            return Err(OutOfMemory);
        };
        let world = World::open(alloc, &mut pool, SEGMENTS, LANES)?;
        Ok(Play { pool, world })
    }

    /// The world does an event.
    pub fn event(&mut self, event: Event) -> Result<Outcome, OutOfMemory>
        requires { MayBeGiven self.old event }
    {
        self.world.event(&mut self.pool, event)
    }

    /// Whether the session can number another call.
    pub fn can_number(&self, session: u32) -> bool
        requires { IsSession session }
        ensures { IsTrue result → HasNumber self.now.crew session }
    {
        self.world.cluster().session(session).again(0).number < u32::MAX
    }

    /// The receipts that stand.
    pub fn history(&self) -> &[Standing] {
        self.world.history()
    }
}
