ghost use Rattle.std.specs.Prelude.{◌≡◌, ◌<◌, ◌^◌};
ghost use Rattle.dn_word.specs.Deed.{deed_of, deed_word};

use crate::packed::gate::MAX_STAMP;

/// The greatest epoch, 2^23 - 1.
pub const MAX_EPOCH: u32 = 0x7f_ffff;

/// How far a slot's change of owners has come.
#[derive(Clone, Copy, Debug, PartialEq, Eq)]
pub enum DeedState {
    /// No lane owns the slot.
    Nobody,
    /// The lane that the deed names owns it.
    Owned,
    /// That lane is asked to give it up.
    Leaving,
    /// That lane has given it up.
    Released,
}

/// The word that says who owns a slot of the key space.
#[derive(Clone, Copy, Debug, PartialEq, Eq)]
pub struct Deed {
    /// Whether the slot has an owner, and how it stands with it.
    pub state: DeedState,
    /// How often the slot was granted, up to [`MAX_EPOCH`].
    pub epoch: u32,
    /// The lane that the state speaks of, from 1 to 63, or 0 where there is none.
    pub lane: u8,
    /// A stamp, up to [`MAX_STAMP`], below which no later receipt on the slot's keys may stand.
    pub floor: u32,
}

impl Deed {
    /// The deed that a word holds, from the highest bit: 2 bits of the state, 23 of the epoch, 8 of the lane, 31 of the floor.
    pub fn read(word: u64) -> Deed
        ensures value { result ≡ deed_of word }
        ensures epoch { result.epoch < 2 ^ 23 }
        ensures floor { result.floor < 2 ^ 31 }
    {
        let state = match word >> 62 {
            0 => DeedState::Nobody,
            1 => DeedState::Owned,
            2 => DeedState::Leaving,
            _ => DeedState::Released,
        };
        Deed {
            state,
            epoch: ((word >> 39) & u64::from(MAX_EPOCH)) as u32,
            lane: ((word >> 31) & 0xff) as u8,
            floor: (word & u64::from(MAX_STAMP)) as u32,
        }
    }

    /// The word of this deed, whose epoch is at most [`MAX_EPOCH`] and whose floor is at most [`MAX_STAMP`].
    pub fn word(&self) -> u64
        requires epoch { self.now.epoch < 2 ^ 23 }
        requires floor { self.now.floor < 2 ^ 31 }
        ensures value { result ≡ deed_word self.now }
        ensures again { deed_of result ≡ self.now }
    {
        let state = match self.state {
            DeedState::Nobody => 0u64,
            DeedState::Owned => 1,
            DeedState::Leaving => 2,
            DeedState::Released => 3,
        };
        (state << 62) + ((self.epoch as u64) << 39) + ((self.lane as u64) << 31) + self.floor as u64
    }
}
