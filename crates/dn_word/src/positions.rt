ghost use Rattle.std.specs.Prelude.{◌≡◌, ◌<◌, ◌^◌, ◌-◌, IfSome};
ghost use Rattle.dn_word.specs.Need.{quiet_of, raised_of};

use crate::packed::gate::MAX_STAMP;

/// The greatest rank, 2^32 - 1.
pub const MAX_RANK: u32 = u32::MAX;

/// Where a reply stands in the history. The stamp decides first, then the rank, and the session breaks ties: logical clocks after
/// Lamport (1978), with ties broken by the caller.
#[derive(Clone, Copy, Debug, PartialEq, Eq, PartialOrd, Ord)]
pub struct Position {
    /// The stamp of the word at which the call was decided.
    pub stamp: u32,
    /// 0 for a call that raised the stamp; from 1 on for the reads of a session that left it.
    pub rank: u32,
    /// The session that called.
    pub session: u32,
}

/// What a reply's position has to exceed.
#[derive(Clone, Copy, Debug, PartialEq, Eq)]
pub struct Need {
    /// The floor of the key's deed.
    pub floor: u32,
    /// The session's last position.
    pub last: Position,
    /// The session that calls.
    pub session: u32,
}

impl Need {
    /// The position of a read at `stamp` that changes no word: behind the session's last position, and at the floor or above.
    ///
    /// It has the rank after the last one where the stamp is the last position's, else rank 1. None exactly where the stamp
    /// is less than the floor or than the last position's stamp, or that rank would be above [`MAX_RANK`]: then the stamp
    /// has to be raised.
    pub fn quiet(&self, stamp: u32) -> Option<Position>
        ensures { result ≡ quiet_of self.now stamp }
    {
        if stamp < self.floor || stamp < self.last.stamp {
            return None;
        }
        let rank = if stamp == self.last.stamp {
            if self.last.rank == MAX_RANK {
                return None;
            }
            self.last.rank + 1
        } else {
            1
        };
        Some(Position {
            stamp,
            rank,
            session: self.session,
        })
    }

    /// The position of a call that raises the stamp: one more than the greatest of `stamp`, the floor and the last position's
    /// stamp, with rank 0. None exactly where that greatest is [`MAX_STAMP`], which none of the three is above.
    pub fn raised(&self, stamp: u32) -> Option<Position>
        requires stamp { stamp < 2 ^ 31 }
        requires floor { self.now.floor < 2 ^ 31 }
        requires last { self.now.last.stamp < 2 ^ 31 }
        ensures value { result ≡ raised_of self.now stamp }
        ensures stamp { IfSome result (λ to. to.stamp < 2 ^ 31) }
    {
        let greatest = stamp.max(self.floor).max(self.last.stamp);
        if greatest == MAX_STAMP {
            return None;
        }
        Some(Position {
            stamp: greatest + 1,
            rank: 0,
            session: self.session,
        })
    }
}
