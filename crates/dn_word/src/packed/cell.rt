ghost use Rattle.std.specs.Prelude.{◌≡◌, ◌≢◌, ◌<◌, ◌+◌, ◌^◌, IfSome};
ghost use Rattle.std.specs.Option.{ForSome};
ghost use Rattle.dn_word.specs.Cell.{cell_of, cell_word};

use crate::packed::gate::MAX_STAMP;
use crate::packed::place::Ref;

/// The word through which several lanes reach the value of a key that they share.
#[derive(Clone, Copy, Debug, PartialEq, Eq)]
pub struct Cell {
    /// Whether the sharing has ended: the word then never changes again.
    pub closed: bool,
    /// The stamp of the last call that changed the word, up to [`MAX_STAMP`].
    pub stamp: u32,
    /// The record that has the value; None is an absent value.
    pub at: Option<Ref>,
}

impl Cell {
    /// The cell that a word holds, from the highest bit: 1 bit of the closing, 31 of the stamp, 32 of the place.
    pub fn read(word: u64) -> Cell
        ensures value { result ≡ cell_of word }
        ensures stamp { result.stamp < 2 ^ 31 }
        ensures at { IfSome result.at (λ at. at.offset < 2 ^ 24) }
    {
        Cell {
            closed: word >> 63 == 1,
            stamp: ((word >> 32) & u64::from(MAX_STAMP)) as u32,
            at: Ref::read(word),
        }
    }

    /// The word of this cell, whose stamp is at most [`MAX_STAMP`] and whose place has an offset below 2^24.
    pub fn word(&self) -> u64
        requires stamp { self.now.stamp < 2 ^ 31 }
        requires at { ForSome self.now.at (λ at. at.offset < 2 ^ 24) }
        ensures value { result ≡ cell_word self.now }
        ensures again { ForSome self.now.at (λ at. at.lane + at.offset ≢ 0)
            → cell_of result ≡ self.now }
    {
        let place = match self.at {
            None => 0,
            Some(at) => at.word(),
        };
        ((self.closed as u64) << 63) + ((self.stamp as u64) << 32) + place
    }
}
