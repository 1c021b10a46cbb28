ghost use Rattle.std.specs.Prelude.{◌≡◌};
ghost use Rattle.dn_record.specs.Record.{length_in_words, with_value};

use crate::heads::Head;
use dn_word::{Ref, Value, ValueRoom};

/// A record of a lane's log. Put, Delete, Share and Unshare say where the value of their key is from then on.
#[derive(Drop)]
pub enum Record {
    /// The key has this value.
    Put { key: u64, value: Value },
    /// The key has no value.
    Delete { key: u64 },
    /// The key's value is reached through this cell, which is opened with this word.
    Share { key: u64, cell: u8, opening: u64 },
    /// The sharing ended with the value at this place, or with none.
    Unshare { key: u64, at: Option<Ref> },
    /// A value that a cell leads to.
    Loose { key: u64, value: Value },
    /// That there is no value, which a cell leads to.
    LooseDelete { key: u64 },
    /// So many words, from 1 to 1,023, up to the end of a segment. Only the first one is written.
    Pad { words: u16 },
}

/// A record without its value, which stands in the room that was looked with.
#[derive(Clone, Copy, Debug, PartialEq, Eq)]
pub enum Seen {
    /// The key has the value in the room.
    Put { key: u64 },
    /// The key has no value.
    Delete { key: u64 },
    /// The key's value is reached through this cell, which is opened with this word.
    Share { key: u64, cell: u8, opening: u64 },
    /// The sharing ended with the value at this place, or with none.
    Unshare { key: u64, at: Option<Ref> },
    /// The value in the room, which a cell leads to.
    Loose { key: u64 },
    /// That there is no value, which a cell leads to.
    LooseDelete { key: u64 },
    /// So many words, from 1 to 1,023, up to the end of a segment.
    Pad { words: u16 },
}

impl Seen {
    /// The record with the value that the room has, if its kind has one.
    pub fn with(self, room: ValueRoom) -> Record
        ensures { result ≡ with_value self room }
    {
        match self {
            Seen::Put { key } => Record::Put {
                key,
                value: room.into_value(),
            },
            Seen::Delete { key } => Record::Delete { key },
            Seen::Share { key, cell, opening } => Record::Share { key, cell, opening },
            Seen::Unshare { key, at } => Record::Unshare { key, at },
            Seen::Loose { key } => Record::Loose {
                key,
                value: room.into_value(),
            },
            Seen::LooseDelete { key } => Record::LooseDelete { key },
            Seen::Pad { words } => Record::Pad { words },
        }
    }
}

/// The length of a record in words, its header among them; of a pad all that it skips.
pub fn words_of(rec: &Record) -> u16
    ensures { result ≡ length_in_words rec.now }
{
    Head::of(rec).words()
}
