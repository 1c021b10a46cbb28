ghost use Rattle.std.specs.Prelude.{◌≡◌, ◌≤◌, is_some, if◌then◌else◌};
ghost use Rattle.dn_record.specs.Head.{IsHead};
ghost use Rattle.dn_record.specs.Reading.{key_in, is_filled, valued_key_in, value_in, is_opening, is_place_word, is_place, share_in, unshare_in, seen_in, held_in};

use crate::heads::Head;
use crate::records::Seen;
use crate::values::word_count;
use dn_word::regions::LANES;
use dn_word::{Cell, Ref, ValueRoom};

/// The record of this head that begins the words; its value, if it has one, is put into the room. None, and the room stays,
/// where they are too short or a word behind the header is outside the grammar.
pub(crate) fn seen(head: &Head, words: &[u64], room: &mut ValueRoom) -> Option<Seen>
    requires { IsHead head.now }
    ensures record { result ≡ seen_in head.now words.now }
    ensures room { room.new ≡ (if is_some result then held_in head.now words.now room.old else
        room.old) }
{
    match *head {
        Head::Put { bytes } => Some(Seen::Put {
            key: valued_key(bytes, words, room)?,
        }),
        Head::Delete => Some(Seen::Delete {
            key: key(2, words)?,
        }),
        Head::Share { cell } => share(cell, words),
        Head::Unshare => unshare(words),
        Head::Loose { bytes } => Some(Seen::Loose {
            key: valued_key(bytes, words, room)?,
        }),
        Head::LooseDelete => Some(Seen::LooseDelete {
            key: key(2, words)?,
        }),
        Head::Pad { words } => Some(Seen::Pad { words }),
    }
}

/// The key of a record of so many words.
fn key(count: usize, words: &[u64]) -> Option<u64>
    requires { 2 ≤ count }
    ensures { result ≡ key_in count words.now }
{
    if count <= words.len() && words[1] != 0 {
        Some(words[1])
    } else {
        None
    }
}

/// The key of a record with a value of so many bytes, which is put into the room.
fn valued_key(bytes: u16, words: &[u64], room: &mut ValueRoom) -> Option<u64>
    requires { bytes ≤ 1024 }
    ensures key { result ≡ valued_key_in bytes words.now }
    ensures room { room.new ≡ (if is_some result then value_in bytes words.now else room.old) }
{
    let end = 2 + usize::from(word_count(bytes));
    let key = key(end, words)?;
    if !is_filled(bytes, words[end - 1]) {
        return None;
    }
    room.fill_words(&words[2..end], bytes);
    Some(key)
}

/// Whether the last word of so many bytes is zero above them.
fn is_filled(bytes: u16, last: u64) -> bool
    ensures { result ≡ is_filled bytes last }
{
    let over = bytes % 8;
    over == 0 || last >> (8 * over) == 0
}

fn share(cell: u8, words: &[u64]) -> Option<Seen>
    ensures { result ≡ share_in cell words.now }
{
    let key = key(3, words)?;
    let opening = words[2];
    if is_opening(opening) {
        Some(Seen::Share { key, cell, opening })
    } else {
        None
    }
}

fn unshare(words: &[u64]) -> Option<Seen>
    ensures { result ≡ unshare_in words.now }
{
    let key = key(3, words)?;
    let word = words[2];
    if is_place_word(word) {
        Some(Seen::Unshare {
            key,
            at: Ref::read(word),
        })
    } else {
        None
    }
}

/// Whether a cell can be opened with this word.
fn is_opening(word: u64) -> bool
    ensures { result ≡ is_opening word }
{
    let cell = Cell::read(word);
    !cell.closed && cell.stamp >= 1 && is_place(cell.at)
}

/// Whether a word is a place, or 0 for none.
fn is_place_word(word: u64) -> bool
    ensures { result ≡ is_place_word word }
{
    word >> 32 == 0 && is_place(Ref::read(word))
}

/// Whether a place, if there is one, lies in the log of a lane.
fn is_place(at: Option<Ref>) -> bool
    ensures { result ≡ is_place at }
{
    match at {
        None => true,
        Some(at) => at.lane >= 1 && at.lane <= LANES,
    }
}
