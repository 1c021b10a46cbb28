ghost use Rattle.std.specs.Prelude.{◌≡◌, ◌+◌, IfSome};
ghost use Rattle.dn_record.specs.Values.{words_for};
ghost use Rattle.dn_record.specs.Head.{head_word, head_words, header_for, HeadIs};
ghost use Rattle.dn_record.specs.Record.{head_of};
ghost use Rattle.dn_record.specs.Reading.{named, fits, head_in};

use crate::records::Record;
use crate::values::word_count;
use dn_word::{Header, MAX_BYTES};

/// What the header of a record says: its kind, and the length of its value in bytes, its cell's number or its length in words.
#[derive(Clone, Copy, Debug, PartialEq, Eq)]
pub enum Head {
    /// A key gets a value of so many bytes, at most 1,024.
    Put { bytes: u16 },
    /// A key loses its value.
    Delete,
    /// A key is shared by this cell.
    Share { cell: u8 },
    /// The sharing of a key ends.
    Unshare,
    /// A value of so many bytes, at most 1,024, that a cell leads to.
    Loose { bytes: u16 },
    /// No value, which a cell leads to.
    LooseDelete,
    /// So many words, from 1 to 1,023, up to the end of a segment.
    Pad { words: u16 },
}

/// The most words of a pad: it never fills a whole segment.
const MAX_PAD: u16 = 1023;

impl Head {
    /// The head of a record.
    pub fn of(rec: &Record) -> Head
        ensures value { result ≡ head_of rec.now }
    {
        match rec {
            Record::Put { value, .. } => Head::Put {
                bytes: value.as_bytes().len() as u16,
            },
            Record::Delete { .. } => Head::Delete,
            Record::Share { cell, .. } => Head::Share { cell: *cell },
            Record::Unshare { .. } => Head::Unshare,
            Record::Loose { value, .. } => Head::Loose {
                bytes: value.as_bytes().len() as u16,
            },
            Record::LooseDelete { .. } => Head::LooseDelete,
            Record::Pad { words } => Head::Pad { words: *words },
        }
    }

    /// The head that a word is the header of; None exactly where it is no header of the grammar. The last of 64 bits counts:
    /// fields that the kind doesn't use and the length in words have to be what the kind says.
    pub fn read(word: u64) -> Option<Head>
        ensures value { result ≡ head_in word }
        ensures spelled { (head : Head) → HeadIs word head → result ≡ Some head }
        ensures only { IfSome result (λ head. HeadIs word head) }
    {
        let head = Head::named(Header::read(word))?;
        if head.is_in_range() && head.word() == word {
            Some(head)
        } else {
            None
        }
    }

    /// The header's word.
    pub fn word(&self) -> u64
        ensures { result ≡ head_word self.now }
    {
        self.header().word()
    }

    /// The record's length in words, the header among them; of a pad all that it skips.
    pub fn words(&self) -> u16
        ensures { result ≡ head_words self.now }
    {
        self.header().words
    }

    /// The head of the kind that a header has the number of, whatever the header's other fields are.
    fn named(header: Header) -> Option<Head>
        ensures { result ≡ named header }
    {
        match header.kind {
            1 => Some(Head::Put {
                bytes: header.bytes,
            }),
            2 => Some(Head::Delete),
            3 => Some(Head::Share {
                cell: (header.cell & 0xff) as u8,
            }),
            4 => Some(Head::Unshare),
            5 => Some(Head::Loose {
                bytes: header.bytes,
            }),
            6 => Some(Head::LooseDelete),
            7 => Some(Head::Pad {
                words: header.words,
            }),
            _ => None,
        }
    }

    /// The fields of the header; those that the kind doesn't use are 0.
    fn header(&self) -> Header
        ensures { result ≡ header_for self.now }
    {
        match *self {
            Head::Put { bytes } => valued(1, bytes),
            Head::Delete => plain(2, 0, 2),
            Head::Share { cell } => plain(3, u16::from(cell), 3),
            Head::Unshare => plain(4, 0, 3),
            Head::Loose { bytes } => valued(5, bytes),
            Head::LooseDelete => plain(6, 0, 2),
            Head::Pad { words } => plain(7, 0, words),
        }
    }

    /// Whether the field that the header names is one of the grammar's.
    fn is_in_range(self) -> bool
        ensures { result ≡ fits self }
    {
        match self {
            Head::Put { bytes } | Head::Loose { bytes } => bytes as usize <= MAX_BYTES,
            Head::Pad { words } => words >= 1 && words <= MAX_PAD,
            Head::Share { .. } => true,
            Head::Delete => true,
            Head::Unshare => true,
            Head::LooseDelete => true,
        }
    }
}

/// The header of a record with a value.
fn valued(kind: u8, bytes: u16) -> Header
    ensures { result
        ≡ record { kind = kind; bytes = bytes; cell = 0; words = 2 + words_for bytes } }
{
    Header {
        kind,
        bytes,
        cell: 0,
        words: 2 + word_count(bytes),
    }
}

/// The header of a record without a value.
fn plain(kind: u8, cell: u16, words: u16) -> Header
    ensures { result ≡ record { kind = kind; bytes = 0; cell = cell; words = words } }
{
    Header {
        kind,
        bytes: 0,
        cell,
        words,
    }
}
