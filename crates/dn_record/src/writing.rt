ghost use Rattle.std.specs.Prelude.{◌≡◌, ◌≤◌, ◌+◌, ◌∷◌, ◌++◌, length, drop};
ghost use Rattle.dn_record.specs.Values.{words_for, word_of, words_from, value_words};
ghost use Rattle.dn_record.specs.Record.{spelling, spelled_words, value_of};
ghost use Rattle.dn_record.specs.Grammar.{FieldsFit, IsPlace, IsRecord, IsValue};
ghost use Rattle.dn_word.specs.Ref.{ref_part};

use crate::heads::Head;
use crate::records::Record;
use dn_word::{Ref, Value};

/// Writes the words that spell a record into the front of `out` and answers how many they are: of a pad the header alone. The
/// rest of `out` stays. The record's fields are those of the grammar, and `out` has room for the words.
pub fn write(rec: &Record, out: &mut [u64]) -> usize
    requires fields { FieldsFit rec.now }
    requires room { spelled_words rec.now ≤ length out.old }
    ensures record { IsRecord rec.now }
    ensures words { out.new ≡ spelling rec.now ++ drop (spelled_words rec.now) out.old }
    ensures length { result ≡ spelled_words rec.now }
{
    let head = Head::of(rec).word();
    match rec {
        Record::Put { key, value } => write_valued(head, *key, value, out),
        Record::Delete { key } => write_two(head, *key, out),
        Record::Share { key, opening, .. } => write_three(head, *key, *opening, out),
        Record::Unshare { key, at } => write_three(head, *key, place_word(*at), out),
        Record::Loose { key, value } => write_valued(head, *key, value, out),
        Record::LooseDelete { key } => write_two(head, *key, out),
        Record::Pad { .. } => {
            out[0] = head;
            1
        }
    }
}

/// Writes the words that spell the put of a key's value, which the caller keeps, and answers how many they are. The rest of
/// `out` stays.
pub fn write_put(key: u64, value: &Value, out: &mut [u64]) -> usize
    requires room { 2 + words_for (length value.now) ≤ length out.old }
    ensures words { out.new ≡ spelling (Record.Put key value.now)
        ++ drop (2 + words_for (length value.now)) out.old }
    ensures length { result ≡ 2 + words_for (length value.now) }
    ensures value { IsValue value.now }
{
    let bytes = value.as_bytes().len() as u16;
    write_valued(Head::Put { bytes }.word(), key, value, out)
}

/// Writes the words that spell a delete of a key, and answers how many they are. The rest of `out` stays.
pub fn write_delete(key: u64, out: &mut [u64]) -> usize
    requires room { 2 ≤ length out.old }
    ensures words { out.new ≡ spelling (Record.Delete key) ++ drop 2 out.old }
    ensures length { result ≡ 2 }
{
    write_two(Head::Delete.word(), key, out)
}

fn write_two(head: u64, key: u64, out: &mut [u64]) -> usize
    requires { 2 ≤ length out.old }
    ensures words { out.new ≡ head ∷ key ∷ drop 2 out.old }
    ensures length { result ≡ 2 }
{
    out[..2].copy_from_slice(&[head, key]);
    2
}

fn write_three(head: u64, key: u64, third: u64, out: &mut [u64]) -> usize
    requires { 3 ≤ length out.old }
    ensures words { out.new ≡ head ∷ key ∷ third ∷ drop 3 out.old }
    ensures length { result ≡ 3 }
{
    out[..3].copy_from_slice(&[head, key, third]);
    3
}

fn write_valued(head: u64, key: u64, value: &Value, out: &mut [u64]) -> usize
    requires { 2 + words_for (length value.now) ≤ length out.old }
    ensures words { out.new ≡ head ∷ key ∷ value_words value.now
        ++ drop (2 + words_for (length value.now)) out.old }
    ensures length { result ≡ 2 + words_for (length value.now) }
    ensures value { IsValue value.now }
{
    out[..2].copy_from_slice(&[head, key]);
    2 + write_bytes(value.as_bytes(), &mut out[2..])
}

/// Writes the words of a value's bytes.
fn write_bytes(bytes: &[u8], out: &mut [u64]) -> usize
    requires short { length bytes.now ≤ 1024 }
    requires room { words_for (length bytes.now) ≤ length out.old }
    ensures words { out.new ≡ value_words bytes.now ++ drop
        (words_for (length bytes.now)) out.old }
    ensures length { result ≡ words_for (length bytes.now) }
    ensures value { IsValue bytes.now }
{
    let count = (bytes.len() + 7) / 8;
    for index in 0..count {
        out[index] = word(&bytes[8 * index..]);
    }
    count
}

/// The word of the first eight bytes, filled with zeros.
fn word(bytes: &[u8]) -> u64
    ensures { result ≡ word_of bytes.now }
{
    let count = bytes.len().min(8);
    let mut piece = [0u8; 8];
    piece[..count].copy_from_slice(&bytes[..count]);
    u64::from_le_bytes(piece)
}

fn place_word(at: Option<Ref>) -> u64
    requires { IsPlace at }
    ensures { result ≡ ref_part at }
{
    match at {
        None => 0,
        Some(at) => at.word(),
    }
}
