//! The records that are sealed: their lengths, their words.

ghost use Rattle.std.specs.Prelude.{◌≡◌, ◌≤◌, length, take};
ghost use Rattle.dn_hist.specs.Calls.{key_of};
ghost use Rattle.dn_record.specs.Record.{spelling};
ghost use Rattle.dn_services.specs.Spelled.{IsWrite, call_spelling, call_words, task_record};
ghost use Rattle.dn_tend.specs.Fit.{FitsRecord};

use dn_hist::Call;
use dn_record::{Head, write_delete, write_put};
use dn_tend::TendSeal;

/// The most words of a record: a header, a key, and a value of 1,024 bytes.
pub const MAX_WORDS: usize = 130;

/// The words of a task's record.
pub const TASK_WORDS: u16 = 3;

/// The key of a call.
pub fn key_of(call: &Call) -> u64
    ensures { result ≡ key_of call.now }
{
    match call {
        Call::Get { key } | Call::Put { key, .. } | Call::Delete { key } => *key,
    }
}

/// The words of the record of a put or delete, its header among them.
pub fn call_words(call: &Call) -> u16
    requires { IsWrite call.now }
    ensures value { result ≡ call_words call.now }
    ensures least { 2 ≤ result }
    ensures most { result ≤ 130 }
{
    match call {
        Call::Get { .. } => unreachable!(),
        Call::Put { value, .. } => 2 + value.as_bytes().len().div_ceil(8) as u16,
        Call::Delete { .. } => 2,
    }
}

/// Writes the words of the record of a put or delete, and answers how many they are.
pub fn spell_call(call: &Call, out: &mut [u64]) -> usize
    requires write { IsWrite call.now }
    requires room { call_words call.now ≤ length out.old }
    ensures words { take result out.new ≡ call_spelling call.now }
    ensures count { result ≡ call_words call.now }
{
    match call {
        Call::Get { .. } => unreachable!(),
        Call::Put { key, value } => write_put(*key, value, out),
        Call::Delete { key } => write_delete(*key, out),
    }
}

/// The words of a task's record for this key.
pub fn spell_task(key: u64, seal: TendSeal) -> [u64; 3]
    requires { FitsRecord seal }
    ensures { result ≡ spelling (task_record key seal) }
{
    match seal {
        TendSeal::Share { cell, opening, .. } => [Head::Share { cell }.word(), key, opening],
        TendSeal::Unshare { at, .. } => {
            let place = match at {
                None => 0,
                Some(at) => at.word(),
            };
            [Head::Unshare.word(), key, place]
        }
    }
}
