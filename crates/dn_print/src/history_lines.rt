//! The history.

ghost use Rattle.std.specs.Prelude.{◌≡◌, ◌≤◌, ◌++◌, length, OnOk, OnErr};
ghost use Rattle.dn_print.specs.Front.{KeepsFront};
ghost use Rattle.dn_print.specs.HistoryLine.{place_text, verb_text, call_text, tail_text, history_head_text, history_line_text};

use crate::pieces::{byte, bytes, number as digits, position as points, reply, value, whole};
use dn_hist::{Call, Receipt};
use dn_word::{OutOfMemory, Position};

/// Appends the line that heads a history.
#[tactic(auto, using(crate::proofs::FrontLemmas::keeps_on))]
fn head_line(out: &mut Vec<u8>, start: usize, receipts: u64) -> Result<(), OutOfMemory>
    requires { start ≤ length out.old.items }
    ensures ok { OnOk result (out.new.items ≡ out.old.items ++ history_head_text receipts) }
    ensures front { KeepsFront start out.old.items out.new.items }
{
    bytes(out, start, b"history ")?;
    digits(out, start, receipts)?;
    byte(out, start, b'\n')
}

/// Appends the line that heads a history of so many receipts. Where memory is wanting, `out` stays.
#[tactic(auto, using(crate::proofs::FrontLemmas::taken_back))]
pub fn history_head(out: &mut Vec<u8>, receipts: u64) -> Result<(), OutOfMemory>
    ensures ok { OnOk result (out.new.items ≡ out.old.items ++ history_head_text receipts) }
    ensures same { OnErr result (out.new.items ≡ out.old.items) }
{
    let start = out.len();
    let made = head_line(out, start, receipts);
    whole(out, start, made)
}

/// Appends a position and a number.
#[tactic(auto, using(crate::proofs::FrontLemmas::keeps_on))]
fn place(
    out: &mut Vec<u8>,
    start: usize,
    position: Position,
    number: u32,
) -> Result<(), OutOfMemory>
    requires { start ≤ length out.old.items }
    ensures ok { OnOk result (out.new.items ≡ out.old.items ++ place_text position number) }
    ensures front { KeepsFront start out.old.items out.new.items }
{
    points(out, start, position)?;
    byte(out, start, b' ')?;
    digits(out, start, number as u64)?;
    byte(out, start, b' ')
}

/// Appends a verb and a key.
#[tactic(auto, using(crate::proofs::FrontLemmas::keeps_on))]
fn verb(out: &mut Vec<u8>, start: usize, verb: &[u8], key: u64) -> Result<(), OutOfMemory>
    requires { start ≤ length out.old.items }
    ensures ok { OnOk result (out.new.items ≡ out.old.items ++ verb_text verb.now key) }
    ensures front { KeepsFront start out.old.items out.new.items }
{
    bytes(out, start, verb)?;
    byte(out, start, b' ')?;
    digits(out, start, key)?;
    byte(out, start, b' ')
}

/// Appends a call.
#[tactic(auto, using(crate::proofs::FrontLemmas::keeps_on))]
fn call(out: &mut Vec<u8>, start: usize, call: &Call) -> Result<(), OutOfMemory>
    requires { start ≤ length out.old.items }
    ensures ok { OnOk result (out.new.items ≡ out.old.items ++ call_text call.now) }
    ensures front { KeepsFront start out.old.items out.new.items }
{
    match call {
        Call::Get { key } => verb(out, start, b"get", *key),
        Call::Put { key, value: given } => {
            verb(out, start, b"put", *key)?;
            value(out, start, given.as_bytes())?;
            byte(out, start, b' ')
        }
        Call::Delete { key } => verb(out, start, b"del", *key),
    }
}

/// Appends the line's end.
#[tactic(auto, using(crate::proofs::FrontLemmas::keeps_on))]
fn tail(out: &mut Vec<u8>, start: usize, answered: bool) -> Result<(), OutOfMemory>
    requires { start ≤ length out.old.items }
    ensures ok { OnOk result (out.new.items ≡ out.old.items ++ tail_text answered) }
    ensures front { KeepsFront start out.old.items out.new.items }
{
    if answered {
        byte(out, start, b'\n')
    } else {
        bytes(out, start, b" unanswered\n")
    }
}

/// Appends the line of a receipt.
#[tactic(auto, using(crate::proofs::FrontLemmas::keeps_on))]
fn receipt_line(
    out: &mut Vec<u8>,
    start: usize,
    receipt: &Receipt,
    answered: bool,
) -> Result<(), OutOfMemory>
    requires { start ≤ length out.old.items }
    ensures ok { OnOk result (out.new.items ≡ out.old.items
        ++ history_line_text receipt.now answered) }
    ensures front { KeepsFront start out.old.items out.new.items }
{
    place(out, start, receipt.position, receipt.number)?;
    call(out, start, &receipt.call)?;
    reply(out, start, &receipt.reply)?;
    tail(out, start, answered)
}

/// Appends the line of a receipt: its position, its number, the call and the reply, and whether the call has no answer.
/// Where memory is wanting, `out` stays.
#[tactic(auto, using(crate::proofs::FrontLemmas::taken_back))]
pub fn history_line(out: &mut Vec<u8>, receipt: &Receipt, answered: bool) -> Result<(), OutOfMemory>
    ensures ok { OnOk result (out.new.items ≡ out.old.items
        ++ history_line_text receipt.now answered) }
    ensures same { OnErr result (out.new.items ≡ out.old.items) }
{
    let start = out.len();
    let made = receipt_line(out, start, receipt, answered);
    whole(out, start, made)
}
