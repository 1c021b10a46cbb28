//! What became of the monitor's orders.

ghost use Rattle.std.specs.Prelude.{◌≡◌, ◌≤◌, ◌++◌, codes, length, OnOk, OnErr};
ghost use Rattle.std.specs.Fmt.{decimal};
ghost use Rattle.dn_print.specs.Front.{KeepsFront};
ghost use Rattle.dn_print.specs.OrderLine.{move_text, deed_text, waiting_text, answer_text, moved_text, busy_text, balance_text};

use crate::pieces::{byte, bytes, number as digits, whole, word};
use dn_word::OutOfMemory;

/// What the monitor answers of a move. Words are words of the pool.
#[derive(Clone, Copy, Debug, PartialEq, Eq, Drop)]
pub enum MoveAnswer {
    /// The slot is the target's: its deed.
    Granted { deed: u64 },
    /// The lane that is to leave the slot still has it: the deed that asks it to.
    Held { deed: u64 },
    /// Not all that the lane sealed which had the slot is merged: the merged mark, and the length of the log, in words.
    Waiting { mark: u64, need: u32 },
    /// The epochs of the slot's deed are used up: the last one.
    Worn { epoch: u32 },
}

/// Appends `move K L `.
#[tactic(auto, using(crate::proofs::FrontLemmas::keeps_on))]
fn head(out: &mut Vec<u8>, start: usize, key: u64, lane: u8) -> Result<(), OutOfMemory>
    requires { start ≤ length out.old.items }
    ensures ok { OnOk result (out.new.items ≡ out.old.items ++ move_text key lane) }
    ensures front { KeepsFront start out.old.items out.new.items }
{
    bytes(out, start, b"move ")?;
    digits(out, start, key)?;
    byte(out, start, b' ')?;
    digits(out, start, lane as u64)?;
    byte(out, start, b' ')
}

/// Appends a label, a deed and the line's end.
#[tactic(auto, using(crate::proofs::FrontLemmas::keeps_on))]
fn deed_at(out: &mut Vec<u8>, start: usize, label: &[u8], deed: u64) -> Result<(), OutOfMemory>
    requires { start ≤ length out.old.items }
    ensures ok { OnOk result (out.new.items ≡ out.old.items ++ deed_text label.now deed) }
    ensures front { KeepsFront start out.old.items out.new.items }
{
    bytes(out, start, label)?;
    word(out, start, deed)?;
    byte(out, start, b'\n')
}

/// Appends that the monitor waits for a merged mark.
#[tactic(auto, using(crate::proofs::FrontLemmas::keeps_on))]
fn waiting(out: &mut Vec<u8>, start: usize, mark: u64, need: u32) -> Result<(), OutOfMemory>
    requires { start ≤ length out.old.items }
    ensures ok { OnOk result (out.new.items ≡ out.old.items ++ waiting_text mark need) }
    ensures front { KeepsFront start out.old.items out.new.items }
{
    bytes(out, start, b"waiting ")?;
    digits(out, start, mark)?;
    byte(out, start, b' ')?;
    digits(out, start, need as u64)?;
    byte(out, start, b'\n')
}

/// Appends a label, a number and the line's end.
#[tactic(auto, using(crate::proofs::FrontLemmas::keeps_on))]
fn counted(out: &mut Vec<u8>, start: usize, label: &[u8], count: u64) -> Result<(), OutOfMemory>
    requires { start ≤ length out.old.items }
    ensures ok { OnOk result (out.new.items ≡ out.old.items
        ++ (label.now ++ (decimal count ++ codes "\n"))) }
    ensures front { KeepsFront start out.old.items out.new.items }
{
    bytes(out, start, label)?;
    digits(out, start, count)?;
    byte(out, start, b'\n')
}

/// Appends what the monitor answers, and the line's end.
#[tactic(auto, using(crate::proofs::FrontLemmas::keeps_on))]
fn answered(out: &mut Vec<u8>, start: usize, answer: MoveAnswer) -> Result<(), OutOfMemory>
    requires { start ≤ length out.old.items }
    ensures ok { OnOk result (out.new.items ≡ out.old.items ++ answer_text answer) }
    ensures front { KeepsFront start out.old.items out.new.items }
{
    match answer {
        MoveAnswer::Granted { deed } => deed_at(out, start, b"granted ", deed),
        MoveAnswer::Held { deed } => deed_at(out, start, b"held ", deed),
        MoveAnswer::Waiting { mark, need } => waiting(out, start, mark, need),
        MoveAnswer::Worn { epoch } => counted(out, start, b"worn ", epoch as u64),
    }
}

/// Appends a move's line.
#[tactic(auto, using(crate::proofs::FrontLemmas::keeps_on))]
fn moved_line(
    out: &mut Vec<u8>,
    start: usize,
    key: u64,
    lane: u8,
    answer: MoveAnswer,
) -> Result<(), OutOfMemory>
    requires { start ≤ length out.old.items }
    ensures ok { OnOk result (out.new.items ≡ out.old.items ++ moved_text key lane answer) }
    ensures front { KeepsFront start out.old.items out.new.items }
{
    head(out, start, key, lane)?;
    answered(out, start, answer)
}

/// Appends the line of a move of a key's slot to a lane; in a line of a balance the slot's number stands for the key.
/// Where memory is wanting, `out` stays.
#[tactic(auto, using(crate::proofs::FrontLemmas::taken_back))]
pub fn moved(out: &mut Vec<u8>, key: u64, lane: u8, answer: MoveAnswer) -> Result<(), OutOfMemory>
    ensures ok { OnOk result (out.new.items ≡ out.old.items ++ moved_text key lane answer) }
    ensures same { OnErr result (out.new.items ≡ out.old.items) }
{
    let start = out.len();
    let made = moved_line(out, start, key, lane, answer);
    whole(out, start, made)
}

/// Appends the line of an order that isn't given, since another one is under way. Where memory is wanting, `out` stays.
#[tactic(auto, using(crate::proofs::FrontLemmas::taken_back))]
pub fn monitor_busy(out: &mut Vec<u8>) -> Result<(), OutOfMemory>
    ensures ok { OnOk result (out.new.items ≡ out.old.items ++ busy_text) }
    ensures same { OnErr result (out.new.items ≡ out.old.items) }
{
    let start = out.len();
    let made = bytes(out, start, b"monitor busy\n");
    whole(out, start, made)
}

/// Appends how many slots a balance has granted. Where memory is wanting, `out` stays.
#[tactic(auto, using(crate::proofs::FrontLemmas::taken_back))]
pub fn balanced(out: &mut Vec<u8>, slots: u8) -> Result<(), OutOfMemory>
    ensures ok { OnOk result (out.new.items ≡ out.old.items ++ balance_text slots) }
    ensures same { OnErr result (out.new.items ≡ out.old.items) }
{
    let start = out.len();
    let made = counted(out, start, b"balance ", slots as u64);
    whole(out, start, made)
}
