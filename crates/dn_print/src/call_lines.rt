//! What became of a line of the script.

ghost use Rattle.std.specs.Prelude.{◌≡◌, ◌≤◌, ◌++◌, length, OnOk, OnErr};
ghost use Rattle.dn_print.specs.Front.{KeepsFront};
ghost use Rattle.dn_print.specs.CallLine.{head_text, end_text, cell_text, not_owner_text, fenced_text, again_text, full_text, worn_text, session_text, lane_event_text, made_text, event_text};

use crate::pieces::{byte, bytes, number as digits, position as place, reply, whole, word};
use dn_hist::Reply;
use dn_word::{OutOfMemory, Position};

/// What became of an event. An attempt of a call is told by the call's session and its number there. Words are words of
/// the pool.
#[derive(Clone, Copy, Debug, PartialEq, Eq, Drop)]
pub enum EventLine {
    /// The lane isn't the key's: the deed that it read, and the cell's word where it read one.
    NotOwner {
        session: u32,
        number: u32,
        look: u64,
        cell: Option<u64>,
    },
    /// The lane's gate is fenced: the gate's word.
    Fenced {
        session: u32,
        number: u32,
        word: u64,
    },
    /// A word wasn't the expected one: that, and the one that was seen.
    Again {
        session: u32,
        number: u32,
        old: u64,
        seen: u64,
    },
    /// There is no room for a record: how many segments of the pool are taken, or 0 where the lane has all that it may
    /// have, and how many the lane has.
    Full {
        session: u32,
        number: u32,
        counter: u64,
        segments: u32,
    },
    /// The stamps are used up: the last one.
    Worn {
        session: u32,
        number: u32,
        stamp: u32,
    },
    /// The call was given up after a refusal.
    Given {
        session: u32,
        number: u32,
    },
    /// The call will have no answer.
    Unanswered {
        session: u32,
        number: u32,
    },
    /// The session has a call already, and starts none.
    Busy {
        session: u32,
    },
    /// The session is closed, and starts no call.
    Closed {
        session: u32,
    },
    /// A lane was added, with this number.
    Lane {
        lane: u8,
    },
    /// There may be no more lanes.
    LanesFull,
    /// No lane with this number was made.
    NoLane {
        lane: u8,
    },
}

/// Appends `cS N ` for this session and number.
#[tactic(auto, using(crate::proofs::FrontLemmas::keeps_on))]
fn head(out: &mut Vec<u8>, start: usize, session: u32, number: u32) -> Result<(), OutOfMemory>
    requires { start ≤ length out.old.items }
    ensures ok { OnOk result (out.new.items ≡ out.old.items ++ head_text session number) }
    ensures front { KeepsFront start out.old.items out.new.items }
{
    byte(out, start, b'c')?;
    digits(out, start, session as u64)?;
    byte(out, start, b' ')?;
    digits(out, start, number as u64)?;
    byte(out, start, b' ')
}

/// Appends a position and the line's end.
#[tactic(auto, using(crate::proofs::FrontLemmas::keeps_on))]
fn end(out: &mut Vec<u8>, start: usize, position: Position) -> Result<(), OutOfMemory>
    requires { start ≤ length out.old.items }
    ensures ok { OnOk result (out.new.items ≡ out.old.items ++ end_text position) }
    ensures front { KeepsFront start out.old.items out.new.items }
{
    byte(out, start, b' ')?;
    place(out, start, position)?;
    byte(out, start, b'\n')
}

/// Appends the line of a call that was made.
#[tactic(auto, using(crate::proofs::FrontLemmas::keeps_on))]
fn made_line(
    out: &mut Vec<u8>,
    start: usize,
    session: u32,
    number: u32,
    answer: &Reply,
    position: Position,
) -> Result<(), OutOfMemory>
    requires { start ≤ length out.old.items }
    ensures ok { OnOk result (out.new.items ≡ out.old.items
        ++ made_text session number answer.now position) }
    ensures front { KeepsFront start out.old.items out.new.items }
{
    head(out, start, session, number)?;
    reply(out, start, answer)?;
    end(out, start, position)
}

/// Appends the line of a call that was made: its session, its number there, the reply and the position. Where memory is
/// wanting, `out` stays.
#[tactic(auto, using(crate::proofs::FrontLemmas::taken_back))]
pub fn made(
    out: &mut Vec<u8>,
    session: u32,
    number: u32,
    reply: &Reply,
    position: Position,
) -> Result<(), OutOfMemory>
    ensures ok { OnOk result (out.new.items ≡ out.old.items
        ++ made_text session number reply.now position) }
    ensures same { OnErr result (out.new.items ≡ out.old.items) }
{
    let start = out.len();
    let made = made_line(out, start, session, number, reply, position);
    whole(out, start, made)
}

/// Appends the cell's word, or `-`, and the line's end.
#[tactic(auto, using(crate::proofs::FrontLemmas::keeps_on))]
fn cell_end(out: &mut Vec<u8>, start: usize, cell: Option<u64>) -> Result<(), OutOfMemory>
    requires { start ≤ length out.old.items }
    ensures ok { OnOk result (out.new.items ≡ out.old.items ++ cell_text cell) }
    ensures front { KeepsFront start out.old.items out.new.items }
{
    match cell {
        Some(seen) => {
            byte(out, start, b' ')?;
            word(out, start, seen)?;
            byte(out, start, b'\n')
        }
        None => bytes(out, start, b" -\n"),
    }
}

/// Appends that the lane isn't the key's.
#[tactic(auto, using(crate::proofs::FrontLemmas::keeps_on))]
fn not_owner(
    out: &mut Vec<u8>,
    start: usize,
    look: u64,
    cell: Option<u64>,
) -> Result<(), OutOfMemory>
    requires { start ≤ length out.old.items }
    ensures ok { OnOk result (out.new.items ≡ out.old.items ++ not_owner_text look cell) }
    ensures front { KeepsFront start out.old.items out.new.items }
{
    bytes(out, start, b"notowner ")?;
    word(out, start, look)?;
    cell_end(out, start, cell)
}

/// Appends that the gate is fenced.
#[tactic(auto, using(crate::proofs::FrontLemmas::keeps_on))]
fn fenced(out: &mut Vec<u8>, start: usize, gate: u64) -> Result<(), OutOfMemory>
    requires { start ≤ length out.old.items }
    ensures ok { OnOk result (out.new.items ≡ out.old.items ++ fenced_text gate) }
    ensures front { KeepsFront start out.old.items out.new.items }
{
    bytes(out, start, b"fenced ")?;
    word(out, start, gate)?;
    byte(out, start, b'\n')
}

/// Appends that another word was seen.
#[tactic(auto, using(crate::proofs::FrontLemmas::keeps_on))]
fn again(out: &mut Vec<u8>, start: usize, old: u64, seen: u64) -> Result<(), OutOfMemory>
    requires { start ≤ length out.old.items }
    ensures ok { OnOk result (out.new.items ≡ out.old.items ++ again_text old seen) }
    ensures front { KeepsFront start out.old.items out.new.items }
{
    bytes(out, start, b"again ")?;
    word(out, start, old)?;
    byte(out, start, b' ')?;
    word(out, start, seen)?;
    byte(out, start, b'\n')
}

/// Appends that no segment is left.
#[tactic(auto, using(crate::proofs::FrontLemmas::keeps_on))]
fn full(out: &mut Vec<u8>, start: usize, counter: u64, segments: u32) -> Result<(), OutOfMemory>
    requires { start ≤ length out.old.items }
    ensures ok { OnOk result (out.new.items ≡ out.old.items ++ full_text counter segments) }
    ensures front { KeepsFront start out.old.items out.new.items }
{
    bytes(out, start, b"full ")?;
    digits(out, start, counter)?;
    byte(out, start, b' ')?;
    digits(out, start, segments as u64)?;
    byte(out, start, b'\n')
}

/// Appends that the stamps are used up.
#[tactic(auto, using(crate::proofs::FrontLemmas::keeps_on))]
fn worn(out: &mut Vec<u8>, start: usize, stamp: u32) -> Result<(), OutOfMemory>
    requires { start ≤ length out.old.items }
    ensures ok { OnOk result (out.new.items ≡ out.old.items ++ worn_text stamp) }
    ensures front { KeepsFront start out.old.items out.new.items }
{
    bytes(out, start, b"worn ")?;
    digits(out, start, stamp as u64)?;
    byte(out, start, b'\n')
}

/// Appends the line of a call that a session doesn't start.
#[tactic(auto, using(crate::proofs::FrontLemmas::keeps_on))]
fn refused(out: &mut Vec<u8>, start: usize, session: u32, cause: &[u8]) -> Result<(), OutOfMemory>
    requires { start ≤ length out.old.items }
    ensures ok { OnOk result (out.new.items ≡ out.old.items ++ session_text session cause.now) }
    ensures front { KeepsFront start out.old.items out.new.items }
{
    byte(out, start, b'c')?;
    digits(out, start, session as u64)?;
    bytes(out, start, cause)
}

/// Appends a label, the number of a lane and the line's end.
#[tactic(auto, using(crate::proofs::FrontLemmas::keeps_on))]
fn lane_at(out: &mut Vec<u8>, start: usize, label: &[u8], lane: u8) -> Result<(), OutOfMemory>
    requires { start ≤ length out.old.items }
    ensures ok { OnOk result (out.new.items ≡ out.old.items ++ lane_event_text label.now lane) }
    ensures front { KeepsFront start out.old.items out.new.items }
{
    bytes(out, start, label)?;
    digits(out, start, lane as u64)?;
    byte(out, start, b'\n')
}

/// Appends the line of an event.
#[tactic(auto, using(crate::proofs::FrontLemmas::keeps_on))]
fn event_line(out: &mut Vec<u8>, start: usize, line: &EventLine) -> Result<(), OutOfMemory>
    requires { start ≤ length out.old.items }
    ensures ok { OnOk result (out.new.items ≡ out.old.items ++ event_text line.now) }
    ensures front { KeepsFront start out.old.items out.new.items }
{
    match line {
        EventLine::NotOwner {
            session,
            number,
            look,
            cell,
        } => {
            head(out, start, *session, *number)?;
            not_owner(out, start, *look, *cell)
        }
        EventLine::Fenced {
            session,
            number,
            word,
        } => {
            head(out, start, *session, *number)?;
            fenced(out, start, *word)
        }
        EventLine::Again {
            session,
            number,
            old,
            seen,
        } => {
            head(out, start, *session, *number)?;
            again(out, start, *old, *seen)
        }
        EventLine::Full {
            session,
            number,
            counter,
            segments,
        } => {
            head(out, start, *session, *number)?;
            full(out, start, *counter, *segments)
        }
        EventLine::Worn {
            session,
            number,
            stamp,
        } => {
            head(out, start, *session, *number)?;
            worn(out, start, *stamp)
        }
        EventLine::Given { session, number } => {
            head(out, start, *session, *number)?;
            bytes(out, start, b"given\n")
        }
        EventLine::Unanswered { session, number } => {
            head(out, start, *session, *number)?;
            bytes(out, start, b"unanswered\n")
        }
        EventLine::Busy { session } => refused(out, start, *session, b" busy\n"),
        EventLine::Closed { session } => refused(out, start, *session, b" closed\n"),
        EventLine::Lane { lane } => lane_at(out, start, b"lane ", *lane),
        EventLine::LanesFull => bytes(out, start, b"lanes full\n"),
        EventLine::NoLane { lane } => lane_at(out, start, b"nolane ", *lane),
    }
}

/// Appends the line of an event. Where memory is wanting, `out` stays.
#[tactic(auto, using(crate::proofs::FrontLemmas::taken_back))]
pub fn event(out: &mut Vec<u8>, line: &EventLine) -> Result<(), OutOfMemory>
    ensures ok { OnOk result (out.new.items ≡ out.old.items ++ event_text line.now) }
    ensures same { OnErr result (out.new.items ≡ out.old.items) }
{
    let start = out.len();
    let made = event_line(out, start, line);
    whole(out, start, made)
}
