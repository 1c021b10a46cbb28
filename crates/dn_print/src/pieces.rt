//! Parts of lines, which go straight into the output. `start` is where the line begins. A part for which memory is wanting leaves what
//! stands before the line, so that the line can be taken back whole.

ghost use Rattle.std.specs.Prelude.{◌≡◌, ◌≤◌, ◌++◌, ◌∷◌, [], length, take, OnOk, OnErr};
ghost use Rattle.std.specs.Fmt.{decimal};
ghost use Rattle.std.specs.List.{list_all};
ghost use Rattle.dn_print.specs.Front.{KeepsFront};
ghost use Rattle.dn_print.specs.Piece.{position_text, is_graphic, hex_text, word_text, value_text, reply_text};

use dn_hist::Reply;
use dn_word::{OutOfMemory, Position};
use itoa::Buffer;

/// Appends these bytes.
#[tactic(auto, using(crate::proofs::FrontLemmas::keeps_same, crate::proofs::FrontLemmas::keeps_more))]
pub(crate) fn bytes(out: &mut Vec<u8>, start: usize, bytes: &[u8]) -> Result<(), OutOfMemory>
    requires { start ≤ length out.old.items }
    ensures ok { OnOk result (out.new.items ≡ out.old.items ++ bytes.now) }
    ensures front { KeepsFront start out.old.items out.new.items }
{
    match out.extend_from_slice(bytes) {
        Ok(()) => Ok(()),
        Err(_) => Err(OutOfMemory),
    }
}

/// Appends one byte.
#[tactic(auto, using(crate::proofs::FrontLemmas::keeps_same, crate::proofs::FrontLemmas::keeps_more))]
pub(crate) fn byte(out: &mut Vec<u8>, start: usize, byte: u8) -> Result<(), OutOfMemory>
    requires { start ≤ length out.old.items }
    ensures ok { OnOk result (out.new.items ≡ out.old.items ++ byte ∷ []) }
    ensures front { KeepsFront start out.old.items out.new.items }
{
    match out.push(byte) {
        Ok(()) => Ok(()),
        Err(_) => Err(OutOfMemory),
    }
}

/// Appends a number in decimal digits.
pub(crate) fn number(out: &mut Vec<u8>, start: usize, number: u64) -> Result<(), OutOfMemory>
    requires { start ≤ length out.old.items }
    ensures ok { OnOk result (out.new.items ≡ out.old.items ++ decimal number) }
    ensures front { KeepsFront start out.old.items out.new.items }
{
    let mut buffer = Buffer::new();
    bytes(out, start, buffer.format(number).as_bytes())
}

/// The line that begins at `start` as it came out: whole, or taken back where memory was wanting.
#[tactic(auto, using(crate::proofs::FrontLemmas::taken_back))]
pub(crate) fn whole(
    out: &mut Vec<u8>,
    start: usize,
    made: Result<(), OutOfMemory>,
) -> Result<(), OutOfMemory>
    requires { start ≤ length out.old.items }
    ensures ok { OnOk result (OnOk made (out.new.items ≡ out.old.items)) }
    ensures err { OnErr result (OnErr made (out.new.items ≡ take start out.old.items)) }
    ensures same { result ≡ made }
{
    if made.is_err() {
        out.truncate(start);
    }
    made
}

/// Appends a position: stamp, rank and session with points between them.
#[tactic(auto, using(crate::proofs::FrontLemmas::keeps_on))]
pub(crate) fn position(
    out: &mut Vec<u8>,
    start: usize,
    position: Position,
) -> Result<(), OutOfMemory>
    requires { start ≤ length out.old.items }
    ensures ok { OnOk result (out.new.items ≡ out.old.items ++ position_text position) }
    ensures front { KeepsFront start out.old.items out.new.items }
{
    number(out, start, position.stamp as u64)?;
    byte(out, start, b'.')?;
    number(out, start, position.rank as u64)?;
    byte(out, start, b'.')?;
    number(out, start, position.session as u64)
}

/// Appends a word of the pool.
pub(crate) fn word(out: &mut Vec<u8>, start: usize, word: u64) -> Result<(), OutOfMemory>
    requires { start ≤ length out.old.items }
    ensures ok { OnOk result (out.new.items ≡ out.old.items ++ word_text word) }
    ensures front { KeepsFront start out.old.items out.new.items }
{
    let mut digits = [0u8; 16];
    hex::encode_to_slice(word.to_be_bytes(), &mut digits).unwrap();
    bytes(out, start, &digits)
}

/// Appends two hexadecimal digits for a byte.
fn digits(out: &mut Vec<u8>, start: usize, byte: u8) -> Result<(), OutOfMemory>
    requires { start ≤ length out.old.items }
    ensures ok { OnOk result (out.new.items ≡ out.old.items ++ hex_text (byte ∷ [])) }
    ensures front { KeepsFront start out.old.items out.new.items }
{
    let mut digits = [0u8; 2];
    hex::encode_to_slice([byte], &mut digits).unwrap();
    bytes(out, start, &digits)
}

/// Appends two hexadecimal digits for each byte.
fn hex(out: &mut Vec<u8>, start: usize, of: &[u8]) -> Result<(), OutOfMemory>
    requires { start ≤ length out.old.items }
    ensures ok { OnOk result (out.new.items ≡ out.old.items ++ hex_text of.now) }
    ensures front { KeepsFront start out.old.items out.new.items }
{
    for byte in of {
        digits(out, start, *byte)?;
    }
    Ok(())
}

/// Whether all bytes lie from `!` to `~`.
fn are_graphic(bytes: &[u8]) -> bool
    ensures { result ≡ list_all is_graphic bytes.now }
{
    bytes.iter().all(|b| *b >= b'!' && *b <= b'~')
}

/// Appends a value.
#[tactic(auto, using(crate::proofs::FrontLemmas::keeps_on))]
pub(crate) fn value(out: &mut Vec<u8>, start: usize, value: &[u8]) -> Result<(), OutOfMemory>
    requires { start ≤ length out.old.items }
    ensures ok { OnOk result (out.new.items ≡ out.old.items ++ value_text value.now) }
    ensures front { KeepsFront start out.old.items out.new.items }
{
    if are_graphic(value) {
        byte(out, start, b'=')?;
        bytes(out, start, value)
    } else {
        byte(out, start, b'%')?;
        hex(out, start, value)
    }
}

/// Appends a reply.
pub(crate) fn reply(out: &mut Vec<u8>, start: usize, reply: &Reply) -> Result<(), OutOfMemory>
    requires { start ≤ length out.old.items }
    ensures ok { OnOk result (out.new.items ≡ out.old.items ++ reply_text reply.now) }
    ensures front { KeepsFront start out.old.items out.new.items }
{
    match reply {
        Reply::Value(found) => value(out, start, found.as_bytes()),
        Reply::Absent => bytes(out, start, b"absent"),
        Reply::Stored => bytes(out, start, b"stored"),
        Reply::Deleted => bytes(out, start, b"deleted"),
    }
}
