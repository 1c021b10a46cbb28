//! What is printed where nothing is played.

ghost use Rattle.std.specs.Prelude.{◌≡◌, ◌≤◌, ◌++◌, length, OnOk, OnErr};
ghost use Rattle.dn_print.specs.Front.{KeepsFront};
ghost use Rattle.dn_print.specs.RefusalLine.{bad_line_text, bad_words_text};

use crate::pieces::{byte, bytes, number, whole};
use dn_word::OutOfMemory;

/// Appends the number of a script's bad line and why it is bad.
#[tactic(auto, using(crate::proofs::FrontLemmas::keeps_on))]
fn cause_line(out: &mut Vec<u8>, start: usize, line: u64, cause: &str) -> Result<(), OutOfMemory>
    requires { start ≤ length out.old.items }
    ensures ok { OnOk result (out.new.items ≡ out.old.items ++ bad_line_text line cause.now) }
    ensures front { KeepsFront start out.old.items out.new.items }
{
    bytes(out, start, b"line ")?;
    number(out, start, line)?;
    bytes(out, start, b": ")?;
    bytes(out, start, cause.as_bytes())?;
    byte(out, start, b'\n')
}

/// Appends the number of a script's bad line and why it is bad. Where memory is wanting, `out` stays.
#[tactic(auto, using(crate::proofs::FrontLemmas::taken_back))]
pub fn bad_line(out: &mut Vec<u8>, line: u64, cause: &str) -> Result<(), OutOfMemory>
    ensures ok { OnOk result (out.new.items ≡ out.old.items ++ bad_line_text line cause.now) }
    ensures same { OnErr result (out.new.items ≡ out.old.items) }
{
    let start = out.len();
    let made = cause_line(out, start, line, cause);
    whole(out, start, made)
}

/// Appends what is printed for words of the command line that are no command. Where memory is wanting, `out` stays.
#[tactic(auto, using(crate::proofs::FrontLemmas::taken_back))]
pub fn bad_words(out: &mut Vec<u8>) -> Result<(), OutOfMemory>
    ensures ok { OnOk result (out.new.items ≡ out.old.items ++ bad_words_text) }
    ensures same { OnErr result (out.new.items ≡ out.old.items) }
{
    let start = out.len();
    let made = bytes(out, start, b"bad words\n");
    whole(out, start, made)
}
