ghost use Rattle.std.specs.Prelude.{◌≡◌, ◌<◌, ◌≤◌, ◌+◌, ◌-◌, ◌^◌, ℕ, [], Ok, Some, IfOk, IfErr, All, min, nat_eq, nat_lt, length, count_by, slice_index};
ghost use Rattle.std.specs.List.{slice_split};
ghost use Rattle.dn_script.specs.Fit.{IsScript};
ghost use Rattle.dn_script.specs.Script.{script_of, played, draft_in, with_meaning, rules_of, is_whole, line_count};
ghost use Rattle.dn_script.specs.Sentence.{line_meaning};
ghost use Rattle.dn_script.specs.Fault.{IsParseFault, IsDraftFault, Adds, draft_of, fault_at};
ghost use Rattle.dn_script.specs.LineFault.{IsLineFault};

use crate::faults::{Cause, ParseFault};
use crate::fields::Rules;
use crate::meanings::{Header, Meaning};
use crate::scripts::{Line, Mode, Script};
use crate::sentences::{LineFault, line_meaning};
use crate::texts::{behind, end_of_first};
use crate::verbs::{PLAYED, Verb};
use dn_word::List;
use std::alloc::Global;

/// The most lines of a script.
const MAX_LINES: u64 = 1_000_000;

/// The segments of a pool for which the script doesn't ask.
const DEFAULT_SEGMENTS: u32 = 1024;

/// The units of a lane's cache for which the script doesn't ask.
const DEFAULT_UNITS: u32 = 4096;

/// The most sessions of a script.
const MAX_SESSIONS: u32 = 1000;

/// What the lines so far give.
#[derive(Drop)]
pub(crate) struct Draft {
    header: Header,
    lines: Vec<Line>,
}

/// The script that these bytes are, of the lines that are played so far, for a pool of so many segments:
/// [`parse_with`] with [`PLAYED`].
pub fn parse(alloc: Global, bytes: &[u8], mode: Mode, segments: u32) -> Result<Script, ParseFault>
    ensures script { IfOk result
        (λ script. script_of played mode segments bytes.now ≡ Ok script) }
    ensures count { IfOk result (λ script. line_count bytes.now ≤ 1000000) }
    ensures fits { IfOk result (λ script. IsScript segments (length bytes.now) script) }
    ensures bad { IfErr result (IsParseFault played mode segments bytes.now) }
{
    parse_with(alloc, bytes, mode, segments, &PLAYED)
}

/// The script that these bytes are, of lines whose words are all among these verbs, for a pool of so many segments.
///
/// `Lines` comes exactly where there are more than 1,000,000 lines, the last one counted even if it is cut off. `Bad`
/// comes exactly where there are no more, and one isn't of the grammar in this mode: it names the first such line,
/// and its first cause. Both unless memory is wanting.
pub fn parse_with(
    alloc: Global,
    bytes: &[u8],
    mode: Mode,
    segments: u32,
    verbs: &[Verb],
) -> Result<Script, ParseFault>
    ensures script { IfOk result (λ script.
        script_of verbs.now mode segments bytes.now ≡ Ok script) }
    ensures count { IfOk result (λ script. line_count bytes.now ≤ 1000000) }
    ensures fits { IfOk result (λ script. IsScript segments (length bytes.now) script) }
    ensures bad { IfErr result (IsParseFault verbs.now mode segments bytes.now) }
{
    read_script(alloc, bytes, mode, segments, verbs)
}

/// The script that these bytes are, of lines whose words are all among these verbs.
fn read_script(
    alloc: Global,
    bytes: &[u8],
    mode: Mode,
    segments: u32,
    verbs: &[Verb],
) -> Result<Script, ParseFault>
    ensures script { IfOk result (λ script.
        script_of verbs.now mode segments bytes.now ≡ Ok script) }
    ensures count { IfOk result (λ script. line_count bytes.now ≤ 1000000) }
    ensures bad { IfErr result (IsParseFault verbs.now mode segments bytes.now) }
{
    let count = count_lines(bytes);
    if count > MAX_LINES {
        return Err(ParseFault::Lines);
    }
    let rules = rules_for(verbs, mode, segments);
    let Draft { header, lines } = drafts(alloc, verbs, rules, bytes, count as usize)?;
    Ok(Script {
        segments: header.segments.unwrap_or(DEFAULT_SEGMENTS.min(segments)),
        nodes: header.nodes.unwrap_or(1),
        units: header.units.unwrap_or(DEFAULT_UNITS),
        lines: List::of(lines),
    })
}

/// What lines may have.
fn rules_for(verbs: &[Verb], mode: Mode, segments: u32) -> Rules
    ensures { result ≡ rules_of verbs.now mode segments }
{
    let sessions = if Verb::Sessions.is_among(verbs) {
        MAX_SESSIONS
    } else {
        1
    };
    Rules {
        mode,
        segments,
        sessions,
    }
}

/// Whether the last line has its newline.
fn is_whole(bytes: &[u8]) -> bool
    ensures { result ≡ is_whole bytes.now }
{
    bytes.is_empty() || bytes[bytes.len() - 1] == b'\n'
}

/// How many newlines there are.
fn count_newlines(bytes: &[u8]) -> usize
    ensures value { result ≡ count_by (λ b. nat_eq b 10) bytes.now }
    ensures few { result ≤ length bytes.now }
{
    bytes.iter().filter(|b| **b == b'\n').count()
}

/// How many lines there are, the last one even if it is cut off.
fn count_lines(bytes: &[u8]) -> u64
    ensures { result ≡ line_count bytes.now }
{
    let ended = count_newlines(bytes) as u64;
    if is_whole(bytes) { ended } else { ended + 1 }
}

/// Whether there is a line.
fn is_any(lines: &[Line]) -> bool
    ensures { result ≡ nat_lt 0 (length lines.now) }
{
    !lines.is_empty()
}

/// Adds what the line gives to what those before it give.
fn add_line(
    alloc: Global,
    verbs: &[Verb],
    rules: Rules,
    header: Header,
    lines: &mut Vec<Line>,
    text: &[u8],
) -> Result<Header, LineFault>
    ensures ok { IfOk result (λ after. Adds
        (line_meaning verbs.now rules header (nat_lt 0 (length lines.old.items)) text.now)
        header lines.old.items after lines.new.items) }
    ensures bad { IfErr result (IsLineFault
        (line_meaning verbs.now rules header (nat_lt 0 (length lines.old.items)) text.now)) }
{
    match line_meaning(alloc, verbs, rules, header, is_any(lines.as_slice()), text) {
        Ok(Some(meaning)) => add(header, lines, meaning),
        Ok(None) => Ok(header),
        Err(fault) => Err(fault),
    }
}

/// Adds what a line gives to what those before it give.
fn add(header: Header, lines: &mut Vec<Line>, meaning: Meaning) -> Result<Header, LineFault>
    ensures ok { IfOk result (λ after.
        with_meaning (record { header = header; lines = lines.old.items }) (Some meaning)
        ≡ record { header = after; lines = lines.new.items }) }
    ensures bad { IfErr result (λ fault. fault ≡ LineFault.OutOfMemory) }
{
    match meaning {
        Meaning::Segments(segments) => Ok(Header {
            segments: Some(segments),
            ..header
        }),
        Meaning::Nodes(nodes) => Ok(Header {
            nodes: Some(nodes),
            ..header
        }),
        Meaning::Units(units) => Ok(Header {
            units: Some(units),
            ..header
        }),
        Meaning::Line(line) => match lines.push(line) {
            Ok(()) => Ok(header),
            Err(_) => Err(LineFault::OutOfMemory),
        },
    }
}

/// The fault of the line of this number.
fn fault_at(number: u64, fault: LineFault) -> ParseFault
    ensures { result ≡ fault_at number fault }
{
    match fault {
        LineFault::Bad(cause) => ParseFault::Bad {
            line: number,
            cause,
        },
        LineFault::OutOfMemory => ParseFault::OutOfMemory,
    }
}

/// An empty list with room for so many.
fn list_of(alloc: Global, room: usize) -> Result<Vec<Line>, ParseFault>
    ensures ok { IfOk result (λ lines. lines.items ≡ []) }
    ensures bad { IfErr result (λ fault. fault ≡ ParseFault.OutOfMemory) }
{
    match Vec::with_capacity(alloc, room) {
        Ok(lines) => Ok(lines),
        Err(_) => Err(ParseFault::OutOfMemory),
    }
}

/// What the lines give. Room for so many of them is taken at once, so that their list needn't grow.
fn drafts(
    alloc: Global,
    verbs: &[Verb],
    rules: Rules,
    bytes: &[u8],
    room: usize,
) -> Result<Draft, ParseFault>
    ensures ok { IfOk result
        (λ draft. draft_in verbs.now rules bytes.now ≡ Ok (draft_of draft)) }
    ensures bad { IfErr result (IsDraftFault (draft_in verbs.now rules bytes.now)) }
{
    let mut header = Header {
        segments: None,
        nodes: None,
        units: None,
    };
    let mut lines = list_of(alloc, room)?;
    let mut number: u64 = 1;
    let mut rest = bytes;
    while let Some(end) = end_of_first(rest, b'\n') {
        match add_line(alloc, verbs, rules, header, &mut lines, &rest[..end]) {
            Ok(after) => header = after,
            Err(fault) => return Err(fault_at(number, fault)),
        }
        number += 1;
        rest = behind(rest, end);
    }
    if rest.is_empty() {
        return Ok(Draft { header, lines });
    }
    Err(ParseFault::Bad {
        line: number,
        cause: Cause::Cut,
    })
}
