//! What a line means.

ghost use Rattle.std.specs.Prelude.{◌≡◌, ◌<◌, ◌≤◌, ◌^◌, IfOk, IfErr, Ok, Some, length, nat_eq, count_by};
ghost use Rattle.std.specs.List.{list_all, find};
ghost use Rattle.dn_script.specs.Found.{said_in};
ghost use Rattle.dn_script.specs.Said.{reading, unsaid};
ghost use Rattle.dn_script.specs.Sentence.{fields_of, is_known, is_begun, row_of, is_barred, is_misplaced, has_count, checked, judged, judged_by, is_idle, line_meaning};
ghost use Rattle.dn_script.specs.Lead.{if_known};
ghost use Rattle.dn_script.specs.LineFault.{IsLineFault};

use crate::faults::Cause;
use crate::fields::{Found, Rules, begins, read};
use crate::leads::lead;
use crate::meanings::{Header, Meaning, given_by};
use crate::rows::{Part, Row, TABLE};
use crate::scripts::Mode;
use crate::texts::are_within;
use crate::verbs::Verb;
use std::alloc::Global;

/// The most bytes of a line, without its newline.
const MAX_LINE: usize = 4096;

/// Why a line gives nothing.
#[derive(Clone, Copy, Drop)]
pub(crate) enum LineFault {
    Bad(Cause),
    OutOfMemory,
}

/// Whether the part is played.
fn is_known(verbs: &[Verb], part: Part) -> bool
    ensures { result ≡ is_known verbs.now part }
{
    match part {
        Part::Word(verb) => verb.is_among(verbs),
        Part::Named => Verb::Lane.is_among(verbs),
        _ => true,
    }
}

/// Whether all of these parts are played.
fn are_known(verbs: &[Verb], parts: &[Part]) -> bool
    ensures { result ≡ list_all (is_known verbs.now) parts.now }
{
    parts.iter().all(|part| is_known(verbs, *part))
}

/// Whether the line begins the row, and all of it is played. A row that isn't played costs no look at the line.
#[tactic(auto, using(crate::proofs::LeftLemmas::begun_if_known))]
fn is_begun(verbs: &[Verb], line: &[u8], row: Row) -> bool
    ensures { result ≡ is_begun verbs.now (fields_of line.now) row }
{
    are_known(verbs, row.parts()) && begins(row.parts(), line)
}

/// The first of the rows that the line begins.
fn first_begun(verbs: &[Verb], line: &[u8], rows: &[Row]) -> Option<Row>
    ensures { result ≡ find (is_begun verbs.now (fields_of line.now)) rows.now }
{
    rows.iter().copied().find(|row| is_begun(verbs, line, *row))
}

/// The row, where all of it is played.
fn if_known(verbs: &[Verb], row: Row) -> Option<Row>
    ensures { result ≡ if_known verbs.now row }
{
    if are_known(verbs, row.parts()) {
        Some(row)
    } else {
        None
    }
}

/// The row that the line begins: the one that its first fields lead to, else the first of the table.
fn row_of(verbs: &[Verb], line: &[u8]) -> Option<Row>
    ensures { result ≡ row_of verbs.now (fields_of line.now) }
{
    match lead(line) {
        Some(row) => if_known(verbs, row),
        None => first_begun(verbs, line, &TABLE),
    }
}

/// Whether the mode has no such lines.
fn is_barred(mode: Mode, row: Row) -> bool
    ensures { result ≡ is_barred mode row }
{
    match mode {
        Mode::Play => false,
        Mode::Storm => !row.is_of_storm(),
    }
}

/// Whether it is a header line that stands late, or is the second of its kind.
fn is_misplaced(row: Row, header: Header, is_late: bool) -> bool
    ensures { result ≡ is_misplaced row header is_late }
{
    match row {
        Row::Pool => is_late || header.segments.is_some(),
        Row::Nodes => is_late || header.nodes.is_some(),
        Row::Cache => is_late || header.units.is_some(),
        _ => false,
    }
}

/// How many spaces the line has.
fn space_count(line: &[u8]) -> usize
    ensures value { result ≡ count_by (λ b. nat_eq b 32) line.now }
    ensures few { result ≤ length line.now }
{
    line.iter().filter(|b| **b == b' ').count()
}

/// How many fields the line has.
fn field_count(line: &[u8]) -> usize
    ensures { result ≡ length (fields_of line.now) }
{
    space_count(line) + 1
}

/// Whether so many fields are those of the parts.
fn has_count(parts: &[Part], fields: usize) -> bool
    ensures { result ≡ has_count parts.now fields }
{
    let needed = parts.iter().filter(|part| part.is_needed()).count();
    needed <= fields && fields <= parts.len()
}

/// What the fields of a line of the row say, or the first cause for which it is bad, from `mode` on.
fn check<'a>(
    rules: Rules,
    header: Header,
    is_late: bool,
    line: &'a [u8],
    row: Row,
) -> Result<Found<'a>, Cause>
    ensures { said_in result ≡ checked rules header is_late (fields_of line.now) row }
{
    if is_barred(rules.mode, row) {
        return Err(Cause::Mode);
    }
    if is_misplaced(row, header, is_late) {
        return Err(Cause::Header);
    }
    if !has_count(row.parts(), field_count(line)) {
        return Err(Cause::Count);
    }
    read(rules, row.parts(), line)
}

/// What a line of the row gives.
fn judge(
    alloc: Global,
    rules: Rules,
    header: Header,
    is_late: bool,
    line: &[u8],
    row: Row,
) -> Result<Meaning, LineFault>
    ensures ok { IfOk result (λ meaning.
        judged rules header is_late (fields_of line.now) row ≡ Ok meaning) }
    ensures bad { IfErr result (IsLineFault
        (judged rules header is_late (fields_of line.now) row)) }
{
    let found = match check(rules, header, is_late, line, row) {
        Ok(found) => found,
        Err(cause) => return Err(LineFault::Bad(cause)),
    };
    match given_by(alloc, row, found) {
        Ok(meaning) => Ok(meaning),
        Err(_) => Err(LineFault::OutOfMemory),
    }
}

/// Whether the line is empty or begins with `;`.
fn is_idle(line: &[u8]) -> bool
    ensures { result ≡ is_idle line.now }
{
    line.is_empty() || line[0] == b';'
}

/// What a line that isn't idle gives.
fn sentence(
    alloc: Global,
    verbs: &[Verb],
    rules: Rules,
    header: Header,
    is_late: bool,
    line: &[u8],
) -> Result<Meaning, LineFault>
    ensures ok { IfOk result (λ meaning. judged_by rules header is_late (fields_of line.now)
        (row_of verbs.now (fields_of line.now)) ≡ Ok (Some meaning)) }
    ensures bad { IfErr result (IsLineFault (judged_by rules header is_late (fields_of line.now)
        (row_of verbs.now (fields_of line.now)))) }
{
    match row_of(verbs, line) {
        Some(row) => judge(alloc, rules, header, is_late, line, row),
        None => Err(LineFault::Bad(Cause::Verb)),
    }
}

/// What the line gives, without its newline: None where it is empty or begins with `;`. The header lines before it
/// say this, and it is late where another line stands before it.
pub(crate) fn line_meaning(
    alloc: Global,
    verbs: &[Verb],
    rules: Rules,
    header: Header,
    is_late: bool,
    line: &[u8],
) -> Result<Option<Meaning>, LineFault>
    ensures ok { IfOk result (λ meaning.
        line_meaning verbs.now rules header is_late line.now ≡ Ok meaning) }
    ensures bad { IfErr result (IsLineFault
        (line_meaning verbs.now rules header is_late line.now)) }
{
    if line.len() > MAX_LINE {
        return Err(LineFault::Bad(Cause::Long));
    }
    if !are_within(line, b' ') {
        return Err(LineFault::Bad(Cause::Byte));
    }
    if is_idle(line) {
        return Ok(None);
    }
    match sentence(alloc, verbs, rules, header, is_late, line) {
        Ok(meaning) => Ok(Some(meaning)),
        Err(fault) => Err(fault),
    }
}
