//! The fields of a line against the parts of a row.

ghost use Rattle.std.specs.Prelude.{◌≡◌, ◌∷◌};
ghost use Rattle.dn_script.specs.Sentence.{fields_of, is_session, looks_like, begins};
ghost use Rattle.dn_script.specs.Said.{with_word, with_number, with_field, reading, unsaid};
ghost use Rattle.dn_script.specs.Found.{left_of, said_by, said_in};

use crate::faults::Cause;
use crate::rows::Part;
use crate::scripts::Mode;
use crate::texts::{
    are_digits, behind, behind_first, end_of_first, is_led_by, is_word, number_in, small_in,
    tiny_in,
};
use crate::values::{Spelled, value};
use crate::verbs::Verb;

/// What lines may have.
#[derive(Clone, Copy, Drop)]
pub(crate) struct Rules {
    pub(crate) mode: Mode,
    /// The most segments of the pool.
    pub(crate) segments: u32,
    /// The greatest session.
    pub(crate) sessions: u32,
}

/// What the fields of a line say, by name.
#[derive(Clone, Copy, Drop)]
pub(crate) struct Found<'a> {
    pub(crate) session: u32,
    pub(crate) named: Option<u8>,
    pub(crate) start: bool,
    pub(crate) lane: u8,
    pub(crate) key: u64,
    pub(crate) value: Spelled<'a>,
    pub(crate) segments: u32,
    pub(crate) nodes: u8,
    pub(crate) units: u32,
    pub(crate) count: u32,
    pub(crate) index: u32,
    pub(crate) from: u32,
    pub(crate) to: u32,
}

/// Before a field was read.
fn unread<'a>() -> Found<'a>
    ensures { said_by result ≡ unsaid }
{
    Found {
        session: 1,
        named: None,
        start: false,
        lane: 1,
        key: 1,
        value: Spelled::Plain(b""),
        segments: 1,
        nodes: 1,
        units: 4096,
        count: 1,
        index: 0,
        from: 1,
        to: 1,
    }
}

/// The first field of a text, and what stands behind it.
pub(crate) fn first_of(text: &[u8]) -> (&[u8], Option<&[u8]>)
    ensures { fields_of text.now ≡ result.0.now ∷ left_of result.1 }
{
    match end_of_first(text, b' ') {
        Some(end) => (&text[..end], Some(behind(text, end))),
        None => (text, None),
    }
}

/// Whether the field is `c` and digits.
pub(crate) fn is_session(field: &[u8]) -> bool
    ensures { result ≡ is_session field.now }
{
    is_led_by(field, b'c') && field.len() > 1 && are_digits(behind_first(field))
}

/// Whether the field looks like the part.
pub(crate) fn looks_like(part: Part, field: &[u8]) -> bool
    ensures { result ≡ looks_like part field.now }
{
    match part {
        Part::Word(verb) => is_word(field, verb.word()),
        Part::Session => is_session(field),
        Part::Named => is_led_by(field, b'@'),
        _ => true,
    }
}

/// Whether the fields that are left look like the parts.
fn begins_on(parts: &[Part], rest: Option<&[u8]>) -> bool
    ensures { result ≡ begins parts.now (left_of rest.entry) }
{
    let mut rest = rest;
    for part in parts {
        let Some(text) = rest else {
            return true;
        };
        let (field, more) = first_of(text);
        if !looks_like(*part, field) {
            return false;
        }
        rest = more;
    }
    true
}

/// Whether the line begins as the parts do.
pub(crate) fn begins(parts: &[Part], line: &[u8]) -> bool
    ensures { result ≡ begins parts.now (fields_of line.now) }
{
    begins_on(parts, Some(line))
}

/// What was found, with what this word says.
fn with_word(verb: Verb, found: Found<'_>) -> Found<'_>
    ensures { said_by result ≡ with_word verb (said_by found.entry) }
{
    match verb {
        Verb::Start => Found {
            start: true,
            ..found
        },
        _ => found,
    }
}

/// What was found, with what the field of this part says.
fn with_field<'a>(
    rules: Rules,
    part: Part,
    field: &'a [u8],
    found: Found<'a>,
) -> Result<Found<'a>, Cause>
    ensures { said_in result ≡ with_field rules part field.now (said_by found.entry) }
{
    match part {
        Part::Word(verb) => Ok(with_word(verb, found)),
        Part::Session => match small_in(1, rules.sessions, behind_first(field)) {
            Some(session) => Ok(Found { session, ..found }),
            None => Err(Cause::Session),
        },
        Part::Named => match tiny_in(1, 63, behind_first(field)) {
            Some(lane) => Ok(Found {
                named: Some(lane),
                ..found
            }),
            None => Err(Cause::Lane),
        },
        Part::Lane => match tiny_in(1, 63, field) {
            Some(lane) => Ok(Found { lane, ..found }),
            None => Err(Cause::Lane),
        },
        Part::Key => match number_in(1, u64::MAX, field) {
            Some(key) => Ok(Found { key, ..found }),
            None => Err(Cause::Key),
        },
        Part::Value => match value(field) {
            Some(value) => Ok(Found { value, ..found }),
            None => Err(Cause::Value),
        },
        Part::Segments => match small_in(1, rules.segments, field) {
            Some(segments) => Ok(Found { segments, ..found }),
            None => Err(Cause::Pool),
        },
        Part::From => match small_in(1, rules.sessions, field) {
            Some(from) => Ok(Found { from, ..found }),
            None => Err(Cause::Session),
        },
        Part::To => match small_in(1, rules.sessions, field) {
            Some(to) => Ok(Found { to, ..found }),
            None => Err(Cause::Session),
        },
        _ => with_number(part, field, found),
    }
}

/// The same for the parts whose fault is `number`.
fn with_number<'a>(part: Part, field: &[u8], found: Found<'a>) -> Result<Found<'a>, Cause>
    ensures { said_in result ≡ with_number part field.now (said_by found.entry) }
{
    match part {
        Part::Nodes => match tiny_in(1, 63, field) {
            Some(nodes) => Ok(Found { nodes, ..found }),
            None => Err(Cause::Number),
        },
        Part::Units => match small_in(0, 1_000_000, field) {
            Some(units) => Ok(Found { units, ..found }),
            None => Err(Cause::Number),
        },
        Part::Count => match small_in(1, 1_000_000, field) {
            Some(count) => Ok(Found { count, ..found }),
            None => Err(Cause::Number),
        },
        Part::Actions => match small_in(1, 1_000_000, field) {
            Some(count) => Ok(Found { count, ..found }),
            None => Err(Cause::Number),
        },
        Part::Index => match small_in(0, 139, field) {
            Some(index) => Ok(Found { index, ..found }),
            None => Err(Cause::Number),
        },
        _ => Err(Cause::Number),
    }
}

/// What was found, with what the fields that are left say, whose parts are these, or the cause of the first bad one.
fn read_on<'a>(
    rules: Rules,
    parts: &[Part],
    rest: Option<&'a [u8]>,
    found: Found<'a>,
) -> Result<Found<'a>, Cause>
    ensures { said_in result ≡ reading rules parts.now (left_of rest.entry)
        (said_by found.entry) }
{
    let mut rest = rest;
    let mut found = found;
    for part in parts {
        let Some(text) = rest else {
            return Ok(found);
        };
        let (field, more) = first_of(text);
        found = match with_field(rules, *part, field, found) {
            Ok(more) => more,
            Err(cause) => return Err(cause),
        };
        rest = more;
    }
    Ok(found)
}

/// What the fields of a line say, whose parts are these, or the cause of the first bad one.
pub(crate) fn read<'a>(rules: Rules, parts: &[Part], line: &'a [u8]) -> Result<Found<'a>, Cause>
    ensures { said_in result ≡ reading rules parts.now (fields_of line.now) unsaid }
{
    read_on(rules, parts, Some(line), unread())
}
