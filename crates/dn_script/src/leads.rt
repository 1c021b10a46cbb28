//! Which row the first fields of a line lead to.

ghost use Rattle.std.specs.Prelude.{◌≡◌};
ghost use Rattle.dn_script.specs.Lead.{call_of, lead_of};
ghost use Rattle.dn_script.specs.Sentence.{fields_of};

use crate::fields::{first_of, is_session, looks_like};
use crate::rows::{Form, Part, Row};
use crate::verbs::Verb;

/// The row of a call that is run to its answer and names no lane, by the field of its word.
fn call(field: &[u8]) -> Option<Row>
    ensures { result ≡ call_of field.now }
{
    if looks_like(Part::Word(Verb::Get), field) {
        Some(Row::Get(Form::Plain))
    } else if looks_like(Part::Word(Verb::Put), field) {
        Some(Row::Put(Form::Plain))
    } else if looks_like(Part::Word(Verb::Delete), field) {
        Some(Row::Delete(Form::Plain))
    } else {
        None
    }
}

/// The row that the first fields of a line lead to, if they do: such a line begins no other row.
pub(crate) fn lead(line: &[u8]) -> Option<Row>
    ensures { result ≡ lead_of (fields_of line.now) }
{
    let (first, rest) = first_of(line);
    let (second, _) = first_of(rest?);
    if is_session(first) {
        call(second)
    } else {
        None
    }
}
