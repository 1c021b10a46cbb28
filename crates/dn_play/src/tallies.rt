//! What an event adds to what is counted.

ghost use Rattle.std.specs.Prelude.{◌≡◌};
ghost use Rattle.dn_outcomes.specs.Told.{is_made_by};
ghost use Rattle.dn_run.specs.Counts.{went_by, is_pending, is_index};
ghost use Rattle.dn_play.specs.Tally.{HasRoom, added};

use dn_outcomes::{CallAnswer, Outcome};
use dn_plan::Way;
use dn_run::Counts;

/// Before the first event.
pub fn nothing() -> Counts
    ensures { result ≡ record {
      calls = 0;
      made = 0;
      refused = 0;
      given = 0;
      pending = 0;
      index = 0;
    } }
{
    Counts {
        calls: 0,
        made: 0,
        refused: 0,
        given: 0,
        pending: 0,
        index: 0,
    }
}

/// Whether a call was made, and located by a record that wasn't merged yet.
fn went_pending(answer: CallAnswer) -> bool
    ensures { result ≡ went_by is_pending answer }
{
    matches!(answer, CallAnswer::Made { way: Way::Pending })
}

/// Whether a call was made, and located by the index.
fn went_index(answer: CallAnswer) -> bool
    ensures { result ≡ went_by is_index answer }
{
    matches!(answer, CallAnswer::Made { way: Way::Index })
}

/// Whether a call was made.
pub fn is_made(answer: CallAnswer) -> bool
    ensures { result ≡ is_made_by answer }
{
    matches!(answer, CallAnswer::Made { .. })
}

/// Counts an event: its outcome, whether the receipt that came to stand by it is of a get, and whether it refused an attempt.
#[inline(always)]
pub fn tally(counts: &mut Counts, outcome: Outcome, get: bool, refused: bool)
    requires { HasRoom counts.old }
    ensures { counts.new ≡ added counts.old outcome get refused }
{
    match outcome {
        Outcome::Numbered { .. } => counts.calls += 1,
        Outcome::Answered { answer, given, .. } => {
            counts.made += u32::from(is_made(answer));
            counts.given += u32::from(given);
            counts.pending += u32::from(get && went_pending(answer));
            counts.index += u32::from(get && went_index(answer));
        }
        Outcome::GivenUp { .. } => counts.given += 1,
        _ => {}
    }
    counts.refused += u32::from(refused);
}
