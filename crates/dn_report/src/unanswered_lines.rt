//! The calls without an answer.

ghost use Rattle.std.specs.Prelude.{◌≡◌, ◌++◌, OnOk};
ghost use Rattle.dn_run.specs.Output.{unanswered_text};

use dn_print::{EventLine, event};
use dn_word::OutOfMemory;

/// Prints a line for each call without an answer, in this order. A call is its session and its number there.
pub fn unanswered(out: &mut Vec<u8>, calls: &[(u32, u32)]) -> Result<(), OutOfMemory>
    ensures { OnOk result (out.new.items ≡ out.old.items ++ unanswered_text calls.now) }
{
    for (session, number) in calls {
        let line = EventLine::Unanswered {
            session: *session,
            number: *number,
        };
        event(out, &line)?;
    }
    Ok(())
}
