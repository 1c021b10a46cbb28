//! What was counted.

ghost use Rattle.std.specs.Prelude.{◌≡◌, ◌++◌, OnOk};
ghost use Rattle.dn_report.specs.Counted.{counted_by};

use dn_print::{calls_line, map_line, ways_line};
use dn_run::Counts;
use dn_word::OutOfMemory;

/// Prints what was counted: the calls, with so many of them without an answer; the ways in which gets found their values,
/// of which none went by a cache; and the number of keys that the history leaves.
pub fn counted(
    out: &mut Vec<u8>,
    counts: Counts,
    unanswered: u64,
    keys: u64,
) -> Result<(), OutOfMemory>
    ensures { OnOk result (out.new.items
        ≡ out.old.items ++ counted_by counts unanswered keys) }
{
    let Counts {
        calls,
        made,
        refused,
        given,
        pending,
        index,
    } = counts;
    calls_line(
        out,
        calls as u64,
        made as u64,
        refused as u64,
        unanswered,
        given as u64,
    )?;
    ways_line(out, 0, 0, pending as u64, index as u64, 0)?;
    map_line(out, keys)
}
