//! The history.

ghost use Rattle.std.specs.Prelude.{◌≡◌, ◌++◌, map, OnOk};
ghost use Rattle.std.specs.List.Sorted.{IsPermutation};
ghost use Rattle.dn_callers.specs.Callers.{receipts_of};
ghost use Rattle.dn_hist.specs.Receipt.{IsInOrder};
ghost use Rattle.dn_run.specs.Output.{history_text};
ghost use Rattle.dn_world.specs.Inside.{stands_as};

use dn_print::{history_head, history_line};
use dn_word::{OutOfMemory, Position};
use dn_world::Standing;

/// Puts what stands in order of position: by stamp, then rank, then session. It takes no memory.
pub fn order(history: &mut Vec<Standing>)
    ensures permutation { IsPermutation (map stands_as history.old.items)
        (map stands_as history.new.items) }
    ensures order { IsInOrder (receipts_of (map stands_as history.new.items)) }
{
    history.sort_unstable_by_key(
        |standing: &Standing| -> Position
            ensures { result ≡ standing.now.receipt.position }
        { standing.receipt.position },
    );
}

/// Prints the history: a line that says how many receipts stand, and one for each of them, in this order.
pub fn history_lines(out: &mut Vec<u8>, history: &[Standing]) -> Result<(), OutOfMemory>
    ensures { OnOk result (out.new.items
        ≡ out.old.items ++ history_text (map stands_as history.now)) }
{
    history_head(out, history.len() as u64)?;
    for standing in history {
        history_line(out, &standing.receipt, standing.answered)?;
    }
    Ok(())
}
