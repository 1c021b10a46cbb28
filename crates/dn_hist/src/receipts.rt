//! What is kept of a call that was made, and how receipts are put in order.

ghost use Rattle.std.specs.Prelude.{◌≡◌};
ghost use Rattle.std.specs.List.Sorted.{IsPermutation};
ghost use Rattle.dn_hist.specs.Receipt.{IsInOrder};

use crate::calls::{Call, Reply};
use dn_word::{Position, Ref};

/// What a session shows of itself with a call: the call's number in the session (from 1), the session's last position, and the
/// cell (0 to 255) that it was told of the call's key.
#[derive(Clone, Copy, Debug, PartialEq, Eq)]
pub struct SessionView {
    /// The session's number, from 1 to 1,000.
    pub session: u32,
    /// The call's number in the session, from 1.
    pub number: u32,
    /// The last position that the session knows.
    pub last: Position,
    /// The cell that the session was told of the call's key.
    pub hint: Option<u8>,
}

/// That a call was made: where it stands in the history, its number in its session, the call and its reply. Its session is
/// part of the position.
#[derive(Drop)]
pub struct Receipt {
    /// Where it stands.
    pub position: Position,
    /// The call's number in its session, from 1.
    pub number: u32,
    /// What was asked.
    pub call: Call,
    /// What was answered.
    pub reply: Reply,
    /// Where the record lies that a put or delete sealed; none for a get.
    pub at: Option<Ref>,
}

/// Puts receipts in order of position: by stamp, then rank, then session. It takes no memory.
pub fn order(receipts: &mut Vec<Receipt>)
    ensures permutation { IsPermutation receipts.old.items receipts.new.items }
    ensures order { IsInOrder receipts.new.items }
{
    receipts.sort_unstable_by_key(
        |receipt: &Receipt| -> Position
            ensures { result ≡ receipt.now.position }
        { receipt.position },
    );
}
