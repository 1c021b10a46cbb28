//! Scripts whose calls are made one after the other.

ghost use Rattle.std.specs.Prelude.{◌≡◌};
ghost use Rattle.dn_script.specs.Serial.{is_apart, is_serial};

use crate::scripts::{Line, Script};

/// Whether a line leaves no call and no order under way behind it: a call that is run to its answer, a node that is added,
/// an order or task that is run to its end, merging, or a position that is told.
fn is_apart(line: &Line) -> bool
    ensures { result ≡ is_apart line.now }
{
    match line {
        Line::Call { start, .. } | Line::Move { start, .. } => !*start,
        Line::Merge { .. }
        | Line::Add
        | Line::Balance
        | Line::Share { .. }
        | Line::Unshare { .. }
        | Line::Trim { .. }
        | Line::Tell { .. } => true,
        Line::Step { .. }
        | Line::Flow { .. }
        | Line::Monitor { .. }
        | Line::Fence { .. }
        | Line::Takeover { .. }
        | Line::Remove { .. }
        | Line::Stop { .. }
        | Line::Fuse { .. }
        | Line::Fail { .. }
        | Line::Mix { .. }
        | Line::Policy { .. } => false,
    }
}

impl Script {
    /// Whether the script is serial: beside header lines its lines are calls without `start`, `add`, `move` without `start`,
    /// `balance`, `share`, `unshare`, `trim`, `merge` and `tell`. Where a serial script is played and nothing fails or is
    /// full, each call is answered before the next one starts.
    pub fn is_serial(&self) -> bool
        ensures { result ≡ is_serial self.now }
    {
        self.lines.as_slice().iter().all(is_apart)
    }
}
