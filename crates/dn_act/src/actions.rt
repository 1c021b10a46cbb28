ghost use Rattle.std.specs.Prelude.{◌≡◌};
ghost use Rattle.dn_act.specs.Action.{at_of};

/// One action on one word of the pool. Each answers the word that it finds.
#[derive(Clone, Copy, Debug, PartialEq, Eq)]
pub enum Action {
    /// Leaves the word.
    Load { at: u32 },
    /// Writes `word`.
    Store { at: u32, word: u64 },
    /// Compare-and-swap: writes `new` where the word is `old`, else leaves it.
    Cas { at: u32, old: u64, new: u64 },
    /// Sets those bits of the word that are set in `bits`.
    Or { at: u32, bits: u64 },
    /// Adds `by`, modulo 2^64.
    Add { at: u32, by: u64 },
}

impl Action {
    /// The number of the word that it is on.
    pub fn at(&self) -> u32
        ensures { result ≡ at_of self.now }
    {
        match self {
            Action::Load { at }
            | Action::Store { at, .. }
            | Action::Cas { at, .. }
            | Action::Or { at, .. }
            | Action::Add { at, .. } => *at,
        }
    }
}
