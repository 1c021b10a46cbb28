ghost use Rattle.std.specs.Prelude.{◌≡◌, ◌<◌, List, ℕ, length, IfOk, OnErr};
ghost use Rattle.dn_act.specs.Access.{CountsFault};
ghost use Rattle.dn_act.specs.Action.{Performs, MayPerform};

use crate::actions::Action;
use crate::faults::Failed;

/// The words of a pool. Each call but `size` is one action on the word at `at`, which lies below the size. It answers the word
/// that it found, and no other word changes. A `Failed` access raised the count of faults, which one that answers leaves, and
/// whether its action took place is not known.
pub trait Memory {
    /// All words.
    ghost words: { Self → List ℕ };

    /// How many accesses failed.
    ghost faults: { Self → ℕ };

    /// The number of words.
    fn size(&self) -> u32
        ensures { result ≡ length (words self.now) };

    /// Leaves the word.
    fn load(&mut self, at: u32) -> Result<u64, Failed>
        requires { at < length (words self.old) }
        ensures ok { IfOk result (λ word.
            Performs (Action.Load at) word (words self.old) (words self.new)) }
        ensures failed { OnErr result (MayPerform (Action.Load at) (words self.old)
            (words self.new)) }
        ensures count { CountsFault result (faults self.old) (faults self.new) };

    /// Writes `word`.
    fn store(&mut self, at: u32, word: u64) -> Result<u64, Failed>
        requires { at < length (words self.old) }
        ensures ok { IfOk result (λ old. Performs (Action.Store at word) old (words self.old)
            (words self.new)) }
        ensures failed { OnErr result (MayPerform (Action.Store at word) (words self.old)
            (words self.new)) }
        ensures count { CountsFault result (faults self.old) (faults self.new) };

    /// Writes `new` where the word is `old`, else leaves it.
    fn cas(&mut self, at: u32, old: u64, new: u64) -> Result<u64, Failed>
        requires { at < length (words self.old) }
        ensures ok { IfOk result (λ word. Performs (Action.Cas at old new) word (words self.old)
            (words self.new)) }
        ensures failed { OnErr result (MayPerform (Action.Cas at old new) (words self.old)
            (words self.new)) }
        ensures count { CountsFault result (faults self.old) (faults self.new) };

    /// Sets those bits of the word that are set in `bits`.
    fn or(&mut self, at: u32, bits: u64) -> Result<u64, Failed>
        requires { at < length (words self.old) }
        ensures ok { IfOk result (λ word. Performs (Action.Or at bits) word (words self.old)
            (words self.new)) }
        ensures failed { OnErr result (MayPerform (Action.Or at bits) (words self.old)
            (words self.new)) }
        ensures count { CountsFault result (faults self.old) (faults self.new) };

    /// Adds `by`, modulo 2^64.
    fn add(&mut self, at: u32, by: u64) -> Result<u64, Failed>
        requires { at < length (words self.old) }
        ensures ok { IfOk result (λ word. Performs (Action.Add at by) word (words self.old)
            (words self.new)) }
        ensures failed { OnErr result (MayPerform (Action.Add at by) (words self.old)
            (words self.new)) }
        ensures count { CountsFault result (faults self.old) (faults self.new) };
}
