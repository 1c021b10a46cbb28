//! What is so of plays, as functions without work: what each says is its contract.

ghost use Rattle.std.specs.Prelude.{◌≡◌, ℕ, List, length};
ghost use Rattle.dn_act.specs.Words.{IsZeros};
ghost use Rattle.dn_script.specs.declared.scripts.Script.{Script};
ghost use Rattle.dn_whole.specs.Whole.{Plays, AreSame};
ghost use Rattle.dn_whole.specs.declared.ends.End.{End};

/// A script, and how many words its pool of zeros has, determine how its play ends, the output, and the words that it leaves.
pub fn determined()
    ensures { (script : Script) (before other now fin out last : List ℕ) (end stop : End)
        → IsZeros before → IsZeros other → length before ≡ length other
        → Plays script before now out end → Plays script other fin last stop
        → AreSame now out end fin last stop }
{}
