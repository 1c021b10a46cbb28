//! What is so of worlds, as functions without work: what each says is its contract.

ghost use Rattle.std.specs.Prelude.{◌≡◌, ℕ, List, [], length};
ghost use Rattle.dn_act.specs.Words.{IsZeros};
ghost use Rattle.dn_outcomes.specs.State.{World};
ghost use Rattle.dn_world.specs.Drains.{DrainsAll, FillsIndex};
ghost use Rattle.dn_world.specs.Opening.{IsOpened};
ghost use Rattle.dn_world.specs.State.{WorldState, world_of};

/// How many words a pool of zeros has, its segments and the number of lanes determine which world an opening leaves, and over
/// which words: all that events read of it, since what they do is a function of that world.
pub fn opens()
    ensures world { (before other words now : List ℕ) (w v : WorldState) (segments nodes : ℕ)
        → IsZeros before → IsZeros other → length before ≡ length other
        → IsOpened before words w segments nodes → IsOpened other now v segments nodes
        → world_of words w.crew [] [] ≡ world_of now v.crew [] [] }
    ensures words { (before other words now : List ℕ) (w v : WorldState) (segments nodes : ℕ)
        → IsZeros before → IsZeros other → length before ≡ length other
        → IsOpened before words w segments nodes → IsOpened other now v segments nodes
        → words ≡ now }
{}

/// A world determines the words that a drain of its lanes leaves, and whether a merger finds the index full in it.
pub fn drains()
    ensures all { (w : World) (now fin : List ℕ) → DrainsAll w now → DrainsAll w fin
        → now ≡ fin }
    ensures full { (w : World) (lane other counter count : ℕ) (now fin : List ℕ)
        → FillsIndex w lane counter now → FillsIndex w other count fin → now ≡ fin }
    ensures either { (w : World) (lane counter : ℕ) (now fin : List ℕ)
        → FillsIndex w lane counter now → DrainsAll w fin → ⊥ }
{}
