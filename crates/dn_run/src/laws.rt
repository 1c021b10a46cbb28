//! What is so of runs, as functions without work: what each says is its contract.

ghost use Rattle.std.specs.Prelude.{ℕ, List, All};
ghost use Rattle.std.specs.List.Sorted.{IsPermutation};
ghost use Rattle.dn_hist.specs.Calls.{Bytes};
ghost use Rattle.dn_hist.specs.Receipt.{IsInOrder};
ghost use Rattle.dn_callers.specs.Callers.{Standing, receipts_of};
ghost use Rattle.dn_model.specs.PoolMap.{HoldsMap};
ghost use Rattle.dn_outcomes.specs.Sound.{IsWorld};
ghost use Rattle.dn_outcomes.specs.State.{World};
ghost use Rattle.dn_script.specs.Fit.{IsLine};
ghost use Rattle.dn_script.specs.declared.scripts.Line.{Line};
ghost use Rattle.dn_run.specs.Asked.{IsAsked};
ghost use Rattle.dn_run.specs.Balance.{AddsUp};
ghost use Rattle.dn_run.specs.Headline.{IsHeadline};
ghost use Rattle.dn_run.specs.Knowledge.{IsUnheard, KnowsSo};
ghost use Rattle.dn_run.specs.Run.{after_steps, run_of, IsOver, IsRunOf};
ghost use Rattle.dn_run.specs.Uncalled.{IsUncalled};

/// A run is a run of events over its world, and its world is sound throughout.
pub fn runs()
    ensures events { (w : World) (lines : List Line) (n : ℕ) → IsWorld w → IsUncalled w
        → All IsLine lines → IsRunOf w (after_steps n (run_of w lines)) }
    ensures sound { (w : World) (lines : List Line) (n : ℕ) → IsWorld w → IsUncalled w
        → All IsLine lines → IsWorld (after_steps n (run_of w lines)).world }
{}

/// Whatever the lines let interleave, from a world in which no call was made: the receipts that stand, in order of position, are a
/// history that makes a plain map give every reply that was told; it holds each call that was told as made once, in its caller's
/// order, and nothing else; and words that hold the map that the run's words hold, hold the map that the history leaves.
pub fn headline()
    ensures { (w : World) (lines : List Line) (n : ℕ) (words : List ℕ) (history : List Standing)
        → IsWorld w → IsUncalled w → All IsLine lines
        → IsPermutation (after_steps n (run_of w lines)).world.machine.callers.receipts history
        → IsInOrder (receipts_of history)
        → ((held : Bytes) → HoldsMap (after_steps n (run_of w lines)).world.machine.words held
        → HoldsMap words held)
        → IsHeadline lines (after_steps n (run_of w lines)) words history }
{}

/// The calls that a run has had, once it is over: each call line was played, in the order of the lines, and the calls that got a
/// number, each with its session and its number there, are those that the script asks by the lines that were taken.
pub fn asked()
    ensures { (w : World) (lines : List Line) (n : ℕ) → IsWorld w → IsUncalled w
        → All IsLine lines → IsOver (after_steps n (run_of w lines))
        → IsAsked lines (after_steps n (run_of w lines)).past }
{}

/// Of a run, at any moment: each call that got a number was made, was given up, or has no answer yet; so the counts add up.
pub fn adds_up()
    ensures { (w : World) (lines : List Line) (n : ℕ) → IsWorld w → IsUncalled w
        → All IsLine lines → AddsUp (after_steps n (run_of w lines)) }
{}

/// Of a run, at any moment, from a world whose sessions know nothing: the last position of each session, and what sessions were
/// told, are a fold over what has happened. A `tell` line tells a session the last position that the other one has then; nothing
/// else tells one, and no line is left out.
pub fn knows()
    ensures { (w : World) (lines : List Line) (n : ℕ) → IsWorld w → IsUncalled w → IsUnheard w
        → All IsLine lines → KnowsSo (after_steps n (run_of w lines)) }
{}
