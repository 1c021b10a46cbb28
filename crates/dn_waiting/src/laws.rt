//! What stays true of all that waits, as functions without work: what each says is its contract.

ghost use Rattle.std.specs.Prelude.{◌≡◌, ◌≢◌, ◌≤◌, ◌+◌, ◌++◌, ℕ, List, Option, Some, None, Contains, length, map};
ghost use Rattle.dn_hist.specs.declared.calls.Call.{Call};
ghost use Rattle.dn_hist.specs.declared.receipts.SessionView.{SessionView};
ghost use Rattle.dn_tend.specs.declared.tasks.Task.{Task};
ghost use Rattle.dn_waiting.specs.declared.calls.AttemptEnd.{AttemptEnd};
ghost use Rattle.dn_waiting.specs.declared.calls.Next.TheVariants.{Tend, Try};
ghost use Rattle.dn_waiting.specs.declared.calls.OpenCall.{OpenCall};
ghost use Rattle.dn_waiting.specs.declared.calls.Place.{Place};
ghost use Rattle.dn_waiting.specs.Attempts.{started, loaded, unloaded, answered, refused_through, refusals_of};
ghost use Rattle.dn_waiting.specs.Queues.{AtLane, attempts_at};
ghost use Rattle.dn_waiting.specs.Sound.{IsSound, IsSession, IsLane, IsLaneOrNone, IsLoading, Shows, how_often};
ghost use Rattle.dn_waiting.specs.State.{WaitingState, nothing_waits, call_of, at_lane};
ghost use Rattle.dn_waiting.specs.Stops.{stopped};
ghost use Rattle.dn_waiting.specs.Turns.{taken_up, tasked, released, turns};

/// A session's call is in at most one place: once in one queue, or under way at one lane. Attempts have the numbers of
/// their calls, and a call has had at most seven refused attempts.
pub fn places()
    ensures once { (w : WaitingState) → IsSound w → (lane session : ℕ)
        → how_often session (at_lane w lane).queue ≤ 1 }
    ensures one_queue { (w : WaitingState) → IsSound w → (l m : ℕ) (u v : SessionView)
        → Contains (at_lane w l).queue u → Contains (at_lane w m).queue v
        → u.session ≡ v.session → l ≡ m }
    ensures one_begun { (w : WaitingState) → IsSound w → (l m : ℕ) (u v : SessionView)
        → (at_lane w l).begun ≡ Some u → (at_lane w m).begun ≡ Some v
        → u.session ≡ v.session → l ≡ m }
    ensures not_both { (w : WaitingState) → IsSound w → (l m : ℕ) (u v : SessionView)
        → Contains (at_lane w l).queue u → (at_lane w m).begun ≡ Some v
        → u.session ≢ v.session }
    ensures numbers { (w : WaitingState) → IsSound w → (lane : ℕ) (u : SessionView)
        → Contains (attempts_at (at_lane w lane)) u → Shows u (call_of w u.session) }
    ensures refused { (w : WaitingState) → IsSound w → (session : ℕ) (c : OpenCall)
        → call_of w session ≡ Some c → c.refused ≤ 7 }
{}

/// Up to seven refused attempts leave a call there, and the eighth gives it up, wherever it stands between them.
pub fn refusals()
    ensures seven { (places : List Place) (c : OpenCall) → c.refused + length places ≤ 7
        → refusals_of (refused_through places (Some c)) ≡ Some (c.refused + length places) }
    ensures eighth { (places : List Place) (c : OpenCall) → c.refused ≤ 7
        → 8 ≤ c.refused + length places → refused_through places (Some c) ≡ None }
{}

/// A lane at which nothing arrives takes up all its tasks, and then all attempts, each in order of arrival.
pub fn turns_of_a_lane()
    ensures { (at : AtLane) → turns (length at.tasks + length at.queue) at
        ≡ map Tend at.tasks ++ map Try at.queue }
{}

/// Nothing waits at first, and each change keeps all that waits sound.
pub fn changes()
    ensures opening { IsSound nothing_waits }
    ensures started { (w : WaitingState) (call : Call) (view : SessionView) (named : Option ℕ)
        (route : ℕ) → IsSound w → IsSession view.session → call_of w view.session ≡ None
        → IsLaneOrNone named → route ≤ 63 → IsSound (started w call view named route) }
    ensures loaded { (w : WaitingState) (view : SessionView) (route : ℕ) → IsSound w
        → IsSession view.session → IsLoading (call_of w view.session)
        → Shows view (call_of w view.session) → route ≤ 63 → IsSound (loaded w view route) }
    ensures unloaded { (w : WaitingState) (session : ℕ) → IsSound w → IsSession session
        → IsLoading (call_of w session) → IsSound (unloaded w session) }
    ensures answered { (w : WaitingState) (lane : ℕ) (end : AttemptEnd) → IsSound w
        → IsLane lane → IsSound (answered w lane end) }
    ensures taken_up { (w : WaitingState) (lane : ℕ) → IsSound w → IsLane lane
        → (at_lane w lane).begun ≡ None → IsSound (taken_up w lane) }
    ensures tasked { (w : WaitingState) (lane : ℕ) (task : Task) → IsSound w → IsLane lane
        → IsSound (tasked w lane task) }
    ensures released { (w : WaitingState) (lane slot : ℕ) → IsSound w → IsLane lane
        → IsSound (released w lane slot) }
    ensures stopped { (w : WaitingState) (lane : ℕ) → IsSound w → IsLane lane
        → IsSound (stopped w lane) }
{}
