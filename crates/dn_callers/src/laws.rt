//! What is so of callers, as functions without work: what each says is its contract.

ghost use Rattle.std.specs.Prelude.{◌≡◌, ◌≢◌, ℕ, List, false};
ghost use Rattle.dn_word.specs.declared.positions.Position.{Position};
ghost use Rattle.dn_hist.specs.declared.receipts.Receipt.{Receipt};
ghost use Rattle.dn_hist.specs.declared.receipts.SessionView.{SessionView};
ghost use Rattle.dn_route.specs.SessionState.{view_of};
ghost use Rattle.dn_callers.specs.Callers.{Callers, fresh_callers};
ghost use Rattle.dn_callers.specs.Sessions.{IsSession, AreSessions, IsUnderWay, IsReceiptOf};
ghost use Rattle.dn_callers.specs.Changes.{numbered_at, told_at, answered_by, closed_at, unanswered_by, routed_at, hinted_at};

/// Before the first call all is sound.
pub fn opening()
    ensures { AreSessions fresh_callers }
{}

/// A session gives a call its number: the view that it shows with it is good. So is that of a further attempt under the
/// same number, while the call isn't answered.
pub fn numbers()
    ensures sessions { (c : Callers) (s : ℕ) → AreSessions c → AreSessions (numbered_at c s) }
    ensures first { (c : Callers) (s key : ℕ) → AreSessions c → IsSession s
        → c.closed s ≡ false
        → IsUnderWay (numbered_at c s) (view_of ((numbered_at c s).sessions s) key) }
    ensures further { (c : Callers) (view : SessionView) (key : ℕ) → AreSessions c
        → IsUnderWay c view → view.number ≡ (c.sessions view.session).number
        → IsUnderWay c (view_of (c.sessions view.session) key) }
    ensures calls { (c : Callers) (s : ℕ) (view : SessionView)
        → IsUnderWay c view → IsUnderWay (numbered_at c s) view }
{}

/// A session is told a position by another one. Calls that are under way, its own too, needn't stand behind it.
pub fn tellings()
    ensures sessions { (c : Callers) (s : ℕ) (p : Position) → AreSessions c → IsSession s
        → c.closed s ≡ false → AreSessions (told_at c s p) }
    ensures calls { (c : Callers) (s : ℕ) (p : Position) (view : SessionView) → AreSessions c
        → IsSession s → IsUnderWay c view → IsUnderWay (told_at c s p) view }
{}

/// A call under way gets its receipt, which stands behind the position that its session knew: the session is answered
/// it, or is closed. Calls of other sessions stay under way.
pub fn receipts()
    ensures answered { (c : Callers) (view : SessionView) (r : Receipt) → AreSessions c
        → IsUnderWay c view → IsReceiptOf view r → AreSessions (answered_by c r) }
    ensures answered_calls { (c : Callers) (r : Receipt) (view : SessionView) → IsUnderWay c view
        → r.position.session ≢ view.session → IsUnderWay (answered_by c r) view }
    ensures unanswered { (c : Callers) (view : SessionView) (r : Receipt) → AreSessions c
        → IsUnderWay c view → IsReceiptOf view r → AreSessions (unanswered_by c r) }
    ensures unanswered_calls { (c : Callers) (r : Receipt) (view : SessionView)
        → IsUnderWay c view
        → r.position.session ≢ view.session → IsUnderWay (unanswered_by c r) view }
{}

/// A session is closed, with no receipt of its call.
pub fn closing()
    ensures sessions { (c : Callers) (s : ℕ) → AreSessions c → AreSessions (closed_at c s) }
    ensures calls { (c : Callers) (s : ℕ) (view : SessionView) → IsUnderWay c view
        → s ≢ view.session → IsUnderWay (closed_at c s) view }
{}

/// A session learns a route or cells of keys, which say nothing of its calls.
pub fn learning()
    ensures routes { (c : Callers) (s slot word : ℕ) → AreSessions c
        → AreSessions (routed_at c s slot word) }
    ensures routes_calls { (c : Callers) (s slot word : ℕ) (view : SessionView)
        → IsUnderWay c view → IsUnderWay (routed_at c s slot word) view }
    ensures hints { (c : Callers) (s : ℕ) (pairs : List (ℕ × ℕ)) → AreSessions c
        → AreSessions (hinted_at c s pairs) }
    ensures hints_calls { (c : Callers) (s : ℕ) (pairs : List (ℕ × ℕ)) (view : SessionView)
        → IsUnderWay c view → IsUnderWay (hinted_at c s pairs) view }
{}
