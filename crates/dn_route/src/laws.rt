//! How sessions keep the caller's order, as functions without work: what each says is its contract.

ghost use Rattle.std.specs.Prelude.{◌≡◌, ◌≢◌, ◌≤◌, ◌++◌, ◌∷◌, [], ℕ, List, Contains};
ghost use Rattle.dn_word.specs.declared.positions.Position.{Position};
ghost use Rattle.dn_hist.specs.CallersOrder.{IsBefore};
ghost use Rattle.dn_hist.specs.declared.receipts.Receipt.{Receipt};
ghost use Rattle.dn_hist.specs.declared.receipts.SessionView.{SessionView};
ghost use Rattle.dn_route.specs.SessionState.{SessionState, opened, numbered, heard, view_of};
ghost use Rattle.dn_route.specs.CallersOrder.{Told, told_now, KeepsCallersOrder, Knows, IsGood};

/// What a session knows of the history and of what it was told: from its beginning on, with each number that it gives,
/// each position that it is told, each receipt of its own calls, whose position it is told, and each receipt of other
/// sessions.
pub fn knowledge()
    ensures opened { (told : List Told) (receipts : List Receipt) (n : ℕ)
        → ((r : Receipt) → Contains receipts r → r.position.session ≢ n)
        → ((t : Told) → Contains told t → t.session ≢ n)
        → Knows told receipts (opened n) }
    ensures numbered { (told : List Told) (receipts : List Receipt) (s : SessionState)
        → Knows told receipts s → Knows told receipts (numbered s) }
    ensures heard { (told : List Told) (receipts : List Receipt) (s : SessionState) (p : Position)
        → Knows told receipts s → Knows (told ++ told_now s p ∷ []) receipts (heard s p) }
    ensures made { (told : List Told) (receipts : List Receipt) (s : SessionState) (r : Receipt)
        → Knows told receipts s → r.number ≤ s.number
        → Knows told (receipts ++ r ∷ []) (heard s r.position) }
    ensures others { (told : List Told) (receipts : List Receipt) (s : SessionState) (r : Receipt)
        → Knows told receipts s → r.position.session ≢ s.session
        → Knows told (receipts ++ r ∷ []) s }
{}

/// The view that a session gives with a call is good until the call is answered: at its first attempt, at each further
/// one, and while the session is told positions.
pub fn views()
    ensures first { (told : List Told) (receipts : List Receipt) (s : SessionState) (key : ℕ)
        → Knows told receipts s → IsGood told receipts (view_of (numbered s) key) }
    ensures further { (told : List Told) (receipts : List Receipt) (s : SessionState) (key : ℕ)
        → Knows told receipts s
        → ((r : Receipt) → Contains receipts r → r.position.session ≡ s.session
        → r.number ≢ s.number)
        → IsGood told receipts (view_of s key) }
    ensures waiting { (told : List Told) (receipts : List Receipt) (view : SessionView) (t : Told)
        → IsGood told receipts view → (t.session ≡ view.session → view.number ≤ t.number)
        → IsGood (told ++ t ∷ []) receipts view }
{}

/// A history stays in caller's order: where a session is told a position, and where a call whose view was good is made
/// at a position behind the view's last one.
pub fn orders()
    ensures empty { (told : List Told) → KeepsCallersOrder told [] }
    ensures heard { (told : List Told) (receipts : List Receipt) (s : SessionState) (p : Position)
        → Knows told receipts s → KeepsCallersOrder told receipts
        → KeepsCallersOrder (told ++ told_now s p ∷ []) receipts }
    ensures made { (told : List Told) (receipts : List Receipt) (view : SessionView) (r : Receipt)
        → KeepsCallersOrder told receipts → IsGood told receipts view
        → r.position.session ≡ view.session → r.number ≡ view.number
        → IsBefore view.last r.position → KeepsCallersOrder told (receipts ++ r ∷ []) }
{}
