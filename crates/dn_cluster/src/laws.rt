//! What is so of clusters, as functions without work: what each says is its contract.

ghost use Rattle.std.specs.Prelude.{◌≡◌, ◌++◌, ◌∷◌, [], ℕ, List};
ghost use Rattle.dn_word.specs.declared.positions.Position.{Position};
ghost use Rattle.dn_hist.specs.declared.receipts.SessionView.{SessionView};
ghost use Rattle.dn_callers.specs.Callers.{Standing};
ghost use Rattle.dn_callers.specs.Sessions.{IsSession, IsUnderWay};
ghost use Rattle.dn_route.specs.CallersOrder.{Told, told_now};
ghost use Rattle.dn_route.specs.SessionState.{view_of};
ghost use Rattle.dn_machine.specs.Events.{Event, Numbers};
ghost use Rattle.dn_machine.specs.Given.{IsGiven};
ghost use Rattle.dn_machine.specs.Sound.{IsSound};
ghost use Rattle.dn_cluster.specs.State.{ClusterState};
ghost use Rattle.dn_cluster.specs.Machine.{machine_of, session_at, IsOpen};
ghost use Rattle.dn_cluster.specs.Does.{Does, IsTold};

/// A call that does an event of the machine leaves a sound one, over whatever words, receipts and told positions it was
/// sound before, where the event may be given.
pub fn given()
    ensures { (words : List ℕ) (c d : ClusterState) (e : Event) (told : List Told)
        (receipts : List Standing) → Does c d e
        → IsSound c.segments (machine_of words c told receipts)
        → IsGiven c.segments (machine_of words c told receipts) e
        → IsSound c.segments (machine_of words d told receipts) }
{}

/// So does a told position, for a session that isn't closed.
pub fn told()
    ensures { (words : List ℕ) (c d : ClusterState) (s : ℕ) (position : Position)
        (told : List Told)
        (receipts : List Standing) → IsTold c d s position → IsSession s → IsOpen c s
        → IsSound c.segments (machine_of words c told receipts)
        → IsSound c.segments (machine_of words d
        (told ++ told_now (session_at c s) position ∷ []) receipts) }
{}

/// A session that isn't closed gives its next call a number: what it shows then is good for that call. While that is so, so
/// is what it shows with a further attempt under the same number.
pub fn views()
    ensures first { (words : List ℕ) (c d : ClusterState) (s key : ℕ) (told : List Told)
        (receipts : List Standing) → Does c d (Numbers s)
        → IsSound c.segments (machine_of words c told receipts) → IsSession s → IsOpen c s
        → IsUnderWay (machine_of words d told receipts).callers (view_of (session_at d s) key) }
    ensures further { (words : List ℕ) (c : ClusterState) (view : SessionView) (key : ℕ)
        (told : List Told) (receipts : List Standing)
        → IsSound c.segments (machine_of words c told receipts)
        → IsUnderWay (machine_of words c told receipts).callers view
        → view.number ≡ (session_at c view.session).number
        → IsUnderWay (machine_of words c told receipts).callers
        (view_of (session_at c view.session) key) }
{}
