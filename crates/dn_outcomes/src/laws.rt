//! What is so of worlds, as functions without work: what each says is its contract.

ghost use Rattle.std.specs.Prelude.{◌≡◌, ◌++◌, ◌+◌, ◌⊎◌, ℕ, Bool, true, false, List, Option, Some, Contains, length};
ghost use Rattle.std.specs.List.{range_with_len};
ghost use Rattle.std.specs.List.Sorted.{IsStrictlyIncreasing};
ghost use Rattle.dn_hist.specs.Calls.{Bytes};
ghost use Rattle.dn_hist.specs.Replay.{IsLegal, map_left};
ghost use Rattle.dn_hist.specs.declared.calls.Call.{Call};
ghost use Rattle.dn_hist.specs.declared.receipts.Receipt.{Receipt};
ghost use Rattle.dn_model.specs.PoolMap.{HoldsMap};
ghost use Rattle.dn_route.specs.CallersOrder.{KeepsCallersOrder};
ghost use Rattle.dn_callers.specs.Callers.{Standing};
ghost use Rattle.dn_callers.specs.Sessions.{IsSession};
ghost use Rattle.dn_machine.specs.Histories.{IsHistory};
ghost use Rattle.dn_machine.specs.Sound.{IsSound};
ghost use Rattle.dn_machine.specs.State.{resting};
ghost use Rattle.dn_waiting.specs.State.{call_of};
ghost use Rattle.dn_outcomes.specs.Accounts.{Asked, open_in, asked_in, Ended, ended_in, numbers_asked, numbers_ended, asked_for, HasReceipt};
ghost use Rattle.dn_outcomes.specs.Does.{does};
ghost use Rattle.dn_outcomes.specs.Effects.{Effect};
ghost use Rattle.dn_outcomes.specs.Every.{AtEvents, OverRuns};
ghost use Rattle.dn_outcomes.specs.Refusals.{refused_by, refusal};
ghost use Rattle.dn_outcomes.specs.Runs.{after, told_in, calls_of};
ghost use Rattle.dn_outcomes.specs.Sound.{IsWorld};
ghost use Rattle.dn_outcomes.specs.State.{World, opened};
ghost use Rattle.dn_outcomes.specs.Told.{Stands, starts, Starts, is_end, GoesOn, Names, IsNoOwner};
ghost use Rattle.dn_outcomes.specs.declared.outcomes.CallAnswer.TheVariants.{NotOwner};
ghost use Rattle.dn_outcomes.specs.declared.outcomes.Outcome.{Outcome};
ghost use Rattle.dn_outcomes.specs.declared.outcomes.Outcome.TheVariants.{Answered};
ghost use Rattle.dn_outcomes.specs.declared.events.Event.TheVariants as event;
ghost use Rattle.dn_outcomes.specs.declared.events.Event.{Event};

/// A world is sound at first, over words that an opening leaves; and every event that may be given keeps it so. So it is
/// sound from the beginning of a run to its end.
pub fn worlds()
    ensures opening { (segments : ℕ) (words : List ℕ) → IsSound segments (resting words)
        → IsWorld (opened segments words) }
    ensures kept { AtEvents (λ w e heirs. IsWorld (does w e heirs).world) }
    ensures runs { OverRuns (λ w es. IsWorld (after w es)) }
{}

/// Whatever has happened in a world, the receipts that stand, in order of position, are a history in which each session's
/// calls stand in the order in which it made them, behind all that it knew: a plain map that starts empty gives each call
/// the reply of its receipt, and in the end it is what the words hold, which hold no other map.
pub fn histories()
    ensures legal { (w : World) (hs : List Receipt) → IsWorld w → IsHistory w.machine hs
        → IsLegal hs }
    ensures order { (w : World) (hs : List Receipt) → IsWorld w → IsHistory w.machine hs
        → KeepsCallersOrder w.machine.callers.told hs }
    ensures map { (w : World) (hs : List Receipt) → IsWorld w → IsHistory w.machine hs
        → HoldsMap w.machine.words (map_left hs) }
    ensures alone { (w : World) (hs : List Receipt) (map : Bytes) → IsWorld w
        → IsHistory w.machine hs → HoldsMap w.machine.words map → map ≡ map_left hs }
{}

/// A call that is told as made has its receipt, which comes to stand by that event and no other: it is answered, of the
/// session and number that are told, and of the call that the session has. A session that starts a call, with the next
/// number, had none; its call stays the same until an outcome tells that it was made or is given up, and is gone then. A
/// number that is told is the call's. So over a run the receipts that come to stand are those that are told, in the same
/// order.
pub fn outcomes()
    ensures receipts { AtEvents (λ w e heirs. Stands w (does w e heirs).world
        (does w e heirs).outcome) }
    ensures calls { AtEvents (λ w e heirs. (s : ℕ) → starts e s ≡ false
        → GoesOn (is_end (does w e heirs).outcome s) (call_of w.waiting s)
        (call_of (does w e heirs).world.waiting s)) }
    ensures begins { (w : World) (s : ℕ) (lane : Option ℕ) (call : Call) (heirs : List ℕ)
        → IsWorld w → IsSession s
        → Starts w (does w (event.Start s lane call) heirs).world s call
        (does w (event.Start s lane call) heirs).outcome }
    ensures numbers { AtEvents (λ w e heirs. Names w.waiting (does w e heirs).outcome) }
    ensures runs { OverRuns (λ w es. calls_of (after w es).machine.callers.receipts
        ≡ calls_of w.machine.callers.receipts ++ told_in w es) }
{}

/// Over a run no call of a session is lost, and none ends twice: what it had and has asked is, in order, what has ended and
/// what it has at last. The numbers that it is told follow its last one, one after the other; so those that end rise. A call
/// that is told as made has a receipt then and later, one that is given up never has one, and one that still waits for its
/// answer has none. Each receipt that comes to stand has the call that its session asked with its number.
pub fn accounts()
    ensures all { OverRuns (λ w es. (s : ℕ) → numbers_asked (open_in w s ++ asked_in s w es)
        ≡ numbers_ended (ended_in s w es) ++ numbers_asked (open_in (after w es) s)) }
    ensures numbers { OverRuns (λ w es. (s : ℕ) → numbers_asked (asked_in s w es)
        ≡ range_with_len ((w.machine.callers.sessions s).number + 1)
        (length (asked_in s w es))) }
    ensures once { OverRuns (λ w es. (s : ℕ) → IsSession s
        → IsStrictlyIncreasing (numbers_ended (ended_in s w es))) }
    ensures made { OverRuns (λ w es. (s : ℕ) (x : Ended) → Contains (ended_in s w es) x
        → x.made ≡ true → HasReceipt (after w es) s x.number) }
    ensures given_up { OverRuns (λ w es. (s : ℕ) (x : Ended) → IsSession s
        → Contains (ended_in s w es) x → x.made ≡ false
        → HasReceipt (after w es) s x.number → ⊥) }
    ensures unanswered { (w : World) (s : ℕ) (x : Asked) → IsWorld w → IsSession s
        → Contains (open_in w s) x → HasReceipt w s x.number → ⊥ }
    ensures asked { OverRuns (λ w es. (x : Standing)
        → Contains (after w es).machine.callers.receipts x
        → Contains w.machine.callers.receipts x
        ⊎ Contains (open_in w x.receipt.position.session
        ++ asked_in x.receipt.position.session w es) (asked_for x.receipt)) }
{}

/// A call is made at the event that tells it as made: it is answered what the plain map answers that the words hold before,
/// and leaves what the plain map leaves. Any other event leaves the map that the words hold.
pub fn effects()
    ensures { (w : World) (e : Event) (heirs : List ℕ) (held : Bytes) → IsWorld w
        → HoldsMap w.machine.words held → Effect w.machine.callers.receipts
        (does w e heirs).world held (does w e heirs).outcome }
{}

/// A lane refuses a call as not its owner's by its own look: by the word of the deed of the call's slot, which doesn't show
/// the lane as owner.
pub fn owners()
    ensures { (w : World) (n : ℕ) (heirs : List ℕ) (s number look : ℕ) (cell : Option ℕ)
        (given : Bool) → IsWorld w → (does w (event.Step n) heirs).outcome
        ≡ Answered s number (NotOwner look cell) given → IsNoOwner w n s look }
{}

/// An event is refused exactly where there is a cause for that, and by the first one that there is: a lane that it names
/// wasn't made, or the target of a move isn't live; then, the session has a call, and it is closed; or an order is under
/// way; or 63 lanes were made. Whatever is refused changes nothing, and so takes no number.
pub fn refusals()
    ensures causes { (w : World) (e : Event) (heirs : List ℕ)
        → refused_by (does w e heirs).outcome ≡ refusal w e }
    ensures same { (w : World) (e : Event) (heirs : List ℕ) (o : Outcome)
        → refusal w e ≡ Some o → (does w e heirs).world ≡ w }
{}
