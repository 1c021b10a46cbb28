//! What is so of owners, as functions without work: what each says is its contract. The order of a log's offsets is
//! given by the words that represent the store.

ghost use Rattle.std.specs.Prelude.{◌≡◌, ◌++◌, ◌∷◌, [], ℕ, false, List, Option, Some, None};
ghost use Rattle.dn_record.specs.declared.records.Record.{Record};
ghost use Rattle.dn_model.specs.declared.logs.Placed.{Placed};
ghost use Rattle.dn_model.specs.Held.{Says, indexed};
ghost use Rattle.dn_model.specs.Regions.{home_of, slot_of};
ghost use Rattle.dn_store.specs.State.{StoreState};
ghost use Rattle.dn_store.specs.Represents.{Represents};
ghost use Rattle.dn_store.specs.Fresh.{IsFreshPool};
ghost use Rattle.dn_store.specs.Holding.{owner_in, waiting, authority_in, holds};
ghost use Rattle.dn_owners.specs.declared.plain.Pending.{Pending};
ghost use Rattle.dn_owners.specs.Counting.{last_counting};
ghost use Rattle.dn_owners.specs.Known.{Look, Learnt, Owners};
ghost use Rattle.dn_owners.specs.Sound.{IsOrdered, IsSound, Owns, Agrees};
ghost use Rattle.dn_owners.specs.Events.{Event, happens};
ghost use Rattle.dn_owners.specs.Given.{IsGiven};
ghost use Rattle.dn_owners.specs.Later.{IsLater, AuthorityAfter, HeldAfter};
ghost use Rattle.dn_owners.specs.Merging.{IsWaiting, IndexAfter, IsRecordOf};
ghost use Rattle.dn_owners.specs.Fresh.{fresh_owners};
ghost use Rattle.dn_owners.specs.Runs.{IsRun, after};
ghost use Rattle.dn_owners.specs.Moving.{opened, putting, merging, leaving, released, loading, granting, returning, moving};

/// The owners that an opening for 1 to 63 lanes leaves are sound; and a store that words represent has logs in order.
pub fn opening()
    ensures sound { (words : List ℕ) (pool lanes : ℕ) (owners : ℕ → ℕ)
        → IsFreshPool words pool lanes owners → IsSound (fresh_owners pool lanes owners) }
    ensures ordered { (words : List ℕ) (chains : ℕ → List ℕ) (s : StoreState)
        → Represents words chains s → IsOrdered s.logs s.gates s.marks }
{}

/// A run by hand of a slot that moves, so that no law here stands over a premise that nothing meets: a put that is
/// merged, Leaving, Released, the load of the gate, the grant, and the look of the new owner, each as its premise asks.
/// Then the put is still what is held, and lane 2 owns the key.
pub fn run()
    ensures given { (pool : ℕ) → IsRun (opened pool)
        (putting ++ merging ++ leaving ++ released ++ loading ++ granting 2 1) }
    ensures sound { (pool : ℕ) → IsSound (after (opened pool) moving) }
    ensures owner { (pool : ℕ) → owner_in (after (opened pool) moving).store 5 ≡ 2 }
    ensures held { (pool : ℕ)
        → holds (after (opened pool) moving).store 5 ≡ Says (Some (97 ∷ [])) }
    ensures runs { (o : Owners) (es : List Event) → IsSound o → IsRun o es
        → IsSound (after o es) }
{}

/// The same run with one thing left out, and the state to which it leads isn't sound: the log isn't merged before the
/// grant; the floor forgets the stamp of the gate; the gate is loaded while the slot is Leaving; the slot goes and comes
/// back in one epoch. So the parts say something, and these premises are needed.
pub fn wrong_runs()
    ensures unmerged { (pool : ℕ) → IsSound (after (opened pool)
        (putting ++ leaving ++ released ++ loading ++ granting 2 1)) → ⊥ }
    ensures forgetful { (pool : ℕ) → IsSound (after (opened pool)
        (putting ++ merging ++ leaving ++ released ++ loading ++ granting 2 0)) → ⊥ }
    ensures early { (pool : ℕ) → IsSound (after (opened pool)
        (putting ++ merging ++ leaving ++ loading)) → ⊥ }
    ensures same_epoch { (pool : ℕ) → IsSound (after (opened pool)
        (putting ++ merging ++ leaving ++ released ++ loading ++ granting 1 1 ++ returning 1))
        → ⊥ }
{}

/// Each event keeps every part; logs, gates, marks, epochs, floors and promised stamps only grow.
pub fn events()
    ensures sound { (o : Owners) (e : Event) → IsOrdered o.store.logs o.store.gates o.store.marks
        → IsSound o → IsGiven o e → IsSound (happens o e) }
    ensures later { (o : Owners) (e : Event) → IsGiven o e → IsLater o (happens o e) }
{}

/// What an event does to the authority of a key and to what is held there. Of a key whose slot a lane has looked at,
/// while that lane has no bit and seals nothing, the record that is the authority stays that, or is a forgotten Delete.
pub fn keys()
    ensures authority { (o : Owners) (e : Event) (k : ℕ)
        → IsOrdered o.store.logs o.store.gates o.store.marks
        → IsSound o → IsGiven o e → AuthorityAfter o e k }
    ensures held { (o : Owners) (e : Event) (k : ℕ)
        → IsOrdered o.store.logs o.store.gates o.store.marks
        → IsSound o → IsGiven o e → HeldAfter o e k }
    ensures located { (o : Owners) (e : Event) (n k : ℕ) (l : Look) (r : Record)
        → IsOrdered o.store.logs o.store.gates o.store.marks → IsSound o → IsGiven o e
        → (o.knows n).look ≡ Some l → slot_of k ≡ l.slot
        → (o.store.gates n).fenced ≡ false
        → (happens o e).store.logs n ≡ o.store.logs n
        → Agrees (authority_in o.store k) k r
        → Agrees (authority_in (happens o e).store k) k r }
{}

/// What the pending records of a lane tell of a key of a slot that it owns in the epoch that it has learnt: the last
/// one that counts is the key's authority, or a Delete of a key without one; and where none counts, no log has a record
/// of the key that isn't merged, and its authority is what the index gives.
pub fn pending()
    ensures some { (o : Owners) (n k : ℕ) (c : Learnt) (q : Pending)
        → IsOrdered o.store.logs o.store.gates o.store.marks → IsSound o
        → Owns (o.knows n).running (o.store.gates n) (o.store.deeds (slot_of k)) n
        → (o.knows n).learnt (slot_of k) ≡ Some c
        → c.epoch ≡ (o.store.deeds (slot_of k)).epoch
        → last_counting k c.from (o.knows n).pending ≡ Some q → IsRecordOf o n k q }
    ensures none { (o : Owners) (n k : ℕ) (c : Learnt) → IsSound o
        → Owns (o.knows n).running (o.store.gates n) (o.store.deeds (slot_of k)) n
        → (o.knows n).learnt (slot_of k) ≡ Some c
        → c.epoch ≡ (o.store.deeds (slot_of k)).epoch
        → last_counting k c.from (o.knows n).pending ≡ None
        → (m : ℕ) → waiting o.store m k ≡ None }
    ensures index { (s : StoreState) (k : ℕ) → waiting s (owner_in s k) k ≡ None
        → authority_in s k ≡ indexed s.logs k (s.index k) }
{}

/// Who merges a key. Of the lanes whose logs have an unmerged record of a key of one chain, or of one slot, there is
/// one; while it has one of a key, the index changes at that key by its merger alone; and at a key without such a
/// record it doesn't change.
pub fn merging()
    ensures slot { (o : Owners) (n m k q : ℕ) (p r : Placed) → IsSound o
        → IsWaiting o n k p → IsWaiting o m q r → slot_of k ≡ slot_of q → n ≡ m }
    ensures chain { (o : Owners) (n m k q : ℕ) (p r : Placed) → IsSound o
        → IsWaiting o n k p → IsWaiting o m q r → home_of k ≡ home_of q → n ≡ m }
    ensures index { (o : Owners) (e : Event) (n k : ℕ) (p : Placed) → IsSound o → IsGiven o e
        → IsWaiting o n k p → IndexAfter o e n k }
    ensures walk { (o : Owners) (e : Event) (k : ℕ) → IsSound o → IsGiven o e
        → waiting o.store (owner_in o.store k) k ≡ None
        → (happens o e).store.index k ≡ o.store.index k }
{}
