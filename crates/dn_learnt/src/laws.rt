//! What is so of a lane's knowledge of owners, as functions without work: what each says is its contract.

ghost use Rattle.std.specs.Prelude.{◌≡◌, ◌<◌, ◌++◌, ℕ, true, false, replicate, Option, Some, None, List, [], map};
ghost use Rattle.dn_word.specs.Deed.{deed_of};
ghost use Rattle.dn_word.specs.declared.packed.deed.Deed.{Deed};
ghost use Rattle.dn_word.specs.declared.packed.place.Ref.{Ref};
ghost use Rattle.dn_act.specs.Words.{word_at};
ghost use Rattle.dn_model.specs.Regions.{deed_at, mark_at, slot_of, IsLane};
ghost use Rattle.dn_plan.specs.Plan.{is_owner};
ghost use Rattle.dn_pending.specs.declared.entries.Entry.{Entry};
ghost use Rattle.dn_known.specs.State.{KnownState};
ghost use Rattle.dn_known.specs.Learnt.{met, kept_past};
ghost use Rattle.dn_known.specs.Counting.{pending_of};
ghost use Rattle.dn_owners.specs.declared.plain.Pending.{Pending};
ghost use Rattle.dn_owners.specs.Known.{Knows};
ghost use Rattle.dn_beside.specs.Pool.{Pool, IsWhole, store_in};
ghost use Rattle.dn_beside.specs.Grown.{Grows};
ghost use Rattle.dn_beside.specs.Lanes.{LeavesLane};
ghost use Rattle.dn_learnt.specs.Learning.{Heeds, Learns, pending_by};
ghost use Rattle.dn_learnt.specs.Heeding.{IsLooked, IsTrimmed, IsTaught, IsStopped};
ghost use Rattle.dn_learnt.specs.Pendings.{MayAsk, IsPendingAt, HasNone};

/// The load of a deed. A lane that is owner by it has looked then; one that isn't has met the epoch alone.
pub fn looking()
    ensures owner { (p : Pool) (n slot word : ℕ) (k : KnownState) → IsWhole p → IsLane n
        → slot < 64
        → Learns p n k → k.log.len ≡ ((store_in p).gates n).len
        → word ≡ word_at p.words (deed_at slot)
        → is_owner n word ≡ true → IsLooked p n slot word k }
    ensures other { (p : Pool) (n slot word : ℕ) (k : KnownState) → IsWhole p → slot < 64
        → Learns p n k → word ≡ word_at p.words (deed_at slot)
        → is_owner n word ≡ false → Learns p n (met k slot (deed_of word).epoch) }
{}

/// What a lane's pending records tell of a key of the slot at which it has looked, while its gate has no bit: the last
/// one that counts is the key's authority, or a Delete of a key without one; and where none counts, no log has a record
/// of the key that isn't merged. So what it learnt of the slot in an earlier epoch counts no more.
pub fn asking()
    ensures some { (p : Pool) (n key : ℕ) (k : KnownState) (at : Ref) → IsWhole p
        → slot_of key < 64
        → k.log.lane ≡ n → MayAsk p n key k → pending_of k key ≡ Some at
        → IsPendingAt p n key at }
    ensures none { (p : Pool) (n key : ℕ) (k : KnownState) → IsWhole p → slot_of key < 64
        → MayAsk p n key k → pending_of k key ≡ None → HasNone p n key }
{}

/// The load of its mark, which drops pending records; the end of a call or task; a record that is sealed joins the
/// pending ones.
pub fn learning()
    ensures trim { (p : Pool) (n word : ℕ) (k : KnownState) → IsWhole p → IsLane n
        → Learns p n k
        → word ≡ word_at p.words (mark_at n)
        → IsTrimmed p n (record k { pending = kept_past word k.pending }) }
    ensures end { (p : Pool) (n : ℕ) (k : KnownState) → IsWhole p → Learns p n k
        → IsTaught p n k }
    ensures seal { (v : Knows) (deeds : ℕ → Deed) (n : ℕ) (k after : KnownState)
        (more : List Pending)
        (new : List Entry) → after.epochs ≡ k.epochs → after.counts ≡ k.counts
        → after.pending.entries ≡ k.pending.entries ++ new → more ≡ map pending_by new
        → Heeds v deeds n k → Heeds (record v { pending = v.pending ++ more }) deeds n after }
{}

/// A lane begins with an empty log and knows nothing; one that is stopped knows nothing more; and what a lane knows
/// lasts under the steps of others.
pub fn lasting()
    ensures begin { (p : Pool) (n : ℕ) (k : KnownState) → IsWhole p
        → (store_in p).logs n ≡ []
        → k.epochs ≡ replicate 64 0 → k.counts ≡ replicate 64 0 → k.pending.entries ≡ []
        → IsTaught p n k }
    ensures stop { (p : Pool) (n : ℕ) → IsWhole p → IsStopped p n }
    ensures lasts { (p q : Pool) (n : ℕ) (k : KnownState) → Grows p q → LeavesLane n p q
        → Learns p n k → Learns q n k }
{}
