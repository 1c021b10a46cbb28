//! What is so of walks, as functions without work: what each says is its contract.

ghost use Rattle.std.specs.Prelude.{◌≡◌, ◌≢◌, ◌<◌, ◌+◌, ◌^◌, ℕ, List, Option, Some, None};
ghost use Rattle.dn_word.specs.Ref.{ref_word};
ghost use Rattle.dn_word.specs.declared.packed.place.Ref.{Ref};
ghost use Rattle.dn_act.specs.Action.{Performs};
ghost use Rattle.dn_model.specs.Regions.{home_of, IsLane};
ghost use Rattle.dn_model.specs.Index.{index};
ghost use Rattle.dn_index.specs.Walk.{Walking, begun, walk_next, walk_step};
ghost use Rattle.dn_index.specs.Sequence.{find_program, set_program, remove_program};
ghost use Rattle.dn_index.specs.declared.places.WalkPlace.{WalkPlace};
ghost use Rattle.dn_index.specs.declared.places.WalkTurn.{WalkTurn};
ghost use Rattle.dn_index.specs.declared.places.Errand.{Errand as ErrandOf};
ghost use Rattle.dn_store.specs.State.{StoreState};
ghost use Rattle.dn_store.specs.Represents.{Represents};
ghost use Rattle.dn_beside.specs.Pool.{Pool, store_in, IsWhole};
ghost use Rattle.dn_beside.specs.Chains.{IsPathKept, IsChainKept};
ghost use Rattle.dn_walks.specs.Finding.{KnowsFind, KnowsFound};
ghost use Rattle.dn_walks.specs.Changing.{Wants, KnowsWalk, IsWalked};
ghost use Rattle.dn_walks.specs.Alone.{Alone};
ghost use Rattle.dn_walks.specs.Gives.{told, IsBetween, SetEnds, RemoveEnds};

/// A walk that finds a key, whatever others do to other keys, and to this one before it is found: it begins at the home
/// bucket, leaves all words, goes on until it answers what the index gives then, and knows what it knows as long as the
/// key stays where it stands.
pub fn finding()
    ensures begins { (p : Pool) (k : ℕ) → KnowsFind p.words p.chains k
        (begun k (home_of k) ErrandOf.Find).place }
    ensures loads { (p : Pool) (w : Walking) (word : ℕ) (now : List ℕ)
        → KnowsFind p.words p.chains w.key w.place
        → Performs (walk_next w) word p.words now → now ≡ p.words }
    ensures steps { (p : Pool) (w : Walking) (word : ℕ) (now : List ℕ) → IsWhole p
        → 0 < w.key → KnowsFind p.words p.chains w.key w.place
        → Performs (walk_next w) word p.words now
        → KnowsFound p.words p.chains (store_in p).index w.key (walk_step w word) }
    ensures lasts { (p q : Pool) (k : ℕ) (place : WalkPlace) → IsPathKept k p q
        → KnowsFind p.words p.chains k place → KnowsFind q.words q.chains k place }
{}

/// The walk by which a merger sets or removes a key, whatever others do in other chains: after each of its actions the
/// words represent a store, with other mergers' chains as they were and all other keys where they stood. It ends when
/// the index gives what is wanted, or where no overflow bucket is left.
pub fn changing()
    ensures begins { (n k : ℕ) (want : Option ℕ) (errand : ErrandOf) (p : Pool)
        → Wants want errand → KnowsWalk n k want p (begun k (home_of k) errand).place }
    ensures steps { (n : ℕ) (want : Option ℕ) (p : Pool) (w : Walking) (word : ℕ)
        (now : List ℕ)
        → IsWhole p → IsLane n → 0 < w.key → (store_in p).bucket_count + 1 < 2 ^ 64
        → KnowsWalk n w.key want p w.place → Performs (walk_next w) word p.words now
        → IsWalked n want p w word now }
    ensures lasts { (n k : ℕ) (want : Option ℕ) (p q : Pool) (place : WalkPlace) → IsLane n
        → IsChainKept n k p q → KnowsWalk n k want p place → KnowsWalk n k want q place }
{}

/// What the sequences do over words that nobody else writes, whatever store they represent. Its index is that of the
/// definition over the words. Find leaves the words and answers what the index gives, the place that a set wrote. Set
/// makes the index give the place and remove none; after each of their actions the index gives every other key what it
/// gave before, and the rest of the store stays.
pub fn alone()
    ensures given { (words : List ℕ) (chains : ℕ → List ℕ) (s : StoreState) (k : ℕ)
        → Represents words chains s → 0 < k
        → index words (chains (home_of k)) k ≡ s.index k }
    ensures find { (words : List ℕ) (chains : ℕ → List ℕ) (s : StoreState) (k : ℕ)
        → Represents words chains s → 0 < k
        → Alone (λ now. now ≡ words) (λ now answer. answer ≡ told (s.index k))
        (find_program k) words }
    ensures again { (at : Ref) → at.lane < 2 ^ 8 → at.offset < 2 ^ 24
        → at.lane + at.offset ≢ 0 → told (Some (ref_word at)) ≡ WalkTurn.Found at }
    ensures set { (words : List ℕ) (chains : ℕ → List ℕ) (s : StoreState) (k : ℕ)
        (at : Ref) → Represents words chains s → 0 < k
        → Alone (λ now. IsBetween s k (Some (ref_word at)) now)
        (λ now answer. SetEnds words s k at now answer) (set_program k at) words }
    ensures remove { (words : List ℕ) (chains : ℕ → List ℕ) (s : StoreState) (k : ℕ)
        → Represents words chains s → 0 < k
        → Alone (λ now. IsBetween s k None now) (λ now answer. RemoveEnds s k now answer)
        (remove_program k) words }
{}
