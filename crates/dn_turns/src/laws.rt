//! What is so of mergers, as functions without work: what each says is its contract.

ghost use Rattle.std.specs.Prelude.{◌≡◌, ◌<◌, ◌≤◌, ◌+◌, ◌^◌, ℕ, List, Option, Some};
ghost use Rattle.dn_word.specs.Gate.{gate_of};
ghost use Rattle.dn_act.specs.Action.{Performs, MayPerform};
ghost use Rattle.dn_model.specs.Regions.{IsLane};
ghost use Rattle.dn_store.specs.State.{with_at};
ghost use Rattle.dn_merge.specs.Merge.{Merging, started, merge_next, merge_after, Meets, IsIdle, IsFull};
ghost use Rattle.dn_beside.specs.Pool.{Pool, store_in, IsWhole};
ghost use Rattle.dn_beside.specs.Grown.{Grows};
ghost use Rattle.dn_beside.specs.Mergers.{LeavesMerger};
ghost use Rattle.dn_turns.specs.Knows.{IsMergerAt};
ghost use Rattle.dn_turns.specs.Claims.{asks, asking};
ghost use Rattle.dn_turns.specs.Steps.{IsMergerStep, MergerStepped};

/// A lane's merger, whatever lanes, other mergers and the monitor do. It begins a turn knowing nothing of the pool; each
/// of its actions is to all others a step that leaves them what they know, and then it knows its next place; what it
/// knows lasts under their steps. An action that failed was done or not done, and either is such a step too, after which
/// a merger may begin anew.
pub fn mergers()
    ensures begins { (n : ℕ) (p : Pool) → IsMergerAt n (started n) p }
    ensures steps { (n : ℕ) (m : Merging) (p : Pool) (word : ℕ) (now : List ℕ) → IsWhole p
        → IsLane n → (store_in p).bucket_count + 1 < 2 ^ 64 → IsMergerAt n m p
        → Performs (merge_next m) word p.words now → MergerStepped n m p word now }
    ensures fails { (n : ℕ) (m : Merging) (p : Pool) (now : List ℕ) → IsWhole p
        → IsLane n → (store_in p).bucket_count + 1 < 2 ^ 64 → IsMergerAt n m p
        → MayPerform (merge_next m) p.words now → IsMergerStep n m p now }
    ensures lasts { (n : ℕ) (m : Merging) (p q : Pool) → IsWhole p → IsLane n → Grows p q
        → LeavesMerger n p q → IsMergerAt n m p → IsMergerAt n m q }
{}

/// What a merger is given and what it answers: each word that its action finds is one that it accepts, in a pool of at
/// most 8,192 segments; `Idle` where all is merged that was sealed when it loaded the gate; `IndexFull` where all
/// overflow buckets are claimed.
pub fn answers()
    ensures fits { (n : ℕ) (m : Merging) (p : Pool) (word : ℕ) (now : List ℕ) → IsWhole p
        → IsLane n → (store_in p).pool ≤ 8192 → IsMergerAt n m p
        → Performs (merge_next m) word p.words now → Meets word m.place }
    ensures idle { (n : ℕ) (m : Merging) (p : Pool) (word : ℕ) (now : List ℕ)
        (gate mark : ℕ)
        → IsWhole p → IsLane n → IsMergerAt n m p → Performs (merge_next m) word p.words now
        → IsIdle gate mark word m.place
        → ((store_in p).marks n ≡ mark) × ((gate_of gate).len ≡ mark) }
    ensures full { (m : Merging) (p : Pool) (word : ℕ) (now : List ℕ) (counter : ℕ)
        → IsWhole p → Performs (merge_next m) word p.words now → IsFull counter word m.place
        → (counter ≡ (store_in p).bucket_count) × (4096 ≤ counter) }
{}

/// The overflow counter with the mergers that have read it below its limit and not yet added to it: at most 4,096 and
/// the number of lanes, whatever a merger does, so that no add wraps it.
pub fn room()
    ensures most { (mergers : ℕ → Option Merging) → asking mergers ≤ 63 }
    ensures changes { (mergers : ℕ → Option Merging) (n : ℕ) (m : Option Merging) → IsLane n
        → asking (with_at mergers n m) + asks (mergers n) ≡ asking mergers + asks m }
    ensures steps { (n : ℕ) (m : Merging) (p : Pool) (word : ℕ) (now : List ℕ)
        (mergers : ℕ → Option Merging) (s : MergerStepped n m p word now)
        → IsLane n → mergers n ≡ Some m
        → (store_in p).bucket_count + asking mergers ≤ 4159 → (store_in s.left.q).bucket_count
        + asking (with_at mergers n (Some (merge_after m word))) ≤ 4159 }
    ensures fails { (n : ℕ) (m : Merging) (p : Pool) (now : List ℕ)
        (mergers : ℕ → Option Merging) (s : IsMergerStep n m p now)
        → IsLane n → mergers n ≡ Some m
        → (store_in p).bucket_count + asking mergers ≤ 4159
        → (store_in s.q).bucket_count + asking (with_at mergers n (Some (started n))) ≤ 4159 }
{}
