//! What is so of receipts over a pool, as functions without work: what each says is its contract.

ghost use Rattle.std.specs.Prelude.{◌≡◌, ◌≢◌, ◌++◌, ◌∷◌, [], ℕ, List, Option, Some, None};
ghost use Rattle.std.specs.List.Sorted.{IsPermutation};
ghost use Rattle.dn_hist.specs.Calls.{Bytes, IsWrite, key_of, found_of, reply_of, map_after};
ghost use Rattle.dn_hist.specs.Receipt.{IsInOrder};
ghost use Rattle.dn_hist.specs.Replay.{IsLegal, map_left};
ghost use Rattle.dn_hist.specs.declared.calls.Call.TheVariants.{Get, Put, Delete};
ghost use Rattle.dn_hist.specs.declared.calls.Reply.TheVariants.{Stored, Deleted};
ghost use Rattle.dn_hist.specs.declared.receipts.Receipt.{Receipt as Made};
ghost use Rattle.dn_model.specs.Held.{Says};
ghost use Rattle.dn_model.specs.PoolMap.{HoldsMap};
ghost use Rattle.dn_store.specs.Fresh.{IsFreshPool};
ghost use Rattle.dn_store.specs.Holding.{holds};
ghost use Rattle.dn_beside.specs.Pool.{Pool, store_in, IsWhole};
ghost use Rattle.dn_beside.specs.Grown.{Grows};
ghost use Rattle.dn_receipts.specs.Joined.{Joins};
ghost use Rattle.dn_receipts.specs.Receipts.{IsRecorded, AreReceipts, IsSpelled};
ghost use Rattle.dn_receipts.specs.SoFar.{IsLegalSoFar};
ghost use Rattle.dn_receipts.specs.Fresh.{fresh_pool};

/// The pool that an opening leaves for 1 to 63 lanes is whole, and no call was made over it.
pub fn fresh()
    ensures whole { (words : List ℕ) (pool lanes : ℕ) (owners : ℕ → ℕ)
        → IsFreshPool words pool lanes owners → IsWhole (fresh_pool words pool lanes owners) }
    ensures receipts { (words : List ℕ) (pool lanes : ℕ) (owners : ℕ → ℕ)
        → AreReceipts (fresh_pool words pool lanes owners) [] }
{}

/// A step at which none joins keeps the receipts, and one at which a receipt of a key joins has it behind them. A get that
/// nobody is answered may be left out.
pub fn joins()
    ensures none { (p q : Pool) (rs : List Made) → AreReceipts p rs → Grows p q
        → Joins p q None → AreReceipts q rs }
    ensures one { (p q : Pool) (rs : List Made) (r : Made) → AreReceipts p rs → Grows p q
        → Joins p q (Some r) → key_of r.call ≢ 0 → AreReceipts q (rs ++ r ∷ []) }
    ensures left_out { (p q : Pool) (rs : List Made) (r : Made) (k : ℕ) → AreReceipts p rs
        → Grows p q → Joins p q (Some r) → r.call ≡ Get k → k ≢ 0 → AreReceipts q rs }
{}

/// The record of a put or delete stays sealed at its receipt's place, and the words there spell it.
pub fn recorded()
    ensures lasts { (p q : Pool) (r : Made) → Grows p q → IsRecorded p r → IsRecorded q r }
    ensures spelled { (p : Pool) (r : Made) → IsWhole p → IsRecorded p r → IsWrite r.call
        → IsSpelled p r }
{}

/// Receipts over a whole pool, in order of position, are a legal history, and the map that it leaves is the pool's: the
/// one that the words hold.
pub fn history()
    ensures legal { (p : Pool) (rs hs : List Made) → AreReceipts p rs
        → IsPermutation rs hs → IsInOrder hs → IsLegal hs }
    ensures map { (p : Pool) (rs hs : List Made) → IsWhole p → AreReceipts p rs
        → IsPermutation rs hs → IsInOrder hs → HoldsMap p.words (map_left hs) }
    ensures alone { (p : Pool) (rs hs : List Made) (map : Bytes) → IsWhole p → AreReceipts p rs
        → IsPermutation rs hs → IsInOrder hs → HoldsMap p.words map → map ≡ map_left hs }
{}

/// A get that joins is answered what the pool held at its key when it joined; a put and a delete leave there what they
/// say.
pub fn replies()
    ensures get { (p q : Pool) (rs : List Made) (r : Made) (k : ℕ) → AreReceipts p rs
        → Joins p q (Some r) → r.call ≡ Get k → k ≢ 0
        → (v : Option (List ℕ)) × (holds (store_in p) k ≡ Says v) ×
        (r.reply ≡ found_of v) }
    ensures put { (p q : Pool) (r : Made) (k : ℕ) (value : List ℕ)
        → Joins p q (Some r) → r.call ≡ Put k value
        → (holds (store_in q) k ≡ Says (Some value)) × (r.reply ≡ Stored) }
    ensures delete { (p q : Pool) (r : Made) (k : ℕ) → Joins p q (Some r)
        → r.call ≡ Delete k → (holds (store_in q) k ≡ Says None) × (r.reply ≡ Deleted) }
{}

/// Each step does to the pool's map what a plain map does: where none joins it stays, and a call that joins is answered
/// by it and leaves what the plain map would.
pub fn plain_steps()
    ensures none { (p q : Pool) (map : Bytes) → IsWhole p → IsWhole q → Joins p q None
        → HoldsMap p.words map → HoldsMap q.words map }
    ensures reply { (p q : Pool) (r : Made) (map : Bytes) → IsWhole p → Joins p q (Some r)
        → key_of r.call ≢ 0 → HoldsMap p.words map → r.reply ≡ reply_of r.call map }
    ensures one { (p q : Pool) (r : Made) (map : Bytes) → IsWhole p → IsWhole q
        → Joins p q (Some r) → key_of r.call ≢ 0 → HoldsMap p.words map
        → HoldsMap q.words (map_after r.call map) }
{}

/// So receipts are legal in the order in which they came to stand, too, and the pool's map is the one that this order
/// leaves.
pub fn so_far()
    ensures fresh { (words : List ℕ) (pool lanes : ℕ) (owners : ℕ → ℕ)
        → IsFreshPool words pool lanes owners
        → IsLegalSoFar (fresh_pool words pool lanes owners) [] }
    ensures none { (p q : Pool) (rs : List Made) → IsWhole p → IsWhole q → Joins p q None
        → IsLegalSoFar p rs → IsLegalSoFar q rs }
    ensures one { (p q : Pool) (rs : List Made) (r : Made) → IsWhole p → IsWhole q
        → Joins p q (Some r) → key_of r.call ≢ 0 → IsLegalSoFar p rs
        → IsLegalSoFar q (rs ++ r ∷ []) }
{}
