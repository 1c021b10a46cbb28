//! What is so of stores and the words that represent them, as functions without work: what each says is its contract.
//! Each law of an action holds of the words as they stand when it is done, whatever other actors changed before.

ghost use Rattle.std.specs.Prelude.{◌≡◌, ◌≢◌, ◌≤◌, ◌<◌, ◌+◌, ◌*◌, ◌%◌, ◌++◌, ◌∷◌, ℕ, List, Option, Some, None, slice_set};
ghost use Rattle.dn_word.specs.Gate.{gate_of};
ghost use Rattle.dn_act.specs.Words.{word_at};
ghost use Rattle.dn_word.specs.Deed.{deed_of};
ghost use Rattle.dn_word.specs.Regions.{segment_counter_at, cell_counter_at, overflow_counter_at, cell_key_at};
ghost use Rattle.dn_record.specs.Record.{length_in_words};
ghost use Rattle.dn_model.specs.declared.logs.Placed.{Placed};
ghost use Rattle.dn_model.specs.Log.{Tiles, IsCovered};
ghost use Rattle.dn_model.specs.Regions.{gate_at, mark_at, deed_at, cell_at, bucket, bucket_at, directory, directory_at, place_in, offsets, home_of, IsLane};
ghost use Rattle.dn_model.specs.Held.{authority, holder, held};
ghost use Rattle.dn_store.specs.State.{StoreState};
ghost use Rattle.dn_store.specs.Changes.{sealed, gated, marked, deeded, celled, cell_keyed, indexed, linked, claimed, cell_claimed, bucket_claimed, segment_wanted, cell_wanted, bucket_wanted};
ghost use Rattle.dn_store.specs.Cut.{words_in, IsCut};
ghost use Rattle.dn_store.specs.Standing.{IsPlaceOf};
ghost use Rattle.dn_store.specs.Overflow.{with_bucket, IsLinking};
ghost use Rattle.dn_store.specs.Represents.{Represents};
ghost use Rattle.dn_store.specs.Holding.{authority_in, holder_in, holds};
ghost use Rattle.dn_store.specs.SameStore.{IsSameStore};
ghost use Rattle.dn_store.specs.Fresh.{IsFreshPool, fresh_store, no_overflow};

/// The pool that an opening leaves for 1 to 63 lanes, also where some of its grants failed, represents a store with empty
/// logs and an empty index.
pub fn opening()
    ensures { (words : List ℕ) (pool lanes : ℕ) (owners : ℕ → ℕ)
        → IsFreshPool words pool lanes owners
        → Represents words no_overflow (fresh_store pool owners) }
{}

/// Words represent one store, but for who claimed what, and one chain of each home bucket. Authority, holder and value
/// of each key are those of the store.
pub fn meaning()
    ensures store { (words : List ℕ) (chains others : ℕ → List ℕ) (s t : StoreState)
        → Represents words chains s → Represents words others t → IsSameStore s t }
    ensures chains { (words : List ℕ) (chains others : ℕ → List ℕ) (s t : StoreState)
        → Represents words chains s → Represents words others t
        → (home : ℕ) → home < 4096 → chains home ≡ others home }
    ensures authority { (words : List ℕ) (chains : ℕ → List ℕ) (s : StoreState) (k : ℕ)
        → 0 < k
        → Represents words chains s → authority words s.logs chains k ≡ authority_in s k }
    ensures holder { (words : List ℕ) (chains : ℕ → List ℕ) (s : StoreState) (k : ℕ)
        → 0 < k → Represents words chains s → holder words s.logs chains k ≡ holder_in s k }
    ensures held { (words : List ℕ) (chains : ℕ → List ℕ) (s : StoreState) (k : ℕ)
        → 0 < k → Represents words chains s → held words s.logs chains k ≡ holds s k }
    ensures merged { (words : List ℕ) (chains : ℕ → List ℕ) (s : StoreState) (n : ℕ)
        → Represents words chains s → IsLane n → s.marks n ≤ (s.gates n).len }
{}

/// A staged word flows and the store stays: to a segment that the lane holds, at no offset below its sealed length; to a
/// word of its directory that named nothing, and then names a segment that the lane holds and hasn't named. So it does
/// where any word is stored where it stands already.
pub fn flows()
    ensures segment { (words : List ℕ) (chains : ℕ → List ℕ) (s : StoreState)
        (n g o word : ℕ) → Represents words chains s → IsLane n → s.holders g ≡ n
        → ((q : ℕ) → q < 256 → directory words n q ≡ g + 1
        → (s.gates n).len ≤ q * 1024 + o % 1024)
        → Represents (slice_set words (place_in (g + 1) o) word) chains s }
    ensures directory { (words : List ℕ) (chains : ℕ → List ℕ) (s : StoreState)
        (n q g : ℕ) → Represents words chains s → IsLane n → q < 256 → s.holders g ≡ n
        → directory words n q ≡ 0 → ((r : ℕ) → r < 256 → directory words n r ≢ g + 1)
        → Represents (slice_set words (directory_at n q) (g + 1)) chains s }
    ensures again { (words : List ℕ) (chains : ℕ → List ℕ) (s : StoreState) (at word : ℕ)
        → Represents words chains s → word_at words at ≡ word
        → Represents (slice_set words at word) chains s }
{}

/// The words of lanes and slots. A gate's exchange seals the records that stand behind the length, or keeps the length,
/// where the stamp is raised or the bit is set. A mark is where a record of the log begins, or at its end; a deed may
/// be any.
pub fn lanes()
    ensures seal { (words : List ℕ) (chains : ℕ → List ℕ) (s : StoreState) (n new : ℕ)
        (more : List Placed) → Represents words chains s → IsLane n
        → Tiles (offsets words n) (s.gates n).len more (gate_of new).len
        → IsCovered words n (gate_of new).len
        → Represents (slice_set words (gate_at n) new) chains (sealed s n (gate_of new) more) }
    ensures gate { (words : List ℕ) (chains : ℕ → List ℕ) (s : StoreState) (n new : ℕ)
        → Represents words chains s → IsLane n → (gate_of new).len ≡ (s.gates n).len
        → Represents (slice_set words (gate_at n) new) chains (gated s n (gate_of new)) }
    ensures mark { (words : List ℕ) (chains : ℕ → List ℕ) (s : StoreState) (n new : ℕ)
        → Represents words chains s → IsLane n → IsCut (s.logs n) new
        → Represents (slice_set words (mark_at n) new) chains (marked s n new) }
    ensures past { (log before after : List Placed) (p : Placed) (mark : ℕ)
        → log ≡ before ++ p ∷ after → words_in before ≡ mark
        → IsCut log (mark + length_in_words p.entry) }
    ensures deed { (words : List ℕ) (chains : ℕ → List ℕ) (s : StoreState) (t new : ℕ)
        → Represents words chains s → t < 64
        → Represents (slice_set words (deed_at t) new) chains (deeded s t (deed_of new)) }
{}

/// An add to the counter of segments claims the segment that the counter named, for a lane, or finds none left.
pub fn segments()
    ensures claim { (words : List ℕ) (chains : ℕ → List ℕ) (s : StoreState) (n : ℕ)
        → Represents words chains s → s.segment_count < s.pool
        → Represents (slice_set words segment_counter_at (s.segment_count + 1)) chains
        (claimed s n) }
    ensures miss { (words : List ℕ) (chains : ℕ → List ℕ) (s : StoreState)
        → Represents words chains s
        → Represents (slice_set words segment_counter_at (s.segment_count + 1)) chains
        (segment_wanted s) }
{}

/// The same of cells. The word and the key word of a cell change where it was claimed.
pub fn cells()
    ensures claim { (words : List ℕ) (chains : ℕ → List ℕ) (s : StoreState) (n : ℕ)
        → Represents words chains s → s.cell_count < 256
        → Represents (slice_set words cell_counter_at (s.cell_count + 1)) chains
        (cell_claimed s n) }
    ensures miss { (words : List ℕ) (chains : ℕ → List ℕ) (s : StoreState)
        → Represents words chains s
        → Represents (slice_set words cell_counter_at (s.cell_count + 1)) chains
        (cell_wanted s) }
    ensures key { (words : List ℕ) (chains : ℕ → List ℕ) (s : StoreState) (j k : ℕ)
        → Represents words chains s → j < 256 → j < s.cell_count
        → Represents (slice_set words (cell_key_at j) k) chains (cell_keyed s j k) }
    ensures word { (words : List ℕ) (chains : ℕ → List ℕ) (s : StoreState) (j new : ℕ)
        → Represents words chains s → j < 256 → j < s.cell_count
        → Represents (slice_set words (cell_at j) new) chains (celled s j new) }
{}

/// A place of a chain: its place word while it is free, which changes nothing; the place word beside its key; the key
/// word of a free place, for a key that the index doesn't give; and 0 for its key word.
pub fn places()
    ensures free { (words : List ℕ) (chains : ℕ → List ℕ) (s : StoreState) (k b i new : ℕ)
        → Represents words chains s → IsPlaceOf chains k b i → bucket words b (i + 1) ≡ 0
        → Represents (slice_set words (bucket_at b (i + 4)) new) chains s }
    ensures place { (words : List ℕ) (chains : ℕ → List ℕ) (s : StoreState)
        (k b i new : ℕ) → Represents words chains s → 0 < k → IsPlaceOf chains k b i
        → bucket words b (i + 1) ≡ k
        → Represents (slice_set words (bucket_at b (i + 4)) new) chains
        (indexed s k (Some new)) }
    ensures key { (words : List ℕ) (chains : ℕ → List ℕ) (s : StoreState) (k b i : ℕ)
        → Represents words chains s → 0 < k → IsPlaceOf chains k b i
        → bucket words b (i + 1) ≡ 0 → s.index k ≡ None
        → Represents (slice_set words (bucket_at b (i + 1)) k) chains
        (indexed s k (Some (bucket words b (i + 4)))) }
    ensures clear { (words : List ℕ) (chains : ℕ → List ℕ) (s : StoreState) (k b i : ℕ)
        → Represents words chains s → 0 < k → IsPlaceOf chains k b i
        → bucket words b (i + 1) ≡ k
        → Represents (slice_set words (bucket_at b (i + 1)) 0) chains (indexed s k None) }
{}

/// Overflow buckets: an add to their counter claims one for a lane's merger, or finds none left; place and key stored
/// in a bucket that isn't linked change nothing; the next word that links it changes the index at its key.
pub fn buckets()
    ensures claim { (words : List ℕ) (chains : ℕ → List ℕ) (s : StoreState) (n : ℕ)
        → Represents words chains s → s.bucket_count < 4096
        → Represents (slice_set words overflow_counter_at (s.bucket_count + 1)) chains
        (bucket_claimed s n) }
    ensures miss { (words : List ℕ) (chains : ℕ → List ℕ) (s : StoreState)
        → Represents words chains s
        → Represents (slice_set words overflow_counter_at (s.bucket_count + 1)) chains
        (bucket_wanted s) }
    ensures place { (words : List ℕ) (chains : ℕ → List ℕ) (s : StoreState) (c new : ℕ)
        → Represents words chains s → 0 < s.takers c
        → Represents (slice_set words (bucket_at c 4) new) chains s }
    ensures key { (words : List ℕ) (chains : ℕ → List ℕ) (s : StoreState) (c new : ℕ)
        → Represents words chains s → 0 < s.takers c
        → Represents (slice_set words (bucket_at c 1) new) chains s }
    ensures link { (words : List ℕ) (chains : ℕ → List ℕ) (s : StoreState)
        (k last new : ℕ) → Represents words chains s → 0 < k
        → IsLinking words chains s.index s.takers k last new
        → Represents (slice_set words (bucket_at last 7) new)
        (with_bucket chains (home_of k) new)
        (linked s k new (Some (bucket words new 4))) }
{}
