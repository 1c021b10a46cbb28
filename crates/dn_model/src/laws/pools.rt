//! The words of the pool, and what they mean.

ghost use Rattle.std.specs.Prelude.{◌≡◌, ◌≢◌, ◌<◌, ◌++◌, ◌∷◌, [], ℕ, List, Option, Some, None, All, length, slice_set, true, if◌then◌else◌};
ghost use Rattle.dn_word.specs.Gate.{gate_of};
ghost use Rattle.dn_hist.specs.Calls.{Bytes};
ghost use Rattle.dn_record.specs.Record.{value_of};
ghost use Rattle.dn_word.specs.Ref.{ref_of};
ghost use Rattle.dn_word.specs.declared.packed.place.Ref.{Ref};
ghost use Rattle.dn_record.specs.declared.records.Record.{Record};
ghost use Rattle.dn_record.specs.declared.records.Record.TheVariants.{Share, Unshare};
ghost use Rattle.dn_model.specs.Regions.{gate, gate_at, cell, offsets};
ghost use Rattle.dn_model.specs.Log.{Placed, IsLog, Tiles, IsCovered};
ghost use Rattle.dn_model.specs.Same.{SameLog, SamePool};
ghost use Rattle.dn_model.specs.Held.{Says, Reads, is_authority, is_holder, authority, record_at, holder, held, value_in, named, cell_word};
ghost use Rattle.dn_model.specs.PoolMap.{HoldsMap};
ghost use Rattle.dn_model.specs.OneLog.{IsOneLog, is_plain, left_in};
ghost use Rattle.std.specs.FinMap.{get, insert, remove};

/// Words spell at most one log of a lane, and hold at most one map.
pub fn meaning()
    ensures log { (words : List ℕ) (n : ℕ) (a b : List Placed) → IsLog words n a
        → IsLog words n b → a ≡ b }
    ensures map { (words : List ℕ) (a b : Bytes) → HoldsMap words a → HoldsMap words b
        → a ≡ b }
{}

/// A log stays where its length, its directory and its sealed words stay. The map stays where what it rests on does.
pub fn frames()
    ensures log { (words now : List ℕ) (n : ℕ) (log : List Placed) → IsLog words n log
        → SameLog words now n → IsLog now n log }
    ensures map { (words now : List ℕ) (map : Bytes) → SamePool words now → HoldsMap words map
        → HoldsMap now map }
{}

/// The map changes where what is held changes: it stays where that stays at every key, and where it changes at one key
/// alone, the map then is the one before with that key put to its value, or taken out.
pub fn changes()
    ensures same { (words now : List ℕ) (logs later : ℕ → List Placed)
        (chains after : ℕ → List ℕ)
        (map : Bytes) → Reads words logs chains → Reads now later after
        → ((k : ℕ) → 0 < k → held now later after k ≡ held words logs chains k)
        → HoldsMap words map → HoldsMap now map }
    ensures put { (words now : List ℕ) (logs later : ℕ → List Placed)
        (chains after : ℕ → List ℕ) (map : Bytes) (k : ℕ) (value : List ℕ)
        → Reads words logs chains → Reads now later after
        → 0 < k → held now later after k ≡ Says (Some value)
        → ((q : ℕ) → 0 < q → q ≢ k → held now later after q
        ≡ held words logs chains q) → HoldsMap words map → HoldsMap now (insert map k value) }
    ensures gone { (words now : List ℕ) (logs later : ℕ → List Placed)
        (chains after : ℕ → List ℕ)
        (map : Bytes) (k : ℕ) → Reads words logs chains → Reads now later after
        → 0 < k → held now later after k ≡ Says None
        → ((q : ℕ) → 0 < q → q ≢ k → held now later after q
        ≡ held words logs chains q) → HoldsMap words map → HoldsMap now (remove map k) }
{}

/// What is held at a key is the value of the record that holds it: of a put or delete as the authority itself; of a Share
/// the one that its cell names, or while that is 0 its opening; of an Unshare the one that it names. It is a record of the
/// key that has a value or says that there is none.
pub fn holders()
    ensures held { (words : List ℕ) (logs : ℕ → List Placed) (chains : ℕ → List ℕ)
        (k : ℕ) → held words logs chains k ≡ value_in (holder words logs chains k) }
    ensures own { (words : List ℕ) (logs : ℕ → List Placed) (chains : ℕ → List ℕ)
        (k : ℕ)
        (r : Record) → authority words logs chains k ≡ Says (Some r) → is_plain r ≡ true
        → is_authority k r ≡ true → holder words logs chains k ≡ Says (Some r) }
    ensures shared { (words : List ℕ) (logs : ℕ → List Placed) (chains : ℕ → List ℕ)
        (k j opening : ℕ) → authority words logs chains k ≡ Says (Some (Share k j opening))
        → holder words logs chains k
        ≡ named logs k (ref_of (cell_word opening (cell words j))) }
    ensures unshared { (words : List ℕ) (logs : ℕ → List Placed) (chains : ℕ → List ℕ)
        (k : ℕ) (at : Option Ref) → authority words logs chains k ≡ Says (Some (Unshare k at))
        → holder words logs chains k ≡ named logs k at }
    ensures named { (logs : ℕ → List Placed) (k : ℕ) (at : Ref) (r : Record)
        → record_at logs (Some at) ≡ Some r → is_holder k r ≡ true
        → named logs k (Some at) ≡ Says (Some r) }
    ensures its { (words : List ℕ) (logs : ℕ → List Placed) (chains : ℕ → List ℕ)
        (k : ℕ)
        (r : Record) → holder words logs chains k ≡ Says (Some r) → is_holder k r ≡ true }
{}

/// A gate with a greater length seals the records that stand up to there.
pub fn sealing()
    ensures { (words : List ℕ) (n new : ℕ) (log more : List Placed) → gate_at n < length words
        → n < 64 → IsLog words n log
        → Tiles (offsets words n) (gate words n).len more (gate_of new).len
        → IsCovered words n (gate_of new).len
        → IsLog (slice_set words (gate_at n) new) n (log ++ more) }
{}

/// Before anything is merged, moved or shared the map is what the one log leaves at each key.
pub fn one_log()
    ensures map { (words : List ℕ) (n : ℕ) (log : List Placed) (map : Bytes)
        → IsOneLog words n log
        → ((k : ℕ) → 0 < k → get map k ≡ left_in k log) → get map 0 ≡ None
        → HoldsMap words map }
    ensures push { (k : ℕ) (log : List Placed) (p : Placed)
        → left_in k (log ++ p ∷ [])
        ≡ (if is_authority k p.entry then value_of p.entry else left_in k log) }
    ensures kept { (words now : List ℕ) (n : ℕ) (log : List Placed) → SamePool words now
        → IsOneLog words n log → IsOneLog now n log }
    ensures sealed { (words : List ℕ) (n new : ℕ) (log more : List Placed)
        → gate_at n < length words → IsOneLog words n log
        → Tiles (offsets words n) (gate words n).len more (gate_of new).len
        → IsCovered words n (gate_of new).len
        → All (λ (p : Placed). is_plain p.entry ≡ true) more
        → IsOneLog (slice_set words (gate_at n) new) n (log ++ more) }
{}
