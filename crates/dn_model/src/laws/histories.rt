//! Receipts, judged by their stamps and in order of position.

ghost use Rattle.std.specs.Prelude.{◌≡◌, ◌≤◌, ◌<◌, ◌++◌, ◌∷◌, [], true, ℕ, List, Option, Contains};
ghost use Rattle.std.specs.FinMap.{get};
ghost use Rattle.std.specs.List.Sorted.{IsPermutation};
ghost use Rattle.dn_hist.specs.Calls.{Bytes, key_of};
ghost use Rattle.dn_hist.specs.Receipt.{IsInOrder};
ghost use Rattle.dn_hist.specs.Replay.{IsLegal, map_left, IsLegalFrom, map_from};
ghost use Rattle.dn_hist.specs.declared.receipts.Receipt.{Receipt as Made};
ghost use Rattle.dn_model.specs.Register.{is_write, written_by, StandsBefore, IsLegalByStampFrom, IsRegisterFrom, IsReadFrom, IsWriteFrom, IsLegalByStamp, IsRegister};

/// Receipts whose replies are right by stamps alone are a legal history, in whatever order of position they are put: from
/// a map that has what stood before them, and so from the empty map where that was nothing.
pub fn legal_in_order()
    ensures from { (start : ℕ → Option (List ℕ)) (map : Bytes) (rs hs : List Made)
        → ((k : ℕ) → get map k ≡ start k) → IsLegalByStampFrom start rs
        → IsPermutation rs hs → IsInOrder hs → IsLegalFrom map hs }
    ensures empty { (rs hs : List Made) → IsLegalByStamp rs → IsPermutation rs hs
        → IsInOrder hs → IsLegal hs }
{}

/// The same of a register, whose history leaves what is held at each key.
pub fn register_in_order()
    ensures legal_from { (start held : ℕ → Option (List ℕ)) (map : Bytes)
        (bound : ℕ → ℕ) (rs hs : List Made) → ((k : ℕ) → get map k ≡ start k)
        → IsRegisterFrom start held bound rs → IsPermutation rs hs → IsInOrder hs
        → IsLegalFrom map hs }
    ensures left_from { (start held : ℕ → Option (List ℕ)) (map : Bytes) (bound : ℕ → ℕ)
        (rs hs : List Made) → ((k : ℕ) → get map k ≡ start k)
        → IsRegisterFrom start held bound rs → IsPermutation rs hs → IsInOrder hs
        → (k : ℕ) → get (map_from map hs) k ≡ held k }
    ensures legal { (held : ℕ → Option (List ℕ)) (bound : ℕ → ℕ) (rs hs : List Made)
        → IsRegister held bound rs → IsPermutation rs hs → IsInOrder hs → IsLegal hs }
    ensures left { (held : ℕ → Option (List ℕ)) (bound : ℕ → ℕ) (rs hs : List Made)
        → IsRegister held bound rs → IsPermutation rs hs → IsInOrder hs
        → (k : ℕ) → get (map_left hs) k ≡ held k }
{}

/// A register stays one where nothing that is held changes and bounds rise, where a read is added, and where a write is.
pub fn register_steps()
    ensures same { (start held now : ℕ → Option (List ℕ)) (bound raised : ℕ → ℕ)
        (rs : List Made) → IsRegisterFrom start held bound rs
        → ((k : ℕ) → now k ≡ held k) → ((k : ℕ) → bound k ≤ raised k)
        → IsRegisterFrom start now raised rs }
    ensures read { (start held : ℕ → Option (List ℕ)) (bound : ℕ → ℕ) (rs : List Made)
        (n : Made) → IsRegisterFrom start held bound rs
        → IsReadFrom start bound rs n → IsRegisterFrom start held bound (rs ++ n ∷ []) }
    ensures write { (start held now : ℕ → Option (List ℕ)) (bound raised : ℕ → ℕ)
        (rs : List Made) (n : Made) → IsRegisterFrom start held bound rs
        → IsWriteFrom start bound rs n → raised (key_of n.call) ≡ n.position.stamp
        → ((k : ℕ) → bound k ≤ raised k)
        → now (key_of n.call) ≡ written_by n.call
        → ((k : ℕ) → (k ≡ key_of n.call → ⊥) → now k ≡ held k)
        → IsRegisterFrom start now raised (rs ++ n ∷ []) }
{}

/// What stands at a key before a write, by which its reply may be judged. Before a write that may be added it is what is
/// held; receipts of its stamp or of later ones don't change it; and it is what the history before the write leaves,
/// where the write is met there once.
pub fn stood_before()
    ensures held { (start held : ℕ → Option (List ℕ)) (bound : ℕ → ℕ) (rs : List Made)
        (k t : ℕ)
        → IsRegisterFrom start held bound rs → bound k < t
        → StandsBefore start rs k t (held k) }
    ensures stays { (start : ℕ → Option (List ℕ)) (rs : List Made) (n : Made) (k t : ℕ)
        (value : Option (List ℕ)) → t ≤ n.position.stamp
        → StandsBefore start rs k t value → StandsBefore start (rs ++ n ∷ []) k t value }
    ensures left { (start : ℕ → Option (List ℕ)) (map : Bytes) (before after : List Made)
        (d : Made) (value : Option (List ℕ)) → ((k : ℕ) → get map k ≡ start k)
        → IsLegalByStampFrom start (before ++ d ∷ after) → IsInOrder (before ++ d ∷ after)
        → is_write d.call d.reply ≡ true → (Contains before d → ⊥)
        → StandsBefore start (before ++ d ∷ after) (key_of d.call) d.position.stamp value
        → value ≡ get (map_from map before) (key_of d.call) }
{}
