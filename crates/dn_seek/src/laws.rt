//! What a lane knows while it locates a key, as functions without work: what each says is its contract.

ghost use Rattle.std.specs.Prelude.{◌≡◌, ◌<◌, ℕ, Bool, true, false, List, Option, Some, None};
ghost use Rattle.dn_word.specs.declared.packed.place.Ref.{Ref};
ghost use Rattle.dn_act.specs.Action.{Performs};
ghost use Rattle.dn_record.specs.Record.{value_of};
ghost use Rattle.dn_record.specs.declared.heads.Head.{Head};
ghost use Rattle.dn_record.specs.declared.records.Record.{Record};
ghost use Rattle.dn_model.specs.Held.{Says};
ghost use Rattle.dn_model.specs.Regions.{slot_of};
ghost use Rattle.dn_locate.specs.declared.fetches.Wish.{Wish};
ghost use Rattle.dn_locate.specs.declared.fetches.Wish.TheVariants.{Value};
ghost use Rattle.dn_locate.specs.Fetch.{Fetching, started, fetch_next, fetch_after, fetch_turn};
ghost use Rattle.dn_plan.specs.declared.phases.Way.{Way};
ghost use Rattle.dn_find.specs.Find.{started as find_started, find_next, found_of};
ghost use Rattle.dn_find.specs.declared.finds.Find.{Find as FindAt};
ghost use Rattle.dn_store.specs.Holding.{owner_in, waiting, holds};
ghost use Rattle.dn_owners.specs.declared.plain.Pending.{Pending};
ghost use Rattle.dn_owners.specs.Known.{Look};
ghost use Rattle.dn_owners.specs.Merging.{IsRecordOf};
ghost use Rattle.dn_beside.specs.Pool.{Pool, store_in, IsWhole};
ghost use Rattle.dn_beside.specs.Grown.{Grows};
ghost use Rattle.dn_beside.specs.Lanes.{LeavesLane};
ghost use Rattle.dn_seek.specs.Sealed.{IsSealed};
ghost use Rattle.dn_seek.specs.Values.{ReadsValues, told_by};
ghost use Rattle.dn_seek.specs.Fetching.{KnowsFetch, Fetched};
ghost use Rattle.dn_seek.specs.Located.{IsLocatedAs};
ghost use Rattle.dn_seek.specs.Seeking.{KnowsSeek, KnowsSought};
ghost use Rattle.dn_seek.specs.Loading.{OnlyLoads, StillLoads};

/// The fetch of a sealed record begins at its place. Each word that is loaded is one of the record: the fetch goes on, or
/// has brought what was wished for, and meets nothing else. What it knows lasts while logs grow.
pub fn fetch()
    ensures begins { (p : Pool) (key : ℕ) (wish : Wish) (r : Record) (f : Fetching) (at : Ref)
        → f.segments ≡ (store_in p).pool → IsSealed p key r at
        → KnowsFetch p key wish r (started f key at wish) }
    ensures step { (p : Pool) (key : ℕ) (wish : Wish) (r : Record) (f : Fetching)
        (word : ℕ) (now : List ℕ) → IsWhole p → KnowsFetch p key wish r f
        → Performs (fetch_next f) word p.words now
        → (now ≡ p.words) × Fetched p key wish r (fetch_after f word) (fetch_turn f word) }
    ensures lasts { (p q : Pool) (key : ℕ) (wish : Wish) (r : Record) (f : Fetching)
        → IsWhole p → Grows p q → KnowsFetch p key wish r f → KnowsFetch q key wish r f }
{}

/// A lane locates a key of a slot whose deed names it: by its pending record of the key where one counts, and else by the
/// index, where no record of the key waits. It ends with the record that is the key's authority then, or without one where
/// the key has none; and while the lane's gate has no bit, what it knows lasts whatever others do.
pub fn seek()
    ensures pending { (p : Pool) (n key : ℕ) (wish : Wish) (f : Fetching) (at : Ref) (q : Pending)
        → IsWhole p → f.segments ≡ (store_in p).pool → IsRecordOf p.owners n key q
        → at.lane ≡ n → at.offset ≡ q.offset
        → KnowsSeek p n key wish (find_started f key wish (Some at)).fetch
        (find_started f key wish (Some at)).find }
    ensures index { (p : Pool) (n key : ℕ) (wish : Wish) (f : Fetching)
        → f.segments ≡ (store_in p).pool → owner_in (store_in p) key ≡ n
        → waiting (store_in p) n key ≡ None
        → KnowsSeek p n key wish (find_started f key wish None).fetch
        (find_started f key wish None).find }
    ensures step { (p : Pool) (n key : ℕ) (wish : Wish) (f : Fetching) (find : FindAt)
        (word : ℕ) (now : List ℕ) → IsWhole p → 0 < key → KnowsSeek p n key wish f find
        → Performs (find_next f find) word p.words now
        → (now ≡ p.words) × KnowsSought p n key wish (found_of f key wish find word).fetch
        (found_of f key wish find word).found }
    ensures lasts { (p q : Pool) (n key : ℕ) (wish : Wish) (f : Fetching) (find : FindAt)
        (l : Look) → IsWhole p → IsWhole q → Grows p q → LeavesLane n p q → 0 < key
        → (p.owners.knows n).look ≡ Some l → slot_of key ≡ l.slot
        → ((store_in q).gates n).fenced ≡ false
        → KnowsSeek p n key wish f find → KnowsSeek q n key wish f find }
{}

/// What was located says what is held at the key, and lasts too. Where the wish was for the value, whoever reads it from
/// the words that were brought tells what is held.
pub fn located()
    ensures held { (p : Pool) (key : ℕ) (wish : Wish) (f : Fetching) (way : Way) (fetched : Bool)
        (a : IsLocatedAs p key wish f way fetched)
        → holds (store_in p) key ≡ Says (value_of a.of) }
    ensures told { (value_in : List ℕ → Option (List ℕ))
        (behind : Option Head → List ℕ → Option (List ℕ)) (p : Pool) (key : ℕ)
        (f : Fetching) (way : Way) (fetched : Bool) → ReadsValues value_in behind → IsWhole p
        → IsLocatedAs p key Value f way fetched
        → holds (store_in p) key ≡ Says (told_by value_in f.words fetched) }
    ensures lasts { (p q : Pool) (n key : ℕ) (wish : Wish) (f : Fetching) (way : Way)
        (fetched : Bool) (l : Look) → Grows p q → LeavesLane n p q → 0 < key
        → (p.owners.knows n).look ≡ Some l → slot_of key ≡ l.slot
        → ((store_in q).gates n).fenced ≡ false
        → IsLocatedAs p key wish f way fetched → IsLocatedAs q key wish f way fetched }
{}

/// Whatever it finds, a location only loads.
pub fn loading()
    ensures known { (p : Pool) (n key : ℕ) (wish : Wish) (f : Fetching) (find : FindAt)
        → KnowsSeek p n key wish f find → OnlyLoads find }
    ensures begins { (key : ℕ) (wish : Wish) (f : Fetching) (at : Option Ref)
        → OnlyLoads (find_started f key wish at).find }
    ensures loads { (f : Fetching) (find : FindAt) (word : ℕ) (words now : List ℕ)
        → OnlyLoads find → Performs (find_next f find) word words now → now ≡ words }
    ensures step { (key : ℕ) (wish : Wish) (f : Fetching) (find : FindAt) (word : ℕ)
        → OnlyLoads find → StillLoads (found_of f key wish find word).found }
{}
