//! What is so of a lane's own log and steps, as functions without work: what each says is its contract.

ghost use Rattle.std.specs.Prelude.{◌≡◌, ◌≢◌, ◌≤◌, ◌<◌, ◌-◌, ◌^◌, ◌++◌, ◌∷◌, ℕ, List, [], Option, false, true, Some, None, length, slice_get};
ghost use Rattle.std.specs.List.{remove};
ghost use Rattle.dn_act.specs.Action.{Performs};
ghost use Rattle.dn_act.specs.declared.actions.Action.TheVariants.{Store, Cas, Add};
ghost use Rattle.dn_word.specs.Regions.{segment_counter_at};
ghost use Rattle.dn_word.specs.Gate.{gate_of};
ghost use Rattle.dn_record.specs.Grammar.{IsRecord};
ghost use Rattle.dn_record.specs.Record.{key_of, value_of};
ghost use Rattle.dn_record.specs.declared.records.Record.{Record};
ghost use Rattle.dn_log.specs.Log.{Log, reach_of, sealed_of, IsFit, IsApart};
ghost use Rattle.dn_log.specs.declared.plans.Plan.{Plan};
ghost use Rattle.dn_log.specs.declared.staging.Staged.{Staged};
ghost use Rattle.dn_model.specs.Regions.{directory, IsLane};
ghost use Rattle.dn_model.specs.Held.{Says, unmerged};
ghost use Rattle.dn_model.specs.OneLog.{is_plain};
ghost use Rattle.dn_store.specs.Holding.{holds};
ghost use Rattle.dn_beside.specs.Pool.{Pool, store_in, IsWhole};
ghost use Rattle.dn_beside.specs.Lanes.{LeavesOwn, LeavesLane};
ghost use Rattle.dn_beside.specs.Step.{IsStepBy, IsQuiet, by_lane};
ghost use Rattle.dn_services.specs.Staged.{GoApart};
ghost use Rattle.dn_reach.specs.OwnLog.{HoldsLog, IsLaneOf, empty_log};
ghost use Rattle.dn_reach.specs.Staging.{MayStage, MayStageAll, AreFlowing};
ghost use Rattle.dn_reach.specs.Placing.{plan_for, staged_for, placed_by};
ghost use Rattle.dn_reach.specs.Exchange.{open_gate, IsExchanged};
ghost use Rattle.dn_reach.specs.Steps.{after_flow, after_claim, after_miss, after_raise, after_seal};
ghost use Rattle.dn_reach.specs.Sealing.{MayWrite, MaySeal};

/// A lane whose gate has length 0, and whose directory names nothing, begins with an empty log.
pub fn begins()
    ensures { (p : Pool) (n : ℕ) → IsLane n → (store_in p).pool ≤ 8192
        → ((store_in p).gates n).len ≡ 0
        → ((q : ℕ) → q < 256 → directory p.words n q ≡ 0)
        → HoldsLog p n (empty_log n (store_in p).pool) }
{}

/// What a lane knows of its log lasts while others act, also while its gate gets the bit.
pub fn lasts()
    ensures log { (p q : Pool) (n : ℕ) (log : Log) → LeavesOwn n p q → HoldsLog p n log
        → HoldsLog q n log }
    ensures flowing { (p q : Pool) (n : ℕ) (log : Log) (staged all : List Staged)
        → LeavesOwn n p q → HoldsLog p n log → MayStageAll log all
        → AreFlowing p.words staged all → AreFlowing q.words staged all }
    ensures writing { (p q : Pool) (n : ℕ) (log : Log) (k : ℕ) (r : Record)
        → LeavesLane n p q → MayWrite p n log k r → MayWrite q n log k r }
{}

/// A log with a spare segment has room for any record with a key; so one that needs a segment has no spare one.
pub fn room()
    ensures spare { (log : Log) (r : Record) (k g : ℕ) → IsFit log → IsRecord r
        → key_of r ≡ Some k
        → log.spare ≡ Some g → (plan_for log r).need_segment ≡ false }
    ensures none { (log : Log) (r : Record) (k : ℕ) → IsFit log → IsRecord r
        → key_of r ≡ Some k → (plan_for log r).need_segment ≡ true → log.spare ≡ None }
{}

/// The words that are staged for a record that has room are such as the lane may stage, go to words of the pool of their
/// own, and are all on their way at first.
pub fn staged()
    ensures may { (log : Log) (r : Record) → IsRecord r
        → (plan_for log r).need_segment ≡ false → MayStageAll log (staged_for log r) }
    ensures apart { (log : Log) (r : Record) (k : ℕ) → IsFit log → IsApart (reach_of log)
        → IsRecord r → key_of r ≡ Some k → (plan_for log r).need_segment ≡ false
        → GoApart (staged_for log r) }
    ensures waiting { (words : List ℕ) (all : List Staged) → AreFlowing words all all }
{}

/// A staged word flows, any of those that wait, also behind a fence: the store stays, and it waits no longer.
pub fn flow()
    ensures step { (p : Pool) (n : ℕ) (log : Log) (x : Staged) (word : ℕ) (now : List ℕ)
        → IsLaneOf p n log → MayStage log x → Performs (Store x.at x.word) word p.words now
        → IsStepBy (by_lane n) p (after_flow p now) }
    ensures quiet { (p : Pool) (now : List ℕ) → IsQuiet p (after_flow p now) }
    ensures log { (p : Pool) (n : ℕ) (log : Log) (x : Staged) (word : ℕ) (now : List ℕ)
        → IsLaneOf p n log → MayStage log x → Performs (Store x.at x.word) word p.words now
        → HoldsLog (after_flow p now) n log }
    ensures flowing { (p : Pool) (n : ℕ) (log : Log) (staged all : List Staged) (i : ℕ)
        (x : Staged) (word : ℕ) (now : List ℕ) → IsLaneOf p n log → MayStageAll log all
        → GoApart all → AreFlowing p.words staged all → slice_get staged i ≡ Some x
        → Performs (Store x.at x.word) word p.words now → AreFlowing now (remove staged i) all }
{}

/// An add to the counter of segments, while that can count on: the segment that it finds is the lane's spare; or, where
/// the pool has none left, the log is as it was.
pub fn claim()
    ensures step { (p : Pool) (n word : ℕ) (now : List ℕ) → IsWhole p → IsLane n
        → (store_in p).segment_count < 2 ^ 64 - 1
        → Performs (Add segment_counter_at 1) word p.words now → word < (store_in p).pool
        → IsStepBy (by_lane n) p (after_claim p n now) }
    ensures quiet { (p : Pool) (n : ℕ) (now : List ℕ) → IsQuiet p (after_claim p n now) }
    ensures log { (p : Pool) (n : ℕ) (log : Log) (word : ℕ) (now : List ℕ)
        → IsLaneOf p n log
        → (store_in p).segment_count < 2 ^ 64 - 1 → log.spare ≡ None
        → length log.segments < 256
        → Performs (Add segment_counter_at 1) word p.words now → word < (store_in p).pool
        → HoldsLog (after_claim p n now) n (record log { spare = Some word }) }
    ensures miss_step { (p : Pool) (n word : ℕ) (now : List ℕ) → IsWhole p → IsLane n
        → (store_in p).segment_count < 2 ^ 64 - 1
        → Performs (Add segment_counter_at 1) word p.words now
        → IsStepBy (by_lane n) p (after_miss p now) }
    ensures miss_quiet { (p : Pool) (now : List ℕ) → IsQuiet p (after_miss p now) }
    ensures miss_log { (p : Pool) (n : ℕ) (log : Log) (word : ℕ) (now : List ℕ)
        → IsLaneOf p n log → Performs (Add segment_counter_at 1) word p.words now
        → HoldsLog (after_miss p now) n log }
{}

/// An exchange that finds another word leaves all words as they are.
pub fn missed()
    ensures { (words now : List ℕ) (at old new word : ℕ)
        → Performs (Cas at old new) word words now → word ≢ old → now ≡ words }
{}

/// A lane raises the stamp of its gate, which keeps its length.
pub fn raise()
    ensures step { (p : Pool) (n old stamp : ℕ) (now : List ℕ) → IsWhole p → IsLane n
        → IsExchanged p n old stamp (gate_of old).len now
        → IsStepBy (by_lane n) p (after_raise p n old stamp now) }
    ensures quiet { (p : Pool) (n old stamp : ℕ) (now : List ℕ)
        → IsQuiet p (after_raise p n old stamp now) }
    ensures log { (p : Pool) (n : ℕ) (log : Log) (old stamp : ℕ) (now : List ℕ)
        → IsLaneOf p n log → IsExchanged p n old stamp (gate_of old).len now
        → HoldsLog (after_raise p n old stamp now) n log }
    ensures gate { (p : Pool) (n old stamp : ℕ) (now : List ℕ)
        → (store_in (after_raise p n old stamp now)).gates n ≡ open_gate stamp
        (gate_of old).len }
{}

/// A lane seals a put or delete, all of whose words stand in the pool: the gate gets the plan's length, the log its
/// records, and at the key it is held then what the record says. The lane has one more pending record.
pub fn seal()
    ensures step { (p : Pool) (n : ℕ) (log : Log) (k : ℕ) (r : Record) (old stamp : ℕ)
        (now : List ℕ) → IsLaneOf p n log → MaySeal p n log k r
        → IsExchanged p n old stamp (plan_for log r).len now
        → IsStepBy (by_lane n) p (after_seal p n log r stamp now) }
    ensures log { (p : Pool) (n : ℕ) (log : Log) (k : ℕ) (r : Record) (old stamp : ℕ)
        (now : List ℕ) → IsLaneOf p n log → MaySeal p n log k r
        → IsExchanged p n old stamp (plan_for log r).len now
        → HoldsLog (after_seal p n log r stamp now) n (sealed_of log (plan_for log r)) }
    ensures held { (p : Pool) (n : ℕ) (log : Log) (k : ℕ) (r : Record) (old stamp : ℕ)
        (now : List ℕ) → IsLaneOf p n log → MaySeal p n log k r
        → IsExchanged p n old stamp (plan_for log r).len now
        → holds (store_in (after_seal p n log r stamp now)) k ≡ Says (value_of r) }
    ensures others { (p : Pool) (n : ℕ) (log : Log) (k : ℕ) (r : Record) (old stamp : ℕ)
        (now : List ℕ) (q : ℕ) (v : Option (List ℕ)) → IsLaneOf p n log
        → MaySeal p n log k r → IsExchanged p n old stamp (plan_for log r).len now → q ≢ k
        → holds (store_in p) q ≡ Says v
        → holds (store_in (after_seal p n log r stamp now)) q ≡ Says v }
    ensures promised { (p : Pool) (n : ℕ) (log : Log) (r : Record) (stamp : ℕ) (now : List ℕ)
        (q : ℕ) → (after_seal p n log r stamp now).owners.promised q ≡ p.owners.promised q }
    ensures gate { (p : Pool) (n : ℕ) (log : Log) (r : Record) (stamp : ℕ) (now : List ℕ)
        → (store_in (after_seal p n log r stamp now)).gates n
        ≡ open_gate stamp (plan_for log r).len }
    ensures logs { (p : Pool) (n : ℕ) (log : Log) (r : Record) (stamp : ℕ) (now : List ℕ)
        → (store_in (after_seal p n log r stamp now)).logs n
        ≡ (store_in p).logs n ++ placed_by (plan_for log r) r }
    ensures knows { (p : Pool) (n : ℕ) (log : Log) (k : ℕ) (r : Record) (stamp : ℕ)
        (now : List ℕ) → MaySeal p n log k r → (after_seal p n log r stamp now).owners.knows n
        ≡ record (p.owners.knows n) {
          pending = (p.owners.knows n).pending
              ++ record { key = k; offset = (plan_for log r).at } ∷ [];
        } }
{}

/// A lane that may write a record may seal it after some flows: what is asked of a seal can be met.
pub fn ready()
    ensures { (p : Pool) (n : ℕ) (log : Log) (k : ℕ) (r : Record)
        → IsLaneOf p n log → MayWrite p n log k r
        → (now : List ℕ) × IsLaneOf (after_flow p now) n log
        × MaySeal (after_flow p now) n log k r }
{}

/// What a put or delete leaves of its log's new records: at its key itself, and nothing at others.
pub fn added()
    ensures own { (plan : Plan) (r : Record) (k : ℕ) → is_plain r ≡ true
        → key_of r ≡ Some k → unmerged k 0 (placed_by plan r) ≡ Some r }
    ensures other { (plan : Plan) (r : Record) (k q : ℕ) → is_plain r ≡ true
        → key_of r ≡ Some k → q ≢ k → unmerged q 0 (placed_by plan r) ≡ None }
{}
