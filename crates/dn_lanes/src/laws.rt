//! What is so of a lane among others, as functions without work: what each says is its contract.

ghost use Rattle.std.specs.Prelude.{◌≡◌, ◌≤◌, ◌<◌, ◌^◌, ◌-◌, ℕ, Some, List};
ghost use Rattle.dn_act.specs.Action.{Performs};
ghost use Rattle.dn_act.specs.declared.actions.Action.{Action};
ghost use Rattle.dn_model.specs.Regions.{IsLane};
ghost use Rattle.dn_lane.specs.State.{LaneState};
ghost use Rattle.dn_log.specs.Staged.{flow_of};
ghost use Rattle.dn_lane.specs.Next.{next_of};
ghost use Rattle.dn_beside.specs.Pool.{Pool, IsWhole, store_in};
ghost use Rattle.dn_beside.specs.Grown.{Grows};
ghost use Rattle.dn_beside.specs.Lanes.{LeavesLane};
ghost use Rattle.dn_hist.specs.declared.calls.Call.{Call};
ghost use Rattle.dn_hist.specs.declared.receipts.SessionView.{SessionView};
ghost use Rattle.dn_tend.specs.declared.tasks.Task.{Task};
ghost use Rattle.dn_lane.specs.State.{fresh, begun, begun_task};
ghost use Rattle.dn_lane.specs.Taken.{Taken};
ghost use Rattle.dn_lane.specs.declared.modes.Mode.TheVariants.{Idle};
ghost use Rattle.dn_store.specs.Fresh.{IsFreshPool};
ghost use Rattle.dn_owners.specs.Fresh.{fresh_owners};
ghost use Rattle.dn_lanes.specs.Calls.{IsCall};
ghost use Rattle.dn_lanes.specs.Lane.{IsLaneAt};
ghost use Rattle.dn_lanes.specs.Stepped.{ComesTo, LaneStepped, FlowStepped};
ghost use Rattle.dn_lanes.specs.Unmade.{IsUnmade};
ghost use Rattle.dn_lanes.specs.Begun.{IsOwnTask, IsMade, IsStoppedAt};

/// What a lane knows at any phase lasts under the steps of all others.
pub fn lasting()
    ensures { (n : ℕ) (l : LaneState) (p q : Pool) → IsWhole p → IsWhole q → IsLane n
        → Grows p q → LeavesLane n p q → IsLaneAt n l p → IsLaneAt n l q }
{}

/// Each action of a lane, at whatever phase of a call or of a task that concerns no shared key: it is to all others a step
/// that leaves them what they know, and the lane knows its next phase. A receipt joins where the call is made and nowhere
/// else, and nothing that is held changes without one. So does a staged word that flows out of turn, also behind a fence.
pub fn acting()
    ensures step { (p : Pool) (n : ℕ) (l : LaneState) (action : Action) (word : ℕ)
        (now : List ℕ)
        → IsWhole p → IsLane n → (store_in p).segment_count < 2 ^ 64 - 1 → IsLaneAt n l p
        → next_of l ≡ Some action → Performs action word p.words now
        → LaneStepped p n l word now }
    ensures flow { (p : Pool) (n : ℕ) (l : LaneState) (index : ℕ) (action : Action) (word : ℕ)
        (now : List ℕ) → IsWhole p → IsLane n → IsLaneAt n l p
        → flow_of l.base.staging index ≡ Some action → Performs action word p.words now
        → FlowStepped p n l index now }
{}

/// A lane with nothing under way begins a call, or a task that concerns no shared key.
pub fn beginning()
    ensures call { (n : ℕ) (l : LaneState) (view : SessionView) (call : Call) (p : Pool)
        → IsLaneAt n l p → l.mode ≡ Idle → IsCall call → view.last.stamp < 2 ^ 31
        → IsLaneAt n (begun l view call) p }
    ensures task { (n : ℕ) (l : LaneState) (t : Task) (p : Pool) → IsLaneAt n l p
        → l.mode ≡ Idle → IsOwnTask t → IsLaneAt n (begun_task l t) p }
{}

/// A lane that was never made begins with an empty log and nothing under way. Steps of others leave it unmade, and so is
/// every lane in a fresh pool.
pub fn making()
    ensures lane { (p : Pool) (n segments : ℕ) → IsWhole p → IsLane n → IsUnmade p n
        → segments ≡ (store_in p).pool → segments ≤ 8192 → IsMade p n (fresh n segments) }
    ensures lasts { (n : ℕ) (p q : Pool) → LeavesLane n p q → IsUnmade p n → IsUnmade q n }
    ensures first { (p : Pool) (n pool lanes : ℕ) (owners : ℕ → ℕ)
        → IsFreshPool p.words pool lanes owners → p.owners ≡ fresh_owners pool lanes owners
        → IsUnmade p n }
{}

/// A lane that is stopped at an action that was done: the receipt of that action joins, and nothing is known of the lane
/// any more.
pub fn stopping()
    ensures { (p : Pool) (n : ℕ) (l : LaneState) (now : List ℕ) (t : Taken)
        → ComesTo p n l now t → IsStoppedAt p n l now t }
{}
