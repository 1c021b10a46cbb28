//! What is so of drains, as functions without work: what each says is its contract.

ghost use Rattle.std.specs.Prelude.{◌≡◌, ℕ, List};
ghost use Rattle.dn_merge.specs.declared.mergers.MergeTurn.{MergeTurn};
ghost use Rattle.dn_machine.specs.Events.{Renews};
ghost use Rattle.dn_cluster.specs.State.{ClusterState};
ghost use Rattle.dn_cluster.specs.Machine.{IsMade};
ghost use Rattle.dn_cluster.specs.Does.{Does};
ghost use Rattle.dn_drain.specs.Alone.{Alone};
ghost use Rattle.dn_drain.specs.Ends.{Drains};
ghost use Rattle.dn_drain.specs.Drained.{IsDrainFault};
ghost use Rattle.dn_drain.specs.All.{IsLaneFault, StaysSound};
ghost use Rattle.dn_drain.specs.declared.drains.DrainFault.{DrainFault};
ghost use Rattle.dn_drain.specs.declared.every.LaneFault.{LaneFault};

/// The words and where the merger is determine how many actions a drain has and with which answer it ends.
pub fn determined()
    ensures { (a : Alone) (k j : ℕ) (e f : MergeTurn) → Drains a k e → Drains a j f
        → (k ≡ j) × (e ≡ f) }
{}

/// After a fault the merger of that lane may be renewed, whether its last action was done or not: the machine is sound then,
/// with the receipts and told positions of before the drain.
pub fn renewed()
    ensures lane { (words now : List ℕ) (c d e : ClusterState) (n : ℕ) (why : DrainFault)
        → IsDrainFault words c now d n why → IsMade d n → Does d e (Renews n)
        → e.segments ≡ d.segments → StaysSound words c now e }
    ensures all { (words now : List ℕ) (c d e : ClusterState) (at : LaneFault)
        → IsLaneFault words c now d at → Does d e (Renews at.lane) → e.segments ≡ d.segments
        → StaysSound words c now e }
{}
