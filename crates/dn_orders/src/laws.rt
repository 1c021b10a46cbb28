//! What is so of the monitor's orders, as functions without work: what each says is its contract.

ghost use Rattle.std.specs.Prelude.{◌≡◌, ◌<◌, ◌≤◌, ℕ, List, Some, All};
ghost use Rattle.dn_act.specs.Action.{Performs, MayPerform};
ghost use Rattle.dn_act.specs.declared.actions.Action.{Action};
ghost use Rattle.dn_monitor.specs.Monitor.{Monitoring, IsOrder, begun, monitor_next, monitor_after};
ghost use Rattle.dn_monitor.specs.Heirs.{AreHeirs};
ghost use Rattle.dn_monitor.specs.declared.orders.Order.{Order};
ghost use Rattle.dn_monitor.specs.declared.orders.Order.TheVariants.{Format, Takeover};
ghost use Rattle.dn_beside.specs.Pool.{Pool, IsWhole};
ghost use Rattle.dn_beside.specs.Grown.{Grows};
ghost use Rattle.dn_beside.specs.Orders.{LeavesOrder};
ghost use Rattle.dn_orders.specs.Knowing.{AreLanes, KnowsOrder};
ghost use Rattle.dn_orders.specs.Step.{IsOrderStep};

/// What the monitor knows of a pool, from the beginning of its order on: each action keeps it, and so does each step of
/// another actor. An action is a step that leaves every other actor what it knows and what is held at each key. It
/// changes one deed or the bit of one gate, if anything; a slot that a lane had is granted only where that lane's log
/// is merged. An action that failed, done or not done, is such a step too. A takeover is begun with the lanes that the
/// ring gives the slots to; the format is stored by the opening of a pool alone.
pub fn orders()
    ensures begins { (p : Pool) (order : Order) (heirs : List ℕ) → IsOrder order
        → ((segments : ℕ) → order ≡ Format segments → ⊥)
        → ((lane : ℕ) → order ≡ Takeover lane → AreLanes heirs)
        → KnowsOrder p (begun order heirs) }
    ensures heirs { (live heirs : List ℕ) → All (λ lane. (1 ≤ lane) × (lane < 64)) live
        → AreHeirs live heirs → AreLanes heirs }
    ensures step { (p : Pool) (m : Monitoring) (action : Action) (word : ℕ) (now : List ℕ)
        → IsWhole p → KnowsOrder p m → monitor_next m ≡ Some action
        → Performs action word p.words now
        → (q : Pool) × IsOrderStep p q now × KnowsOrder q (monitor_after m word) }
    ensures failed { (p : Pool) (m : Monitoring) (action : Action) (now : List ℕ)
        → IsWhole p → KnowsOrder p m → monitor_next m ≡ Some action
        → MayPerform action p.words now
        → (q : Pool) × IsOrderStep p q now }
    ensures lasts { (p q : Pool) (m : Monitoring)
        → KnowsOrder p m → Grows p q → LeavesOrder p q → KnowsOrder q m }
{}
