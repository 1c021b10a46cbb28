//! What is so of slots that change hands, as functions without work: what each says is its contract.

ghost use Rattle.std.specs.Prelude.{◌≡◌, ◌<◌, ◌≤◌, ℕ, true, false, List, Some, Contains};
ghost use Rattle.dn_hist.specs.Calls.{key_of};
ghost use Rattle.dn_hist.specs.declared.receipts.Receipt.{Receipt};
ghost use Rattle.dn_model.specs.Regions.{deed, slot_of};
ghost use Rattle.dn_monitor.specs.Monitor.{Monitoring};
ghost use Rattle.dn_callers.specs.Callers.{receipts_of};
ghost use Rattle.dn_outcomes.specs.Does.{does};
ghost use Rattle.dn_outcomes.specs.Sound.{IsWorld};
ghost use Rattle.dn_outcomes.specs.State.{World};
ghost use Rattle.dn_outcomes.specs.declared.events.Event.TheVariants as event;
ghost use Rattle.dn_outcomes.specs.declared.events.Event.{Event};
ghost use Rattle.dn_moves.specs.Changes.{Changes};
ghost use Rattle.dn_moves.specs.Grants.{Grants, IsGranted};
ghost use Rattle.dn_moves.specs.Orders.{is_monitor, moves_order, ends_order, OrderAfter};
ghost use Rattle.dn_moves.specs.Stamps.{bound_in};
ghost use Rattle.dn_moves.specs.Unmerged.{IsUnmerged};

/// A lane gives up a slot that it was asked to leave; the monitor asks a lane to leave a slot, or grants one, which gets a
/// later epoch by that. Nothing else that happens changes a deed.
pub fn changes()
    ensures { (w : World) (e : Event) (heirs : List ℕ) (t : ℕ) → IsWorld w → t < 64
        → Changes e (deed w.machine.words t) (deed (does w e heirs).world.machine.words t) }
{}

/// A slot is granted by the monitor alone, and only where no lane has it any more and all is merged that was sealed of its
/// keys; the stamp of no receipt of its keys is above the floor that its new owner gets. No data moves: the deed is the only
/// word of the pool that changes.
pub fn grants()
    ensures monitor { (w : World) (e : Event) (heirs : List ℕ) (t : ℕ) → IsWorld w → t < 64
        → Grants w.machine.words (does w e heirs).world.machine.words t
        → is_monitor e ≡ true }
    ensures so { (w : World) (heirs : List ℕ) (t : ℕ) → IsWorld w → t < 64
        → Grants w.machine.words (does w event.Monitor heirs).world.machine.words t
        → IsGranted w.machine.words (does w event.Monitor heirs).world.machine.words
        (receipts_of w.machine.callers.receipts) t }
{}

/// While an order is under way, no event but the monitor's and the one that gives it up moves it; and the monitor's leaves it
/// under way, or ends it by the last answer.
pub fn orders()
    ensures stays { (w : World) (e : Event) (heirs : List ℕ) (x : Monitoring) → IsWorld w
        → w.machine.monitor ≡ Some x → moves_order e ≡ false
        → (does w e heirs).world.machine.monitor ≡ Some x }
    ensures ends { (w : World) (heirs : List ℕ) (x : Monitoring) → w.machine.monitor ≡ Some x
        → OrderAfter (ends_order (does w event.Monitor heirs).outcome)
        (does w event.Monitor heirs).world.machine.monitor }
{}

/// What is sealed of a slot's keys and not yet merged stands in the log of the lane that the slot's deed names, so in one
/// lane's at most. The stamp of a receipt is at most the floor of its key's slot, or the stamp in that lane's gate.
pub fn owners()
    ensures alone { (w : World) (n t : ℕ) → IsWorld w → IsUnmerged w.machine.words n t
        → (deed w.machine.words t).lane ≡ n }
    ensures stamps { (w : World) (r : Receipt) → IsWorld w
        → Contains (receipts_of w.machine.callers.receipts) r
        → r.position.stamp ≤ bound_in w.machine.words (slot_of (key_of r.call)) }
{}
