//! What is so of a machine, as functions without work: what each says is its contract.

ghost use Rattle.std.specs.Prelude.{◌≡◌, ◌⊎◌, ◌≤◌, ℕ, true, false, List, Contains, Some, None, length};
ghost use Rattle.dn_act.specs.Action.{words_after};
ghost use Rattle.dn_act.specs.Words.{pool_size, IsZeros};
ghost use Rattle.dn_act.specs.declared.actions.Action.{Action};
ghost use Rattle.dn_hist.specs.Calls.{Bytes, IsWrite, reply_of, map_after};
ghost use Rattle.dn_hist.specs.Replay.{IsLegal, map_left};
ghost use Rattle.dn_hist.specs.declared.receipts.Receipt.{Receipt as Made};
ghost use Rattle.dn_model.specs.PoolMap.{HoldsMap};
ghost use Rattle.dn_store.specs.Fresh.{IsFreshPool};
ghost use Rattle.dn_monitor.specs.Monitor.{begun};
ghost use Rattle.dn_monitor.specs.declared.orders.Order.TheVariants as order;
ghost use Rattle.dn_route.specs.CallersOrder.{KeepsCallersOrder};
ghost use Rattle.dn_lane.specs.Next.{next_of};
ghost use Rattle.dn_lane.specs.State.{LaneState};
ghost use Rattle.dn_lane.specs.Turns.{turn_of};
ghost use Rattle.dn_lanes.specs.Stepped.{receipt_by};
ghost use Rattle.dn_callers.specs.Callers.{Standing, receipts_of};
ghost use Rattle.dn_callers.specs.Sessions.{IsSession};
ghost use Rattle.dn_machine.specs.State.{Machine, resting};
ghost use Rattle.dn_machine.specs.Events.{Event, Merger, Monitor, Acts, found, happens};
ghost use Rattle.dn_machine.specs.Given.{IsGiven};
ghost use Rattle.dn_machine.specs.Sound.{IsSound};
ghost use Rattle.dn_machine.specs.Runs.{after, IsRun};
ghost use Rattle.dn_machine.specs.Growing.{HaveGrown};
ghost use Rattle.dn_machine.specs.Histories.{IsHistory, IsSealedIn};

/// A pool of zeros with at most 8,192 segments is sound once the monitor's order to format it is carried out, and nobody
/// owns a slot. So are the words that an opening leaves for 1 to 63 lanes, before anybody acts.
pub fn opening()
    ensures format { (words : List ℕ) (segments : ℕ) (heirs : List ℕ) → IsZeros words
        → pool_size segments ≤ length words → segments ≤ 8192 → IsSound segments (happens
        (record (resting words) { monitor = Some (begun (order.Format segments) heirs) })
        (Acts Monitor)) }
    ensures granted { (words : List ℕ) (pool lanes : ℕ) (owners : ℕ → ℕ)
        → IsFreshPool words pool lanes owners → pool ≤ 8192 → IsSound pool (resting words) }
{}

/// Every event of every actor, in any order, keeps a machine sound: each action of a lane, a merger, the monitor or a
/// session, whatever others have done between two of them; an action that failed, done or not done; each thing given; a
/// stop. Actors are asked for nothing. So a run of events is sound from its beginning to its end, and a bit that is set
/// stays.
pub fn events()
    ensures sound { (segments : ℕ) (m : Machine) (e : Event) → IsSound segments m
        → IsGiven segments m e → IsSound segments (happens m e) }
    ensures runs { (segments : ℕ) (m : Machine) (es : List Event) → IsSound segments m
        → IsRun segments m es → IsSound segments (after m es) }
    ensures grows { (segments : ℕ) (m : Machine) (e : Event) → IsSound segments m
        → IsGiven segments m e → HaveGrown m.words (happens m e).words }
{}

/// The receipts that stand, in order of position, are a history: a plain map that starts empty gives each call the reply
/// of its receipt, and in the end it is what the words hold, which hold no other map.
pub fn histories()
    ensures legal { (segments : ℕ) (m : Machine) (hs : List Made) → IsSound segments m
        → IsHistory m hs → IsLegal hs }
    ensures map { (segments : ℕ) (m : Machine) (hs : List Made) → IsSound segments m
        → IsHistory m hs → HoldsMap m.words (map_left hs) }
    ensures alone { (segments : ℕ) (m : Machine) (hs : List Made) (map : Bytes)
        → IsSound segments m → IsHistory m hs → HoldsMap m.words map → map ≡ map_left hs }
{}

/// Each session's calls stand in the order in which it made them, behind all that it knew when it made them: in the
/// history, and as their receipts came.
pub fn callers_order()
    ensures history { (segments : ℕ) (m : Machine) (hs : List Made) → IsSound segments m
        → IsHistory m hs → KeepsCallersOrder m.callers.told hs }
    ensures came { (segments : ℕ) (m : Machine) → IsSound segments m
        → KeepsCallersOrder m.callers.told (receipts_of m.callers.receipts) }
{}

/// Whatever becomes of its lane, the words at the place of a put's or delete's receipt spell its record, within what the
/// lane has sealed.
pub fn records()
    ensures { (segments : ℕ) (m : Machine) (r : Made) → IsSound segments m
        → Contains (receipts_of m.callers.receipts) r → IsWrite r.call
        → IsSealedIn m.words r }
{}

/// A session that isn't closed was answered each of its receipts; a receipt without an answer is its session's last.
/// Only a put or delete comes to stand without an answer, by whatever event.
pub fn answers()
    ensures given { (segments : ℕ) (m : Machine) (x : Standing) → IsSound segments m
        → Contains m.callers.receipts x → IsSession x.receipt.position.session
        → m.callers.closed x.receipt.position.session ≡ false → x.answered ≡ true }
    ensures last { (segments : ℕ) (m : Machine) (x y : Standing) → IsSound segments m
        → Contains m.callers.receipts x → Contains m.callers.receipts y
        → y.receipt.position.session ≡ x.receipt.position.session → x.answered ≡ false
        → y.receipt.number ≤ x.receipt.number }
    ensures writes { (m : Machine) (e : Event) (x : Standing)
        → Contains (happens m e).callers.receipts x → x.answered ≡ false
        → Contains m.callers.receipts x ⊎ IsWrite x.receipt.call }
{}

/// What a lane's action does to the map that the words hold. A call that is made at it is answered what the plain map
/// answers, which the words hold before the action, and leaves what the plain map leaves; any other action of a lane, and
/// so each attempt that ends in anything but made, leaves the map.
pub fn attempts()
    ensures reply { (segments : ℕ) (m : Machine) (n : ℕ) (l : LaneState) (action : Action)
        (r : Made)
        (map : Bytes) → IsSound segments m → m.lanes n ≡ Some l → next_of l ≡ Some action
        → receipt_by (turn_of l (found m action)) ≡ Some r → HoldsMap m.words map
        → r.reply ≡ reply_of r.call map }
    ensures map { (segments : ℕ) (m : Machine) (n : ℕ) (l : LaneState) (action : Action)
        (r : Made)
        (map : Bytes) → IsSound segments m → m.lanes n ≡ Some l → next_of l ≡ Some action
        → receipt_by (turn_of l (found m action)) ≡ Some r → HoldsMap m.words map
        → HoldsMap (words_after action m.words) (map_after r.call map) }
    ensures unmade { (segments : ℕ) (m : Machine) (n : ℕ) (l : LaneState) (action : Action)
        (map : Bytes) → IsSound segments m → m.lanes n ≡ Some l → next_of l ≡ Some action
        → receipt_by (turn_of l (found m action)) ≡ None → HoldsMap m.words map
        → HoldsMap (words_after action m.words) map }
{}

/// A merger's action and the monitor's leave the map that the words hold.
pub fn others()
    ensures mergers { (segments : ℕ) (m : Machine) (n : ℕ) (map : Bytes) → IsSound segments m
        → HoldsMap m.words map → HoldsMap (happens m (Acts (Merger n))).words map }
    ensures monitor { (segments : ℕ) (m : Machine) (map : Bytes) → IsSound segments m
        → HoldsMap m.words map → HoldsMap (happens m (Acts Monitor)).words map }
{}
