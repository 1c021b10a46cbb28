//! What is so of a sound machine, as functions without work: what each says is its contract.

ghost use Rattle.std.specs.Prelude.{ℕ};
ghost use Rattle.dn_machine.specs.State.{Machine};
ghost use Rattle.dn_machine.specs.Sound.{IsSound};
ghost use Rattle.dn_parts.specs.Space.{HasSpace};
ghost use Rattle.dn_parts.specs.Logs.{HaveLogs};
ghost use Rattle.dn_parts.specs.Indexed.{HasIndex};
ghost use Rattle.dn_parts.specs.Owning.{IsInOneLog, HoldLooks, KnowPending};
ghost use Rattle.dn_parts.specs.Stamps.{AreBound, GrantsInOrder};
ghost use Rattle.dn_parts.specs.Places.{KnowPlaces};
ghost use Rattle.dn_parts.specs.Turns.{KnowTurns};
ghost use Rattle.dn_parts.specs.Cells.{HasUnusedCells};

/// What a sound machine says of its words and of all who act on them, part by part: no more is read than the words and
/// the actors' own states. Three parts stand elsewhere as they are. What sessions know of receipts and of positions told
/// is `AreSessions` of `dn_callers`; that each call under way is its session's only one is `AreActors`; and that
/// receipts are a legal history of what the words hold is the law `histories` of `dn_machine`.
pub fn parts()
    ensures space { (segments : ℕ) (m : Machine) → IsSound segments m → HasSpace segments m }
    ensures logs { (segments : ℕ) (m : Machine) → IsSound segments m → HaveLogs m }
    ensures index { (segments : ℕ) (m : Machine) → IsSound segments m → HasIndex m }
    ensures one_log { (segments : ℕ) (m : Machine) → IsSound segments m → IsInOneLog m }
    ensures looks { (segments : ℕ) (m : Machine) → IsSound segments m → HoldLooks m }
    ensures pending { (segments : ℕ) (m : Machine) → IsSound segments m → KnowPending m }
    ensures stamps { (segments : ℕ) (m : Machine) → IsSound segments m → AreBound m }
    ensures grants { (segments : ℕ) (m : Machine) → IsSound segments m → GrantsInOrder m }
    ensures lanes { (segments : ℕ) (m : Machine) → IsSound segments m → KnowPlaces m }
    ensures mergers { (segments : ℕ) (m : Machine) → IsSound segments m → KnowTurns m }
    ensures cells { (segments : ℕ) (m : Machine) → IsSound segments m → HasUnusedCells m }
{}
