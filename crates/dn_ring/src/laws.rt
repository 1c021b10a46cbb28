//! What the assignment of slots keeps when a lane comes or goes, as functions without work: what each says is its
//! contract.

ghost use Rattle.std.specs.Prelude.{◌≡◌, ◌≢◌, ◌*◌, ◌^◌, ◌<◌, ◌≤◌, ℕ, List, Contains};
ghost use Rattle.dn_ring.specs.Ring.{distance, IsOwner, IsOneMore};

/// In which order places are met from where a slot begins: those from there on before those below, and of two on the
/// same side the lower one first.
pub fn met()
    ensures turn { (slot a b : ℕ) → slot < 64 → a < 2 ^ 64 → b < slot * 2 ^ 58
        → slot * 2 ^ 58 ≤ a → distance slot a < distance slot b }
    ensures above { (slot a b : ℕ) → slot < 64 → slot * 2 ^ 58 ≤ a → a < b → b < 2 ^ 64
        → distance slot a < distance slot b }
    ensures below { (slot a b : ℕ) → slot < 64 → a < b → b < slot * 2 ^ 58
        → distance slot a < distance slot b }
{}

/// A slot has one owner, which is live, whatever the order in which the live lanes are listed.
pub fn determined()
    ensures live { (live : List ℕ) (slot a : ℕ) → IsOwner live slot a → Contains live a }
    ensures one { (live : List ℕ) (slot a b : ℕ)
        → IsOwner live slot a → IsOwner live slot b → a ≡ b }
{}

/// A lane that is added takes slots only for itself: a slot that doesn't go to it keeps its owner. One that is taken
/// out gives up its own slots alone: a slot of another lane keeps its owner. Its own go to lanes that are left, as an
/// owner is live.
pub fn moves()
    ensures added { (lane : ℕ) (fewer more : List ℕ) (slot a b : ℕ)
        → IsOneMore lane fewer more
        → IsOwner fewer slot a → IsOwner more slot b → b ≢ lane → b ≡ a }
    ensures removed { (lane : ℕ) (fewer more : List ℕ) (slot a : ℕ)
        → IsOneMore lane fewer more
        → IsOwner more slot a → a ≢ lane → IsOwner fewer slot a }
{}
