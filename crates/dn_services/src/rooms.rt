//! Room for a record.

ghost use Rattle.std.specs.Prelude.{◌≡◌, ◌<◌, ◌≤◌, ◌↔◌, ℕ, false, length};
ghost use Rattle.dn_log.specs.Log.{plan_of};
ghost use Rattle.dn_log.specs.Claim.{turn_of, claim_after};
ghost use Rattle.dn_services.specs.Room.{looked_for, turn_by, claimed_by, IsClaimFor, FitsTurn, actions_in, actions_left, HasAll, IsPoolFull};
ghost use Rattle.dn_services.specs.Sequence.{Finds};

use dn_known::Known;
use dn_log::{Claim, ClaimTurn};
use dn_plan::Room;
use dn_word::regions::LANE_SEGMENTS;

/// How the finding of room goes on.
#[derive(Clone, Copy)]
pub enum RoomTurn {
    /// The lane claims a segment, whose next action is that of the claim.
    More { claim: Claim },
    /// This came of it.
    Told { room: Room },
}

/// Looks for room for a record of 1 to 1,024 words: at once where the lane's segments or its spare reach, and else by
/// the claim of a segment, unless the lane has 256.
pub fn find_room(known: &Known, words: u16) -> RoomTurn
    requires least { 1 ≤ words }
    requires most { words ≤ 1024 }
    ensures value { result ≡ looked_for known.now words }
    ensures fits { FitsTurn known.now.log words result }
    ensures found { (result ≡ RoomTurn.Told Room.Found)
        ↔ ((plan_of known.now.log words).need_segment ≡ false) }
    ensures full { (counter segments : ℕ) →
        (result ≡ RoomTurn.Told (Room.Full counter segments))
        ↔ HasAll known.now words counter segments }
    ensures left { actions_left result ≤ 2 }
    ensures sequence { Finds known.now words result }
{
    if !known.log().plan(words).need_segment {
        return RoomTurn::Told { room: Room::Found };
    }
    if known.log().segments() == LANE_SEGMENTS {
        let room = Room::Full {
            counter: 0,
            segments: LANE_SEGMENTS,
        };
        return RoomTurn::Told { room };
    }
    RoomTurn::More {
        claim: Claim::new(known.log()),
    }
}

/// Takes the word that the claim's action found. A claimed segment becomes the lane's spare one, and then there is room
/// for any record; without one the lane knows what it knew.
pub fn claim_on(known: &mut Known, claim: Claim, word: u64) -> RoomTurn
    requires { IsClaimFor known.old.log claim }
    ensures turn { result ≡ turn_by (claim_after claim word) (turn_of claim word) }
    ensures known { known.new ≡ claimed_by known.old (turn_of claim word) }
    ensures fits { (words : ℕ) → words ≤ 1024 → FitsTurn known.new.log words result }
    ensures full { (counter segments : ℕ) →
        (result ≡ RoomTurn.Told (Room.Full counter segments))
        ↔ IsPoolFull known.old word counter segments }
    ensures falls { actions_left result < actions_in claim }
{
    let mut claim = claim;
    match claim.take(word) {
        ClaimTurn::More => RoomTurn::More { claim },
        ClaimTurn::Got { segment } => {
            known.keep(segment);
            RoomTurn::Told { room: Room::Found }
        }
        ClaimTurn::Full { counter, segments } => RoomTurn::Told {
            room: Room::Full { counter, segments },
        },
    }
}
