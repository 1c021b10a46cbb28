ghost use Rattle.std.specs.Prelude.{◌≡◌, ◌≢◌, ℕ, ◌*◌, ◌<◌, ◌≤◌, [], List, All, length, slice_index};
ghost use Rattle.std.specs.Option.{option_map_or};
ghost use Rattle.std.specs.List.Sorted.{IsStrictlyIncreasing};
ghost use Rattle.dn_ring.specs.Ring.{IsOwner};
ghost use Rattle.dn_ring.specs.Counted.{noted, AreFirsts};

use crate::points::{POINTS, Point};

/// For each slot the first point that lies in its arc, the 2^58 places from where it begins.
type Firsts = [Option<Point>; 64];

/// The lane of each slot, by the points of the live lanes: the owner of the slot. All are 0 where no lane is live.
///
/// The live lanes are from 1 to 63 and rise. Each point is computed once: at most 1,008 hashes.
pub fn assign(live: &[u8]) -> [u8; 64]
    requires rising { IsStrictlyIncreasing live.now }
    requires lanes { All (λ lane. (1 ≤ lane) × (lane < 64)) live.now }
    ensures owners { live.now ≢ [] → (slot : ℕ) → slot < 64
        → IsOwner live.now slot (slice_index result slot) }
    ensures none { live.now ≡ [] → (slot : ℕ) → slice_index result slot ≡ 0 }
{
    let firsts = first_points(live);
    let mut slots = [0; 64];
    let mut lane = lowest_lane(&firsts);
    for slot in (0..64usize).rev() {
        lane = lane_of(firsts[slot], lane);
        slots[slot] = lane;
    }
    slots
}

/// The first point of each arc.
fn first_points(live: &[u8]) -> Firsts
    requires { IsStrictlyIncreasing live.now }
    ensures { AreFirsts live.now (16 * length live.now) result }
{
    let mut firsts = [None; 64];
    for lane in live {
        for number in 0..POINTS {
            note(&mut firsts, Point::of(*lane, number));
        }
    }
    firsts
}

/// Keeps a point as the first of its arc, unless one stands there that is no higher.
fn note(firsts: &mut Firsts, point: Point)
    ensures { firsts.new ≡ noted firsts.old point }
{
    let arc = (point.at >> 58) as usize;
    let lower = match firsts[arc] {
        Some(first) if first.at <= point.at => first,
        _ => point,
    };
    firsts[arc] = Some(lower);
}

/// The lane of the first point of a slot's arc, or where there is none the lane of the next slot.
fn lane_of(first: Option<Point>, next: u8) -> u8
    ensures { result ≡ option_map_or (λ p. p.lane) first next }
{
    first.map_or(next, |point| point.lane)
}

/// The lane of the lowest point of all, which a slot past all points goes to, or 0 where there is no point.
fn lowest_lane(firsts: &Firsts) -> u8
    ensures owner { (live : List ℕ) → live ≢ []
        → AreFirsts live (16 * length live) firsts.now → IsOwner live 64 result }
    ensures none { AreFirsts [] 0 firsts.now → result ≡ 0 }
{
    for arc in 0..64usize {
        if let Some(first) = firsts[arc] {
            return first.lane;
        }
    }
    0
}
