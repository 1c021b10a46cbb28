ghost use Rattle.std.specs.Prelude.{◌≡◌, ◌<◌, ◌≤◌, ◌+◌, ℕ, All, slice_index};
ghost use Rattle.std.specs.List.Sorted.{IsStrictlyIncreasing};

use crate::{assign, owner};
use std::test::Fail;

/// The lanes of the slots 0 to 63, as digits, where these are live.
const OF_FOUR: &[u8; 64] = b"3112121213443242411133331124243341412221213322222444433312222233";

const OF_FIVE: &[u8; 64] = b"3115121213443252411133331124245541412221213352222545433355525233";

#[test]
fn worked_assignments(rt: HostRuntime) -> Result<(), Fail> {
    let four = assign(&[1, 2, 3, 4]);
    let five = assign(&[1, 2, 3, 4, 5]);
    for slot in 0..64usize {
        assert_eq!(rt; four[slot] + b'0', OF_FOUR[slot]);
        assert_eq!(rt; five[slot] + b'0', OF_FIVE[slot]);
    }
    assert_eq!(rt; assign(&[]), [0u8; 64]);
    Ok(())
}

/// Whether each slot goes to the lane that a walk over all points names.
fn agrees(live: &[u8]) -> bool
    requires rising { IsStrictlyIncreasing live.now }
    requires lanes { All (λ lane. (1 ≤ lane) × (lane < 64)) live.now }
{
    let slots = assign(live);
    for slot in 0..64u8 {
        if slots[slot as usize] != owner(live, slot) {
            return false;
        }
    }
    true
}

/// All lanes.
fn all_lanes() -> [u8; 63]
    ensures { (k : ℕ) → k < 63 → slice_index result k ≡ k + 1 }
{
    let mut lanes = [0; 63];
    for place in 0..63usize {
        lanes[place] = place as u8 + 1;
    }
    lanes
}

#[test]
fn each_slot_as_a_walk_over_all_points_says(rt: HostRuntime) -> Result<(), Fail> {
    assert!(rt; agrees(&[9]));
    assert!(rt; agrees(&[17, 63]));
    assert!(rt; agrees(&[2, 3, 5, 8, 13, 21, 34, 55]));
    assert!(rt; agrees(&all_lanes()));
    Ok(())
}
