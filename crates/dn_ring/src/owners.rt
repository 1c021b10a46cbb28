ghost use Rattle.std.specs.Prelude.{◌≡◌, ◌≢◌, ◌<◌, ◌≤◌, []};
ghost use Rattle.dn_ring.specs.Ring.{distance, IsOwner};
ghost use Rattle.dn_ring.specs.Counted.{nearer_of};

use crate::points::{POINTS, Point};

/// The owner of a slot (from 0 to 63) among the live lanes, by a walk over all their points; 0 where no lane is live.
/// It is the definition carried out, point by point, and what [`assign`](crate::assign) is compared with.
pub fn owner(live: &[u8], slot: u8) -> u8
    requires { slot < 64 }
    ensures owner { live.now ≢ [] → IsOwner live.now slot result }
    ensures none { live.now ≡ [] → result ≡ 0 }
{
    let mut first: Option<Point> = None;
    for lane in live {
        for number in 0..POINTS {
            first = Some(nearer(slot, first, Point::of(*lane, number)));
        }
    }
    match first {
        Some(point) => point.lane,
        None => 0,
    }
}

/// Of the first point so far and another one the point that is met first from where the slot begins; of two that are as
/// near the one of the lower lane.
fn nearer(slot: u8, first: Option<Point>, point: Point) -> Point
    requires { slot < 64 }
    ensures { result ≡ nearer_of slot first point }
{
    let Some(first) = first else {
        return point;
    };
    let old = distance(slot, first.at);
    let new = distance(slot, point.at);
    if new < old || (new == old && point.lane < first.lane) {
        point
    } else {
        first
    }
}

/// How far up the ring a place lies from where a slot begins.
fn distance(slot: u8, at: u64) -> u64
    requires { slot < 64 }
    ensures { result ≡ distance slot at }
{
    at.wrapping_sub((slot as u64) << 58)
}
