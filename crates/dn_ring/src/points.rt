ghost use Rattle.std.specs.Prelude.{◌≡◌};
ghost use Rattle.dn_ring.specs.Ring.{point_of};

use dn_word::hash;

/// How many points a lane has.
pub const POINTS: u8 = 16;

/// A point of a lane on the ring of 2^64 places.
#[derive(Clone, Copy)]
pub struct Point {
    /// Its place.
    pub at: u64,
    /// The lane whose point it is.
    pub lane: u8,
}

impl Point {
    /// The point of a lane with this number, from 0 to 15: the hash of 256 times the lane, plus the number.
    #[tactic(auto, unfolding(crate::specs::Ring::point_of))]
    pub fn of(lane: u8, number: u8) -> Point
        ensures { result ≡ record { at = point_of lane number; lane = lane } }
    {
        Point {
            at: hash(256 * lane as u64 + number as u64),
            lane,
        }
    }
}
