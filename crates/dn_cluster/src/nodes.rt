use dn_lane::Lane;
use dn_merge::Merger;

/// A lane with its merger. Of a lane that was stopped the merger goes on.
#[derive(Drop)]
pub struct Node {
    pub lane: Lane,
    pub stopped: bool,
    pub merger: Merger,
}
