/// Where the next record of a log goes. Places are offsets of the lane, in words.
#[derive(Clone, Copy, Debug, PartialEq, Eq)]
pub struct Plan {
    /// The offset and the words of the pad before the record, where the rest of the segment is too short for it.
    pub pad: Option<(u32, u16)>,
    /// Where the record begins.
    pub at: u32,
    /// The log's length once the record is sealed.
    pub len: u32,
    /// Whether the lane's segments and its spare don't reach so far.
    pub need_segment: bool,
}

/// The segment that a plan adds to a lane's log.
#[derive(Clone, Copy, Debug, PartialEq, Eq)]
pub struct NewSegment {
    /// Its number in the lane's directory.
    pub number: u32,
    /// Its number in the pool.
    pub segment: u32,
}
