//! Where each kind of word stands in the pool. Places are numbers of words.

ghost use Rattle.std.specs.Prelude.{◌≡◌, ◌<◌};
ghost use Rattle.dn_word.specs.Regions as place;

/// The most lanes; they are numbered from 1.
pub const LANES: u8 = 63;

/// The slots of the key space, numbered from 0.
pub const SLOTS: u8 = 64;

/// The most segments of a lane.
pub const LANE_SEGMENTS: u32 = 256;

/// The most segments of a pool.
pub const POOL_SEGMENTS: u32 = 8192;

/// The words of a segment.
pub const SEGMENT_WORDS: u32 = 1024;

/// The buckets that can be claimed beside the home buckets, of which there are as many.
pub const OVERFLOW_BUCKETS: u32 = 4096;

/// The word of the format.
pub const FORMAT_AT: u32 = 0;

/// The word that counts the claimed segments.
pub const SEGMENT_COUNTER_AT: u32 = 1;

/// The word that counts the claimed cells.
pub const CELL_COUNTER_AT: u32 = 2;

/// The word that counts the claimed overflow buckets.
pub const OVERFLOW_COUNTER_AT: u32 = 3;

/// The first word of the first segment; a pool ends with its last segment.
pub const SEGMENTS_AT: u32 = 98304;

/// The word of a lane's gate.
pub fn gate_at(lane: u8) -> u32
    requires { lane < 64 }
    ensures { result ≡ place.gate_at lane }
{
    64 + lane as u32
}

/// The word of a lane's merged mark: how many words of its log are merged into the index.
pub fn mark_at(lane: u8) -> u32
    requires { lane < 64 }
    ensures { result ≡ place.mark_at lane }
{
    128 + lane as u32
}

/// The word of a slot's deed.
pub fn deed_at(slot: u8) -> u32
    requires { slot < 64 }
    ensures { result ≡ place.deed_at slot }
{
    192 + slot as u32
}

/// The word of a cell.
pub fn cell_at(cell: u8) -> u32
    ensures { result ≡ place.cell_at cell }
{
    256 + cell as u32
}

/// The word with the key of a cell.
pub fn cell_key_at(cell: u8) -> u32
    ensures { result ≡ place.cell_key_at cell }
{
    512 + cell as u32
}

/// The word of a lane's directory for its segment with this number from 0 to 255: the segment's number in the pool plus 1, or
/// 0 where the lane has none.
pub fn directory_at(lane: u8, segment: u32) -> u32
    requires lane { lane < 64 }
    requires segment { segment < 256 }
    ensures { result ≡ place.directory_at lane segment }
{
    1024 + 256 * lane as u32 + segment
}

/// The first of the eight words of a bucket: home buckets from 0 to 4,095, overflow buckets from 4,096 to 8,191. As in
/// P-CLHT a bucket is a line of one word that is unused here, three keys, their three places, and the number of the next
/// bucket of the chain, or 0.
pub fn bucket_at(bucket: u32) -> u32
    requires { bucket < 8192 }
    ensures { result ≡ place.bucket_at bucket 0 }
{
    32768 + 8 * bucket
}

/// The first word of a segment.
pub fn segment_at(segment: u32) -> u32
    requires { segment < 8192 }
    ensures { result ≡ place.segment_at segment }
{
    SEGMENTS_AT + SEGMENT_WORDS * segment
}
