//! Clusters in a pool of eight segments. Keys 5, 13561, 14939 and 17520 lie in bucket 222 of slot 3, which has three
//! places, so that they need a further bucket. Key 100 lies in bucket 195 of that slot, keys 13 and 34 in slot 1, and
//! key 1 in slot 34.

mod calls;
mod histories;
mod plays;
mod pools;
mod runs;
mod stops;

/// How many segments the pools have.
const SEGMENTS: u32 = 8;

/// The keys of all calls.
const KEYS: [u64; 8] = [5, 13561, 14939, 17520, 100, 13, 34, 1];

/// Their slots.
const SLOTS: [u8; 3] = [3, 1, 34];
