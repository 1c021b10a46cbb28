ghost use Rattle.std.specs.Prelude.{◌≡◌, ◌≢◌, ◌<◌, ◌+◌, ◌^◌, IfSome};
ghost use Rattle.dn_word.specs.Ref.{ref_of, ref_word};

/// The place of a record: an offset of a lane's log. No place has both lane 0 and offset 0.
#[derive(Clone, Copy, Debug, PartialEq, Eq)]
pub struct Ref {
    /// The lane whose log it is, from 1 to 63.
    pub lane: u8,
    /// The record's first word, counted from the log's beginning, below 2^24.
    pub offset: u32,
}

impl Ref {
    /// The place in the lower 32 bits of a word, 8 bits of the lane and 24 of the offset; None exactly where all these are 0.
    /// The upper 32 bits belong to no field of a place.
    pub fn read(word: u64) -> Option<Ref>
        ensures value { result ≡ ref_of word }
        ensures offset { IfSome result (λ at. at.offset < 2 ^ 24) }
        ensures named { IfSome result (λ at. at.lane + at.offset ≢ 0) }
    {
        let lane = ((word >> 24) & 0xff) as u8;
        let offset = (word & 0xff_ffff) as u32;
        if lane == 0 && offset == 0 {
            None
        } else {
            Some(Ref { lane, offset })
        }
    }

    /// The word of this place, whose offset is below 2^24.
    pub fn word(&self) -> u64
        requires offset { self.now.offset < 2 ^ 24 }
        ensures value { result ≡ ref_word self.now }
        ensures below { result < 2 ^ 32 }
        ensures again { self.now.lane + self.now.offset ≢ 0 → ref_of result ≡ Some self.now }
    {
        ((self.lane as u64) << 24) + self.offset as u64
    }
}
