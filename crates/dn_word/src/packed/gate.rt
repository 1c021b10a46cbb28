ghost use Rattle.std.specs.Prelude.{◌≡◌, ◌<◌, ◌+◌, ◌-◌, ◌^◌, ◌↔◌, max, IfSome, IsNone};
ghost use Rattle.dn_word.specs.Gate.{gate_of, gate_word, next_of};

/// The greatest stamp, 2^31 - 1. Stamps are logical clocks after Lamport (1978): a change takes one that is greater than all
/// that it has seen.
pub const MAX_STAMP: u32 = 0x7fff_ffff;

/// The greatest number that the field of the log's length can have, 2^24 - 1.
const MAX_LEN: u64 = 0xff_ffff;

/// The word that seals the log of a lane. What lies below the length is sealed.
#[derive(Clone, Copy, Debug, PartialEq, Eq)]
pub struct Gate {
    /// Whether the lane was fenced: it then seals nothing more. The bit is never taken away.
    pub fenced: bool,
    /// The stamp of the last call that the lane ended at this word, up to [`MAX_STAMP`].
    pub stamp: u32,
    /// The length of the log in words, below 2^24.
    pub len: u32,
}

impl Gate {
    /// The gate that a word holds, from the highest bit: 1 bit of the fence, 31 of the stamp, 8 of no field, 24 of the length.
    pub fn read(word: u64) -> Gate
        ensures value { result ≡ gate_of word }
        ensures stamp { result.stamp < 2 ^ 31 }
        ensures len { result.len < 2 ^ 24 }
    {
        Gate {
            fenced: word >> 63 == 1,
            stamp: ((word >> 32) & u64::from(MAX_STAMP)) as u32,
            len: (word & MAX_LEN) as u32,
        }
    }

    /// The word of this gate, whose stamp is at most [`MAX_STAMP`] and whose length is below 2^24.
    pub fn word(&self) -> u64
        requires stamp { self.now.stamp < 2 ^ 31 }
        requires len { self.now.len < 2 ^ 24 }
        ensures value { result ≡ gate_word self.now }
        ensures again { gate_of result ≡ self.now }
    {
        ((self.fenced as u64) << 63) + ((self.stamp as u64) << 32) + self.len as u64
    }

    /// The stamp after the greater of the gate's own and `floor`; None exactly where that one is [`MAX_STAMP`]. Both are at
    /// most [`MAX_STAMP`].
    pub fn next(&self, floor: u32) -> Option<u32>
        requires stamp { self.now.stamp < 2 ^ 31 }
        requires floor { floor < 2 ^ 31 }
        ensures value { result ≡ next_of self.now floor }
        ensures none { IsNone result ↔ (max self.now.stamp floor ≡ 2 ^ 31 - 1) }
        ensures some { IfSome result (λ stamp. stamp ≡ max self.now.stamp floor + 1) }
        ensures stamp { IfSome result (λ stamp. stamp < 2 ^ 31) }
    {
        let greatest = self.stamp.max(floor);
        if greatest == MAX_STAMP {
            None
        } else {
            Some(greatest + 1)
        }
    }
}
