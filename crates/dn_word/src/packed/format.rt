ghost use Rattle.std.specs.Prelude.{◌≡◌};
ghost use Rattle.dn_word.specs.Format.{format_of, format_word};

/// The number of the layout of words and records that this crate describes.
pub const FORMAT_NUMBER: u32 = 1;

/// The first word of the pool, which says how it is laid out.
#[derive(Clone, Copy, Debug, PartialEq, Eq)]
pub struct Format {
    /// How many segments the pool has, from 1 to 8,192.
    pub segments: u32,
    /// The number of the layout: [`FORMAT_NUMBER`].
    pub number: u32,
}

impl Format {
    /// The format that a word holds: 32 bits of the segments above 32 of the layout's number.
    pub fn read(word: u64) -> Format
        ensures value { result ≡ format_of word }
    {
        Format {
            segments: (word >> 32) as u32,
            number: (word & 0xffff_ffff) as u32,
        }
    }

    /// The word of this format.
    pub fn word(&self) -> u64
        ensures value { result ≡ format_word self.now }
        ensures again { format_of result ≡ self.now }
    {
        ((self.segments as u64) << 32) + self.number as u64
    }
}
