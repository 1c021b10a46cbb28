ghost use Rattle.std.specs.Prelude.{◌≡◌};
ghost use Rattle.dn_word.specs.Header.{header_of, header_word};

/// The first word of a record. Which headers begin a record is for the grammar of records to say.
#[derive(Clone, Copy, Debug, PartialEq, Eq)]
pub struct Header {
    /// The number of the record's kind.
    pub kind: u8,
    /// The length of its value in bytes.
    pub bytes: u16,
    /// The number of the cell that it names.
    pub cell: u16,
    /// Its length in words, the header among them.
    pub words: u16,
}

impl Header {
    /// The header that a word holds, from the highest bit: 8 bits of the kind, 16 of the bytes, 16 of the cell, 16 of the
    /// words, 8 of no field.
    pub fn read(word: u64) -> Header
        ensures value { result ≡ header_of word }
    {
        Header {
            kind: (word >> 56) as u8,
            bytes: ((word >> 40) & 0xffff) as u16,
            cell: ((word >> 24) & 0xffff) as u16,
            words: ((word >> 8) & 0xffff) as u16,
        }
    }

    /// The word of this header.
    pub fn word(&self) -> u64
        ensures value { result ≡ header_word self.now }
        ensures again { header_of result ≡ self.now }
    {
        ((self.kind as u64) << 56)
            + ((self.bytes as u64) << 40)
            + ((self.cell as u64) << 24)
            + ((self.words as u64) << 8)
    }
}
