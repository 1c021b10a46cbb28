ghost use Rattle.std.specs.Prelude.{◌≡◌, ◌<◌, replicate, length};
ghost use Rattle.dn_pending.specs.Filter.{bit_of, bits_of, lack_of, may_hold, set_in, added_to, AreInside};

use dn_word::hash;

/// How many words a filter of 1,024 bits has.
const WORDS: usize = 16;

/// One bit of a filter: the word that it is in, from 0 to 15, and that word with no other bit set.
#[derive(Clone, Copy)]
struct Bit {
    word: usize,
    mask: u64,
}

impl Bit {
    /// The bit at a place from 0 to 1,023.
    fn at(place: u64) -> Bit
        requires { place < 1024 }
        ensures { result ≡ bit_of place }
    {
        Bit {
            word: (place / 64) as usize,
            mask: 1 << (place % 64),
        }
    }
}

/// The four bits of a key: their places are the bits 0 to 9, 10 to 19, 20 to 29 and 30 to 39 of its hash.
#[derive(Clone, Copy)]
pub struct KeyBits {
    first: Bit,
    second: Bit,
    third: Bit,
    fourth: Bit,
}

impl KeyBits {
    /// The bits of this key.
    pub fn of(key: u64) -> KeyBits
        ensures value { result ≡ bits_of key }
        ensures inside { AreInside result }
    {
        let hash = hash(key);
        KeyBits {
            first: Bit::at(hash % 1024),
            second: Bit::at((hash >> 10) % 1024),
            third: Bit::at((hash >> 20) % 1024),
            fourth: Bit::at((hash >> 30) % 1024),
        }
    }
}

/// A filter (Bloom, 1970) of 1,024 bits with four bits a key. It never denies a key that was added.
#[derive(Clone, Copy)]
pub struct Filter {
    words: [u64; WORDS],
}

impl Filter {
    /// The filter that denies every key.
    pub fn new() -> Filter
        ensures { result.words ≡ replicate 16 0 }
    {
        Filter { words: [0; WORDS] }
    }

    /// What the filter lacks of the bit: 0 exactly where it is set.
    fn lacks(&self, bit: Bit) -> u64
        requires { bit.word < 16 }
        ensures { result ≡ lack_of self.now.words bit }
    {
        bit.mask - (self.words[bit.word] & bit.mask)
    }

    /// Sets the bit.
    fn set(&mut self, bit: Bit)
        requires { bit.word < 16 }
        ensures { self.new.words ≡ set_in self.old.words bit }
    {
        self.words[bit.word] |= bit.mask;
    }

    /// Whether the key of these bits may have been added, which it wasn't where one of them isn't set. All four are
    /// tested at once: a walk asks many filters, and a branch for each bit would often be foretold wrongly.
    pub fn may_hold(&self, bits: &KeyBits) -> bool
        requires { AreInside bits.now }
        ensures { result ≡ may_hold self.now.words bits.now }
    {
        let front = self.lacks(bits.first) | self.lacks(bits.second);
        let back = self.lacks(bits.third) | self.lacks(bits.fourth);
        front | back == 0
    }

    /// Adds the key of these bits.
    pub fn add(&mut self, bits: &KeyBits)
        requires { AreInside bits.now }
        ensures { self.new.words ≡ added_to self.old.words bits.now }
    {
        self.set(bits.first);
        self.set(bits.second);
        self.set(bits.third);
        self.set(bits.fourth);
    }
}
