ghost use Rattle.std.specs.Prelude.{◌≡◌, ◌<◌};
ghost use Rattle.dn_word.specs.Hash.{fnv1a as fnv1a_of, hash_of, slot_of as slot, home_of};

/// The number that FNV-1a with 64 bits begins with.
const BASIS: u64 = 0xcbf2_9ce4_8422_2325;

/// The number that FNV-1a with 64 bits multiplies by.
const PRIME: u64 = 0x0000_0100_0000_01b3;

/// FNV-1a with 64 bits (Fowler, Noll and Vo) over bytes, the first byte first.
pub fn fnv1a(bytes: &[u8]) -> u64
    ensures { result ≡ fnv1a_of bytes.now }
{
    bytes.iter().fold(
        BASIS,
        |hash, byte| (hash ^ u64::from(*byte)).wrapping_mul(PRIME),
    )
}

/// The hash of a key: FNV-1a over the key's eight bytes, the least significant first.
pub fn hash(key: u64) -> u64
    ensures { result ≡ hash_of key }
{
    let bytes = key.to_le_bytes();
    fnv1a(&bytes)
}

/// The slot of a key, from 0 to 63: the top 6 bits of its hash. A slot is what lanes own.
pub fn slot_of(key: u64) -> u8
    ensures value { result ≡ slot key }
    ensures below { result < 64 }
{
    (hash(key) >> 58) as u8
}

/// The home bucket of a key, from 0 to 4,095: the top 12 bits of its hash, so that a bucket's keys lie in one slot.
pub fn bucket_of(key: u64) -> u16
    ensures value { result ≡ home_of key }
    ensures below { result < 4096 }
{
    (hash(key) >> 52) as u16
}
