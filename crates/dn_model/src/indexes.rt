//! The index, read from the words.

ghost use Rattle.std.specs.Prelude.{◌≡◌, ◌<◌, ◌≤◌, ◌^◌, ℕ, Some, All, IfOk, IfSome, IfNone};
ghost use Rattle.dn_model.specs.Regions.{bucket, home_of};
ghost use Rattle.dn_model.specs.Index.{IsChain, NoChain, first_place, slots_of, slots, index};

use crate::logs::word;
use dn_word::regions::bucket_at;
use dn_word::{List, OutOfMemory, bucket_of};
use std::alloc::Global;

/// Word `i` of a bucket.
pub(crate) fn bucket_word(words: &[u64], bucket_number: u32, i: u32) -> u64
    requires number { bucket_number < 8192 }
    requires i { i < 8 }
    ensures { result ≡ bucket words.now bucket_number i }
{
    word(words, (bucket_at(bucket_number) + i) as u64)
}

/// The overflow buckets of a home bucket in the order of its chain, or None where the chain doesn't end within 4,097 buckets.
pub(crate) fn chain_of(
    alloc: Global,
    words: &[u64],
    home: u32,
) -> Result<Option<List<u32>>, OutOfMemory>
    requires { home < 4096 }
    ensures found { IfOk result (λ found. IfSome found (λ chain. IsChain words.now home chain)) }
    ensures none { IfOk result (λ found. IfNone found (NoChain words.now home)) }
{
    let mut chain = Vec::new(alloc);
    let mut at = home;
    while chain.len() < 4097 {
        let next = bucket_word(words, at, 7);
        if next == 0 {
            return Ok(Some(List::of(chain)));
        }
        if next < 4096 {
            return Ok(None);
        }
        if next >= 8192 {
            return Ok(None);
        }
        if chain.len() == 4096 {
            return Ok(None);
        }
        at = next as u32;
        chain.push(at)?;
    }
    Ok(None)
}

/// The place word of the first of a bucket's places with this key.
fn place_in(words: &[u64], bucket_number: u32, key: u64) -> Option<u64>
    requires { bucket_number < 8192 }
    ensures { result ≡ first_place key (slots_of words.now bucket_number) }
{
    if bucket_word(words, bucket_number, 1) == key {
        return Some(bucket_word(words, bucket_number, 4));
    }
    if bucket_word(words, bucket_number, 2) == key {
        return Some(bucket_word(words, bucket_number, 5));
    }
    if bucket_word(words, bucket_number, 3) == key {
        return Some(bucket_word(words, bucket_number, 6));
    }
    None
}

/// The place word that the index gives for a key, where these are the overflow buckets of its home bucket.
pub(crate) fn place_of(words: &[u64], overflow: &[u32], key: u64) -> Option<u64>
    requires { All (λ b. b < 8192) overflow.now }
    ensures { result ≡ index words.now overflow.now key }
{
    let home = bucket_of(key) as u32;
    if let Some(place) = place_in(words, home, key) {
        return Some(place);
    }
    for bucket in overflow {
        if let Some(place) = place_in(words, *bucket, key) {
            return Some(place);
        }
    }
    None
}
