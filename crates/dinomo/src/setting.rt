//! What the program runs in: the words of its command line, and a pool of its own.

ghost use Rattle.std.specs.Prelude.{◌≡◌, drop, length, IfOk};
ghost use Rattle.std.specs.Vec.Iter.{into_iter_items};
ghost use Rattle.dn_act.specs.Words.{IsZeros, pool_size};

use dn_act::Sound;
use dn_word::regions::POOL_SEGMENTS;
use std::alloc::Global;
use std::env::Args;

/// The words behind the first, which is the program's name, in their order. Answers want of memory, or the words.
pub(crate) fn words_behind_name(
    alloc: Global,
    args: Args,
) -> Result<Vec<String>, dn_word::OutOfMemory>
    ensures { IfOk result (λ words. words.items ≡ drop 1 (into_iter_items args)) }
{
    let mut args = args;
    let mut words = Vec::new(alloc);
    if args.next().is_none() {
        return Ok(words);
    }
    for word in args {
        words.push(word)?;
    }
    Ok(words)
}

/// A pool with as many segments as a pool may have, all of whose words are 0. Answers want of memory, or the pool.
pub(crate) fn whole_pool(alloc: Global) -> Result<Sound, dn_act::OutOfMemory>
    ensures size { IfOk result (λ pool. length pool ≡ pool_size 8192) }
    ensures zeros { IfOk result (λ pool. IsZeros pool) }
{
    Sound::new(alloc, POOL_SEGMENTS)
}
