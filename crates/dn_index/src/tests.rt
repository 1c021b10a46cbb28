ghost use Rattle.std.specs.Prelude.{◌≡◌};

use crate::places::WalkTurn;
use crate::walks::Walk;
use dn_act::{Failed, Memory, Sound, exec};
use dn_word::Ref;
use dn_word::regions::{OVERFLOW_COUNTER_AT, bucket_at};
use std::process::Abort;
use std::test::Fail;

/// The home bucket of the keys 5, 13561, 14939, 17520 and 18337.
const HOME: u32 = 222;

fn at(offset: u32) -> Ref
    ensures { result ≡ record { lane = 1; offset = offset } }
{
    Ref { lane: 1, offset }
}

/// Carries out a walk's actions, at most those of 4,097 buckets and five more.
fn run(rt: &impl Abort, pool: &mut Sound, mut walk: Walk) -> Result<WalkTurn, Failed> {
    for _ in 0..16393 {
        let action = walk.next();
        assert!(rt; action.at() < pool.size());
        let word = exec(pool, &action)?;
        match walk.take(word) {
            WalkTurn::More => {}
            turn => return Ok(turn),
        }
    }
    Ok(WalkTurn::More)
}

fn store(rt: &impl Abort, pool: &mut Sound, at: u32, word: u64) -> Result<(), Failed> {
    assert!(rt; at < pool.size());
    pool.store(at, word)?;
    Ok(())
}

/// Stores word `i` of a bucket.
fn fill(rt: &impl Abort, pool: &mut Sound, bucket: u32, i: u32, word: u64) -> Result<(), Failed> {
    assert!(rt; bucket < 8192 && i < 8);
    store(rt, pool, bucket_at(bucket) + i, word)
}

/// Compares words of the pool.
fn expect(rt: &impl Abort, pool: &Sound, words: &[(u32, u64)]) {
    for (at, word) in words {
        assert!(rt; *at < pool.size());
        assert_eq!(rt; pool.word(*at), *word, "word {at}");
    }
}

#[test]
fn a_home_bucket_overflows_and_a_freed_place_is_taken(rt: HostRuntime) -> Result<(), Fail> {
    let mut pool = Sound::new(rt.alloc(), 1)?;
    for (key, offset) in [(5u64, 0u32), (13561, 3), (14939, 6), (17520, 9)] {
        assert!(rt; key != 0 && offset < 16);
        assert_eq!(rt; run(&rt, &mut pool, Walk::find(key))?, WalkTurn::Absent);
        assert_eq!(rt;
            run(&rt, &mut pool, Walk::set(key, at(offset)))?,
            WalkTurn::Written
        );
    }
    expect(
        &rt,
        &pool,
        &[
            (3, 1),
            (34545, 5),
            (34551, 4096),
            (65537, 17520),
            (65540, 0x0000000001000009),
        ],
    );
    assert_eq!(rt;
        run(&rt, &mut pool, Walk::remove(13561))?,
        WalkTurn::Written
    );
    assert_eq!(rt; run(&rt, &mut pool, Walk::find(13561))?, WalkTurn::Absent);
    assert_eq!(rt;
        run(&rt, &mut pool, Walk::find(17520))?,
        WalkTurn::Found { at: at(9) }
    );
    assert_eq!(rt;
        run(&rt, &mut pool, Walk::set(18337, at(14)))?,
        WalkTurn::Written
    );
    expect(
        &rt,
        &pool,
        &[
            (3, 1),
            (34545, 5),
            (34546, 18337),
            (34547, 14939),
            (34548, 0x0000000001000000),
            (34549, 0x000000000100000e),
            (34550, 0x0000000001000006),
            (34551, 4096),
            (65537, 17520),
            (65540, 0x0000000001000009),
        ],
    );
    Ok(())
}

#[test]
fn a_key_is_met_at_each_place_of_three_buckets(rt: HostRuntime) -> Result<(), Fail> {
    let mut pool = Sound::new(rt.alloc(), 1)?;
    for (bucket, next) in [(HOME, 4100u64), (4100, 5000), (5000, 0)] {
        for number in 1..4u32 {
            fill(&rt, &mut pool, bucket, number, 99)?;
        }
        fill(&rt, &mut pool, bucket, 7, next)?;
    }
    for bucket in [HOME, 4100, 5000] {
        for number in 1..4u32 {
            fill(&rt, &mut pool, bucket, number, 5)?;
            assert_eq!(rt;
                run(&rt, &mut pool, Walk::set(5, at(number)))?,
                WalkTurn::Written
            );
            assert_eq!(rt;
                run(&rt, &mut pool, Walk::find(5))?,
                WalkTurn::Found { at: at(number) }
            );
            assert_eq!(rt; run(&rt, &mut pool, Walk::remove(5))?, WalkTurn::Written);
            assert_eq!(rt; run(&rt, &mut pool, Walk::find(5))?, WalkTurn::Absent);
        }
    }
    Ok(())
}

#[test]
fn a_chain_is_walked_to_its_last_bucket_and_no_further(rt: HostRuntime) -> Result<(), Fail> {
    let mut pool = Sound::new(rt.alloc(), 1)?;
    let mut last = HOME;
    for next in 4096..8192u32 {
        fill(&rt, &mut pool, last, 7, next as u64)?;
        last = next;
    }
    assert_eq!(rt; run(&rt, &mut pool, Walk::find(5))?, WalkTurn::Absent);
    fill(&rt, &mut pool, last, 7, 4096)?;
    assert_eq!(rt; run(&rt, &mut pool, Walk::find(5))?, WalkTurn::Absent);
    fill(&rt, &mut pool, last, 3, 5)?;
    fill(&rt, &mut pool, last, 6, 0x0000000001000000)?;
    assert_eq!(rt;
        run(&rt, &mut pool, Walk::find(5))?,
        WalkTurn::Found { at: at(0) }
    );
    Ok(())
}

#[test]
fn words_that_name_nothing_end_a_walk(rt: HostRuntime) -> Result<(), Fail> {
    let mut pool = Sound::new(rt.alloc(), 1)?;
    for next in [8192u64, 9000, u64::MAX] {
        fill(&rt, &mut pool, HOME, 7, next)?;
        assert_eq!(rt; run(&rt, &mut pool, Walk::find(5))?, WalkTurn::Absent);
        assert_eq!(rt; run(&rt, &mut pool, Walk::remove(5))?, WalkTurn::Written);
    }
    fill(&rt, &mut pool, HOME, 2, 5)?;
    assert_eq!(rt; run(&rt, &mut pool, Walk::find(5))?, WalkTurn::Absent);
    assert_eq!(rt;
        run(&rt, &mut pool, Walk::set(5, at(3)))?,
        WalkTurn::Written
    );
    assert_eq!(rt;
        run(&rt, &mut pool, Walk::find(5))?,
        WalkTurn::Found { at: at(3) }
    );
    Ok(())
}

#[test]
fn the_last_overflow_bucket_is_claimed_and_then_the_index_is_full(
    rt: HostRuntime,
) -> Result<(), Fail> {
    let mut pool = Sound::new(rt.alloc(), 1)?;
    for number in 1..4u32 {
        fill(&rt, &mut pool, HOME, number, 99)?;
    }
    store(&rt, &mut pool, OVERFLOW_COUNTER_AT, 4095)?;
    assert_eq!(rt;
        run(&rt, &mut pool, Walk::set(5, at(0)))?,
        WalkTurn::Written
    );
    expect(&rt, &pool, &[(3, 4096), (34551, 8191), (98297, 5)]);
    for number in 2..4u32 {
        fill(&rt, &mut pool, 8191, number, 99)?;
    }
    assert_eq!(rt;
        run(&rt, &mut pool, Walk::set(13561, at(3)))?,
        WalkTurn::IndexFull { counter: 4096 }
    );
    expect(&rt, &pool, &[(3, 4096), (34551, 8191), (98303, 0)]);
    Ok(())
}
