use crate::mergers::{MergeTurn, Merger};
use dn_act::{Failed, Memory, Sound, exec};
use std::process::Abort;
use std::test::Fail;

/// Lane 1 with the Puts of `a` on four keys whose home bucket is 222, the fourth at 98313. All words that aren't named are 0.
const PUTS: [(u32, u64); 14] = [
    // the gate: stamp 4, length 12
    (65, 0x000000040000000c),
    // the lane's first segment is segment 0
    (1280, 1),
    (98304, 0x0100010000000300),
    (98305, 5),
    (98306, 0x61),
    (98307, 0x0100010000000300),
    (98308, 13561),
    (98309, 0x61),
    (98310, 0x0100010000000300),
    (98311, 14939),
    (98312, 0x61),
    (98313, 0x0100010000000300),
    (98314, 17520),
    (98315, 0x61),
];

/// Bucket 222 with three keys is linked to the first overflow bucket, which has the fourth; the overflow counter and the mark.
const MERGED: [(u32, u64); 12] = [
    (34545, 5),
    (34546, 13561),
    (34547, 14939),
    (34548, 0x01000000),
    (34549, 0x01000003),
    (34550, 0x01000006),
    (34551, 4096),
    (65537, 17520),
    (65540, 0x0000000001000009),
    (65543, 0),
    (3, 1),
    (129, 12),
];

/// Behind them the Delete of a key of the home bucket, and the Put of `a` on another key of that bucket.
const MORE: [(u32, u64); 6] = [
    (65, 0x0000000600000011),
    (98316, 0x0200000000000200),
    (98317, 13561),
    (98318, 0x0100010000000300),
    (98319, 18337),
    (98320, 0x61),
];

/// A log of each kind of record on key 5, with a pad up to the end of the first segment and a Put in the second.
const KINDS: [(u32, u64); 23] = [
    (65, 0x0000000700000403),
    (1280, 1),
    (1281, 2),
    // 0: a Put of `a`
    (98304, 0x0100010000000300),
    (98305, 5),
    (98306, 0x61),
    // 3: a Loose of `a`
    (98307, 0x0500010000000300),
    (98308, 5),
    (98309, 0x61),
    // 6: a LooseDelete
    (98310, 0x0600000000000200),
    (98311, 5),
    // 8: a Share of cell 0
    (98312, 0x0300000000000300),
    (98313, 5),
    (98314, 0x0000000101000000),
    // 11: an Unshare that names the Put
    (98315, 0x0400000000000300),
    (98316, 5),
    (98317, 0x0000000001000000),
    // 14: a Delete
    (98318, 0x0200000000000200),
    (98319, 5),
    // 16: a Pad of 1,008 words
    (98320, 0x070000000003f000),
    // 1024: a Put of `a`
    (99328, 0x0100010000000300),
    (99329, 5),
    (99330, 0x61),
];

/// How many actions a turn has, and then the mark, and key and place of the key's place in the index.
const TURNS: [(u32, u64, u64, u64); 8] = [
    (12, 3, 5, 0x01000000),
    (5, 6, 5, 0x01000000),
    (5, 8, 5, 0x01000000),
    (8, 11, 5, 0x01000008),
    (8, 14, 5, 0x0100000b),
    (8, 16, 0, 0x0100000b),
    (5, 1024, 0, 0x0100000b),
    (12, 1027, 5, 0x01000400),
];

fn store(rt: &impl Abort, pool: &mut Sound, words: &[(u32, u64)]) -> Result<(), Failed> {
    for (at, word) in words {
        assert!(rt; *at < pool.size());
        pool.store(*at, *word)?;
    }
    Ok(())
}

fn expect(rt: &impl Abort, pool: &Sound, words: &[(u32, u64)]) {
    for (at, word) in words {
        assert!(rt; *at < pool.size());
        assert_eq!(rt; pool.word(*at), *word, "word {at}");
    }
}

/// Carries out so many actions of a merger, and answers what the last one came to.
fn run(
    rt: &impl Abort,
    pool: &mut Sound,
    merger: &mut Merger,
    count: u32,
) -> Result<MergeTurn, Failed> {
    let mut turn = MergeTurn::More;
    for _ in 0..count {
        let action = merger.next();
        assert!(rt; action.at() < pool.size());
        let word = exec(pool, &action)?;
        assert!(rt; merger.accepts(word));
        turn = merger.take(word);
    }
    Ok(turn)
}

/// Carries out actions until all is merged or the index is full.
fn drain(rt: &impl Abort, pool: &mut Sound, merger: &mut Merger) -> Result<MergeTurn, Failed> {
    for _ in 0..100 {
        let turn = run(rt, pool, merger, 1)?;
        if turn != MergeTurn::More {
            return Ok(turn);
        }
    }
    Ok(MergeTurn::More)
}

#[test]
fn a_chain_grows_and_a_freed_place_is_taken(rt: HostRuntime) -> Result<(), Fail> {
    let mut pool = Sound::new(rt.alloc(), 1)?;
    let mut merger = Merger::new(1);
    let idle = MergeTurn::Idle { gate: 0, mark: 0 };
    assert_eq!(rt; drain(&rt, &mut pool, &mut merger)?, idle);
    store(&rt, &mut pool, &PUTS)?;
    let idle = MergeTurn::Idle {
        gate: 0x000000040000000c,
        mark: 12,
    };
    assert_eq!(rt; drain(&rt, &mut pool, &mut merger)?, idle);
    expect(&rt, &pool, &MERGED);
    store(&rt, &mut pool, &MORE)?;
    assert_eq!(rt; run(&rt, &mut pool, &mut merger, 9)?, MergeTurn::More);
    expect(&rt, &pool, &[(34545, 5), (34546, 0), (129, 14)]);
    let idle = MergeTurn::Idle {
        gate: 0x0000000600000011,
        mark: 17,
    };
    assert_eq!(rt; drain(&rt, &mut pool, &mut merger)?, idle);
    expect(&rt, &pool, &[(34546, 18337), (34549, 0x0100000e), (3, 1)]);
    Ok(())
}

#[test]
fn each_kind_is_merged(rt: HostRuntime) -> Result<(), Fail> {
    let mut pool = Sound::new(rt.alloc(), 2)?;
    store(&rt, &mut pool, &KINDS)?;
    let mut merger = Merger::new(1);
    for (count, mark, key, place) in TURNS {
        assert_eq!(rt; run(&rt, &mut pool, &mut merger, count)?, MergeTurn::More);
        expect(&rt, &pool, &[(129, mark), (34545, key), (34548, place)]);
    }
    Ok(())
}

#[test]
fn the_place_stands_before_the_key(rt: HostRuntime) -> Result<(), Fail> {
    let mut pool = Sound::new(rt.alloc(), 1)?;
    store(&rt, &mut pool, &PUTS)?;
    let mut merger = Merger::new(1);
    assert_eq!(rt; run(&rt, &mut pool, &mut merger, 10)?, MergeTurn::More);
    expect(&rt, &pool, &[(34545, 0), (34548, 0x01000000), (129, 0)]);
    Ok(())
}

#[test]
fn a_full_index_leaves_the_mark(rt: HostRuntime) -> Result<(), Fail> {
    let mut pool = Sound::new(rt.alloc(), 1)?;
    store(&rt, &mut pool, &PUTS)?;
    store(&rt, &mut pool, &[(3, 4096)])?;
    let mut merger = Merger::new(1);
    let full = MergeTurn::IndexFull { counter: 4096 };
    assert_eq!(rt; drain(&rt, &mut pool, &mut merger)?, full);
    assert_eq!(rt; drain(&rt, &mut pool, &mut merger)?, full);
    expect(&rt, &pool, &[(129, 9), (34551, 0), (3, 4096)]);
    Ok(())
}
