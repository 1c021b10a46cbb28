ghost use Rattle.std.specs.Prelude.{◌≡◌, ◌≢◌};
ghost use Rattle.dn_find.specs.Fit.{IsNear};

use crate::finds::{Find, Found};
use dn_act::{Failed, Memory, Sound};
use dn_locate::{Fetch, Wish};
use dn_plan::Way;
use dn_word::Ref;
use std::process::Abort;
use std::test::Fail;

/// The log of lane 1 in the first of two segments, and an index. Bucket 222, the home bucket of the keys 5, 13561 and
/// 14939, has key 5, and leads to the first overflow bucket, which has key 13561.
const WORDS: [(u32, u64); 15] = [
    (1280, 1),
    // 0: a Put of `a` on key 5
    (98304, 0x0100010000000300),
    (98305, 5),
    (98306, 0x61),
    // 3: a Put of `b` on key 13561
    (98307, 0x0100010000000300),
    (98308, 13561),
    (98309, 0x62),
    // 6: a Put of `c` on key 5
    (98310, 0x0100010000000300),
    (98311, 5),
    (98312, 0x63),
    (34545, 5),
    (34548, 0x01000000),
    (34551, 4096),
    (65537, 13561),
    (65540, 0x01000003),
];

/// Words that no pool with sealed logs has: a next word that names no bucket, a place word that names no place, and
/// directory words that name no segment of the pool. With each the key whose location meets it.
const ASTRAY: [(u32, u64, u64); 5] = [
    (34551, 9000, 13561),
    (65540, 0, 13561),
    (1280, 0, 5),
    (1280, 3, 5),
    (1280, 0xffffffffffffffff, 5),
];

fn at(offset: u32) -> Ref
    ensures { result ≡ record { lane = 1; offset = offset } }
{
    Ref { lane: 1, offset }
}

fn store(rt: &impl Abort, pool: &mut Sound, at: u32, word: u64) -> Result<(), Failed> {
    assert!(rt; at < pool.size());
    pool.store(at, word)?;
    Ok(())
}

/// Carries out the loads of a get's location. Answers which way the key was located, and whether there is a record of it.
fn locate(
    rt: &impl Abort,
    pool: &Sound,
    fetch: &mut Fetch,
    key: u64,
    pending: Option<Ref>,
) -> (Way, bool)
    requires key { key ≢ 0 }
    requires pending { IsNear pending }
{
    let mut find = Find::start(fetch, key, Wish::Value, pending);
    for _ in 0..590000 {
        let at = find.next(fetch).at();
        assert!(rt; at < pool.size());
        match find.take(fetch, key, Wish::Value, pool.word(at)) {
            Found::More { find: next } => find = next,
            Found::Here { way, record } => return (way, record),
        }
    }
    panic!(rt; "the location doesn't end")
}

#[test]
fn a_pending_record_goes_before_the_index(rt: HostRuntime) -> Result<(), Fail> {
    let mut pool = Sound::new(rt.alloc(), 2)?;
    let mut fetch = Fetch::new(rt.alloc())?;
    fetch.of_pool(2);
    assert_eq!(rt;
        locate(&rt, &pool, &mut fetch, 5, None),
        (Way::Index, false)
    );
    for (at, word) in WORDS {
        store(&rt, &mut pool, at, word)?;
    }
    let pending = Some(at(6));
    assert_eq!(rt;
        locate(&rt, &pool, &mut fetch, 5, pending),
        (Way::Pending, true)
    );
    assert_eq!(rt; fetch.place(), at(6));
    assert_eq!(rt; fetch.words(), [0x0100010000000300, 5, 0x63].as_slice());
    assert_eq!(rt; locate(&rt, &pool, &mut fetch, 5, None), (Way::Index, true));
    assert_eq!(rt; fetch.place(), at(0));
    assert_eq!(rt; fetch.words(), [0x0100010000000300, 5, 0x61].as_slice());
    assert_eq!(rt;
        locate(&rt, &pool, &mut fetch, 13561, None),
        (Way::Index, true)
    );
    assert_eq!(rt; fetch.place(), at(3));
    assert_eq!(rt; fetch.words(), [0x0100010000000300, 13561, 0x62].as_slice());
    assert_eq!(rt;
        locate(&rt, &pool, &mut fetch, 14939, None),
        (Way::Index, false)
    );
    Ok(())
}

#[test]
fn words_that_name_nothing_locate_no_record(rt: HostRuntime) -> Result<(), Fail> {
    let mut fetch = Fetch::new(rt.alloc())?;
    fetch.of_pool(2);
    for (to, word, key) in ASTRAY {
        assert!(rt; key != 0);
        let mut pool = Sound::new(rt.alloc(), 2)?;
        for (at, word) in WORDS {
            store(&rt, &mut pool, at, word)?;
        }
        store(&rt, &mut pool, to, word)?;
        assert_eq!(rt;
            locate(&rt, &pool, &mut fetch, key, None),
            (Way::Index, false),
            "word {to}"
        );
    }
    Ok(())
}
