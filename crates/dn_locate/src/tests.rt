ghost use Rattle.std.specs.Prelude.{◌≡◌, true};
ghost use Rattle.dn_locate.specs.Fetch.{is_under_way};

use crate::fetches::{Fetch, FetchTurn, Wish};
use dn_act::{Action, Memory, Sound};
use dn_word::Ref;
use std::process::Abort;
use std::test::Fail;

/// A log of lane 1 with each kind of record on key 5.
const LOG: [u64; 20] = [
    // 0: a Put of `a`
    0x0100010000000300,
    5,
    0x61,
    // 3: a Delete
    0x0200000000000200,
    5,
    // 5: a Share of cell 0, whose opening word names the Put
    0x0300000000000300,
    5,
    0x0000000101000000,
    // 8: an Unshare that names the Put
    0x0400000000000300,
    5,
    0x0000000001000000,
    // 11: an Unshare that names nothing
    0x0400000000000300,
    5,
    0,
    // 14: a Loose of no bytes
    0x0500000000000200,
    5,
    // 16: a LooseDelete
    0x0600000000000200,
    5,
    // 18: the header of a Put with a bit set that no header has
    0x0100010000000301,
    5,
];

/// Key, offset, wish, and then how the fetch ends, at which record, and with how many of its words.
const FETCHES: [(u64, u32, Wish, FetchTurn, u32, u32); 14] = [
    (5, 0, Wish::Value, FetchTurn::Done, 0, 3),
    (5, 0, Wish::Kind, FetchTurn::Done, 0, 1),
    (5, 0, Wish::Place, FetchTurn::Done, 0, 1),
    (6, 0, Wish::Value, FetchTurn::Absent, 0, 2),
    (5, 3, Wish::Value, FetchTurn::Done, 3, 1),
    (5, 5, Wish::Value, FetchTurn::Done, 5, 3),
    (5, 5, Wish::Kind, FetchTurn::Done, 5, 3),
    (5, 8, Wish::Value, FetchTurn::Done, 0, 3),
    (5, 8, Wish::Kind, FetchTurn::Done, 8, 1),
    (5, 8, Wish::Place, FetchTurn::Done, 8, 3),
    (5, 11, Wish::Value, FetchTurn::Done, 11, 3),
    (5, 14, Wish::Value, FetchTurn::Done, 14, 2),
    (5, 16, Wish::Value, FetchTurn::Done, 16, 1),
    (5, 18, Wish::Value, FetchTurn::Absent, 18, 1),
];

/// Loads until the fetch ends.
fn finish(rt: &impl Abort, pool: &Sound, fetch: &mut Fetch) -> FetchTurn
    requires { is_under_way fetch.old ≡ true }
{
    for _ in 0..200 {
        let Action::Load { at } = fetch.next() else {
            panic!(rt; "a fetch only loads");
        };
        assert!(rt; at < pool.size());
        let word = pool.word(at);
        match fetch.take(word) {
            FetchTurn::More => {}
            turn => return turn,
        }
    }
    FetchTurn::More
}

#[test]
fn each_kind_is_fetched_as_it_is_wished(rt: HostRuntime) -> Result<(), Fail> {
    let mut pool = Sound::new(rt.alloc(), 1)?;
    assert!(rt; 1280 < pool.size());
    pool.store(1280, 1)?;
    for (offset, word) in LOG.iter().enumerate() {
        let at = 98304 + offset as u32;
        assert!(rt; at < pool.size());
        pool.store(at, *word)?;
    }
    let mut fetch = Fetch::new(rt.alloc())?;
    for (key, offset, wish, turn, record, words) in FETCHES {
        assert!(rt; offset < 20);
        fetch.start(key, Ref { lane: 1, offset }, wish);
        assert_eq!(rt; finish(&rt, &pool, &mut fetch), turn, "{offset} {wish:?}");
        assert_eq!(rt;
            fetch.place(),
            Ref {
                lane: 1,
                offset: record
            },
            "{offset} {wish:?}"
        );
        assert!(rt; record < 20 && words < 20);
        assert!(rt; record + words <= 20);
        let expected = &LOG[record as usize..(record + words) as usize];
        assert_eq!(rt; fetch.words(), expected, "{offset} {wish:?}");
    }
    Ok(())
}

/// The directory word of lane 1, the number of the pool's segments, the offset of a Put's header, and how its fetch ends.
const ASTRAY: [(u64, u32, u32, FetchTurn); 6] = [
    (1, 1, 0, FetchTurn::Done),
    (0, 1, 0, FetchTurn::Absent),
    (2, 1, 0, FetchTurn::Absent),
    (8193, 8192, 0, FetchTurn::Absent),
    // three words from offset 1021 end in the segment, and from 1022 they cross its end
    (1, 1, 1021, FetchTurn::Done),
    (1, 1, 1022, FetchTurn::Absent),
];

#[test]
fn a_fetch_stays_in_the_segments_of_its_pool(rt: HostRuntime) -> Result<(), Fail> {
    let mut pool = Sound::new(rt.alloc(), 1)?;
    for at in [98304u32, 99325, 99326] {
        assert!(rt; at < pool.size());
        pool.store(at, 0x0100010000000300)?;
    }
    let mut fetch = Fetch::new(rt.alloc())?;
    for (directory, segments, offset, turn) in ASTRAY {
        assert!(rt; 1280 < pool.size());
        pool.store(1280, directory)?;
        assert!(rt; segments <= 8192 && offset < 1024);
        fetch.of_pool(segments);
        fetch.start(5, Ref { lane: 1, offset }, Wish::Kind);
        assert_eq!(rt;
            finish(&rt, &pool, &mut fetch),
            turn,
            "{directory} {offset}"
        );
    }
    Ok(())
}
