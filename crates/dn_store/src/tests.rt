use crate::{Entry, PlainStore};
use dn_model::{Held, MapFault, Placed, pool_map};
use dn_record::{read, words_of};
use dn_word::regions::{bucket_at, cell_at, deed_at, directory_at, gate_at, mark_at, segment_at};
use dn_word::{Deed, List};
use std::alloc::Global;
use std::test::Fail;

/// The words of a pool of two segments.
const POOL: usize = 100352;

/// The slot of the keys 5, 100 and 152 and of all keys with the home bucket 222.
const SLOT: u8 = 3;

const HOME: u32 = 222;

/// A place of a bucket, with its key and its place word.
#[derive(Clone, Copy)]
struct Filled {
    bucket: u32,
    place: u32,
    entry: Entry,
}

/// A pool: the logs and marks of lanes 1 and 2, each with one segment, the deed of the slot, the filled places of
/// chains and of a bucket that isn't linked, the bucket behind the home bucket (0 for none), and cell 0.
#[derive(Clone, Copy)]
struct Pool<'a> {
    logs: [&'a [u64]; 2],
    marks: [u64; 2],
    deed: u64,
    linked: &'a [Filled],
    loose: &'a [Filled],
    next: u64,
    cell: u64,
}

fn place_with(bucket: u32, place: u32, key: u64, at: u64) -> Filled {
    Filled {
        bucket,
        place,
        entry: Entry { key, place: at },
    }
}

fn set(words: &mut Vec<u64>, at: u32, word: u64) {
    if let Some(place) = words.get_mut(at as usize) {
        *place = word;
    }
}

fn fill(words: &mut Vec<u64>, places: &[Filled]) {
    for filled in places {
        let at = bucket_at(filled.bucket % 8192).saturating_add(filled.place);
        set(words, at.saturating_add(1), filled.entry.key);
        set(words, at.saturating_add(4), filled.entry.place);
    }
}

fn zeros(alloc: Global) -> Result<Vec<u64>, Fail> {
    Ok(vec![in alloc; 0u64; POOL]?)
}

fn put(words: &mut Vec<u64>, front: u32, log: &[u64]) {
    for (at, word) in log.iter().enumerate() {
        if let Some(place) = words.get_mut((front as usize).saturating_add(at)) {
            *place = *word;
        }
    }
}

/// The words of the pool.
fn words_of_pool(alloc: Global, pool: &Pool<'_>) -> Result<Vec<u64>, Fail> {
    let mut words = zeros(alloc)?;
    set(&mut words, gate_at(1), pool.logs[0].len() as u64);
    set(&mut words, gate_at(2), pool.logs[1].len() as u64);
    set(&mut words, directory_at(1, 0), 1);
    set(&mut words, directory_at(2, 0), 2);
    put(&mut words, segment_at(0), pool.logs[0]);
    put(&mut words, segment_at(1), pool.logs[1]);
    set(&mut words, mark_at(1), pool.marks[0]);
    set(&mut words, mark_at(2), pool.marks[1]);
    set(&mut words, deed_at(SLOT), pool.deed);
    fill(&mut words, pool.linked);
    fill(&mut words, pool.loose);
    set(&mut words, bucket_at(HOME).saturating_add(7), pool.next);
    set(&mut words, cell_at(0), pool.cell);
    Ok(words)
}

/// The records of these words, one behind the other.
fn log_of(alloc: Global, words: &[u64]) -> Result<List<Placed>, Fail> {
    let mut placed = Vec::new(alloc);
    let mut offset = 0usize;
    for _ in 0..words.len() {
        if let Some(rest) = words.get(offset..)
            && let Some(entry) = read(alloc, rest)?
        {
            let length = words_of(&entry) as usize;
            placed.push(Placed {
                offset: u32::try_from(offset).unwrap_or(u32::MAX),
                entry,
            })?;
            offset = offset.saturating_add(length);
        }
    }
    Ok(List::of(placed))
}

/// The store that they represent.
fn store_of_pool(alloc: Global, pool: &Pool<'_>) -> Result<PlainStore, Fail> {
    let mut logs = Vec::new(alloc);
    logs.push(List::of(Vec::new(alloc)))?;
    logs.push(log_of(alloc, pool.logs[0])?)?;
    logs.push(log_of(alloc, pool.logs[1])?)?;
    let mut deeds = vec![in alloc; Deed::read(0); 64]?;
    if let Some(deed) = deeds.get_mut(SLOT as usize) {
        *deed = Deed::read(pool.deed);
    }
    let mut index = Vec::new(alloc);
    for filled in pool.linked {
        index.push(filled.entry)?;
    }
    Ok(PlainStore {
        logs: List::of(logs),
        marks: List::of(Vec::from_slice(alloc, &[0, pool.marks[0], pool.marks[1]])?),
        deeds: List::of(deeds),
        index: List::of(index),
        cells: List::of(Vec::from_slice(alloc, &[pool.cell])?),
    })
}

const A: [u64; 3] = [0x0100010000000300, 5, 0x61];

#[test]
fn stores_and_their_words(rt: HostRuntime) -> Result<(), Fail> {
    let none: &[u64] = &[];
    let twice = [0x0100010000000300, 5, 0x61, 0x0100010000000300, 5, 0x63];
    let between = [0x0100010000000300, 5, 0x62, 0x0100010000000300, 100, 0x64];
    let old = [
        0x0100010000000300,
        5,
        0x61,
        0x0100010000000300,
        13561,
        0x62,
        0x0100010000000300,
        14939,
        0x63,
    ];
    let new = [
        0x0100010000000300,
        17520,
        0x64,
        0x0100010000000300,
        18337,
        0x65,
        0x0200000000000200,
        5,
    ];
    let half = [
        0x0100010000000300,
        5,
        0x61,
        0x0100010000000300,
        5,
        0x62,
        0x0100010000000300,
        100,
        0x63,
    ];
    let shared = [
        0x0100010000000300,
        5,
        0x61,
        0x0300000000000300,
        5,
        0x0000000201000000,
    ];
    let loose = [0x0500010000000300, 5, 0x7a];
    let by_put = [place_with(HOME, 0, 5, 0x01000000)];
    let by_share = [place_with(HOME, 0, 5, 0x01000003)];
    let by_none = [place_with(HOME, 0, 5, 0x01000001)];
    let no_places: &[Filled] = &[];
    let first = Pool {
        logs: [A.as_slice(), none],
        marks: [3, 0],
        deed: 0x4000008080000000,
        linked: by_put.as_slice(),
        loose: no_places,
        next: 0,
        cell: 0,
    };
    let back = [
        place_with(HOME, 0, 5, 0x02000000),
        place_with(195, 0, 100, 0x02000003),
    ];
    let chain = [
        place_with(HOME, 0, 5, 0x01000000),
        place_with(HOME, 1, 13561, 0x01000003),
        place_with(HOME, 2, 14939, 0x01000006),
        place_with(4096, 0, 17520, 0x02000000),
    ];
    let claimed = [place_with(4097, 0, 18337, 0x02000003)];
    let moved = Pool {
        logs: [A.as_slice(), between.as_slice()],
        deed: 0x4000010100000000,
        ..first
    };
    let moved_twice = Pool {
        logs: [twice.as_slice(), between.as_slice()],
        marks: [3, 6],
        deed: 0x4000018080000000,
        linked: back.as_slice(),
        ..first
    };
    let came_back = Pool {
        logs: [A.as_slice(), between.as_slice()],
        marks: [3, 6],
        deed: 0x4000018080000000,
        linked: back.as_slice(),
        ..first
    };
    let two_in_chain = Pool {
        logs: [old.as_slice(), new.as_slice()],
        marks: [9, 3],
        deed: 0x4000010100000000,
        linked: chain.as_slice(),
        loose: claimed.as_slice(),
        next: 4096,
        ..first
    };
    let released = Pool {
        logs: [half.as_slice(), none],
        deed: 0xc000008080000000,
        ..first
    };
    let too_early = Pool {
        logs: [half.as_slice(), none],
        deed: 0x4000010100000000,
        ..first
    };
    let shared_key = Pool {
        logs: [shared.as_slice(), loose.as_slice()],
        marks: [6, 3],
        linked: by_share.as_slice(),
        cell: 0x0000000302000000,
        ..first
    };
    let astray = Pool {
        linked: by_none.as_slice(),
        ..first
    };
    for (key, pool, want) in [
        (5, moved, b"b".as_slice()),
        (100, moved, b"d".as_slice()),
        (152, moved, b"absent".as_slice()),
        (5, moved_twice, b"c".as_slice()),
        (100, moved_twice, b"d".as_slice()),
        (5, came_back, b"b".as_slice()),
        (5, two_in_chain, b"absent".as_slice()),
        (13561, two_in_chain, b"b".as_slice()),
        (14939, two_in_chain, b"c".as_slice()),
        (17520, two_in_chain, b"d".as_slice()),
        (18337, two_in_chain, b"e".as_slice()),
        (5, released, b"b".as_slice()),
        (100, released, b"c".as_slice()),
        (5, too_early, b"a".as_slice()),
        (100, too_early, b"absent".as_slice()),
        (5, shared_key, b"z".as_slice()),
        (5, astray, b"astray".as_slice()),
    ] {
        let words = words_of_pool(rt.alloc(), &pool)?;
        let store = store_of_pool(rt.alloc(), &pool)?;
        let by_words = match pool_map(rt.alloc(), words.as_slice()) {
            Ok(map) => match map.get(key) {
                None => Vec::from_slice(rt.alloc(), b"absent")?,
                Some(value) => Vec::from_slice(rt.alloc(), value.as_bytes())?,
            },
            Err(MapFault::Unreadable) => Vec::from_slice(rt.alloc(), b"astray")?,
            Err(fault) => return Err(fault.into()),
        };
        let by_store = match store.held(key) {
            Held::Astray => b"astray".as_slice(),
            Held::Nothing => b"absent".as_slice(),
            Held::Is(value) => value.as_bytes(),
        };
        assert_eq!(rt; by_words.as_slice(), want, "words: {key}");
        assert_eq!(rt; by_store, want, "store: {key}");
    }
    Ok(())
}
