use crate::{MapFault, pool_map};
use dn_word::regions::{bucket_at, cell_at, deed_at, directory_at, gate_at, mark_at};
use std::alloc::Global;
use std::test::Fail;

/// Word 0 of lane 1's directory.
const DIRECTORY: usize = 1280;

const SEGMENT: usize = 98304;

const SECOND_SEGMENT: usize = 99328;

const PUT_A: [u64; 3] = [0x0100010000000300, 5, 0x61];

fn set(words: &mut Vec<u64>, at: usize, word: u64) {
    if let Some(place) = words.get_mut(at) {
        *place = word;
    }
}

/// A pool of one segment, which lane 1 has, with this gate and these words at the segment's front. Lane 1 owns the slot of key 5.
fn pool(alloc: Global, gate: u64, log: &[u64]) -> Result<Vec<u64>, Fail> {
    let mut words = vec![in alloc; 0u64; 99328]?;
    set(&mut words, DIRECTORY, 1);
    set(&mut words, gate_at(1) as usize, gate);
    set(&mut words, deed_at(3) as usize, 0x4000008080000000);
    for (at, word) in log.iter().enumerate() {
        set(&mut words, SEGMENT.saturating_add(at), *word);
    }
    Ok(words)
}

/// What the words hold at key 5, or `unreadable`.
fn held(alloc: Global, words: &[u64]) -> Result<Vec<u8>, Fail> {
    match pool_map(alloc, words) {
        Ok(map) => match map.get(5) {
            None => Ok(Vec::from_slice(alloc, b"absent")?),
            Some(value) => Ok(Vec::from_slice(alloc, value.as_bytes())?),
        },
        Err(MapFault::Unreadable) => Ok(Vec::from_slice(alloc, b"unreadable")?),
        Err(fault) => Err(fault.into()),
    }
}

#[test]
fn logs_by_hand(rt: HostRuntime) -> Result<(), Fail> {
    let none: &[u64] = &[];
    for (gate, log, want) in [
        (0, none, b"absent".as_slice()),
        (0x0000000100000003, PUT_A.as_slice(), b"a".as_slice()),
        (0x8000000100000003, PUT_A.as_slice(), b"a".as_slice()),
        (0x0000000000000000, PUT_A.as_slice(), b"absent".as_slice()),
        (
            0x0000000200000005,
            [0x0100010000000300, 5, 0x61, 0x0200000000000200, 5].as_slice(),
            b"absent".as_slice(),
        ),
        (
            0x0000000200000006,
            [0x0100010000000300, 5, 0x61, 0x0100020000000300, 5, 0x6362].as_slice(),
            b"bc".as_slice(),
        ),
        (
            0x0000000200000006,
            [
                0x0100010000000300,
                5,
                0x61,
                0x0300000000000300,
                5,
                0x0000000201000000,
            ]
            .as_slice(),
            b"a".as_slice(),
        ),
        (
            0x0000000200000006,
            [
                0x0500010000000300,
                5,
                0x62,
                0x0400000000000300,
                5,
                0x0000000001000000,
            ]
            .as_slice(),
            b"b".as_slice(),
        ),
        (
            0x0000000200000006,
            [
                0x0500010000000300,
                6,
                0x62,
                0x0400000000000300,
                5,
                0x0000000001000000,
            ]
            .as_slice(),
            b"unreadable".as_slice(),
        ),
        (
            0x0000000100000400,
            [0x0100010000000300, 5, 0x61, 0x070000000003fd00, 9, 9].as_slice(),
            b"a".as_slice(),
        ),
        (
            0x00000001000003ff,
            [0x0100010000000300, 5, 0x61, 0x070000000003fc00].as_slice(),
            b"unreadable".as_slice(),
        ),
        (
            0x0000000100000004,
            PUT_A.as_slice(),
            b"unreadable".as_slice(),
        ),
        (
            0x0000000100000002,
            PUT_A.as_slice(),
            b"unreadable".as_slice(),
        ),
    ] {
        let words = pool(rt.alloc(), gate, log)?;
        let found = held(rt.alloc(), words.as_slice())?;
        assert_eq!(rt; found.as_slice(), want, "at {gate}");
    }
    Ok(())
}

#[test]
fn shared_keys_by_hand(rt: HostRuntime) -> Result<(), Fail> {
    let log = [
        0x0100010000000300,
        5,
        0x61,
        0x0300000000000300,
        5,
        0x0000000201000000,
        0x0500020000000300,
        5,
        0x7978,
        0x0600000000000200,
        5,
    ];
    for (cell, want) in [
        (0, b"a".as_slice()),
        (0x0000000301000006, b"xy".as_slice()),
        (0x8000000301000006, b"xy".as_slice()),
        (0x0000000401000009, b"absent".as_slice()),
        (0x0000000400000000, b"absent".as_slice()),
        (0x0000000401000003, b"unreadable".as_slice()),
    ] {
        let mut words = pool(rt.alloc(), 0x000000020000000b, log.as_slice())?;
        set(&mut words, cell_at(0) as usize, cell);
        let found = held(rt.alloc(), words.as_slice())?;
        assert_eq!(rt; found.as_slice(), want, "at {cell}");
    }
    Ok(())
}

#[test]
fn the_index_by_hand(rt: HostRuntime) -> Result<(), Fail> {
    for (key, next, place, last, want) in [
        (5, 0, 0x01000000, 0, b"a".as_slice()),
        (0, 4096, 0x01000000, 0, b"a".as_slice()),
        (0, 4096, 0x01000000, 4096, b"unreadable".as_slice()),
        (0, 4096, 0x01000001, 0, b"unreadable".as_slice()),
        (0, 0, 0x01000000, 0, b"absent".as_slice()),
    ] {
        let mut words = pool(rt.alloc(), 0x0000000100000003, PUT_A.as_slice())?;
        set(&mut words, mark_at(1) as usize, 3);
        set(&mut words, bucket_at(222) as usize + 1, key);
        set(&mut words, bucket_at(222) as usize + 4, place);
        set(&mut words, bucket_at(222) as usize + 7, next);
        set(&mut words, bucket_at(4096) as usize + 3, 5);
        set(&mut words, bucket_at(4096) as usize + 6, place);
        set(&mut words, bucket_at(4096) as usize + 7, last);
        let found = held(rt.alloc(), words.as_slice())?;
        assert_eq!(rt; found.as_slice(), want, "at {next}");
    }
    Ok(())
}

/// The deed of key 5's slot, the gate and mark of lane 1, the place that the index has for key 5 (0 for none), and cell 0.
#[derive(Clone, Copy)]
struct Words {
    deed: u64,
    gate: u64,
    mark: u64,
    place: u64,
    cell: u64,
}

/// A pool of two segments with these words and the logs of lanes 1 and 2, each in a segment of its own.
fn pool_of_two(alloc: Global, given: Words, log: &[u64], other: &[u64]) -> Result<Vec<u64>, Fail> {
    let mut words = pool(alloc, given.gate, log)?;
    words.resize(100352, 0)?;
    set(&mut words, deed_at(3) as usize, given.deed);
    set(&mut words, mark_at(1) as usize, given.mark);
    set(&mut words, directory_at(2, 0) as usize, 2);
    set(&mut words, gate_at(2) as usize, other.len() as u64);
    for (at, word) in other.iter().enumerate() {
        set(&mut words, SECOND_SEGMENT.saturating_add(at), *word);
    }
    if given.place != 0 {
        set(&mut words, bucket_at(222) as usize + 1, 5);
        set(&mut words, bucket_at(222) as usize + 4, given.place);
    }
    set(&mut words, cell_at(0) as usize, given.cell);
    Ok(words)
}

#[test]
fn owners_marks_and_cells_by_hand(rt: HostRuntime) -> Result<(), Fail> {
    let none: &[u64] = &[];
    let put = PUT_A.as_slice();
    let put_b: &[u64] = &[0x0100010000000300, 5, 0x62];
    let loose: &[u64] = &[0x0500010000000300, 5, 0x62];
    let deleted: &[u64] = &[0x0100010000000300, 5, 0x61, 0x0200000000000200, 5];
    let twice: &[u64] = &[0x0100010000000300, 5, 0x61, 0x0100010000000300, 5, 0x62];
    let shared: &[u64] = &[
        0x0100010000000300,
        5,
        0x61,
        0x0300000000000300,
        5,
        0x0000000201000000,
    ];
    let unshared: &[u64] = &[
        0x0100010000000300,
        5,
        0x61,
        0x0400000000000300,
        5,
        0x0000000001000000,
    ];
    let emptied: &[u64] = &[0x0100010000000300, 5, 0x61, 0x0400000000000300, 5, 0];
    let first = Words {
        deed: 0x4000008080000000,
        gate: 3,
        mark: 0,
        place: 0,
        cell: 0,
    };
    let long = Words { gate: 6, ..first };
    let indexed = Words {
        mark: 3,
        place: 0x01000000,
        ..first
    };
    let later = Words {
        mark: 6,
        place: 0x01000003,
        ..long
    };
    let of_two = Words {
        deed: 0x4000010100000000,
        ..first
    };
    for (name, given, log, other, want) in [
        (
            "an unmerged delete over an indexed put",
            Words { gate: 5, ..indexed },
            deleted,
            none,
            "absent",
        ),
        (
            "a mark between two records",
            Words { gate: 6, ..indexed },
            twice,
            none,
            "b",
        ),
        (
            "a mark behind both",
            Words {
                place: 0x01000000,
                ..later
            },
            twice,
            none,
            "a",
        ),
        (
            "a record of a lane that isn't the owner",
            of_two,
            put,
            none,
            "absent",
        ),
        ("the owner's own record", of_two, put, put_b, "b"),
        (
            "a deed that is Leaving",
            Words {
                deed: 0x8000008080000000,
                ..first
            },
            put,
            none,
            "a",
        ),
        (
            "a deed that is Released",
            Words {
                deed: 0xc000008080000000,
                ..first
            },
            put,
            none,
            "a",
        ),
        (
            "a deed of nobody",
            Words {
                deed: 0x0000008000000000,
                ..first
            },
            put,
            none,
            "absent",
        ),
        (
            "one of nobody over an index",
            Words {
                deed: 0x0000008000000000,
                ..indexed
            },
            put,
            none,
            "a",
        ),
        (
            "a deed of lane 64",
            Words {
                deed: 0x400000a000000000,
                ..first
            },
            put,
            none,
            "absent",
        ),
        (
            "one of lane 64 over an index",
            Words {
                deed: 0x400000a000000000,
                ..indexed
            },
            put,
            none,
            "a",
        ),
        (
            "a cell that leads to another lane",
            Words {
                cell: 0x0000000302000000,
                ..long
            },
            shared,
            loose,
            "b",
        ),
        ("an index that leads to a share", later, shared, none, "a"),
        (
            "an index that leads to an unshare",
            later,
            unshared,
            none,
            "a",
        ),
        ("an unshare of nothing", long, emptied, none, "absent"),
    ] {
        let words = pool_of_two(rt.alloc(), given, log, other)?;
        let found = held(rt.alloc(), words.as_slice())?;
        assert_eq!(rt; found.as_slice(), want.as_bytes(), "at {name}");
    }
    Ok(())
}
