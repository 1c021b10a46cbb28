use crate::regions::{cell_at, deed_at, directory_at, gate_at, segment_at};
use crate::{
    Cell, Deed, DeedState, Format, Gate, Header, List, MAX_STAMP, Need, Position, Ref, Value,
    ValueFault, ValueRoom, bucket_of, fnv1a, hash, slot_of,
};
use std::test::Fail;

/// Hashes by another implementation of FNV-1a with 64 bits.
#[test]
fn hashes_of_keys(rt: HostRuntime) {
    for (key, want, slot, bucket) in [
        (1, 0x89cd31291d2aefa4, 34, 2204),
        (2, 0xe6bd86443df8ce07, 57, 3691),
        (3, 0xc7c2bf3b330983e6, 49, 3196),
        (4, 0x2cdcdc0dfc5d1141, 11, 717),
        (5, 0x0de21504f16dc720, 3, 222),
        (6, 0x6ad26a20123ba583, 26, 1709),
        (7, 0x4bd7a317074c5b62, 18, 1213),
        (10, 0xde93be8c95731f0f, 55, 3561),
    ] {
        assert_eq!(rt; hash(key), want, "at {key}");
        assert_eq!(rt; slot_of(key), slot, "at {key}");
        assert_eq!(rt; bucket_of(key), bucket, "at {key}");
    }
    assert_eq!(rt; fnv1a(b""), 0xcbf29ce484222325);
    assert_eq!(rt; fnv1a(b"a"), 0xaf63dc4c8601ec8c);
    assert_eq!(rt; fnv1a(b"foobar"), 0x85944171f73967e8);
}

#[test]
fn gates(rt: HostRuntime) {
    for (word, fenced, stamp, len) in [
        (0x0000000100000003, false, 1, 3),
        (0x8000000100000003, true, 1, 3),
        (0x0000000800000482, false, 8, 1154),
        (0x7fffffff00ffffff, false, MAX_STAMP, 0xffffff),
    ] {
        let gate = Gate { fenced, stamp, len };
        assert_eq!(rt; Gate::read(word), gate, "at {word}");
        assert_eq!(rt; gate.word(), word, "at {word}");
    }
    assert_eq!(rt; Gate::read(0x00000001ff000003).word(), 0x0000000100000003);
}

#[test]
fn gates_at_the_last_stamp(rt: HostRuntime) {
    for (stamp, floor, next) in [
        (0, 0, Some(1)),
        (3, 7, Some(8)),
        (MAX_STAMP - 1, 0, Some(MAX_STAMP)),
        (0, MAX_STAMP - 1, Some(MAX_STAMP)),
        (MAX_STAMP, 0, None),
        (0, MAX_STAMP, None),
    ] {
        let gate = Gate {
            fenced: false,
            stamp,
            len: 0,
        };
        assert_eq!(rt; gate.next(floor), next, "at {stamp} and {floor}");
    }
}

#[test]
fn deeds(rt: HostRuntime) {
    for (word, state, epoch, lane, floor) in [
        (0x4000008080000000, DeedState::Owned, 1, 1, 0),
        (0x4000010100000002, DeedState::Owned, 2, 2, 2),
        (0x4000018080000002, DeedState::Owned, 3, 1, 2),
        (0x8000000000000000, DeedState::Leaving, 0, 0, 0),
        (0xc000000000000000, DeedState::Released, 0, 0, 0),
        (0, DeedState::Nobody, 0, 0, 0),
    ] {
        let deed = Deed {
            state,
            epoch,
            lane,
            floor,
        };
        assert_eq!(rt; Deed::read(word), deed, "at {word}");
        assert_eq!(rt; deed.word(), word, "at {word}");
    }
}

#[test]
fn places_cells_headers_and_format(rt: HostRuntime) {
    assert_eq!(rt; Ref::read(0), None);
    let place = Ref {
        lane: 1,
        offset: 14,
    };
    assert_eq!(rt; Ref::read(0x000000000100000e), Some(place));
    assert_eq!(rt; place.word(), 0x000000000100000e);
    for (word, closed, stamp, at) in [
        (
            0x0000000201000000,
            false,
            2,
            Some(Ref { lane: 1, offset: 0 }),
        ),
        (
            0x8000000301000005,
            true,
            3,
            Some(Ref { lane: 1, offset: 5 }),
        ),
        (0x0000000200000000, false, 2, None),
    ] {
        let cell = Cell { closed, stamp, at };
        assert_eq!(rt; Cell::read(word), cell, "at {word}");
        assert_eq!(rt; cell.word(), word, "at {word}");
    }
    let header = Header {
        kind: 1,
        bytes: 1024,
        cell: 0,
        words: 130,
    };
    assert_eq!(rt; Header::read(0x0104000000008200), header);
    assert_eq!(rt; header.word(), 0x0104000000008200);
    let format = Format {
        segments: 1024,
        number: 1,
    };
    assert_eq!(rt; Format::read(0x0000040000000001), format);
    assert_eq!(rt; format.word(), 0x0000040000000001);
}

#[test]
fn regions_of_the_pool(rt: HostRuntime) {
    assert_eq!(rt; gate_at(2), 66);
    assert_eq!(rt; deed_at(3), 195);
    assert_eq!(rt; cell_at(0), 256);
    assert_eq!(rt; directory_at(1, 1), 1281);
    assert_eq!(rt; crate::regions::bucket_at(222), 34544);
    assert_eq!(rt; crate::regions::bucket_at(4096) + 1, 65537);
    assert_eq!(rt; segment_at(0) + 910, 99214);
}

#[test]
fn positions_of_calls(rt: HostRuntime) {
    let at = |stamp, rank| Position {
        stamp,
        rank,
        session: 1,
    };
    for (floor, last, stamp, quiet, raised) in [
        (0, at(1, 0), 1, Some(at(1, 1)), Some(at(2, 0))),
        (0, at(1, 4), 3, Some(at(3, 1)), Some(at(4, 0))),
        (0, at(5, 0), 3, None, Some(at(6, 0))),
        (7, at(5, 0), 6, None, Some(at(8, 0))),
        (7, at(5, 0), 7, Some(at(7, 1)), Some(at(8, 0))),
        (0, at(3, u32::MAX), 3, None, Some(at(4, 0))),
        (0, at(MAX_STAMP, 0), 3, None, None),
    ] {
        let need = Need {
            floor,
            last,
            session: 1,
        };
        assert_eq!(rt; need.quiet(stamp), quiet, "at {stamp}");
        assert_eq!(rt; need.raised(stamp), raised, "at {stamp}");
    }
    assert!(rt; at(1, 9) < at(2, 0));
    assert!(rt; at(2, 0) < at(2, 1));
}

#[test]
fn values_to_their_limit(rt: HostRuntime) -> Result<(), Fail> {
    let bytes = [7u8; 1025];
    for count in [0usize, 1, 1024] {
        let value = Value::from_bytes(rt.alloc(), &bytes[..count])?;
        assert_eq!(rt; value.as_bytes().len(), count);
        assert_eq!(rt; value.copy(rt.alloc())?.as_bytes().len(), count);
    }
    let long = match Value::from_bytes(rt.alloc(), &bytes) {
        Err(ValueFault::Long { bytes }) => bytes,
        _ => 0,
    };
    assert_eq!(rt; long, 1025);
    Ok(())
}

#[test]
fn rooms_and_lists(rt: HostRuntime) -> Result<(), Fail> {
    let mut room = ValueRoom::new(rt.alloc())?;
    assert_eq!(rt; room.as_bytes().len(), 0);
    room.fill_words(&[0x6867666564636261, 0x0000000000006a69], 9);
    assert_eq!(rt; room.as_bytes(), b"abcdefghi".as_slice());
    room.fill(b"xy");
    assert_eq!(rt; room.into_value().as_bytes(), b"xy".as_slice());
    let list = List::of(vec![in rt.alloc(); 1u8, 2]?);
    assert_eq!(rt; list.as_slice(), [1, 2].as_slice());
    assert_eq!(rt; list.into_vec().len(), 2);
    Ok(())
}
