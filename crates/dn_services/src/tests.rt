use crate::{RoomTurn, Seal, SealTurn, TASK_WORDS, call_words, claim_on, find_room};
use dn_act::Action;
use dn_hist::Call;
use dn_known::Known;
use dn_log::Staging;
use dn_plan::{Entry, Room, Sealing};
use dn_tend::TendSeal;
use dn_word::{Ref, Value};
use std::process::Abort;
use std::test::Fail;

/// The gate that is exchanged: stamp 8, length 1,022.
const GATE: u64 = 0x00000008000003fe;

/// Where the put stands: at the head of the lane's second segment.
const PLACE: Ref = Ref {
    lane: 2,
    offset: 1024,
};

/// Claims a segment for a record of so many words, whose number both actions find.
fn claim(rt: &impl Abort, known: &mut Known, words: u16, segment: u64) {
    assert!(rt; 1 <= words && words <= 1024);
    let RoomTurn::More { claim } = find_room(known, words) else {
        panic!(rt; "the record needs a segment");
    };
    assert_eq!(rt; claim.next(), Action::Load { at: 1 });
    let RoomTurn::More { claim } = claim_on(known, claim, segment) else {
        panic!(rt; "a segment is left");
    };
    assert_eq!(rt; claim.next(), Action::Add { at: 1, by: 1 });
    let RoomTurn::Told { room: Room::Found } = claim_on(known, claim, segment) else {
        panic!(rt; "the segment is the lane's");
    };
}

/// The stores that wait are these, of a place and a word each.
fn waits(rt: &impl Abort, staging: &Staging, stores: &[(u32, u64)]) {
    assert_eq!(rt; staging.len() as usize, stores.len());
    for (index, (at, word)) in stores.iter().enumerate() {
        let store = Action::Store {
            at: *at,
            word: *word,
        };
        assert_eq!(rt; staging.flow(index as u32), Some(store));
    }
}

/// Two words are left of segment 3, and the put of key 5 with the value `a` has three.
#[test]
fn a_put_with_a_pad_and_a_new_segment(rt: HostRuntime) -> Result<(), Fail> {
    let mut known = Known::new(rt.alloc(), 2, 16)?;
    let mut staging = Staging::new(rt.alloc())?;
    claim(&rt, &mut known, 1022, 3);
    let long = known.log().plan(1022);
    assert!(rt; !long.need_segment);
    known.sealed(&long, None);
    claim(&rt, &mut known, 3, 5);
    let value = Value::from_bytes(rt.alloc(), b"a")?;
    let call = Call::Put { key: 5, value };
    assert_eq!(rt; call_words(&call), 3);
    let sealing = Sealing {
        entry: Entry::Own,
        gate: GATE,
        stamp: 9,
    };
    assert!(rt; !known.log().plan(3).need_segment);
    known.reserve()?;
    let seal = Seal::of_call(&known, &mut staging, &call, &sealing);
    let stores = [
        (1537, 6),
        (102398, 0x0700000000000200),
        (103424, 0x0100010000000300),
        (103425, 5),
        (103426, 0x61),
    ];
    waits(&rt, &staging, &stores);
    let first = Action::Store { at: 1537, word: 6 };
    assert_eq!(rt; seal.next(&known, &staging), first);
    let SealTurn::More = seal.take(&mut known, &mut staging, 0) else {
        panic!(rt; "four words wait");
    };
    waits(&rt, &staging, &stores[1..]);
    for index in [2, 0, 1, 0] {
        staging.flowed(index);
    }
    assert!(rt; staging.is_empty());
    let exchange = Action::Cas {
        at: 66,
        old: GATE,
        new: 0x0000000900000403,
    };
    assert_eq!(rt; seal.next(&known, &staging), exchange);
    let SealTurn::Sealed { at } = seal.take(&mut known, &mut staging, GATE) else {
        panic!(rt; "the exchange was done");
    };
    assert_eq!(rt; (at, known.pending(5)), (PLACE, Some(PLACE)));
    assert_eq!(rt; (known.len(), known.log().spare()), (1027, None));
    Ok(())
}

/// A header, a key and 128 words of the value go to a first segment, 9; the exchange finds another gate.
#[test]
fn a_long_value_that_is_not_sealed(rt: HostRuntime) -> Result<(), Fail> {
    let mut known = Known::new(rt.alloc(), 2, 16)?;
    let mut staging = Staging::new(rt.alloc())?;
    let value = Value::from_bytes(rt.alloc(), &[65u8; 1024])?;
    let call = Call::Put { key: 5, value };
    claim(&rt, &mut known, call_words(&call), 9);
    assert!(rt; !known.log().plan(call_words(&call)).need_segment);
    let sealing = Sealing {
        entry: Entry::Own,
        gate: 0,
        stamp: 1,
    };
    known.reserve()?;
    let seal = Seal::of_call(&known, &mut staging, &call, &sealing);
    assert_eq!(rt; (staging.len(), seal.words), (131, 130));
    let last = Action::Store {
        at: 107649,
        word: 0x4141414141414141,
    };
    assert_eq!(rt; staging.flow(130), Some(last));
    staging.clear();
    let SealTurn::Shut { at } = seal.take(&mut known, &mut staging, 7) else {
        panic!(rt; "another gate was found");
    };
    assert_eq!(rt; at, Ref { lane: 2, offset: 0 });
    assert_eq!(rt; (known.len(), known.log().spare()), (0, Some(9)));
    assert_eq!(rt; known.pending(5), None);
    Ok(())
}

/// A Share by cell 17, and an Unshare that names a record of lane 4, in segment 0.
#[test]
fn records_of_tasks(rt: HostRuntime) -> Result<(), Fail> {
    let mut known = Known::new(rt.alloc(), 1, 1)?;
    let mut staging = Staging::new(rt.alloc())?;
    claim(&rt, &mut known, TASK_WORDS, 0);
    assert!(rt; !known.log().plan(3).need_segment);
    let share = TendSeal::Share {
        cell: 17,
        opening: 0x0000000301000028,
        gate: GATE,
    };
    known.reserve()?;
    let seal = Seal::of_task(&known, &mut staging, 7, share);
    assert_eq!(rt; (seal.key, seal.gate, seal.stamp), (7, GATE, 3));
    let stores = [
        (1280, 1),
        (98304, 0x0300000011000300),
        (98305, 7),
        (98306, 0x0000000301000028),
    ];
    waits(&rt, &staging, &stores);
    staging.clear();
    let at = Some(Ref {
        lane: 4,
        offset: 256,
    });
    let unshare = TendSeal::Unshare {
        at,
        stamp: 12,
        gate: GATE,
    };
    let seal = Seal::of_task(&known, &mut staging, 7, unshare);
    assert_eq!(rt; (seal.key, seal.gate, seal.stamp), (7, GATE, 12));
    let stores = [
        (1280, 1),
        (98304, 0x0400000000000300),
        (98305, 7),
        (98306, 0x04000100),
    ];
    waits(&rt, &staging, &stores);
    Ok(())
}

/// The counter is at the number of the pool's segments.
#[test]
fn a_full_pool(rt: HostRuntime) -> Result<(), Fail> {
    let mut known = Known::new(rt.alloc(), 1, 4)?;
    let RoomTurn::More { claim } = find_room(&known, 3) else {
        panic!(rt; "the record needs a segment");
    };
    let RoomTurn::Told {
        room: Room::Full { counter, segments },
    } = claim_on(&mut known, claim, 4)
    else {
        panic!(rt; "no segment is left");
    };
    assert_eq!(rt; (counter, segments), (4, 0));
    Ok(())
}
