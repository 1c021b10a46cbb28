use crate::{Call, PlainMap, Receipt, ReplayFault, Reply, order, replay};
use dn_word::{Position, Value};
use std::alloc::Global;
use std::test::Fail;

fn value(alloc: Global, bytes: &[u8]) -> Result<Value, Fail> {
    Ok(Value::from_bytes(alloc, bytes)?)
}

fn receipt(stamp: u32, rank: u32, call: Call, reply: Reply) -> Receipt {
    Receipt {
        position: Position {
            stamp,
            rank,
            session: 1,
        },
        number: 1,
        call,
        reply,
        at: None,
    }
}

#[test]
fn plain_maps(rt: HostRuntime) -> Result<(), Fail> {
    let mut map = PlainMap::new(rt.alloc());
    map.insert(5, value(rt.alloc(), b"a")?)?;
    map.insert(6, value(rt.alloc(), b"b")?)?;
    map.insert(5, value(rt.alloc(), b"c")?)?;
    assert_eq!(rt; map.len(), 2);
    map.remove(6);
    assert_eq!(rt; map.len(), 1);
    assert!(rt; map.get(6).is_none());
    assert_eq!(rt;
        map.get(5).map(|value| value.as_bytes()),
        Some(b"c".as_slice())
    );
    let put = Call::Put {
        key: 7,
        value: value(rt.alloc(), b"xy")?,
    };
    assert!(rt; matches!(put.copy(rt.alloc())?, Call::Put { key: 7, .. }));
    Ok(())
}

#[test]
fn a_history_in_order(rt: HostRuntime) -> Result<(), Fail> {
    let mut receipts = Vec::new(rt.alloc());
    let found = Reply::Value(value(rt.alloc(), b"a")?);
    receipts.push(receipt(1, 2, Call::Get { key: 6 }, Reply::Absent))?;
    receipts.push(receipt(2, 0, Call::Delete { key: 5 }, Reply::Deleted))?;
    receipts.push(receipt(1, 1, Call::Get { key: 5 }, found))?;
    let put = Call::Put {
        key: 5,
        value: value(rt.alloc(), b"a")?,
    };
    receipts.push(receipt(1, 0, put, Reply::Stored))?;
    let place = match replay(rt.alloc(), receipts.as_slice()) {
        Err(ReplayFault::Differs { place }) => place,
        _ => 9,
    };
    assert_eq!(rt; place, 2);
    order(&mut receipts);
    let ranks = receipts.first().map(|first| first.position.rank);
    assert_eq!(rt; ranks, Some(0));
    assert_eq!(rt; replay(rt.alloc(), receipts.as_slice())?.len(), 0);
    Ok(())
}
