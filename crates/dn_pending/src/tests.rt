ghost use Rattle.std.specs.Prelude.{◌<◌, ◌≤◌, All, IfOk};
ghost use Rattle.dn_pending.specs.declared.entries.Entry.{Entry};

use crate::{Entry, Pending, last_of};
use std::alloc::Global;
use std::process::Abort;
use std::test::Fail;

/// A place past those of all test entries.
const PAST: u32 = 200_000;

/// A table of these entries, whose places rise below [`PAST`].
fn table_of(rt: &impl Abort, alloc: Global, entries: &[Entry]) -> Result<Pending, Fail>
    ensures { IfOk result (λ table. All (λ (e : Entry). e.at < PAST) table.entries) }
{
    let mut table = Pending::new(alloc)?;
    let mut past = 0;
    for entry in entries {
        assert!(rt; past <= entry.at && entry.at < PAST);
        table.reserve()?;
        table.add(entry.key, entry.at);
        past = entry.at + 1;
    }
    Ok(table)
}

#[test]
fn three_segments_and_a_trim_inside_one(rt: HostRuntime) -> Result<(), Fail> {
    let places = [(1, 0), (2, 512), (3, 1024), (1, 1536), (2, 2048), (5, 2560)];
    let entries = places.map(|(key, at)| Entry { key, at });
    let mut table = table_of(&rt, rt.alloc(), &entries)?;
    let rows = [
        (0, [Some(1536), Some(2048), Some(1024), None, Some(2560)]),
        (1024, [Some(1536), Some(2048), Some(1024), None, Some(2560)]),
        (1025, [Some(1536), Some(2048), None, None, Some(2560)]),
        (2048, [None, Some(2048), None, None, Some(2560)]),
        (2561, [None, None, None, None, None]),
    ];
    for (mark, wanted) in rows {
        table.drop_below(mark);
        for (index, want) in wanted.iter().enumerate() {
            let key = index as u64 + 1;
            assert_eq!(rt; table.last(key), *want, "{key} at {mark}");
            if mark == 0 {
                assert_eq!(rt; last_of(&entries, key), *want, "{key}");
            }
        }
    }
    table.reserve()?;
    table.reserve()?;
    table.add(2, PAST);
    assert_eq!(rt; table.last(2), Some(PAST));
    assert_eq!(rt; table.last(5), None);
    Ok(())
}

#[test]
fn one_spare_is_enough_for_two_segments(rt: HostRuntime) -> Result<(), Fail> {
    let mut table = Pending::new(rt.alloc())?;
    table.add(2, 1023);
    table.add(6, 1024);
    assert_eq!(rt; (table.last(2), table.last(6)), (Some(1023), Some(1024)));
    Ok(())
}

/// The bits of 26,003 and of 153,461 are all set by the keys from 1,001 to 1,064, and by those from 2,001 to 2,064.
#[test]
fn keys_whose_bits_others_set(rt: HostRuntime) -> Result<(), Fail> {
    let mut entries = Vec::new(rt.alloc());
    entries.push(Entry { key: 26_003, at: 0 })?;
    for segment in 1..3u32 {
        for number in 0..64u32 {
            entries.push(Entry {
                key: u64::from(1000 * segment + number + 1),
                at: 1024 * segment + 16 * number,
            })?;
        }
    }
    let mut table = table_of(&rt, rt.alloc(), entries.as_slice())?;
    let rows = [
        (26_003, Some(0)),
        (153_461, None),
        (1001, Some(1024)),
        (2064, Some(3056)),
    ];
    for (key, want) in rows {
        assert_eq!(rt; table.last(key), want, "{key}");
        assert_eq!(rt; last_of(entries.as_slice(), key), want, "{key}");
    }
    table.drop_below(1);
    assert_eq!(rt; table.last(26_003), None);
    assert_eq!(rt; table.last(1001), Some(1024));
    Ok(())
}
