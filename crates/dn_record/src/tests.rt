ghost use Rattle.std.specs.Prelude.{◌≤◌};
ghost use Rattle.dn_record.specs.Record.{spelled_words};
ghost use Rattle.dn_record.specs.Grammar.{FieldsFit};

use crate::{Head, Record, Seen, look, read, words_of, write, write_delete, write_put};
use dn_word::{OutOfMemory, Ref, Value, ValueRoom};
use std::alloc::Global;
use std::test::Fail;

/// Whether a record is written as these words, and these words are looked at and read as this record, with this value.
fn spells(
    alloc: Global,
    rec: &Record,
    seen: Seen,
    words: &[u64],
    value: &[u8],
) -> Result<bool, OutOfMemory>
    requires fields { FieldsFit rec.now }
    requires room { spelled_words rec.now ≤ 4 }
{
    let mut out = [7u64; 4];
    let count = write(rec, &mut out);
    let mut room = ValueRoom::new(alloc)?;
    let looked = look(words, &mut room);
    let again = match read(alloc, words)? {
        Some(again) => words_of(&again) == words_of(rec),
        None => false,
    };
    Ok(
        count == words.len()
            && out.starts_with(words)
            && looked == Some(seen)
            && room.as_bytes() == value
            && again,
    )
}

#[test]
fn records_with_values(rt: HostRuntime) -> Result<(), Fail> {
    let put = Record::Put {
        key: 5,
        value: Value::from_bytes(rt.alloc(), b"a")?,
    };
    let words = [0x0100010000000300, 5, 0x61];
    assert!(rt; spells(rt.alloc(), &put, Seen::Put { key: 5 }, &words, b"a")?);
    let loose = Record::Loose {
        key: 5,
        value: Value::from_bytes(rt.alloc(), b"abcdefghi")?,
    };
    let words = [0x0500090000000400, 5, 0x6867666564636261, 0x69];
    assert!(rt;
        spells(
            rt.alloc(),
            &loose,
            Seen::Loose { key: 5 },
            &words,
            b"abcdefghi"
        )?
    );
    Ok(())
}

#[test]
fn records_without_values(rt: HostRuntime) -> Result<(), Fail> {
    let alloc = rt.alloc();
    let delete = Record::Delete { key: 5 };
    let words = [0x0200000000000200, 5];
    assert!(rt; spells(alloc, &delete, Seen::Delete { key: 5 }, &words, b"")?);
    let opening = 0x0000000201000000;
    let share = Record::Share {
        key: 5,
        cell: 0,
        opening,
    };
    let seen = Seen::Share {
        key: 5,
        cell: 0,
        opening,
    };
    assert!(rt; spells(alloc, &share, seen, &[0x0300000000000300, 5, opening], b"")?);
    let at = Some(Ref { lane: 2, offset: 6 });
    let unshare = Record::Unshare { key: 5, at };
    let words = [0x0400000000000300, 5, 0x02000006];
    assert!(rt; spells(alloc, &unshare, Seen::Unshare { key: 5, at }, &words, b"")?);
    let loose = Record::LooseDelete { key: 5 };
    let words = [0x0600000000000200, 5];
    assert!(rt; spells(alloc, &loose, Seen::LooseDelete { key: 5 }, &words, b"")?);
    let pad = Record::Pad { words: 114 };
    assert!(rt;
        spells(
            alloc,
            &pad,
            Seen::Pad { words: 114 },
            &[0x0700000000007200],
            b""
        )?
    );
    assert_eq!(rt; words_of(&pad), 114);
    Ok(())
}

#[test]
fn records_of_a_borrowed_value(rt: HostRuntime) -> Result<(), Fail> {
    let value = Value::from_bytes(rt.alloc(), b"a")?;
    let mut out = [7u64; 4];
    assert_eq!(rt; write_put(5, &value, &mut out), 3);
    assert_eq!(rt; out, [0x0100010000000300, 5, 0x61, 7]);
    assert_eq!(rt; write_delete(5, &mut out), 2);
    assert_eq!(rt; out, [0x0200000000000200, 5, 0x61, 7]);
    Ok(())
}

#[test]
fn longest_value(rt: HostRuntime) -> Result<(), Fail> {
    let rec = Record::Put {
        key: 1,
        value: Value::from_bytes(rt.alloc(), &[65u8; 1024])?,
    };
    let mut out = [0u64; 130];
    assert_eq!(rt; words_of(&rec), 130);
    assert_eq!(rt; write(&rec, &mut out), 130);
    assert_eq!(rt; out[0], 0x0104000000008200);
    assert_eq!(rt; Head::read(out[0]), Some(Head::Put { bytes: 1024 }));
    let mut room = ValueRoom::new(rt.alloc())?;
    assert_eq!(rt; look(&out, &mut room), Some(Seen::Put { key: 1 }));
    assert_eq!(rt; room.as_bytes(), [65u8; 1024].as_slice());
    assert_eq!(rt; look(&[0x0104000000008200; 129], &mut room), None);
    Ok(())
}

/// Headers outside the grammar, and words behind the key that are.
#[test]
fn words_that_spell_nothing(rt: HostRuntime) -> Result<(), Fail> {
    let mut room = ValueRoom::new(rt.alloc())?;
    room.fill(b"old");
    for (header, third) in [
        // kinds 0, 8 and 255
        (0x0000010000000300, 0x61),
        (0x0800010000000300, 0x61),
        (0xff00000000000200, 0),
        // a length in words that isn't that of the kind and the bytes
        (0x0100010000000200, 0x61),
        (0x0200000000000300, 0),
        // 1,025 bytes, a Delete with bytes, cell 256, a Put with a cell, a zero field that isn't zero
        (0x0104010000008300, 0x61),
        (0x0200010000000300, 0),
        (0x0300000100000300, 0x0000000201000000),
        (0x0100010001000300, 0x61),
        (0x0100010000000301, 0x61),
        // a fill that isn't zero
        (0x0100010000000300, 0x0161),
        // an opening that is closed, has no stamp, or leads to lane 0 or 64
        (0x0300000000000300, 0x8000000201000000),
        (0x0300000000000300, 0x0000000001000000),
        (0x0300000000000300, 0x0000000200000005),
        (0x0300000000000300, 0x0000000240000000),
        // an Unshare's word with an upper half, or to lane 0 or 64
        (0x0400000000000300, 0x0000000101000000),
        (0x0400000000000300, 0x0000000000000005),
        (0x0400000000000300, 0x0000000040000000),
        // Pads of 0 and of 1,024 words
        (0x0700000000000000, 0),
        (0x0700000000040000, 0),
    ] {
        assert_eq!(rt;
            look(&[header, 5, third], &mut room),
            None,
            "at {header} and {third}"
        );
    }
    assert_eq!(rt; look(&[0x0100010000000300, 0, 0x61], &mut room), None);
    assert_eq!(rt; look(&[0x0100010000000300, 5], &mut room), None);
    assert_eq!(rt; look(&[], &mut room), None);
    assert_eq!(rt; room.as_bytes(), b"old".as_slice());
    assert!(rt; read(rt.alloc(), &[])?.is_none());
    Ok(())
}
