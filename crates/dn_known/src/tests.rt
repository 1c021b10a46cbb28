use crate::Known;
use dn_plan::Effect;
use dn_word::{Ref, slot_of};
use std::process::Abort;
use std::test::Fail;

/// Seals a record of so many words, for which the lane has room.
fn seal(rt: &impl Abort, known: &mut Known, words: u16, key: Option<u64>) -> Result<(), Fail> {
    assert!(rt; 1 <= words && words <= 1024);
    known.reserve()?;
    let plan = known.log().plan(words);
    assert!(rt; !plan.need_segment);
    known.sealed(&plan, key);
    Ok(())
}

/// A place in the log of lane 3.
fn place(offset: u32) -> Option<Ref> {
    Some(Ref { lane: 3, offset })
}

/// Key 5 gets records at 0 and 5, one that says nothing of it lies between; then its slot goes away and comes back.
#[test]
fn pending_records_count_from_the_epoch_on(rt: HostRuntime) -> Result<(), Fail> {
    let mut known = Known::new(rt.alloc(), 3, 8)?;
    assert!(rt; slot_of(5) != slot_of(6));
    assert_eq!(rt; (known.number(), known.len()), (3, 0));
    assert_eq!(rt; known.pending(5), None);
    known.keep(0);
    seal(&rt, &mut known, 2, Some(5))?;
    seal(&rt, &mut known, 3, None)?;
    assert_eq!(rt; known.pending(5), place(0));
    seal(&rt, &mut known, 3, Some(5))?;
    seal(&rt, &mut known, 2, Some(6))?;
    assert_eq!(rt; known.pending(5), place(5));
    let slot = slot_of(5);
    known.learn(Effect::Epoch { slot, epoch: 0 });
    assert_eq!(rt; known.pending(5), place(5));
    known.learn(Effect::Epoch { slot, epoch: 4 });
    assert_eq!(rt; known.pending(5), None);
    assert_eq!(rt; known.pending(6), place(8));
    seal(&rt, &mut known, 4, Some(5))?;
    known.learn(Effect::Epoch { slot, epoch: 4 });
    assert_eq!(rt; known.pending(5), place(10));
    assert_eq!(rt; known.len(), 14);
    Ok(())
}

#[test]
fn a_trim_and_a_bar(rt: HostRuntime) -> Result<(), Fail> {
    let mut known = Known::new(rt.alloc(), 3, 8)?;
    known.keep(7);
    seal(&rt, &mut known, 1000, Some(5))?;
    seal(&rt, &mut known, 20, Some(6))?;
    known.learn(Effect::DropBelow { mark: 1000 });
    assert_eq!(rt; (known.pending(5), known.pending(6)), (None, place(1000)));
    assert_eq!(rt; known.barred(), None);
    known.learn(Effect::Bar { gate: 77 });
    assert_eq!(rt; known.barred(), Some(77));
    assert_eq!(rt; known.pending(6), place(1000));
    known.learn(Effect::DropBelow { mark: u64::MAX });
    assert_eq!(rt; known.pending(6), None);
    assert_eq!(rt; (known.log().segments(), known.log().spare()), (1, None));
    Ok(())
}
