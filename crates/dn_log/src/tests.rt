use crate::claims::{Claim, ClaimTurn};
use crate::plans::{NewSegment, Plan};
use crate::staging::Staging;
use crate::writers::LogWriter;
use dn_act::Action;
use std::test::Fail;

/// The plan of a record of 130 words without a pad.
fn unpadded(at: u32, need_segment: bool) -> Plan {
    Plan {
        pad: None,
        at,
        len: at.saturating_add(130),
        need_segment,
    }
}

#[test]
fn the_eighth_record_of_130_words_goes_to_the_next_segment(rt: HostRuntime) -> Result<(), Fail> {
    let mut log = LogWriter::new(rt.alloc(), 1, 1024)?;
    assert_eq!(rt; log.plan(130), unpadded(0, true));
    log.keep(0);
    let first = log.plan(130);
    assert_eq!(rt;
        log.new_segment(&first),
        Some(NewSegment {
            number: 0,
            segment: 0
        })
    );
    for place in 0..7u32 {
        let plan = log.plan(130);
        assert_eq!(rt; plan, unpadded(130 * place, false));
        assert!(rt; !plan.need_segment);
        log.sealed(&plan);
    }
    let padded = Plan {
        pad: Some((910, 114)),
        at: 1024,
        len: 1154,
        need_segment: true,
    };
    assert_eq!(rt; log.plan(130), padded);
    assert_eq!(rt; log.len(), 910);
    assert_eq!(rt; log.segments(), 1);
    assert!(rt; log.spare().is_none() && 3 < log.pool());
    log.keep(3);
    let plan = log.plan(130);
    assert!(rt; !plan.need_segment);
    assert_eq!(rt;
        log.new_segment(&plan),
        Some(NewSegment {
            number: 1,
            segment: 3
        })
    );
    log.sealed(&plan);
    assert_eq!(rt; log.len(), 1154);
    assert_eq!(rt; log.spare(), None);
    assert_eq!(rt; log.segments(), 2);
    Ok(())
}

#[test]
fn words_of_offsets(rt: HostRuntime) -> Result<(), Fail> {
    let mut log = LogWriter::new(rt.alloc(), 1, 1024)?;
    log.keep(2);
    assert_eq!(rt; log.word_at(910), 101262);
    Ok(())
}

#[test]
fn claims_end_at_the_pools_number(rt: HostRuntime) -> Result<(), Fail> {
    let log = LogWriter::new(rt.alloc(), 1, 4)?;
    let full = ClaimTurn::Full {
        counter: 4,
        segments: 0,
    };
    let mut claim = Claim::new(&log);
    assert_eq!(rt; claim.next(), Action::Load { at: 1 });
    assert_eq!(rt; claim.take(4), full);
    assert_eq!(rt; claim.take(3), ClaimTurn::More);
    assert_eq!(rt; claim.next(), Action::Add { at: 1, by: 1 });
    assert_eq!(rt; claim.take(3), ClaimTurn::Got { segment: 3 });
    assert_eq!(rt; claim.take(4), full);
    Ok(())
}

#[test]
fn staged_words_flow_in_any_order(rt: HostRuntime) -> Result<(), Fail> {
    let mut staging = Staging::new(rt.alloc())?;
    staging.put(99, 1);
    staging.put(98, 2);
    staging.put(97, 3);
    assert_eq!(rt; staging.flow(0), Some(Action::Store { at: 99, word: 1 }));
    staging.flowed(1);
    assert_eq!(rt; staging.flow(1), Some(Action::Store { at: 97, word: 3 }));
    staging.flowed(7);
    assert_eq!(rt; staging.len(), 2);
    staging.flowed(0);
    staging.flowed(0);
    assert_eq!(rt; staging.flow(0), None);
    assert!(rt; staging.is_empty());
    for place in 0..140u32 {
        assert!(rt; staging.len() < 140);
        staging.put(place, place as u64);
    }
    staging.flowed(0);
    assert!(rt; staging.len() < 140);
    staging.put(140, 140);
    assert_eq!(rt;
        staging.flow(139),
        Some(Action::Store { at: 140, word: 140 })
    );
    staging.clear();
    assert!(rt; staging.is_empty());
    Ok(())
}
