//! Worlds of one to four nodes, and one of 62, each with its outcomes written out by hand from the rules. Key 5 lies in slot
//! 3, which of two and of four nodes lane 2 has. The deed of a slot has its epoch from bit 39 and its lane from bit 31, and
//! is `4000008080000000` where lane 1 has the slot from the opening on. A put whose key isn't pending has 13 actions where
//! its log has no segment yet: the look, four loads of the index, the load of the gate, a load and an add of the segment
//! counter, four words that flow, and the exchange.

mod plays;

use dn_monitor::{MonitorAnswer, Order};
use dn_outcomes::CallAnswer;
use dn_outcomes::Outcome::{self, Acted, Added, LanesFull, MonitorBusy, NoLane, Nothing, Numbered};
use dn_plan::Way;
use dn_tend::{Task, TaskAnswer};
use plays::Ask::{Get, Put};
use plays::Line::{
    self, Add, Flow, Give, Load, Merge, Monitor, Queue, Run, Start, Step, Tell, Watch,
};
use plays::Play;
use std::test::Fail;

/// The deed of a slot that a lane owns, granted so often.
fn deed(epoch: u32, lane: u8) -> u64 {
    1 << 62 | (epoch as u64) << 39 | (lane as u64) << 31
}

/// That a session's call with this number was made.
fn made(session: u32, number: u32, way: Way) -> Outcome {
    Outcome::Answered {
        session,
        number,
        answer: CallAnswer::Made { way },
        given: false,
    }
}

/// That a lane has refused session 1's call with this number by this deed.
fn refused(number: u32, look: u64, given: bool) -> Outcome {
    Outcome::Answered {
        session: 1,
        number,
        answer: CallAnswer::NotOwner { look, cell: None },
        given,
    }
}

/// That a fenced lane has refused session 1's second call.
fn fenced(given: bool) -> Outcome {
    Outcome::Answered {
        session: 1,
        number: 2,
        answer: CallAnswer::Fenced {
            word: 0x8000000100000003,
        },
        given,
    }
}

/// That the monitor's order has ended.
fn ordered(answer: MonitorAnswer) -> Outcome {
    Outcome::Ordered(answer)
}

/// That a lane's task has ended.
fn tended(answer: TaskAnswer) -> Outcome {
    Outcome::Tended(answer)
}

/// Slot 3 goes from a lane that has sealed nothing to another, and has this epoch then. The release is queued at the exchange
/// that asks for it.
fn moved(from: u8, to: u8, epoch: u32) -> [(Line, Outcome); 7] {
    [
        (Give(Order::Move { slot: 3, to }), Acted),
        (Monitor, Acted),
        (Monitor, Acted),
        (Step(from), Acted),
        (Step(from), tended(TaskAnswer::Released)),
        (
            Watch,
            ordered(MonitorAnswer::Granted {
                deed: deed(epoch, to),
            }),
        ),
        (Monitor, Nothing),
    ]
}

/// Session 1 puts the first value of key 5, at this lane.
fn first_put(lane: u8) -> [(Line, Outcome); 3] {
    [
        (Start(1, None, Put(b'a')), Numbered { number: 1 }),
        (Load(1), Acted),
        (Run(lane), made(1, 1, Way::Index)),
    ]
}

#[test]
fn a_put_action_by_action(rt: HostRuntime) -> Result<(), Fail> {
    let mut play = Play::new(&rt, rt.alloc(), 1)?;
    play.lines(
        &rt,
        &[
            (Load(1), Nothing),
            (Step(1), Nothing),
            (Start(1, None, Put(b'a')), Numbered { number: 1 }),
            (Step(1), Nothing),
            (Load(1), Acted),
        ],
    )?;
    play.steps(&rt, 1, 12);
    play.stands(&rt, &[]);
    play.lines(
        &rt,
        &[
            (Step(1), made(1, 1, Way::Index)),
            (Step(1), Nothing),
            (Start(2, None, Get), Numbered { number: 1 }),
            (Load(2), Acted),
            (Run(1), made(2, 1, Way::Pending)),
        ],
    )?;
    play.stands(&rt, &[(1, 0, 1), (1, 1, 2)]);
    assert!(rt; play.has_found(b'a'));
    Ok(())
}

#[test]
fn words_out_of_order(rt: HostRuntime) -> Result<(), Fail> {
    let mut play = Play::new(&rt, rt.alloc(), 1)?;
    play.lines(
        &rt,
        &[
            (Start(1, None, Put(b'a')), Numbered { number: 1 }),
            (Load(1), Acted),
            (Flow(1, 0), Nothing),
        ],
    )?;
    play.steps(&rt, 1, 8);
    play.lines(
        &rt,
        &[
            (Flow(1, 4), Nothing),
            (Flow(1, 3), Acted),
            (Flow(1, 3), Nothing),
        ],
    )?;
    play.steps(&rt, 1, 3);
    play.lines(
        &rt,
        &[(Flow(1, 0), Nothing), (Step(1), made(1, 1, Way::Index))],
    )
}

/// A lane that is named and isn't the owner refuses; the call keeps its number and goes by the route.
#[test]
fn a_named_lane_refuses(rt: HostRuntime) -> Result<(), Fail> {
    let mut play = Play::new(&rt, rt.alloc(), 4)?;
    play.lines(&rt, &first_put(2))?;
    play.lines(
        &rt,
        &[
            (Start(1, Some(3), Get), Numbered { number: 2 }),
            (Load(1), Nothing),
            (Step(2), Nothing),
            (Step(3), refused(2, 0x4000008100000000, false)),
            (Step(3), Nothing),
            (Load(1), Acted),
            (Run(2), made(1, 2, Way::Pending)),
            (Start(2, Some(2), Get), Numbered { number: 1 }),
            (Step(2), Nothing),
            (Load(2), Acted),
            (Run(2), made(2, 1, Way::Pending)),
        ],
    )?;
    play.stands(&rt, &[(1, 0, 1), (1, 1, 1), (1, 1, 2)]);
    Ok(())
}

/// A session whose route is stale is refused, and refused again by the lane that the slot left meanwhile; the deed is then
/// loaded once more, and the call, which keeps its number, is made by the owner.
#[test]
fn a_stale_route(rt: HostRuntime) -> Result<(), Fail> {
    let mut play = Play::new(&rt, rt.alloc(), 2)?;
    play.lines(
        &rt,
        &[
            (Start(1, None, Get), Numbered { number: 1 }),
            (Load(1), Acted),
            (Run(2), made(1, 1, Way::Index)),
        ],
    )?;
    play.lines(&rt, &moved(2, 1, 2))?;
    play.lines(
        &rt,
        &[
            (Start(1, None, Put(b'a')), Numbered { number: 2 }),
            (Load(1), Nothing),
            (Step(2), refused(2, deed(2, 1), false)),
            (Load(1), Acted),
        ],
    )?;
    play.lines(&rt, &moved(1, 2, 3))?;
    play.lines(
        &rt,
        &[
            (Step(1), refused(2, deed(3, 2), false)),
            (Load(1), Acted),
            (Run(2), made(1, 2, Way::Index)),
        ],
    )?;
    play.stands(&rt, &[(0, 1, 1), (1, 0, 1)]);
    Ok(())
}

/// The slot leaves each lane before that takes the call up. The eighth refused attempt gives the call up, and no deed is
/// loaded for it any more: the session's next call has the next number, and goes by the route that was loaded last.
#[test]
fn eight_refused_attempts(rt: HostRuntime) -> Result<(), Fail> {
    let mut play = Play::new(&rt, rt.alloc(), 2)?;
    play.lines(&rt, &[(Start(1, None, Get), Numbered { number: 1 })])?;
    for attempt in 1..=8u32 {
        let (from, to) = if attempt % 2 == 1 { (2, 1) } else { (1, 2) };
        play.lines(&rt, &[(Load(1), Acted)])?;
        play.lines(&rt, &moved(from, to, attempt + 1))?;
        play.lines(
            &rt,
            &[(Step(from), refused(1, deed(attempt + 1, to), attempt == 8))],
        )?;
    }
    play.stands(&rt, &[]);
    play.lines(
        &rt,
        &[
            (Load(1), Nothing),
            (Start(1, None, Get), Numbered { number: 2 }),
            (Step(1), refused(2, deed(9, 2), false)),
            (Load(1), Acted),
            (Run(2), made(1, 2, Way::Index)),
        ],
    )?;
    play.stands(&rt, &[(0, 1, 1)]);
    Ok(())
}

/// Tasks go before the calls that wait, each in order of arrival, and behind the call that is under way.
#[test]
fn tasks_and_calls(rt: HostRuntime) -> Result<(), Fail> {
    let mut play = Play::new(&rt, rt.alloc(), 1)?;
    play.lines(&rt, &first_put(1))?;
    play.lines(
        &rt,
        &[
            (Start(1, None, Get), Numbered { number: 2 }),
            (Queue(1, Task::Trim), Acted),
            (Queue(1, Task::Release { slot: 3 }), Acted),
            (Step(1), tended(TaskAnswer::Trimmed { mark: 0 })),
            (Step(1), tended(TaskAnswer::NotLeaving { look: deed(1, 1) })),
            (Step(1), Acted),
            (Queue(1, Task::Trim), Acted),
            (Run(1), made(1, 2, Way::Pending)),
            (Step(1), tended(TaskAnswer::Trimmed { mark: 0 })),
            (Step(1), Nothing),
        ],
    )
}

/// A lane that wasn't made is told before all else, and nothing that is refused takes a number.
#[test]
fn starts_are_refused(rt: HostRuntime) -> Result<(), Fail> {
    let mut play = Play::new(&rt, rt.alloc(), 1)?;
    play.lines(
        &rt,
        &[
            (Start(1, Some(2), Get), NoLane),
            (Start(1, None, Get), Numbered { number: 1 }),
            (Start(1, None, Get), Outcome::Busy),
            (Start(1, Some(2), Get), NoLane),
            (Load(1), Acted),
            (Run(1), made(1, 1, Way::Index)),
            (Add, Added { lane: 2 }),
            (Start(1, Some(2), Get), Numbered { number: 2 }),
        ],
    )
}

#[test]
fn lanes_that_were_not_made(rt: HostRuntime) -> Result<(), Fail> {
    let mut play = Play::new(&rt, rt.alloc(), 1)?;
    play.lines(
        &rt,
        &[
            (Step(2), NoLane),
            (Step(0), NoLane),
            (Flow(2, 0), NoLane),
            (Merge(2), NoLane),
            (Queue(2, Task::Trim), NoLane),
            (Give(Order::Move { slot: 3, to: 2 }), NoLane),
            (Give(Order::Look { slot: 3 }), Acted),
            (Give(Order::Look { slot: 3 }), MonitorBusy),
            (Give(Order::Fence { lane: 2 }), NoLane),
            (Give(Order::Takeover { lane: 2 }), NoLane),
            (Monitor, ordered(MonitorAnswer::Looked { deed: deed(1, 1) })),
            (Monitor, Nothing),
        ],
    )
}

#[test]
fn the_last_lane(rt: HostRuntime) -> Result<(), Fail> {
    let mut play = Play::new(&rt, rt.alloc(), 62)?;
    play.lines(&rt, &[(Add, Added { lane: 63 }), (Add, LanesFull)])?;
    assert_eq!(rt; (play.live().len(), play.live().last()), (63, Some(&63)));
    Ok(())
}

/// A call that starts after its session was told a position stands behind it.
#[test]
fn what_a_session_was_told(rt: HostRuntime) -> Result<(), Fail> {
    let mut play = Play::new(&rt, rt.alloc(), 1)?;
    play.lines(&rt, &first_put(1))?;
    play.lines(
        &rt,
        &[
            (Start(1, None, Put(b'b')), Numbered { number: 2 }),
            (Run(1), made(1, 2, Way::Pending)),
            (Start(1, None, Get), Numbered { number: 3 }),
            (Run(1), made(1, 3, Way::Pending)),
            (Tell(1, 2), Acted),
            (Start(2, None, Get), Numbered { number: 1 }),
            (Load(2), Acted),
            (Run(1), made(2, 1, Way::Pending)),
        ],
    )?;
    play.stands(&rt, &[(1, 0, 1), (2, 0, 1), (2, 1, 1), (2, 2, 2)]);
    assert!(rt; play.has_found(b'b'));
    Ok(())
}

/// A lane whose fence is answered is live no more; what it is asked is refused by the gate word that it read.
#[test]
fn a_fenced_lane(rt: HostRuntime) -> Result<(), Fail> {
    let mut play = Play::new(&rt, rt.alloc(), 1)?;
    play.lines(&rt, &first_put(1))?;
    play.lines(
        &rt,
        &[
            (Give(Order::Fence { lane: 1 }), Acted),
            (
                Monitor,
                ordered(MonitorAnswer::Barred {
                    old: 0x0000000100000003,
                }),
            ),
            (Give(Order::Move { slot: 3, to: 1 }), NoLane),
            (Start(1, None, Put(b'b')), Numbered { number: 2 }),
        ],
    )?;
    assert_eq!(rt; play.live().len(), 0);
    for attempt in 1..=8u32 {
        let load = if attempt == 8 { Nothing } else { Acted };
        play.lines(&rt, &[(Run(1), fenced(attempt == 8)), (Load(1), load)])?;
    }
    let word = 0x8000000100000003;
    play.lines(
        &rt,
        &[
            (Queue(1, Task::Trim), Acted),
            (Step(1), tended(TaskAnswer::Fenced { word })),
        ],
    )?;
    play.stands(&rt, &[(1, 0, 1)]);
    Ok(())
}

/// A lane with an empty log, and one with a full log that is half merged; a call that is under way gets no answer.
#[test]
fn all_is_merged(rt: HostRuntime) -> Result<(), Fail> {
    let mut play = Play::new(&rt, rt.alloc(), 1)?;
    play.finish(&rt);
    assert_eq!(rt; play.ended(1), (0, 0));
    play.lines(&rt, &first_put(1))?;
    play.lines(
        &rt,
        &[
            (Start(1, None, Put(b'b')), Numbered { number: 2 }),
            (Run(1), made(1, 2, Way::Pending)),
            (Merge(1), Acted),
            (Merge(1), Acted),
            (Merge(1), Acted),
            (Merge(1), Acted),
            (Merge(1), Acted),
            (Merge(1), Acted),
            (Merge(1), Acted),
            (Start(1, None, Put(b'c')), Numbered { number: 3 }),
            (Step(1), Acted),
        ],
    )?;
    play.finish(&rt);
    assert_eq!(rt; play.ended(1), (0x0000000200000006, 6));
    play.stands(&rt, &[(1, 0, 1), (2, 0, 1)]);
    Ok(())
}
