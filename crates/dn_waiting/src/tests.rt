//! Sessions 1 to 9 with calls on key 7; the number of a session's first call is 10 times the session's. What is expected
//! was worked out by hand from what the calls promise in words.

ghost use Rattle.std.specs.Prelude.{◌≡◌, IsTrue};
ghost use Rattle.std.specs.Option.{option_copied};
ghost use Rattle.dn_waiting.specs.Sound.{IsSession, IsLane, IsLaneOrNone, IsLoading, Shows};

use crate::{AttemptEnd, Course, Next, OpenCall, Place, Waiting};
use dn_hist::{Call, SessionView};
use dn_tend::Task;
use dn_word::{OutOfMemory, Position};
use std::process::Abort;
use std::test::Fail;

/// What is done, and what comes of it. A view is told by its session and its number.
#[derive(Clone, Copy)]
enum Step {
    /// A call of a session that has none begins: its view, the lane of its line, its route.
    Start(u32, u32, Option<u8>, u8, Course),
    /// The deed of a session's call is loaded: its view, its route.
    Load(u32, u32, u8, Course),
    /// That load fails.
    Fail(u32, u32, Course),
    /// A lane without an attempt under way takes up an attempt.
    Try(u8, u32, u32),
    /// It takes up a task.
    Tend(u8, Task),
    /// Nothing waits there.
    Rest(u8),
    /// The attempt under way at a lane ends.
    End(u8, AttemptEnd, Course),
    /// A task arrives at a lane.
    Queue(u8, Task),
    /// A release of a slot does.
    Release(u8, u8),
}

/// The view that a session shows with its call of this number.
fn view(session: u32, number: u32) -> SessionView
    ensures { result.session ≡ session }
{
    SessionView {
        session,
        number,
        last: Position {
            stamp: 3,
            rank: 0,
            session,
        },
        hint: None,
    }
}

/// Whether the call is to load a deed, and the view shows its number.
fn is_loading(call: Option<&OpenCall>, view: &SessionView) -> bool
    ensures loading { IsTrue result → IsLoading (option_copied call.entry) }
    ensures number { IsTrue result → Shows view.now (option_copied call.entry) }
{
    match call {
        Some(call) => {
            let loads = match call.place {
                Place::Loading { .. } => true,
                _ => false,
            };
            loads && call.number == view.number
        }
        None => false,
    }
}

/// Whether a session has this number.
fn is_session(session: u32) -> bool
    ensures { IsTrue result → IsSession session }
{
    1 <= session && session <= 1000
}

/// Whether a lane has this number.
fn is_lane(lane: u8) -> bool
    ensures { IsTrue result → IsLane lane }
{
    1 <= lane && lane <= 63
}

/// Whether it is a lane's number, where there is one.
fn is_lane_or_none(lane: Option<u8>) -> bool
    ensures { IsTrue result → IsLaneOrNone lane }
{
    match lane {
        Some(lane) => is_lane(lane),
        None => true,
    }
}

/// A call begins.
fn start(
    rt: &impl Abort,
    waiting: &mut Waiting,
    view: SessionView,
    lane: Option<u8>,
    route: u8,
) -> Course {
    assert!(rt; is_session(view.session));
    assert!(rt; is_lane_or_none(lane));
    assert!(rt; route <= 63);
    assert!(rt; waiting.call(view.session).is_none());
    waiting.start(Call::Delete { key: 7 }, view, lane, route)
}

/// The deed of a session's call is loaded.
fn load(rt: &impl Abort, waiting: &mut Waiting, view: SessionView, route: u8) -> Course {
    assert!(rt; is_session(view.session));
    assert!(rt; route <= 63);
    assert!(rt; is_loading(waiting.call(view.session), &view));
    waiting.loaded(view, route)
}

/// That load fails.
fn fail(rt: &impl Abort, waiting: &mut Waiting, view: SessionView) -> Course {
    assert!(rt; is_session(view.session));
    assert!(rt; is_loading(waiting.call(view.session), &view));
    waiting.load_failed(view.session)
}

/// A lane takes up what is next, which it was told before.
fn take(rt: &impl Abort, waiting: &mut Waiting, lane: u8) -> Next {
    assert!(rt; is_lane(lane));
    assert!(rt; waiting.begun(lane).is_none());
    let next = waiting.next_for(lane);
    let taken = waiting.take_up(lane);
    assert!(rt; next == taken);
    taken
}

/// The attempt under way at a lane ends.
fn end(rt: &impl Abort, waiting: &mut Waiting, lane: u8, end: AttemptEnd) -> Course {
    assert!(rt; is_lane(lane));
    assert!(rt; waiting.begun(lane).is_some());
    waiting.answered(lane, end)
}

/// A task arrives at a lane.
fn arrive(rt: &impl Abort, waiting: &mut Waiting, lane: u8, task: Task) -> Result<(), OutOfMemory> {
    assert!(rt; is_lane(lane));
    waiting.queue_task(lane, task)
}

/// A release of a slot does, which waits from then on.
fn release(rt: &impl Abort, waiting: &mut Waiting, lane: u8, slot: u8) {
    assert!(rt; is_lane(lane));
    assert!(rt; slot < 64);
    waiting.queue_release(lane, slot);
    assert!(rt; waiting.is_queued(lane, slot));
}

/// A lane is stopped: these calls end there.
fn stop(
    rt: &impl Abort,
    waiting: &mut Waiting,
    ended: &mut Vec<(u32, u32)>,
    lane: u8,
) -> Result<(), OutOfMemory> {
    assert!(rt; is_lane(lane));
    ended.reserve(waiting.calls_at(lane))?;
    waiting.stop(lane, ended);
    Ok(())
}

/// Does a step and compares what comes of it.
fn play(rt: &impl Abort, waiting: &mut Waiting, step: Step) -> Result<(), OutOfMemory> {
    match step {
        Step::Start(session, number, lane, route, course) => {
            assert!(rt; start(rt, waiting, view(session, number), lane, route) == course);
        }
        Step::Load(session, number, route, course) => {
            assert!(rt; load(rt, waiting, view(session, number), route) == course);
        }
        Step::Fail(session, number, course) => {
            assert!(rt; fail(rt, waiting, view(session, number)) == course);
        }
        Step::Try(lane, session, number) => {
            assert!(rt; take(rt, waiting, lane) == Next::Try(view(session, number)));
        }
        Step::Tend(lane, task) => assert!(rt; take(rt, waiting, lane) == Next::Tend(task)),
        Step::Rest(lane) => assert!(rt; take(rt, waiting, lane) == Next::Rest),
        Step::End(lane, how, course) => {
            assert!(rt; end(rt, waiting, lane, how) == course);
        }
        Step::Queue(lane, task) => arrive(rt, waiting, lane, task)?,
        Step::Release(lane, slot) => release(rt, waiting, lane, slot),
    }
    Ok(())
}

/// Does steps one after another.
fn play_all(rt: &impl Abort, waiting: &mut Waiting, steps: &[Step]) -> Result<(), OutOfMemory> {
    for step in steps {
        play(rt, waiting, *step)?;
    }
    Ok(())
}

#[test]
fn lanes_of_attempts(rt: HostRuntime) -> Result<(), Fail> {
    let mut waiting = Waiting::new(rt.alloc())?;
    let steps = [
        Step::Start(5, 50, None, 3, Course::Wait { lane: 3 }),
        Step::Start(6, 60, Some(9), 3, Course::Wait { lane: 9 }),
        Step::Start(7, 70, Some(9), 0, Course::Load),
        Step::Start(8, 80, None, 0, Course::Load),
        Step::Load(7, 70, 0, Course::Wait { lane: 9 }),
        Step::Load(8, 80, 4, Course::Wait { lane: 4 }),
        Step::Try(9, 6, 60),
        Step::End(9, AttemptEnd::Refused, Course::Load),
        Step::Load(6, 60, 4, Course::Wait { lane: 4 }),
        Step::Try(9, 7, 70),
        Step::Try(4, 8, 80),
        Step::End(4, AttemptEnd::Made, Course::Answered),
        Step::Try(4, 6, 60),
        Step::End(4, AttemptEnd::Spent, Course::GivenUp),
        Step::Start(8, 81, None, 4, Course::Wait { lane: 4 }),
    ];
    play_all(&rt, &mut waiting, &steps)?;
    let left = waiting.waiting(rt.alloc())?;
    assert!(rt; left.as_slice() == [(5, 50), (7, 70), (8, 81)].as_slice());
    Ok(())
}

#[test]
fn eight_refused_attempts(rt: HostRuntime) -> Result<(), Fail> {
    let mut waiting = Waiting::new(rt.alloc())?;
    let first = [Step::Start(1, 10, Some(2), 3, Course::Wait { lane: 2 })];
    play_all(&rt, &mut waiting, &first)?;
    let refused = [
        Step::Try(2, 1, 10),
        Step::End(2, AttemptEnd::Refused, Course::Load),
        Step::Load(1, 10, 2, Course::Wait { lane: 2 }),
    ];
    for _ in 0..7 {
        play_all(&rt, &mut waiting, &refused)?;
    }
    let last = [
        Step::Try(2, 1, 10),
        Step::End(2, AttemptEnd::Refused, Course::GivenUp),
        Step::Rest(2),
    ];
    play_all(&rt, &mut waiting, &last)?;
    Ok(())
}

#[test]
fn loads_are_refused(rt: HostRuntime) -> Result<(), Fail> {
    let mut waiting = Waiting::new(rt.alloc())?;
    let steps = [
        Step::Start(1, 11, Some(9), 0, Course::Load),
        Step::Fail(1, 11, Course::Load),
        Step::Fail(1, 11, Course::Load),
        Step::Fail(1, 11, Course::Load),
        Step::Load(1, 11, 5, Course::Wait { lane: 9 }),
        Step::Try(9, 1, 11),
        Step::End(9, AttemptEnd::Refused, Course::Load),
        Step::Load(1, 11, 0, Course::Load),
        Step::Load(1, 11, 0, Course::Load),
        Step::Fail(1, 11, Course::Load),
        Step::Load(1, 11, 0, Course::GivenUp),
    ];
    play_all(&rt, &mut waiting, &steps)?;
    let left = waiting.waiting(rt.alloc())?;
    assert!(rt; left.is_empty());
    Ok(())
}

#[test]
fn tasks_before_calls(rt: HostRuntime) -> Result<(), Fail> {
    let mut waiting = Waiting::new(rt.alloc())?;
    let steps = [
        Step::Start(2, 20, None, 63, Course::Wait { lane: 63 }),
        Step::Queue(63, Task::Trim),
        Step::Release(63, 7),
        Step::Queue(63, Task::Share { key: 7 }),
        Step::Start(1, 10, None, 63, Course::Wait { lane: 63 }),
        Step::Release(63, 7),
        Step::Release(63, 0),
        Step::Tend(63, Task::Trim),
        Step::Tend(63, Task::Release { slot: 7 }),
        Step::Tend(63, Task::Share { key: 7 }),
        Step::Tend(63, Task::Release { slot: 0 }),
        Step::Try(63, 2, 20),
        Step::Release(63, 7),
        Step::End(63, AttemptEnd::Made, Course::Answered),
        Step::Tend(63, Task::Release { slot: 7 }),
        Step::Try(63, 1, 10),
        Step::End(63, AttemptEnd::Made, Course::Answered),
        Step::Rest(63),
    ];
    play_all(&rt, &mut waiting, &steps)?;
    Ok(())
}

#[test]
fn a_lane_is_stopped(rt: HostRuntime) -> Result<(), Fail> {
    let mut waiting = Waiting::new(rt.alloc())?;
    let steps = [
        Step::Start(9, 90, None, 5, Course::Wait { lane: 5 }),
        Step::Start(3, 30, Some(5), 1, Course::Wait { lane: 5 }),
        Step::Start(4, 40, None, 6, Course::Wait { lane: 6 }),
        Step::Start(2, 20, Some(5), 1, Course::Wait { lane: 5 }),
        Step::Start(6, 60, Some(5), 0, Course::Load),
        Step::Try(5, 9, 90),
        Step::Queue(5, Task::Trim),
    ];
    play_all(&rt, &mut waiting, &steps)?;
    let mut ended = Vec::new(rt.alloc());
    ended.push((1, 10))?;
    stop(&rt, &mut waiting, &mut ended, 5)?;
    assert!(rt; ended.as_slice() == [(1, 10), (9, 90), (3, 30), (2, 20)].as_slice());
    let left = waiting.waiting(rt.alloc())?;
    assert!(rt; left.as_slice() == [(4, 40), (6, 60)].as_slice());
    let steps = [
        Step::Rest(5),
        Step::Start(9, 91, None, 6, Course::Wait { lane: 6 }),
        Step::Load(6, 60, 6, Course::Wait { lane: 5 }),
        Step::Try(6, 4, 40),
    ];
    play_all(&rt, &mut waiting, &steps)?;
    ended.clear();
    stop(&rt, &mut waiting, &mut ended, 5)?;
    assert!(rt; ended.as_slice() == [(6, 60)].as_slice());
    Ok(())
}
