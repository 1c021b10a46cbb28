ghost use Rattle.std.specs.Prelude.{◌≡◌, ◌+◌, ◌≤◌, ◌<◌, ◌++◌, length, vec_len, vec_capacity, replicate, IfOk, IsSome, OnOk, OnErr};
ghost use Rattle.std.specs.Option.{option_copied};
ghost use Rattle.dn_waiting.specs.Attempts.{opened, queued, refused, started, at_first, course_to, loaded, after_load, named_in, course_loaded, unloaded, course_refused, answered, course_at};
ghost use Rattle.dn_waiting.specs.Queues.{idle, is_queued};
ghost use Rattle.dn_waiting.specs.State.{nothing_waits, call_of, at_lane};
ghost use Rattle.dn_waiting.specs.Sound.{IsSound, IsSession, IsLane, IsLaneOrNone, IsLoading, Shows};
ghost use Rattle.dn_waiting.specs.Stops.{calls_at, count_at, stopped, waiting_from};
ghost use Rattle.dn_waiting.specs.Turns.{next_at, taken_up, tasked, released};

use crate::attempts::{first_lane, later_lane, move_to, refuse, settle};
use crate::calls::{AttemptEnd, Course, Next, OpenCall, Place};
use crate::queues::Queues;
use crate::stops::end_all;
use dn_hist::{Call, SessionView};
use dn_tend::Task;
use dn_word::OutOfMemory;
use std::alloc::Global;
use std::marker::Model;

/// How many sessions there are, with 0, which is nobody's.
const SESSIONS: u32 = 1001;

/// How many lanes there are, with 0, which is nobody's.
const LANES: usize = 64;

/// The calls of sessions 1 to 1,000 between their start and their end, and what waits at the lanes 1 to 63.
///
/// A session has at most one call. A call waits for the load of its deed, or has an attempt at one lane, which waits
/// there or is under way. Each attempt has the view that its session showed when it was put there. A lane takes up tasks
/// before attempts, each in order of arrival.
///
/// `new` takes the memory for that, some 1.6 million bytes: each lane has room for the attempts of all sessions and for a
/// release of each slot. Beside it only `queue_task` and `waiting` take any. Whether a task is under way at a lane is for
/// the lane to say.
#[derive(Drop)]
pub struct Waiting {
    calls: Vec<Option<OpenCall>>,
    lanes: Vec<Queues>,
}

impl Model for Waiting {
    ghost use Rattle.dn_waiting.specs.State.{WaitingState};
    ghost use Rattle.dn_waiting.specs.Sound.{IsSound};

    ghost Value = { WaitingState };

    ghost view = { λ w. record { calls = w.calls.items; lanes = w.lanes.items } };

    ghost invariant = { λ w. IsSound (record { calls = w.calls.items; lanes = w.lanes.items }) };
}

impl Waiting {
    /// No session has a call, and nothing waits at any lane; or want of memory.
    pub fn new(alloc: Global) -> Result<Waiting, OutOfMemory>
        ensures { IfOk result (λ w. w ≡ nothing_waits) }
    {
        Ok(Waiting {
            calls: no_calls(alloc, SESSIONS as usize)?,
            lanes: idle_lanes(alloc, LANES)?,
        })
    }

    /// The call of a session (from 1 to 1,000) that has no end yet, or none.
    pub fn call(&self, session: u32) -> Option<&OpenCall>
        requires { IsSession session }
        ensures { option_copied result ≡ call_of self.now session }
    {
        self.calls[session as usize].as_ref()
    }

    /// The view of the attempt that is under way at a lane (from 1 to 63), or none.
    pub fn begun(&self, lane: u8) -> Option<SessionView>
        requires { IsLane lane }
        ensures { result ≡ (at_lane self.now lane).begun }
    {
        self.lanes[lane as usize].begun()
    }

    /// A call begins, of a session that has none, with the view that its session shows. Its line may name a lane, from 1
    /// to 63; `route` is the session's route of the key's slot, up to 63, or 0 where it knows none.
    ///
    /// Without a route the deed is loaded first, be a lane named or not. Else the first attempt waits at the lane that is
    /// named, or at the route's.
    pub fn start(&mut self, call: Call, view: SessionView, lane: Option<u8>, route: u8) -> Course
        requires session { IsSession view.session }
        requires free { call_of self.old view.session ≡ None }
        requires lane { IsLaneOrNone lane }
        requires route { route ≤ 63 }
        ensures after { self.new ≡ started self.old call view lane route }
        ensures course { result ≡ course_to (at_first lane route) }
    {
        self.open(call, &view, lane);
        match first_lane(lane, route) {
            Some(lane) => self.queue(view, lane),
            None => Course::Load,
        }
    }

    /// The load of the deed that a session's call stands at has been made: `route` is the session's route by it, up to
    /// 63, or 0 where the deed names no lane. The view is the one that the session shows now.
    ///
    /// Where the line named a lane and no attempt was made yet, the first one waits there. Else the next one waits at the
    /// route's lane; without a route that is a refused attempt: the eighth gives the call up, and after another the deed
    /// is loaded again.
    pub fn loaded(&mut self, view: SessionView, route: u8) -> Course
        requires session { IsSession view.session }
        requires loading { IsLoading (call_of self.old view.session) }
        requires number { Shows view (call_of self.old view.session) }
        requires route { route ≤ 63 }
        ensures after { self.new ≡ loaded self.old view route }
        ensures course { let call = call_of self.old view.session in
            result ≡ course_loaded call (after_load (named_in call) route) }
    {
        match later_lane(self.named(view.session), route) {
            Some(lane) => self.queue(view, lane),
            None => self.refuse(view.session, None),
        }
    }

    /// The load of the deed that a session's call stands at has failed: that is a refused attempt. The eighth gives the
    /// call up; after another the load is made again, and the call then goes where it would have gone.
    pub fn load_failed(&mut self, session: u32) -> Course
        requires session { IsSession session }
        requires loading { IsLoading (call_of self.old session) }
        ensures after { self.new ≡ unloaded self.old session }
        ensures course { result ≡ course_refused (call_of self.old session) }
    {
        let named = self.named(session);
        self.refuse(session, named)
    }

    /// The attempt that is under way at a lane has ended. A call that was made, or for which there is no room, has no
    /// further attempt. After a refused one the deed is loaded, and the call then goes by the route; the eighth that is
    /// refused gives the call up.
    pub fn answered(&mut self, lane: u8, end: AttemptEnd) -> Course
        requires lane { IsLane lane }
        requires begun { IsSome (at_lane self.old lane).begun }
        ensures after { self.new ≡ answered self.old lane end }
        ensures course { result ≡ course_at self.old end (at_lane self.old lane).begun }
    {
        match self.lanes[lane as usize].finish() {
            Some(view) => settle(&mut self.calls, view.session, end),
            None => unreachable!(),
        }
    }

    /// What a lane takes up next: a task before an attempt, each in order of arrival, or nothing.
    pub fn next_for(&self, lane: u8) -> Next
        requires { IsLane lane }
        ensures { result ≡ next_at (at_lane self.now lane) }
    {
        self.lanes[lane as usize].next()
    }

    /// The lane takes that up: it waits no more, and where it is an attempt, that is under way from then on. The
    /// condition is that no attempt is under way there.
    pub fn take_up(&mut self, lane: u8) -> Next
        requires lane { IsLane lane }
        requires free { (at_lane self.old lane).begun ≡ None }
        ensures value { result ≡ next_at (at_lane self.old lane) }
        ensures after { self.new ≡ taken_up self.old lane }
    {
        let next = self.lanes[lane as usize].take_up();
        if let Next::Try(view) = next {
            move_to(&mut self.calls, view.session, Place::Begun { lane });
        }
        next
    }

    /// Whether a release of a slot (from 0 to 63) waits at a lane.
    pub fn is_queued(&self, lane: u8, slot: u8) -> bool
        requires { IsLane lane }
        ensures { result ≡ is_queued slot (at_lane self.now lane).tasks }
    {
        self.lanes[lane as usize].is_queued(slot)
    }

    /// A task arrives at a lane, behind the tasks that wait there. At want of memory nothing changes.
    pub fn queue_task(&mut self, lane: u8, task: Task) -> Result<(), OutOfMemory>
        requires { IsLane lane }
        ensures ok { OnOk result
            (self.new ≡ tasked self.old lane task) }
        ensures err { OnErr result (self.new ≡ self.old) }
    {
        self.lanes[lane as usize].queue_task(task)
    }

    /// A release of a slot (from 0 to 63) arrives at a lane, unless one of that slot waits there. It takes no memory.
    pub fn queue_release(&mut self, lane: u8, slot: u8)
        requires lane { IsLane lane }
        requires slot { slot < 64 }
        ensures { self.new ≡ released self.old lane slot }
    {
        if !self.is_queued(lane, slot) {
            self.lanes[lane as usize].queue_release(slot);
        }
    }

    /// How many calls have an attempt at a lane, waiting or under way.
    pub fn calls_at(&self, lane: u8) -> usize
        requires { IsLane lane }
        ensures { result ≡ count_at self.now lane }
    {
        self.lanes[lane as usize].len()
    }

    /// A lane is stopped: the calls with an attempt there end without an answer, the one under way first and then in
    /// order of arrival, and its tasks are dropped. They are added to `ended`, each by its session and its number; it has
    /// room for them.
    ///
    /// Where an attempt went to a lane that had been stopped before, a further stop ends it alone.
    pub fn stop(&mut self, lane: u8, ended: &mut Vec<(u32, u32)>)
        requires lane { IsLane lane }
        requires room { vec_len ended.old + count_at self.old lane ≤ vec_capacity ended.old }
        ensures after { self.new ≡ stopped self.old lane }
        ensures ended { ended.new.items ≡ ended.old.items ++ calls_at self.old lane }
    {
        end_all(&mut self.calls, &mut self.lanes[lane as usize], ended);
    }

    /// The calls that have no end yet, each by its session and its number, in order of session; or want of memory. It
    /// walks over all sessions.
    pub fn waiting(&self, alloc: Global) -> Result<Vec<(u32, u32)>, OutOfMemory>
        ensures { IfOk result (λ calls. calls.items ≡ waiting_from 0 self.now.calls) }
    {
        let mut waiting = Vec::new(alloc);
        for session in 0..SESSIONS {
            if let Some(call) = &self.calls[session as usize] {
                waiting.push((session, call.number))?;
            }
        }
        Ok(waiting)
    }

    /// What waits is sound, which contracts of `laws` speak of. It does nothing.
    pub fn sound(&self)
        ensures { IsSound self.now }
    {
        let _ = &self.calls;
    }

    /// The session has this call, whose deed is to be loaded.
    fn open(&mut self, call: Call, view: &SessionView, named: Option<u8>)
        requires session { IsSession view.now.session }
        requires free { call_of self.old view.now.session ≡ None }
        requires named { IsLaneOrNone named }
        ensures after { self.new ≡ opened self.old call view.now named }
        ensures loading { IsLoading (call_of self.new view.now.session) }
        ensures number { Shows view.now (call_of self.new view.now.session) }
    {
        self.calls[view.session as usize] = Some(OpenCall {
            number: view.number,
            call,
            refused: 0,
            place: Place::Loading { named },
        });
    }

    /// The lane to which a session's call goes after the load that it stands at.
    fn named(&self, session: u32) -> Option<u8>
        requires { IsSession session }
        ensures value { result ≡ named_in (call_of self.now session) }
        ensures lane { IsLaneOrNone result }
    {
        match &self.calls[session as usize] {
            Some(
                OpenCall {
                    place: Place::Loading { named },
                    ..
                },
            ) => *named,
            _ => None,
        }
    }

    /// An attempt waits at a lane.
    fn queue(&mut self, view: SessionView, lane: u8) -> Course
        requires session { IsSession view.session }
        requires loading { IsLoading (call_of self.old view.session) }
        requires number { Shows view (call_of self.old view.session) }
        requires lane { IsLane lane }
        ensures after { self.new ≡ queued self.old view lane }
        ensures course { result ≡ Course.Wait lane }
    {
        move_to(&mut self.calls, view.session, Place::Queued { lane });
        self.lanes[lane as usize].queue_attempt(view);
        Course::Wait { lane }
    }

    /// A load, or where it leads to, is refused.
    fn refuse(&mut self, session: u32, named: Option<u8>) -> Course
        requires session { IsSession session }
        requires loading { IsLoading (call_of self.old session) }
        requires named { IsLaneOrNone named }
        ensures after { self.new ≡ refused self.old session named }
        ensures course { result ≡ course_refused (call_of self.old session) }
    {
        refuse(&mut self.calls, session, named)
    }
}

/// The list of this many sessions without a call.
fn no_calls(alloc: Global, count: usize) -> Result<Vec<Option<OpenCall>>, OutOfMemory>
    ensures { IfOk result (λ calls. calls.items ≡ replicate count None) }
{
    let mut calls = Vec::with_capacity(alloc, count)?;
    while calls.len() < count {
        calls.push_reserved(None);
    }
    Ok(calls)
}

/// The list of this many lanes at which nothing waits.
fn idle_lanes(alloc: Global, count: usize) -> Result<Vec<Queues>, OutOfMemory>
    ensures { IfOk result (λ lanes. lanes.items ≡ replicate count idle) }
{
    let mut lanes = Vec::with_capacity(alloc, count)?;
    while lanes.len() < count {
        lanes.push_reserved(Queues::new(alloc)?);
    }
    Ok(lanes)
}
