ghost use Rattle.std.specs.Prelude.{◌≡◌, ◌<◌, ◌≤◌, ◌↔◌, ◌++◌, [], false, drop, length, IfOk, IsSome, OnOk, OnErr};
ghost use Rattle.std.specs.Option.{option_to_list};
ghost use Rattle.dn_waiting.specs.Queues.{idle, attempts_at, with_task, with_attempt, is_release, is_queued};
ghost use Rattle.dn_waiting.specs.Turns.{next_at, left_at};

use crate::calls::Next;
use dn_hist::SessionView;
use dn_tend::Task;
use dn_word::OutOfMemory;
use std::alloc::Global;
use std::collections::VecDeque;
use std::marker::Model;

/// How many attempts a queue has room for: more than there are sessions.
const ATTEMPTS: usize = 1001;

/// How many slots there are.
const SLOTS: usize = 64;

/// What there is at a lane, apart from the lane's own state: the tasks and the attempts of calls that wait, each in order
/// of arrival, and the attempt that is under way.
///
/// There is always room for the attempts of all sessions, and for a release of each slot that isn't queued.
#[derive(Drop)]
pub struct Queues {
    tasks: VecDeque<Task>,
    attempts: VecDeque<SessionView>,
    begun: Option<SessionView>,
}

impl Model for Queues {
    ghost use Rattle.std.specs.Prelude.{◌+◌, ◌≤◌};
    ghost use Rattle.std.specs.VecDeque.{deque_len, deque_capacity};
    ghost use Rattle.dn_waiting.specs.Queues.{AtLane};
    ghost use Rattle.dn_waiting.specs.Room.{unqueued_below};

    ghost Value = { AtLane };

    ghost view = { λ q. record { tasks = q.tasks.items; queue = q.attempts.items; begun = q.begun } };

    ghost invariant = { λ q.
        (64 ≤ deque_capacity q.tasks) ×
        (unqueued_below q.tasks.items 64 + deque_len q.tasks ≤ deque_capacity q.tasks) ×
        (1001 ≤ deque_capacity q.attempts) };
}

impl Queues {
    /// A lane at which nothing waits and nothing is under way, or want of memory.
    pub fn new(alloc: Global) -> Result<Queues, OutOfMemory>
        ensures { IfOk result (λ at. at ≡ idle) }
    {
        Ok(Queues {
            tasks: VecDeque::with_capacity(alloc, SLOTS)?,
            attempts: VecDeque::with_capacity(alloc, ATTEMPTS)?,
            begun: None,
        })
    }

    /// The attempt that is under way.
    pub fn begun(&self) -> Option<SessionView>
        ensures { result ≡ self.now.begun }
    {
        self.begun
    }

    /// How many attempts there are, the one under way with them.
    pub fn len(&self) -> usize
        requires { length self.now.queue ≤ 1001 }
        ensures { result ≡ length (attempts_at self.now) }
    {
        self.attempts.len() + if self.begun.is_some() { 1 } else { 0 }
    }

    /// Whether a release of this slot waits.
    pub fn is_queued(&self, slot: u8) -> bool
        ensures { result ≡ is_queued slot self.now.tasks }
    {
        self.tasks.iter().any(|task| releases(slot, task))
    }

    /// Adds a task as the last. At want of memory nothing changes.
    pub fn queue_task(&mut self, task: Task) -> Result<(), OutOfMemory>
        ensures ok { OnOk result (self.new ≡ with_task self.old task) }
        ensures err { OnErr result (self.new ≡ self.old) }
    {
        self.tasks.reserve(SLOTS + 1)?;
        self.tasks.push_back_reserved(task);
        Ok(())
    }

    /// Adds a release of a slot (from 0 to 63), of which none waits, as the last task. It takes no memory.
    pub fn queue_release(&mut self, slot: u8)
        requires slot { slot < 64 }
        requires once { is_queued slot self.old.tasks ≡ false }
        ensures { self.new ≡ with_task self.old (Task.Release slot) }
    {
        self.tasks.push_back_reserved(Task::Release { slot });
    }

    /// Adds an attempt as the last. It takes no memory.
    pub fn queue_attempt(&mut self, view: SessionView)
        requires { length self.old.queue ≤ 1000 }
        ensures { self.new ≡ with_attempt self.old view }
    {
        self.attempts.push_back_reserved(view);
    }

    /// What is to be taken up next: a task before an attempt, each in order of arrival.
    pub fn next(&self) -> Next
        ensures { result ≡ next_at self.now }
    {
        if let Some(task) = self.tasks.front() {
            Next::Tend(*task)
        } else if let Some(view) = self.attempts.front() {
            Next::Try(*view)
        } else {
            Next::Rest
        }
    }

    /// Takes that up: it waits no more, and an attempt is under way.
    pub fn take_up(&mut self) -> Next
        ensures value { result ≡ next_at self.old }
        ensures after { self.new ≡ left_at self.old }
    {
        if let Some(task) = self.tasks.pop_front() {
            Next::Tend(task)
        } else if let Some(view) = self.attempts.pop_front() {
            self.begun = Some(view);
            Next::Try(view)
        } else {
            Next::Rest
        }
    }

    /// Ends the attempt under way, if any, and hands it out.
    pub fn finish(&mut self) -> Option<SessionView>
        ensures value { result ≡ self.old.begun }
        ensures after { self.new ≡ record self.old { begun = None } }
    {
        self.begun.take()
    }

    /// Takes an attempt out: the one under way, else the first that waits.
    pub fn leave(&mut self) -> Option<SessionView>
        ensures attempts { attempts_at self.old ≡ option_to_list result ++ attempts_at self.new }
        ensures some { IsSome result ↔ (0 < length (attempts_at self.old)) }
        ensures tasks { self.new.tasks ≡ self.old.tasks }
    {
        match self.begun.take() {
            Some(view) => Some(view),
            None => self.attempts.pop_front(),
        }
    }

    /// No task waits any more.
    pub fn drop_tasks(&mut self)
        ensures { self.new ≡ record self.old { tasks = [] } }
    {
        self.tasks.clear();
    }
}

/// Whether the task is a release of this slot.
fn releases(slot: u8, task: &Task) -> bool
    ensures { result ≡ is_release slot task.now }
{
    match task {
        Task::Release { slot: released } => *released == slot,
        _ => false,
    }
}
