ghost use Rattle.std.specs.Prelude.{◌≡◌, ◌≢◌, ◌<◌, ◌≤◌, ◌^◌, [], Some, None, true, false, length, IfOk, OnOk, OnErr, IfErr, IfSome};
ghost use Rattle.dn_word.specs.Regions.{IsLane};
ghost use Rattle.dn_act.specs.Action.{at_of};
ghost use Rattle.dn_act.specs.Words.{pool_size};
ghost use Rattle.dn_hist.specs.Calls.{key_of};
ghost use Rattle.dn_log.specs.Staged.{flow_of};
ghost use Rattle.dn_tend.specs.Fit.{FitsTask};
ghost use Rattle.dn_tend.specs.declared.tasks.TaskAnswer.{TaskAnswer};
ghost use Rattle.dn_lane.specs.Asked.{view_in};
ghost use Rattle.dn_lane.specs.State.{LaneState, fresh, reserved, begun, begun_task, first_of, halted};
ghost use Rattle.dn_lane.specs.Refused.{refusal_of, Refuses};
ghost use Rattle.dn_lane.specs.Next.{next_of};
ghost use Rattle.dn_lane.specs.Turns.{turn_of, left_of, flowed_of, next_ending, ending_of};
ghost use Rattle.dn_lane.specs.Program.{Follows};
ghost use Rattle.dn_lane.specs.Sequence.{call_sequence, task_sequence};
ghost use Rattle.dn_lane.specs.Left.{mode_left, is_working, is_sealing};
ghost use Rattle.dn_lane.specs.Fit.{SameLane};
ghost use Rattle.dn_lane.specs.CallCauses.{CallCause};
ghost use Rattle.dn_hist.specs.declared.receipts.Receipt.{Receipt};
ghost use Rattle.dn_plan.specs.declared.phases.Way.{Way};
ghost use Rattle.dn_lane.specs.declared.answers.Answer.{Answer};
ghost use Rattle.dn_lane.specs.Footprint.{IsOfLane};
ghost use Rattle.dn_lane.specs.TaskCauses.{TaskCause};

use crate::answers::{Refuse, Turn};
use crate::asked::Asked;
use crate::base::Base;
use crate::ends::{finish, receipt_by};
use crate::modes::{Going, Mode};
use crate::steps::step;
use dn_act::Action;
use dn_ask::{Act, Next};
use dn_hist::{Call, Receipt, SessionView};
use dn_known::Known;
use dn_locate::Fetch;
use dn_log::Staging;
use dn_plan::ActPhase;
use dn_tend::{Task, TendAct};
use dn_word::{OutOfMemory, Ref, ValueRoom};
use std::alloc::Global;
use std::marker::Model;
use std::mem;

/// A lane, DINOMO's KVS node: it carries out one plan at a time, of a call or a task. Contracts see what it has beside
/// its plan, what it was asked, and what it does for its plan.
#[derive(Drop)]
pub struct Lane {
    alloc: Global,
    base: Base,
    asked: Asked,
    mode: Mode,
}

impl Model for Lane {
    ghost use Rattle.dn_lane.specs.State.{LaneState};

    ghost Value = { LaneState };

    ghost use Rattle.dn_lane.specs.Inside.{state_of, IsInside};

    ghost view = { state_of };

    ghost invariant = { IsInside };
}

/// The first action of a task.
fn first_of(task: Task) -> TendAct
    ensures { result ≡ first_of task }
{
    match task {
        Task::Release { slot } => TendAct::Deed { slot },
        Task::Trim => TendAct::Mark,
        Task::Share { key } => TendAct::ShareLook { key },
        Task::Unshare { key } => TendAct::UnshareLook { key },
    }
}

impl Lane {
    /// The lane of this number, from 1 to 63, in a pool of so many segments, at most 8,192. Its log is empty, and nothing
    /// is under way. Answers want of memory, or the lane.
    pub fn new(alloc: Global, lane: u8, segments: u32) -> Result<Lane, OutOfMemory>
        requires lane { IsLane lane }
        requires segments { segments ≤ 8192 }
        ensures { IfOk result (λ made. made ≡ fresh lane segments) }
    {
        let known = Known::new(alloc, lane, segments)?;
        let staging = Staging::new(alloc)?;
        let mut fetch = Fetch::new(alloc)?;
        fetch.of_pool(segments);
        Ok(Lane {
            alloc,
            base: Base {
                known,
                staging,
                fetch,
            },
            asked: Asked::Nothing,
            mode: Mode::Idle,
        })
    }

    /// Its number.
    pub fn number(&self) -> u8
        ensures { result ≡ self.now.base.known.log.lane }
    {
        self.base.known.number()
    }

    /// Whether a call or task is under way.
    pub fn working(&self) -> bool
        ensures { result ≡ is_working self.now.mode }
    {
        !matches!(self.mode, Mode::Idle)
    }

    /// The number of the session whose call is under way; 0 where none is, which no session has.
    pub fn session(&self) -> u32
        ensures { result ≡ (view_in self.now.asked).session }
    {
        self.asked.session()
    }

    /// How many words wait to flow. None waits but where a record is sealed.
    pub fn staged(&self) -> u32
        ensures value { result ≡ length self.now.base.staging }
        ensures waits { is_sealing self.now.mode ≡ false → result ≡ 0 }
    {
        self.base.staging.len()
    }

    /// Why the lane begins nothing, if so.
    fn refusal(&self) -> Option<Refuse>
        ensures { result ≡ refusal_of self.now }
    {
        if let Mode::Idle = self.mode {
            return match self.base.known.barred() {
                Some(word) => Some(Refuse::Fenced { word }),
                None => None,
            };
        }
        Some(Refuse::Busy {
            number: self.asked.number(),
        })
    }

    /// Begins a call, and takes all memory that it will need: for a copy of the call, for a value that it finds, and for
    /// the places of the records that it seals. The call's session shows itself by `session`; the call's key isn't 0.
    /// Calls on a key that lanes share aren't served yet: a get finds no value, and a put or delete seals its record
    /// beside the key's cell. So no lane may be asked to share a key on which it is given calls.
    ///
    /// After `Ok` the lane runs the program of the call to its end, whatever words its actions find. `Busy` comes exactly
    /// where a call or task is under way, `Fenced` where none is and an earlier one read the bit of a
    /// fence, or another gate than it had loaded, and `OutOfMemory` only where neither is so. After each of them nothing
    /// is changed.
    pub fn begin(&mut self, session: &SessionView, call: &Call) -> Result<(), Refuse>
        requires key { key_of call.now ≢ 0 }
        requires last { session.now.last.stamp < 2 ^ 31 }
        requires hint { session.now.hint ≡ None }
        ensures ok { OnOk result (self.new ≡ begun self.old session.now call.now) }
        ensures sequence { OnOk result (Follows self.new (call_sequence
            self.old.base.known.log.pool (reserved self.old.base).known
            (Asked.Call call.now session.now []))) }
        ensures free { OnOk result (refusal_of self.old ≡ None) }
        ensures cause { IfErr result (Refuses (refusal_of self.old)) }
        ensures same { OnErr result (self.new ≡ self.old) }
    {
        if let Some(refuse) = self.refusal() {
            return Err(refuse);
        }
        let Ok(call) = call.copy(self.alloc) else {
            return Err(Refuse::OutOfMemory);
        };
        let Ok(room) = ValueRoom::new(self.alloc) else {
            return Err(Refuse::OutOfMemory);
        };
        if self.base.known.reserve().is_err() {
            return Err(Refuse::OutOfMemory);
        }
        self.asked = Asked::Call {
            call,
            view: *session,
            room,
        };
        self.mode = Mode::Acting {
            wait: Act::Call(ActPhase::Look),
        };
        Ok(())
    }

    /// Begins a task, and takes all memory that it will need. After `Ok` the lane runs the program of the task to its end.
    /// It is refused as a call is, and then nothing is changed.
    pub fn begin_task(&mut self, task: Task) -> Result<(), Refuse>
        requires { FitsTask task }
        ensures ok { OnOk result (self.new ≡ begun_task self.old task) }
        ensures sequence { OnOk result (Follows self.new (task_sequence
            self.old.base.known.log.pool (reserved self.old.base).known task)) }
        ensures free { OnOk result (refusal_of self.old ≡ None) }
        ensures cause { IfErr result (Refuses (refusal_of self.old)) }
        ensures same { OnErr result (self.new ≡ self.old) }
    {
        if let Some(refuse) = self.refusal() {
            return Err(refuse);
        }
        if self.base.known.reserve().is_err() {
            return Err(Refuse::OutOfMemory);
        }
        self.asked = Asked::Task;
        self.mode = Mode::Acting {
            wait: Act::Task(first_of(task)),
        };
        Ok(())
    }

    /// The next action of the plan under way, on a word of the pool: None exactly where no plan is. While words wait to
    /// flow it is the store of the oldest. A lane stores words of its own that wait, and keys of cells; it exchanges its own
    /// gate, the deed of a slot that it is asked to leave, and cells; it adds 1 to the counter of segments and to that of
    /// cells; else it loads.
    pub fn next(&self) -> Option<Action>
        ensures value { result ≡ next_of self.now }
        ensures footprint { IfSome result (IsOfLane self.now.base.known.log.lane
            self.now.base.staging) }
        ensures within { IfSome result (λ action.
            at_of action < pool_size self.now.base.known.log.pool) }
    {
        match self.mode {
            Mode::Idle => None,
            Mode::Acting { wait } => Some(wait.action(&self.asked.brief(self.base.known.number()))),
            Mode::Finding { find, .. } => Some(find.next(&self.base.fetch)),
            Mode::Claiming { claim, .. } => Some(claim.next()),
            Mode::Sealing { seal, .. } => Some(seal.next(&self.base.known, &self.base.staging)),
        }
    }

    /// Takes the word that the action of `next` found, and goes on or ends the plan. It takes no memory. Each answer comes
    /// after the action, and by the word, that is its cause. Each word that ends no plan lowers the bound on the actions
    /// that are left, so that a plan ends.
    pub fn take(&mut self, word: u64) -> Turn
        ensures turn { result ≡ turn_of self.old word }
        ensures lane { self.new ≡ left_of self.old word }
        ensures cause { (answer : Answer) → result ≡ Turn.Done answer
            → CallCause self.old word answer }
        ensures task_cause { (answer : TaskAnswer) → result ≡ Turn.Tended answer
            → TaskCause self.old word answer }
        ensures ending { (receipt : Receipt) (way : Way) → is_sealing self.old.mode ≡ true
            → result ≡ Turn.Done (Answer.Made receipt way)
            → ending_of self.old ≡ Some receipt }
        ensures same { SameLane self.old.base self.new.base }
        ensures falls { is_working self.old.mode ≡ true
            → mode_left self.new.base self.new.mode < mode_left self.old.base self.old.mode }
    {
        match step(&mut self.base, &mut self.asked, self.mode, word) {
            Going::On { mode } => {
                self.mode = mode;
                Turn::More
            }
            Going::End { end } => {
                self.mode = Mode::Idle;
                let asked = mem::replace(&mut self.asked, Asked::Nothing);
                finish(self.base.known.number(), asked, end)
            }
        }
    }

    /// The store of the staged word at this place from the oldest, which is 0. None exactly where no more than `index`
    /// words wait. While words wait, any of them may flow next.
    pub fn flow(&self, index: u32) -> Option<Action>
        ensures value { result ≡ flow_of self.now.base.staging index }
        ensures within { IfSome result (λ action.
            at_of action < pool_size self.now.base.known.log.pool) }
    {
        self.base.staging.flow(index)
    }

    /// That word has flowed, where it is there; the others keep their order.
    pub fn flowed(&mut self, index: u32)
        ensures { self.new ≡ flowed_of self.old index }
    {
        self.base.staging.flowed(index);
    }

    /// How the plan would go on after the exchange of the gate, where that is the next action.
    fn ending(&self) -> Option<Next>
        ensures { result ≡ next_ending self.now.base self.now.mode }
    {
        match self.mode {
            Mode::Sealing { wait, seal } if self.base.staging.is_empty() => {
                let lane = self.base.known.number();
                let at = Ref {
                    lane,
                    offset: self.base.known.log().plan(seal.words).at,
                };
                Some(wait.sealed(&self.asked.brief(lane), at, seal.gate).next)
            }
            _ => None,
        }
    }

    /// Ends the plan under way and loses the staged words. It takes no memory. The receipt is that of a put or delete
    /// whose gate was to be exchanged next: the one that this exchange would make.
    pub fn halt(&mut self) -> Option<Receipt>
        ensures receipt { result ≡ ending_of self.old }
        ensures lane { self.new ≡ halted self.old }
    {
        let next = self.ending();
        self.mode = Mode::Idle;
        self.base.staging.clear();
        let asked = mem::replace(&mut self.asked, Asked::Nothing);
        match next {
            Some(next) => receipt_by(asked, next),
            None => None,
        }
    }
}
