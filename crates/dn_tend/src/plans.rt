ghost use Rattle.std.specs.Prelude.{◌≡◌};
ghost use Rattle.dn_word.specs.Regions.{IsLane};
ghost use Rattle.dn_tend.specs.Fit.{FitsTask, FitsFound, FitsNext, FitsRecord};
ghost use Rattle.dn_tend.specs.declared.tasks.TendSeal.{TendSeal};
ghost use Rattle.dn_tend.specs.Plan.{begun, begun_in, step_of, turn_of, located_next, roomed_next, sealed_next};
ghost use Rattle.dn_tend.specs.Program.{CarriesOut};
ghost use Rattle.dn_tend.specs.Sequence.{task_plan};

use crate::phases::{TendAct, TendAfter, TendNext, TendThen};
use crate::tasks::{Task, TendFound, TendStep};
use dn_plan::Effect;
use std::marker::Model;

/// A task of a lane under way.
#[derive(Clone, Copy)]
pub struct TendPlan {
    lane: u8,
    wait: TendNext,
}

impl Model for TendPlan {
    ghost use Rattle.dn_tend.specs.Plan.{Tending, IsTending};

    ghost Value = { Tending };

    ghost view = { λ t. record { lane = t.lane; wait = t.wait } };

    ghost inverse = { λ t. record { lane = t.lane; wait = t.wait } };

    ghost invariant = { λ t. IsTending (record { lane = t.lane; wait = t.wait }) };
}

/// The first wait of a task.
fn begin(lane: u8, task: Task) -> TendNext
    requires { FitsTask task }
    ensures value { result ≡ begun_in task }
    ensures fits { FitsNext lane result }
{
    let phase = match task {
        Task::Release { slot } => TendAct::Deed { slot },
        Task::Trim => TendAct::Mark,
        Task::Share { key } => TendAct::ShareLook { key },
        Task::Unshare { key } => TendAct::UnshareLook { key },
    };
    TendNext::After(TendAfter::Then(TendThen::Act(phase)))
}

impl TendPlan {
    /// The plan of a task of the lane with this number, from 1 to 63, before its first action.
    pub fn new(task: Task, lane: u8) -> TendPlan
        requires task { FitsTask task }
        requires lane { IsLane lane }
        ensures value { result ≡ begun lane task }
        ensures sequence { CarriesOut result (task_plan lane task) }
    {
        TendPlan {
            lane,
            wait: begin(lane, task),
        }
    }

    /// What the task asks for.
    pub fn step(&self) -> TendStep
        ensures value { result ≡ step_of self.now }
        ensures fits { (seal : TendSeal) → result ≡ TendStep.Seal seal → FitsRecord seal }
    {
        match self.wait {
            TendNext::Locate(_) => TendStep::Locate,
            TendNext::After(TendAfter::Room(_)) => TendStep::Room,
            TendNext::After(TendAfter::Then(TendThen::Act(phase))) => {
                TendStep::Act(phase.action(self.lane))
            }
            TendNext::After(TendAfter::Then(TendThen::Seal(phase))) => {
                TendStep::Seal(phase.sealing())
            }
            TendNext::After(TendAfter::Then(TendThen::Done(answer))) => TendStep::Done(answer),
        }
    }

    /// Takes the word that the action found, and answers what the lane learns by it. A task that asks for no action
    /// stays.
    pub fn take(&mut self, word: u64) -> Option<Effect>
        ensures effect { result ≡ (turn_of self.old word).effect }
        ensures after { self.new ≡ record self.old { wait = (turn_of self.old word).next } }
    {
        let TendNext::After(TendAfter::Then(TendThen::Act(phase))) = self.wait else {
            return None;
        };
        let turn = phase.take(self.lane, word);
        self.wait = turn.next;
        turn.effect
    }

    /// The key is located. A task that doesn't ask for it stays.
    pub fn located(&mut self, found: TendFound)
        requires { FitsFound found }
        ensures { self.new ≡ record self.old { wait = located_next found self.old.wait } }
    {
        if let TendNext::Locate(phase) = self.wait {
            self.wait = TendNext::After(phase.located(self.lane, found));
        }
    }

    /// There is room for the record. A task that doesn't ask for it stays.
    pub fn roomed(&mut self)
        ensures { self.new ≡ record self.old { wait = roomed_next self.old.wait } }
    {
        if let TendNext::After(TendAfter::Room(phase)) = self.wait {
            self.wait = TendNext::After(TendAfter::Then(phase.roomed(self.lane)));
        }
    }

    /// The record is sealed. A task that doesn't ask for it stays.
    pub fn sealed(&mut self)
        ensures { self.new ≡ record self.old { wait = sealed_next self.old.wait } }
    {
        if let TendNext::After(TendAfter::Then(TendThen::Seal(phase))) = self.wait {
            self.wait = phase.sealed(self.lane);
        }
    }
}
