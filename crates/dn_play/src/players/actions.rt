//! The actions of a line, but for a lane's step: an event each, whose outcome prints a line or none.

ghost use Rattle.std.specs.Prelude.{◌≡◌, ◌<◌, IfOk, IfErr, OnOk};
ghost use Rattle.dn_outcomes.specs.declared.events.Event.TheVariants as happens;
ghost use Rattle.dn_tend.specs.declared.tasks.Task.TheVariants as task;
ghost use Rattle.dn_play.specs.At.{CanGo, Goes, Halts, Awaits, left_by, CountsStop};

use super::Player;
use crate::printing::{print_add, print_lane, print_nothing};
use crate::stops::Stop;
use dn_act::Memory;
use dn_outcomes::{Event, Outcome};
use dn_tend::Task;

impl Player {
    /// The merger of a lane makes its next action.
    pub(super) fn merge<M: Memory>(
        &mut self,
        mem: &mut M,
        out: &mut Vec<u8>,
        lane: u8,
    ) -> Result<Outcome, Stop>
        requires can { CanGo (M.words mem.old) self.old out.old.items
            (Awaits (happens.Merge lane)) }
        ensures goes { IfOk result (λ o. Goes (M.words mem.old) self.old out.old.items
            (M.words mem.new) self.new out.new.items (Awaits (happens.Merge lane)) (left_by o)) }
        ensures halts { IfErr result (Halts (M.words mem.old) self.old out.old.items
            (M.words mem.new) self.new out.new.items (Awaits (happens.Merge lane))) }
        ensures more { OnOk result (self.old.events < self.new.events) }
        ensures count { OnOk result (M.faults mem.new ≡ M.faults mem.old) }
        ensures faults { IfErr result (CountsStop (M.faults mem.old) (M.faults mem.new)) }
    {
        let outcome = match self.event(mem, Event::Merge { lane }) {
            Ok(outcome) => outcome,
            Err(stop) => return Err(stop),
        };
        match print_lane(out, lane, outcome) {
            Ok(()) => Ok(outcome),
            Err(stop) => Err(stop),
        }
    }

    /// A staged word of a lane flows.
    pub(super) fn flow<M: Memory>(
        &mut self,
        mem: &mut M,
        out: &mut Vec<u8>,
        lane: u8,
        index: u32,
    ) -> Result<Outcome, Stop>
        requires can { CanGo (M.words mem.old) self.old out.old.items
            (Awaits (happens.Flow lane index)) }
        ensures goes { IfOk result (λ o. Goes (M.words mem.old) self.old out.old.items
            (M.words mem.new) self.new out.new.items (Awaits (happens.Flow lane index))
            (left_by o)) }
        ensures halts { IfErr result (Halts (M.words mem.old) self.old out.old.items
            (M.words mem.new) self.new out.new.items (Awaits (happens.Flow lane index))) }
        ensures count { OnOk result (M.faults mem.new ≡ M.faults mem.old) }
        ensures faults { IfErr result (CountsStop (M.faults mem.old) (M.faults mem.new)) }
    {
        let outcome = match self.event(mem, Event::Flow { lane, index }) {
            Ok(outcome) => outcome,
            Err(stop) => return Err(stop),
        };
        match print_lane(out, lane, outcome) {
            Ok(()) => Ok(outcome),
            Err(stop) => Err(stop),
        }
    }

    /// A lane is added.
    pub(super) fn add<M: Memory>(&mut self, mem: &mut M, out: &mut Vec<u8>) -> Result<Outcome, Stop>
        requires can { CanGo (M.words mem.old) self.old out.old.items
            (Awaits (happens.Add)) }
        ensures goes { IfOk result (λ o. Goes (M.words mem.old) self.old out.old.items
            (M.words mem.new) self.new out.new.items (Awaits (happens.Add)) (left_by o)) }
        ensures halts { IfErr result (Halts (M.words mem.old) self.old out.old.items
            (M.words mem.new) self.new out.new.items (Awaits (happens.Add))) }
        ensures count { OnOk result (M.faults mem.new ≡ M.faults mem.old) }
        ensures faults { IfErr result (CountsStop (M.faults mem.old) (M.faults mem.new)) }
    {
        let outcome = match self.event(mem, Event::Add) {
            Ok(outcome) => outcome,
            Err(stop) => return Err(stop),
        };
        match print_add(out, outcome) {
            Ok(()) => Ok(outcome),
            Err(stop) => Err(stop),
        }
    }

    /// A session is told another one's last position.
    pub(super) fn tell<M: Memory>(
        &mut self,
        mem: &mut M,
        out: &mut Vec<u8>,
        from: u32,
        to: u32,
    ) -> Result<Outcome, Stop>
        requires can { CanGo (M.words mem.old) self.old out.old.items
            (Awaits (happens.Tell from to)) }
        ensures goes { IfOk result (λ o. Goes (M.words mem.old) self.old out.old.items
            (M.words mem.new) self.new out.new.items (Awaits (happens.Tell from to)) (left_by o)) }
        ensures halts { IfErr result (Halts (M.words mem.old) self.old out.old.items
            (M.words mem.new) self.new out.new.items (Awaits (happens.Tell from to))) }
        ensures count { OnOk result (M.faults mem.new ≡ M.faults mem.old) }
        ensures faults { IfErr result (CountsStop (M.faults mem.old) (M.faults mem.new)) }
    {
        let outcome = match self.event(mem, Event::Tell { from, to }) {
            Ok(outcome) => outcome,
            Err(stop) => return Err(stop),
        };
        match print_nothing(out) {
            Ok(()) => Ok(outcome),
            Err(stop) => Err(stop),
        }
    }

    /// A lane is asked to forget its pending records below the merged mark: the task is queued there.
    pub(super) fn trim<M: Memory>(
        &mut self,
        mem: &mut M,
        out: &mut Vec<u8>,
        lane: u8,
    ) -> Result<Outcome, Stop>
        requires can { CanGo (M.words mem.old) self.old out.old.items
            (Awaits (happens.Queue lane task.Trim)) }
        ensures goes { IfOk result (λ o. Goes (M.words mem.old) self.old out.old.items
            (M.words mem.new) self.new out.new.items (Awaits (happens.Queue lane task.Trim)) (left_by o)) }
        ensures halts { IfErr result (Halts (M.words mem.old) self.old out.old.items
            (M.words mem.new) self.new out.new.items (Awaits (happens.Queue lane task.Trim))) }
        ensures count { OnOk result (M.faults mem.new ≡ M.faults mem.old) }
        ensures faults { IfErr result (CountsStop (M.faults mem.old) (M.faults mem.new)) }
    {
        let outcome = match self.event(
            mem,
            Event::Queue {
                lane,
                task: Task::Trim,
            },
        ) {
            Ok(outcome) => outcome,
            Err(stop) => return Err(stop),
        };
        match print_lane(out, lane, outcome) {
            Ok(()) => Ok(outcome),
            Err(stop) => Err(stop),
        }
    }
}
