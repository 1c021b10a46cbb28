ghost use Rattle.std.specs.Prelude.{◌≡◌, ◌≤◌, ◌<◌, ◌++◌, ◌+◌, ◌∷◌, [], None, set, map, length, vec_len, vec_capacity};
ghost use Rattle.dn_waiting.specs.Queues.{idle, attempts_at};
ghost use Rattle.dn_waiting.specs.Stops.{without, named_by, AreBelow};

use crate::calls::OpenCall;
use crate::queues::Queues;
use dn_hist::SessionView;

/// Ends the calls of all attempts at a lane and adds them to `ended`, and drops its tasks.
pub fn end_all(calls: &mut Vec<Option<OpenCall>>, at: &mut Queues, ended: &mut Vec<(u32, u32)>)
    requires inside { AreBelow (vec_len calls.old) (attempts_at at.old) }
    requires room { vec_len ended.old + length (attempts_at at.old) ≤ vec_capacity ended.old }
    ensures calls { calls.new.items ≡ without calls.old.items (attempts_at at.old) }
    ensures at { at.new ≡ idle }
    ensures ended { ended.new.items ≡ ended.old.items ++ map named_by (attempts_at at.old) }
{
    while let Some(view) = at.leave() {
        calls[view.session as usize] = None;
        ended.push_reserved((view.session, view.number));
    }
    at.drop_tasks();
}
