//! The lanes, by the words that a world has ended with.

ghost use Rattle.std.specs.Prelude.{◌≡◌, ◌++◌, ℕ, List, length, OnOk};
ghost use Rattle.dn_cluster.specs.Machine.{IsMade, lane_in};
ghost use Rattle.dn_cluster.specs.State.{numbered};
ghost use Rattle.dn_route.specs.CallersOrder.{Told};
ghost use Rattle.dn_run.specs.Output.{lanes_text, lane_line, state_by};
ghost use Rattle.dn_world.specs.Finishes.{HaveEnded, HasEnded, ended_at};
ghost use Rattle.dn_world.specs.State.{world_of};

use dn_print::{LaneState, lane_line};
use dn_word::{Gate, OutOfMemory};
use dn_world::World;

/// The state of a lane that was made, by whether its gate is fenced.
fn state(world: &World, lane: u8, fenced: bool) -> LaneState
    requires { IsMade world.now.crew.cluster lane }
    ensures { result
        ≡ state_by (lane_in (numbered world.now.crew.cluster.nodes lane)) fenced }
{
    if world.cluster().is_stopped(lane) {
        LaneState::Stopped
    } else if fenced {
        LaneState::Fenced
    } else {
        LaneState::Live
    }
}

/// Prints the line of a lane that was drained.
fn lane(out: &mut Vec<u8>, world: &World, lane: u8) -> Result<(), OutOfMemory>
    requires { IsMade world.now.crew.cluster lane }
    ensures { (words : List ℕ) (told : List Told)
        → HasEnded words lane (ended_at world.now.ended lane)
        → OnOk result (out.new.items ≡ out.old.items
        ++ lane_line (world_of words world.now.crew told world.now.history) words lane) }
{
    let (gate, mark) = world.ended(lane);
    let gate = Gate::read(gate);
    let state = state(world, lane, gate.fenced);
    lane_line(out, lane, state, gate.stamp, gate.len, mark)
}

/// Prints a line for each lane that was made, in the order of their numbers, by the words that the last
/// [`World::finish`] has ended with.
pub fn lanes(out: &mut Vec<u8>, world: &World) -> Result<(), OutOfMemory>
    ensures { (words : List ℕ) (told : List Told)
        → HaveEnded words (length world.now.crew.cluster.nodes) world.now.ended
        → OnOk result (out.new.items ≡ out.old.items
        ++ lanes_text (world_of words world.now.crew told world.now.history) words
        (length world.now.crew.cluster.nodes)) }
{
    for number in 0..world.cluster().lanes() {
        lane(out, world, number + 1)?;
    }
    Ok(())
}
