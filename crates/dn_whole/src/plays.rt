//! A play, from the opening of the pool to the last line of the output.

ghost use Rattle.std.specs.Prelude.{◌≡◌, ◌≤◌, ℕ, List, All, [], length, IfOk, IfErr, OnOk};
ghost use Rattle.dn_act.specs.Words.{IsZeros, pool_size};
ghost use Rattle.dn_route.specs.CallersOrder.{Told};
ghost use Rattle.dn_script.specs.Fit.{IsLine};
ghost use Rattle.dn_world.specs.Finishes.{HaveEnded};
ghost use Rattle.dn_play.specs.At.{CanGo, Follow, CountsStop};
ghost use Rattle.dn_whole.specs.Close.{Reports, Closes, StopsClose};
ghost use Rattle.dn_whole.specs.Whole.{Plays, StopsPlay};

use crate::ends::End;
use dn_act::Memory;
use dn_play::{Player, Stop};
use dn_report::{counted, history_lines, keys_left, lanes, order, unanswered};
use dn_run::Counts;
use dn_script::Script;
use dn_word::OutOfMemory;
use dn_world::{FinishFault, World};
use std::alloc::Global;

/// Prints what follows the calls without an answer, of which there are so many: the history, the lanes of a world that was
/// finished, and what was counted.
fn summary(
    alloc: Global,
    out: &mut Vec<u8>,
    world: World,
    counts: Counts,
    waiting: u64,
) -> Result<(), OutOfMemory>
    ensures { (words : List ℕ) (told : List Told)
        → HaveEnded words (length world.crew.cluster.nodes) world.ended
        → OnOk result (Reports words told world counts waiting out.old.items out.new.items) }
{
    let mut tail = Vec::new(alloc);
    lanes(&mut tail, &world)?;
    let mut history = world.into_history();
    order(&mut history);
    history_lines(out, &history)?;
    out.extend_from_slice(&tail)?;
    let keys = keys_left(alloc, &history)?;
    counted(out, counts, waiting, keys)
}

/// Drains the lanes of a player whose lines are played, and prints the rest of the output.
fn close<M: Memory>(
    alloc: Global,
    mem: &mut M,
    out: &mut Vec<u8>,
    player: Player,
) -> Result<End, Stop>
    requires can { CanGo (M.words mem.old) player out.old.items (Follow []) }
    ensures closes { IfOk result (Closes (M.words mem.old) player out.old.items
        (M.words mem.new) out.new.items) }
    ensures stops { IfErr result (StopsClose (M.words mem.old) player out.old.items
        (M.words mem.new)) }
    ensures count { OnOk result (M.faults mem.new ≡ M.faults mem.old) }
    ensures faults { IfErr result (CountsStop (M.faults mem.old) (M.faults mem.new)) }
{
    let Player {
        mut world,
        counts,
        ..
    } = player;
    let Ok(calls) = world.waiting(alloc) else {
        return Err(Stop::OutOfMemory);
    };
    let Ok(()) = unanswered(out, &calls) else {
        return Err(Stop::OutOfMemory);
    };
    match world.finish(mem) {
        Ok(()) => {}
        Err(FinishFault::IndexFull { .. }) => return Ok(End::IndexFull),
        Err(FinishFault::Pool) => return Err(Stop::Pool),
        Err(FinishFault::OutOfMemory) => return Err(Stop::OutOfMemory),
    }
    match summary(alloc, out, world, counts, calls.len() as u64) {
        Ok(()) => Ok(End::Done),
        Err(OutOfMemory) => Err(Stop::OutOfMemory),
    }
}

/// Plays a script over a pool of its segments whose words are all 0, and makes the output behind nothing.
///
/// `Pool` comes where an access failed; `OutOfMemory` where memory was wanting: then the words are those of a moment of the
/// play. What `out` holds then is no output.
pub fn play<M: Memory>(
    alloc: Global,
    mem: &mut M,
    script: Script,
    out: &mut Vec<u8>,
) -> Result<End, Stop>
    requires size { pool_size script.segments ≤ length (M.words mem.old) }
    requires zeros { IsZeros (M.words mem.old) }
    requires segments { script.segments ≤ 8192 }
    requires some { 1 ≤ script.nodes }
    requires most { script.nodes ≤ 63 }
    requires fit { All IsLine script.lines }
    requires empty { out.old.items ≡ [] }
    ensures plays { IfOk result (Plays script (M.words mem.old) (M.words mem.new)
        out.new.items) }
    ensures stops { IfErr result (StopsPlay script (M.words mem.old) (M.words mem.new)) }
    ensures count { OnOk result (M.faults mem.new ≡ M.faults mem.old) }
    ensures faults { IfErr result (CountsStop (M.faults mem.old) (M.faults mem.new)) }
{
    let Script {
        segments,
        nodes,
        lines,
        ..
    } = script;
    let mut player = match Player::open(alloc, mem, segments, nodes) {
        Ok(player) => player,
        Err(stop) => return Err(stop),
    };
    match player.lines(mem, out, lines.into_vec()) {
        Ok(()) => close(alloc, mem, out, player),
        Err(Stop::Long) => Ok(End::Long),
        Err(Stop::Pool) => Err(Stop::Pool),
        Err(Stop::OutOfMemory) => Err(Stop::OutOfMemory),
    }
}
