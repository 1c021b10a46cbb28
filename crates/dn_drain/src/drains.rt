ghost use Rattle.std.specs.Prelude.{◌≡◌, length, IfOk, IfErr, OnOk};
ghost use Rattle.dn_cluster.specs.Machine.{IsMade};
ghost use Rattle.dn_cluster.specs.Does.{CanBeSound};
ghost use Rattle.dn_drain.specs.Alone.{alone_in};
ghost use Rattle.dn_drain.specs.Left.{left_by};
ghost use Rattle.dn_drain.specs.Leaves.{LeavesWords};
ghost use Rattle.dn_drain.specs.Acted.{LeavesOthers};
ghost use Rattle.dn_drain.specs.Drained.{IsDrained, IsDrainFault, idle_of, IsMerged, IsFullFault, CountsPool};
ghost use Rattle.dn_drain.specs.Stepped.{turn_in, IsStepped, IsStepFault, Falls};

use dn_act::Memory;
use dn_cluster::{Acted, Actor, Cluster};
use dn_merge::MergeTurn;
use thiserror::Error;

/// All that a lane has sealed is merged: the word of its gate and its merged mark, which is the gate's length, in words of
/// the lane's log.
#[derive(Clone, Copy, Debug, PartialEq, Eq)]
pub struct Merged {
    pub gate: u64,
    pub mark: u64,
}

/// Why a lane isn't drained.
#[derive(Clone, Copy, Debug, PartialEq, Eq, Error)]
pub enum DrainFault {
    /// An access of the pool failed: that action was done or not done.
    #[error("an access of the pool failed")]
    Pool,
    /// The index has no bucket left for a record's key. `counter` is the overflow counter that was found, at least 4,096.
    #[error("the index is full: {counter} overflow buckets were asked for")]
    IndexFull { counter: u64 },
}

/// Runs the merger of a lane that was made until all is merged that the lane has sealed: up to the first action that answers
/// so by a gate which was loaded in this call. A turn that is under way goes on. Nobody else acts meanwhile, so words and
/// answer are determined by the words before and by where that merger is. It takes no memory.
///
/// `IndexFull` comes exactly where an action of the merger answers so; the record at the mark isn't merged then. `Pool`
/// comes exactly where an access failed; the cluster is then as before that action, which was done or not done, so the
/// merger is to be renewed before anybody acts.
///
/// Whatever comes, all of the cluster stays but that lane's merger, and all words but the lane's mark, the overflow counter
/// and the index.
pub fn drain<M: Memory>(cluster: &mut Cluster, mem: &mut M, lane: u8) -> Result<Merged, DrainFault>
    requires sound { CanBeSound (M.words mem.old) cluster.old }
    requires made { IsMade cluster.old lane }
    ensures drained { IfOk result (λ merged. IsDrained (M.words mem.old) cluster.old
        (M.words mem.new) cluster.new lane (idle_of merged)) }
    ensures merged { IfOk result (IsMerged (M.words mem.new) lane) }
    ensures fault { IfErr result (IsDrainFault (M.words mem.old) cluster.old
        (M.words mem.new) cluster.new lane) }
    ensures full { IfErr result (IsFullFault (M.words mem.new) lane) }
    ensures words { LeavesWords lane (M.words mem.old) (M.words mem.new) }
    ensures others { LeavesOthers lane cluster.old cluster.new }
    ensures segments { cluster.new.segments ≡ cluster.old.segments }
    ensures lanes { length cluster.new.nodes ≡ length cluster.old.nodes }
    ensures count { OnOk result (M.faults mem.new ≡ M.faults mem.old) }
    ensures faults { IfErr result (CountsPool (M.faults mem.old) (M.faults mem.new)) }
{
    // Were all merged by the first action, it would be by a gate that was loaded before.
    let first = step(cluster, mem, lane);
    if let Err(fault) = first {
        return Err(fault);
    }
    loop {
        match step(cluster, mem, lane) {
            Ok(None) => {}
            Ok(Some(merged)) => return Ok(merged),
            Err(fault) => return Err(fault),
        }
    }
}

/// One action of the merger: what it answers where all is merged.
fn step<M: Memory>(
    cluster: &mut Cluster,
    mem: &mut M,
    lane: u8,
) -> Result<Option<Merged>, DrainFault>
    requires sound { CanBeSound (M.words mem.old) cluster.old }
    requires made { IsMade cluster.old lane }
    ensures answer { IfOk result (λ merged. IsStepped (M.words mem.old) cluster.old
        (M.words mem.new) cluster.new lane (turn_in merged)) }
    ensures falls { IfOk result (Falls (left_by lane (alone_in (M.words mem.old) cluster.old lane))
        (left_by lane (alone_in (M.words mem.new) cluster.new lane))) }
    ensures fault { IfErr result (IsStepFault (M.words mem.old) cluster.old
        (M.words mem.new) cluster.new lane) }
    ensures full { IfErr result (IsFullFault (M.words mem.new) lane) }
    ensures words { LeavesWords lane (M.words mem.old) (M.words mem.new) }
    ensures others { LeavesOthers lane cluster.old cluster.new }
    ensures segments { cluster.new.segments ≡ cluster.old.segments }
    ensures lanes { length cluster.new.nodes ≡ length cluster.old.nodes }
    ensures count { OnOk result (M.faults mem.new ≡ M.faults mem.old) }
    ensures faults { IfErr result (CountsPool (M.faults mem.old) (M.faults mem.new)) }
{
    match cluster.act(mem, Actor::Merger(lane)) {
        Acted::Merger(MergeTurn::More) => Ok(None),
        Acted::Merger(MergeTurn::Idle { gate, mark }) => Ok(Some(Merged { gate, mark })),
        Acted::Merger(MergeTurn::IndexFull { counter }) => Err(DrainFault::IndexFull { counter }),
        Acted::Fault => Err(DrainFault::Pool),
        Acted::Nothing | Acted::Lane(_) | Acted::Monitor(_) | Acted::Session { .. } => {
            unreachable!()
        }
    }
}
