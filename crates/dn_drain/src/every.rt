ghost use Rattle.std.specs.Prelude.{◌≡◌, ◌-◌, length, IfErr, OnOk};
ghost use Rattle.dn_cluster.specs.Does.{CanBeSound};
ghost use Rattle.dn_drain.specs.Leaves.{LeavesLogs};
ghost use Rattle.dn_drain.specs.Acted.{LeavesActors};
ghost use Rattle.dn_drain.specs.Drained.{IsFullFault, CountsPool};
ghost use Rattle.dn_drain.specs.All.{AreDrained, IsLaneFault, AreMerged, StaysSound};

use crate::drains::{DrainFault, Merged, drain};
use dn_act::Memory;
use dn_cluster::Cluster;
use thiserror::Error;

/// The first lane that isn't drained, from 1 to 63, and why.
#[derive(Clone, Copy, Debug, PartialEq, Eq, Error)]
#[error("lane {lane} isn't drained: {fault}")]
pub struct LaneFault {
    pub lane: u8,
    pub fault: DrainFault,
}

/// Drains each lane that was made, in the order of their numbers, as [`drain`] does; it stops at the first fault. `ended`
/// has a place for each lane, in that order. For each lane that is drained, also where a later one isn't, it has the words of
/// gate and mark: the pool has them still when this ends, so all that any of these lanes has sealed is merged at once.
///
/// Whatever comes, the cluster stays but for mergers, and all words but the lanes' marks, the overflow counter and the
/// index.
pub fn drain_all<M: Memory>(
    cluster: &mut Cluster,
    mem: &mut M,
    ended: &mut [Merged],
) -> Result<(), LaneFault>
    requires sound { CanBeSound (M.words mem.old) cluster.old }
    requires places { length ended.old ≡ length cluster.old.nodes }
    ensures drained { OnOk result (AreDrained (M.words mem.old) cluster.old
        (length cluster.old.nodes) (M.words mem.new) cluster.new) }
    ensures merged { OnOk result (AreMerged (M.words mem.new) (length cluster.old.nodes)
        ended.new) }
    ensures before { IfErr result (λ at. AreMerged (M.words mem.new) (at.lane - 1) ended.new) }
    ensures sound { OnOk result (StaysSound (M.words mem.old) cluster.old
        (M.words mem.new) cluster.new) }
    ensures fault { IfErr result (IsLaneFault (M.words mem.old) cluster.old
        (M.words mem.new) cluster.new) }
    ensures full { IfErr result (λ at. IsFullFault (M.words mem.new) at.lane at.fault) }
    ensures words { LeavesLogs (M.words mem.old) (M.words mem.new) }
    ensures actors { LeavesActors cluster.old cluster.new }
    ensures segments { cluster.new.segments ≡ cluster.old.segments }
    ensures lanes { length cluster.new.nodes ≡ length cluster.old.nodes }
    ensures count { OnOk result (M.faults mem.new ≡ M.faults mem.old) }
    ensures faults { IfErr result (λ at. CountsPool (M.faults mem.old) (M.faults mem.new)
        at.fault) }
{
    for at in 0..cluster.lanes() {
        let lane = at + 1;
        match drain(cluster, mem, lane) {
            Ok(merged) => ended[usize::from(at)] = merged,
            Err(fault) => return Err(LaneFault { lane, fault }),
        }
    }
    Ok(())
}
