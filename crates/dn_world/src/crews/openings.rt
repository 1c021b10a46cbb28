//! The opening of a crew over a pool of zeros.

ghost use Rattle.std.specs.Prelude.{◌≡◌, ◌<◌, ◌≤◌, ◌&&◌, ℕ, List, [], IfOk, OnOk, OnErr, true, false, slice_index, length};
ghost use Rattle.dn_act.specs.Action.{MayPerform};
ghost use Rattle.dn_act.specs.Words.{IsZeros, pool_size};
ghost use Rattle.dn_cluster.specs.Acting.{format_of};
ghost use Rattle.dn_outcomes.specs.Orders.{monitor};
ghost use Rattle.dn_outcomes.specs.Runs.{after};
ghost use Rattle.dn_ring.specs.Ring.{IsOwner};
ghost use Rattle.std.specs.Option.{option_copied};
ghost use Rattle.dn_callers.specs.Sessions.{IsSession};
ghost use Rattle.dn_waiting.specs.State.{call_of};
ghost use Rattle.dn_waiting.specs.Stops.{waiting_from};
ghost use Rattle.dn_world.specs.Opening.{IsNew, MayGoOn, Leads, MayGrant, IsGranted, MayGrantAll, AreGranted, HasFormat, IsOpened, IsWhole, formatted, adds_for};
ghost use Rattle.dn_world.specs.State.{world_of};

use super::Crew;
use dn_act::Memory;
use dn_cluster::{Acted, Cluster};
use dn_monitor::Order;
use dn_outcomes::Outcome;
use dn_ring::assign;
use dn_waiting::{OpenCall, Waiting};
use dn_word::OutOfMemory;
use dn_word::regions::SLOTS;
use std::alloc::Global;

/// A crew that was opened, and whether no access to the pool failed meanwhile.
#[derive(Drop)]
pub struct Opened {
    pub crew: Crew,
    pub whole: bool,
}

/// Whether both are so.
fn both(first: bool, second: bool) -> bool
    ensures { result ≡ (first && second) }
{
    first && second
}

impl Crew {
    /// Opens a crew over a pool of zeros, with lanes 1 to `nodes`.
    pub fn open<M: Memory>(
        alloc: Global,
        mem: &mut M,
        segments: u32,
        nodes: u8,
    ) -> Result<Opened, OutOfMemory>
        requires size { pool_size segments ≤ length (M.words mem.old) }
        requires zeros { IsZeros (M.words mem.old) }
        requires segments { segments ≤ 8192 }
        requires some { 1 ≤ nodes }
        requires most { nodes ≤ 63 }
        ensures opened { M.faults mem.new ≡ M.faults mem.old → IfOk result (λ it. IsOpened
            (M.words mem.old) (M.words mem.new)
            (record { crew = it.crew; history = []; ended = [] }) segments nodes) }
        ensures formatted { IfOk result (λ it. HasFormat segments (M.words mem.new)
            → MayGoOn (M.words mem.new) it.crew) }
        ensures whole { IfOk result (λ it. IsWhole it.whole (M.faults mem.old)
            (M.faults mem.new)) }
        ensures count { M.faults mem.old ≤ M.faults mem.new }
        ensures words { OnErr result (M.words mem.new ≡ M.words mem.old) }
        ensures faults { OnErr result (M.faults mem.new ≡ M.faults mem.old) }
    {
        let mut crew = Crew::new(alloc, segments)?;
        crew.add_lanes(nodes)?;
        let formatted = crew.format(mem);
        let whole = if formatted {
            crew.grant_slots(mem)
        } else {
            false
        };
        Ok(Opened { crew, whole })
    }

    /// Formats the pool, and answers whether that was done.
    fn format<M: Memory>(&self, mem: &mut M) -> bool
        requires { pool_size self.now.cluster.segments ≤ length (M.words mem.old) }
        ensures done { result ≡ true → M.words mem.new
            ≡ formatted self.now.cluster.segments (M.words mem.old) }
        ensures fails { result ≡ false → MayPerform (format_of self.now.cluster.segments)
            (M.words mem.old) (M.words mem.new) }
        ensures same { result ≡ true → M.faults mem.new ≡ M.faults mem.old }
        ensures fault { result ≡ false → M.faults mem.old < M.faults mem.new }
    {
        !matches!(self.cluster.format(mem), Acted::Fault)
    }

    /// A crew without lanes.
    fn new(alloc: Global, segments: u32) -> Result<Crew, OutOfMemory>
        requires { segments ≤ 8192 }
        ensures { IfOk result (IsNew segments) }
    {
        Ok(Crew {
            cluster: Cluster::new(alloc, segments)?,
            waiting: Waiting::new(alloc)?,
            live: Vec::new(alloc),
        })
    }

    /// Adds so many lanes.
    fn add_lanes(&mut self, nodes: u8) -> Result<(), OutOfMemory>
        ensures { (words : List ℕ) → OnOk result (world_of words self.new [] []
            ≡ after (world_of words self.old [] []) (adds_for nodes)) }
    {
        for added in 0..nodes {
            self.add()?;
        }
        Ok(())
    }

    /// Gives each slot to its owner on the ring of the live lanes, and answers whether no access failed.
    fn grant_slots<M: Memory>(&mut self, mem: &mut M) -> bool
        requires { MayGrantAll (M.words mem.old) self.old }
        ensures granted { M.faults mem.new ≡ M.faults mem.old → AreGranted (M.words mem.old)
            self.old (M.words mem.new) self.new }
        ensures sound { MayGoOn (M.words mem.new) self.new }
        ensures whole { IsWhole result (M.faults mem.old) (M.faults mem.new) }
    {
        let lanes = assign(&self.live);
        self.grant_each(mem, lanes)
    }

    /// Gives each slot to its lane, which is its owner, and answers whether no access failed.
    fn grant_each<M: Memory>(&mut self, mem: &mut M, lanes: [u8; 64]) -> bool
        requires can { MayGrantAll (M.words mem.old) self.old }
        requires owners { (slot : ℕ) → slot < 64
            → IsOwner self.old.live slot (slice_index lanes slot) }
        ensures granted { M.faults mem.new ≡ M.faults mem.old → AreGranted (M.words mem.old)
            self.old (M.words mem.new) self.new }
        ensures sound { MayGoOn (M.words mem.new) self.new }
        ensures whole { IsWhole result (M.faults mem.old) (M.faults mem.new) }
    {
        let mut whole = true;
        for slot in 0..SLOTS {
            let granted = self.grant(mem, slot, lanes[usize::from(slot)]);
            whole = both(whole, granted);
        }
        whole
    }

    /// Gives a slot to a lane, and answers whether no access failed.
    fn grant<M: Memory>(&mut self, mem: &mut M, slot: u8, lane: u8) -> bool
        requires sound { MayGoOn (M.words mem.old) self.old }
        requires slot { slot < 64 }
        requires some { 0 < lane }
        requires lane { lane < 64 }
        ensures sound { MayGoOn (M.words mem.new) self.new }
        ensures granted { M.faults mem.new ≡ M.faults mem.old
            → MayGrant (M.words mem.old) self.old slot lane
            → IsGranted (M.words mem.old) self.old (M.words mem.new) self.new slot lane }
        ensures whole { IsWhole result (M.faults mem.old) (M.faults mem.new) }
    {
        self.give(Order::Move { slot, to: lane });
        let looked = self.carry_on(mem);
        let exchanged = self.carry_on(mem);
        both(looked, exchanged)
    }

    /// The monitor makes its next action. Where that fails its order is dropped. Answers whether it didn't fail.
    fn carry_on<M: Memory>(&mut self, mem: &mut M) -> bool
        requires { MayGoOn (M.words mem.old) self.old }
        ensures sound { MayGoOn (M.words mem.new) self.new }
        ensures leads { M.faults mem.new ≡ M.faults mem.old → Leads (M.words mem.old) self.old
            (M.words mem.new) self.new monitor }
        ensures whole { IsWhole result (M.faults mem.old) (M.faults mem.new) }
    {
        if let Outcome::Fault { .. } = self.monitor(mem) {
            self.drop_order();
            return false;
        }
        true
    }

    /// The cluster.
    pub fn cluster(&self) -> &Cluster
        ensures { result.now ≡ self.now.cluster }
    {
        &self.cluster
    }

    /// The lanes that are live, which rise.
    pub fn live(&self) -> &[u8]
        ensures { result.now ≡ self.now.live }
    {
        &self.live
    }

    /// The call that a session has, or none.
    pub fn call(&self, session: u32) -> Option<&OpenCall>
        requires { IsSession session }
        ensures { option_copied result ≡ call_of self.now.waiting session }
    {
        self.waiting.call(session)
    }

    /// The calls that have no end yet, each by its session and its number, in order of session; or want of memory.
    pub fn waiting(&self, alloc: Global) -> Result<Vec<(u32, u32)>, OutOfMemory>
        ensures { IfOk result (λ calls. calls.items ≡ waiting_from 0 self.now.waiting.calls) }
    {
        self.waiting.waiting(alloc)
    }
}
