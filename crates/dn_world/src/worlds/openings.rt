//! The opening of a world, and what can be seen of one.

ghost use Rattle.std.specs.Prelude.{◌≡◌, ◌≤◌, ℕ, List, IfOk, IfErr, OnOk, OnErr, [], map, length};
ghost use Rattle.dn_act.specs.Words.{IsZeros, pool_size};
ghost use Rattle.std.specs.Option.{option_copied};
ghost use Rattle.dn_callers.specs.Sessions.{IsSession};
ghost use Rattle.dn_waiting.specs.State.{call_of};
ghost use Rattle.dn_waiting.specs.Stops.{waiting_from};
ghost use Rattle.dn_callers.specs.Callers.{Standing as Stands};
ghost use Rattle.dn_outcomes.specs.Awaited.{is_releasing, marked};
ghost use Rattle.dn_route.specs.CallersOrder.{Told};
ghost use Rattle.dn_world.specs.State.{world_of};
ghost use Rattle.dn_world.specs.Happens.{CanBeSound};
ghost use Rattle.dn_world.specs.Inside.{stands_as};
ghost use Rattle.dn_world.specs.Opening.{HasFormat, IsOpened};
ghost use Rattle.dn_world.specs.OpenFaults.{IsOpenFault};

use super::{Standing, World};
use crate::crews::{Crew, Opened};
use crate::open_faults::OpenFault;
use dn_act::Memory;
use dn_cluster::Cluster;
use dn_waiting::OpenCall;
use dn_word::OutOfMemory;
use std::alloc::Global;

impl World {
    /// Opens a world over a pool of zeros, of at most 8,192 segments, with lanes 1 to `nodes`, at most 63. The monitor formats
    /// the pool, the lanes are added, all of them live, and each slot from 0 to 63 is given to its owner on the ring of these
    /// lanes: the monitor is given the order, and makes its two actions. That is 129 actions. Where each is done the world is
    /// sound, and it is what these events lead to; so the words are those of a fresh pool with these owners.
    ///
    /// An access that failed raised the count of faults. It is passed over: that order is dropped, and the next slot follows.
    /// The world is sound still where the pool has its format word; where it has none no slot was given, and nothing is said
    /// of the world. Want of memory comes before any access, and leaves the words.
    pub fn open<M: Memory>(
        alloc: Global,
        mem: &mut M,
        segments: u32,
        nodes: u8,
    ) -> Result<World, OutOfMemory>
        requires size { pool_size segments ≤ length (M.words mem.old) }
        requires zeros { IsZeros (M.words mem.old) }
        requires segments { segments ≤ 8192 }
        requires some { 1 ≤ nodes }
        requires most { nodes ≤ 63 }
        ensures opened { M.faults mem.new ≡ M.faults mem.old → IfOk result (λ world. IsOpened
            (M.words mem.old) (M.words mem.new) world segments nodes) }
        ensures sound { M.faults mem.new ≡ M.faults mem.old
            → IfOk result (CanBeSound (M.words mem.new)) }
        ensures formatted { IfOk result (λ world. HasFormat segments (M.words mem.new)
            → CanBeSound (M.words mem.new) world) }
        ensures count { M.faults mem.old ≤ M.faults mem.new }
        ensures words { OnErr result (M.words mem.new ≡ M.words mem.old) }
        ensures faults { OnErr result (M.faults mem.new ≡ M.faults mem.old) }
    {
        let Opened { crew, .. } = Crew::open(alloc, mem, segments, nodes)?;
        Ok(World::of(alloc, crew))
    }

    /// Opens a world as [`World::open`] does, and answers `Pool` exactly where an access failed: then that was passed over, and
    /// the words are those that it leaves. `OutOfMemory` comes before any access, and leaves the words.
    pub fn open_whole<M: Memory>(
        alloc: Global,
        mem: &mut M,
        segments: u32,
        nodes: u8,
    ) -> Result<World, OpenFault>
        requires size { pool_size segments ≤ length (M.words mem.old) }
        requires zeros { IsZeros (M.words mem.old) }
        requires segments { segments ≤ 8192 }
        requires some { 1 ≤ nodes }
        requires most { nodes ≤ 63 }
        ensures opened { IfOk result (λ world. IsOpened (M.words mem.old) (M.words mem.new) world
            segments nodes) }
        ensures count { OnOk result (M.faults mem.new ≡ M.faults mem.old) }
        ensures fault { IfErr result (IsOpenFault (M.words mem.old) (M.faults mem.old)
            (M.words mem.new) (M.faults mem.new)) }
    {
        let Ok(Opened { crew, whole }) = Crew::open(alloc, mem, segments, nodes) else {
            return Err(OpenFault::OutOfMemory);
        };
        if whole {
            Ok(World::of(alloc, crew))
        } else {
            Err(OpenFault::Pool)
        }
    }

    /// A world over a crew, in which nothing stands.
    fn of(alloc: Global, crew: Crew) -> World
        ensures { result ≡ record { crew = crew; history = []; ended = [] } }
    {
        World {
            crew,
            standing: Vec::new(alloc),
            ended: Vec::new(alloc),
        }
    }

    /// The receipts that stand, in the order in which they came, each with whether its session was answered it.
    pub fn into_history(self) -> Vec<Standing>
        ensures { map stands_as result.items ≡ self.history }
    {
        let World { standing, .. } = self;
        standing
    }

    /// The call that a session has, between its start and its end, or none.
    pub fn call(&self, session: u32) -> Option<&OpenCall>
        requires { IsSession session }
        ensures { option_copied result ≡ call_of self.now.crew.waiting session }
    {
        self.crew.call(session)
    }

    /// The cluster: its lanes, sessions and the monitor's order.
    pub fn cluster(&self) -> &Cluster
        ensures { result.now ≡ self.now.crew.cluster }
    {
        self.crew.cluster()
    }

    /// The lanes that are live, which rise.
    pub fn live(&self) -> &[u8]
        ensures { result.now ≡ self.now.crew.live }
    {
        self.crew.live()
    }

    /// Whether a lane has the release of a slot before it, and runs: a task is under way there, or the release waits.
    pub fn is_releasing(&self, lane: u8, slot: u8) -> bool
        requires { length self.now.crew.cluster.nodes ≤ 63 }
        ensures { (words : List ℕ) (told : List Told) (receipts : List Stands)
            → result ≡ is_releasing (world_of words self.now.crew told receipts) lane slot }
    {
        self.crew.is_releasing(lane, slot)
    }

    /// The lane whose merged mark the monitor loads by its next action, or 0 where it loads none.
    pub fn marked(&self) -> u8
        ensures { (words : List ℕ) (told : List Told) (receipts : List Stands)
            → result ≡ marked (world_of words self.now.crew told receipts) }
    {
        self.crew.marked()
    }

    /// The receipts that stand, in the order in which they came, each with whether its session was answered it.
    pub fn history(&self) -> &[Standing]
        ensures { map stands_as result.now ≡ self.now.history }
    {
        &self.standing
    }

    /// The keys that are shared, each with the number of its cell: none, as no event shares keys.
    pub fn hints(&self) -> &[(u64, u8)]
        ensures { result.now ≡ [] }
    {
        &[]
    }

    /// The calls that have no end yet, each by its session and its number, in order of session; or want of memory.
    pub fn waiting(&self, alloc: Global) -> Result<Vec<(u32, u32)>, OutOfMemory>
        ensures { IfOk result (λ calls. calls.items
            ≡ waiting_from 0 self.now.crew.waiting.calls) }
    {
        self.crew.waiting(alloc)
    }
}
