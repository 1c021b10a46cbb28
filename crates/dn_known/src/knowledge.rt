ghost use Rattle.std.specs.Prelude.{◌≡◌, ◌≢◌, ◌<◌, ◌≤◌, ◌+◌, ◌^◌, ℕ, Some, None, true, false, length, slice_index, All, IfOk, IfErr, IfSome, IsSomeAnd};
ghost use Rattle.std.specs.Option.{ForSome};
ghost use Rattle.dn_word.specs.Regions.{IsLane};
ghost use Rattle.dn_word.specs.Hash.{slot_of};
ghost use Rattle.dn_log.specs.Log.{plan_of, IsPlan};
ghost use Rattle.dn_pending.specs.declared.entries.Entry.{Entry};
ghost use Rattle.dn_plan.specs.Fit.{FitsEffect};
ghost use Rattle.dn_known.specs.State.{KnownState, fresh, IsWithin};
ghost use Rattle.dn_known.specs.Learnt.{met, kept_past, learnt};
ghost use Rattle.dn_known.specs.Counting.{count_of, pending_of, place_of, IsCounting};
ghost use Rattle.dn_known.specs.Sealed.{sealed_by};

use dn_log::{LogWriter, Plan};
use dn_pending::Pending;
use dn_plan::Effect;
use dn_word::{OutOfMemory, Ref, slot_of};
use std::alloc::Global;
use std::marker::Model;

/// The slots of a pool.
const SLOTS: usize = 64;

/// What a lane knows beside its call or task under way.
///
/// Contracts see the record of it. `new` and `reserve` take memory; no other call does.
#[derive(Drop)]
pub struct Known {
    log: LogWriter,
    pending: Pending,
    epochs: [u32; SLOTS],
    counts: [u32; SLOTS],
    barred: Option<u64>,
}

impl Model for Known {
    ghost use Rattle.dn_known.specs.State.{KnownState, IsWithin};

    ghost Value = { KnownState };

    ghost view = { λ k. record {
      log = k.log;
      pending = k.pending;
      epochs = k.epochs;
      counts = k.counts;
      barred = k.barred;
    } };

    ghost invariant = { λ k. IsWithin (record {
      log = k.log;
      pending = k.pending;
      epochs = k.epochs;
      counts = k.counts;
      barred = k.barred;
    }) };
}

impl Known {
    /// What the lane of this number, from 1 to 63, knows at its start in a pool of so many segments: its log is empty,
    /// no record is pending, and of each slot it knows epoch 0. Answers want of memory, or that.
    pub fn new(alloc: Global, lane: u8, segments: u32) -> Result<Known, OutOfMemory>
        requires lane { IsLane lane }
        requires segments { segments ≤ 8192 }
        ensures { IfOk result (λ known. known ≡ fresh lane segments) }
    {
        let log = LogWriter::new(alloc, lane, segments)?;
        let pending = Pending::new(alloc)?;
        Ok(Known {
            log,
            pending,
            epochs: [0; SLOTS],
            counts: [0; SLOTS],
            barred: None,
        })
    }

    /// Makes room for two more pending records, as many as a call or task seals at most. After want of memory all is as
    /// it was.
    pub fn reserve(&mut self) -> Result<(), OutOfMemory>
        ensures ok { IfOk result (λ _. self.new
            ≡ record self.old { pending = record self.old.pending { spare = 2 } }) }
        ensures err { IfErr result (λ _. self.new ≡ self.old) }
    {
        self.pending.reserve()
    }

    /// The number of the lane.
    pub fn number(&self) -> u8
        ensures value { result ≡ self.now.log.lane }
        ensures below { result < 64 }
    {
        self.log.lane()
    }

    /// The sealed length of the log in words. No pending record lies past it, and no slot counts from past it.
    pub fn len(&self) -> u32
        ensures value { result ≡ self.now.log.len }
        ensures bound { result ≤ 262144 }
        ensures within { IsWithin self.now }
    {
        self.log.len()
    }

    /// Lends the log.
    pub fn log(&self) -> &LogWriter
        ensures { result.now ≡ self.now.log }
    {
        &self.log
    }

    /// The gate word that has closed the lane, if one has.
    pub fn barred(&self) -> Option<u64>
        ensures { result ≡ self.now.barred }
    {
        self.barred
    }

    /// The lane meets the epoch of a slot.
    fn meet(&mut self, slot: u8, epoch: u32)
        requires { slot < 64 }
        ensures value { self.new ≡ met self.old slot epoch }
        ensures anew { (key : ℕ) → slot_of key ≡ slot
            → slice_index self.old.epochs slot ≢ epoch → pending_of self.new key ≡ None }
    {
        if self.epochs[slot as usize] != epoch {
            self.epochs[slot as usize] = epoch;
            self.counts[slot as usize] = self.log.len();
        }
    }

    /// Records below the mark are merged. A mark past the log is taken for the log's end.
    fn drop_below(&mut self, mark: u64)
        ensures { self.new ≡ record self.old { pending = kept_past mark self.old.pending } }
    {
        let end = self.log.len();
        self.pending.drop_below(mark.min(u64::from(end)) as u32);
    }

    /// Takes over what a step of a plan tells. At another epoch of a slot than the lane knew none of the slot's
    /// pending records counts any more; at the same epoch nothing changes.
    pub fn learn(&mut self, effect: Effect)
        requires { FitsEffect (Some effect) }
        ensures value { self.new ≡ learnt self.old effect }
        ensures anew { (key epoch : ℕ) → effect ≡ Effect.Epoch (slot_of key) epoch
            → slice_index self.old.epochs (slot_of key) ≢ epoch
            → pending_of self.new key ≡ None }
        ensures same { (slot epoch : ℕ) → effect ≡ Effect.Epoch slot epoch
            → slice_index self.old.epochs slot ≡ epoch → self.new ≡ self.old }
    {
        match effect {
            Effect::Epoch { slot, epoch } => self.meet(slot, epoch),
            Effect::DropBelow { mark } => self.drop_below(mark),
            Effect::Bar { gate } => self.barred = Some(gate),
        }
    }

    /// The place of the key's last pending record, where it counts: where it isn't older than the epoch of the key's
    /// slot that the lane knows. Of the key's pending records that count it is the one with the greatest offset.
    pub fn pending(&self, key: u64) -> Option<Ref>
        ensures value { result ≡ pending_of self.now key }
        ensures counts { IfSome result (λ place. IsCounting self.now key place.offset) }
        ensures greatest { (at : ℕ) → IsCounting self.now key at
            → IsSomeAnd result (λ place. at ≤ place.offset) }
        ensures lane { IfSome result (λ place. place.lane ≡ self.now.log.lane) }
        ensures below { IfSome result (λ place. place.offset < self.now.log.len) }
        ensures near { ForSome result (λ place. place.offset < 2 ^ 24) }
    {
        let _end = self.log.len();
        let offset = self.pending.last(key)?;
        if offset < self.counts[slot_of(key) as usize] {
            return None;
        }
        Some(Ref {
            lane: self.log.lane(),
            offset,
        })
    }

    /// Makes a claimed segment the log's spare one, where there is none and the lane has fewer than 256. Then every
    /// plan has its segment.
    pub fn keep(&mut self, segment: u32)
        requires none { self.old.log.spare ≡ None }
        requires count { length self.old.log.segments < 256 }
        requires segment { segment < self.old.log.pool }
        ensures value { self.new ≡ record self.old {
          log = record self.old.log { spare = Some segment };
        } }
        ensures reach { (words : ℕ) → words ≤ 1024
            → (plan_of self.new.log words).need_segment ≡ false }
    {
        self.log.keep(segment);
    }

    /// The record of a plan that the log gives now is sealed. It is the last pending one of the key from then on; a
    /// record that says nothing of where its key's value is from then on is pending for none.
    pub fn sealed(&mut self, plan: &Plan, key: Option<u64>)
        requires plan { (words : ℕ) × IsPlan self.old.log plan.now words }
        requires room { plan.now.need_segment ≡ false }
        requires spare { ForSome key (λ _. 1 ≤ self.old.pending.spare) }
        ensures value { self.new ≡ sealed_by self.old plan.now key }
        ensures last { IfSome key (λ k. pending_of self.new k
            ≡ Some (place_of self.old plan.now.at)) }
    {
        if let Some(key) = key {
            self.pending.add(key, plan.at);
        }
        self.log.sealed(plan);
    }
}
