//! The seal of a record.

ghost use Rattle.std.specs.Prelude.{◌≡◌, ◌≢◌, ◌<◌, ◌≤◌, ◌^◌, ◌↔◌, [], false, length};
ghost use Rattle.dn_act.specs.Action.{at_of};
ghost use Rattle.dn_act.specs.Words.{pool_size};
ghost use Rattle.dn_word.specs.declared.packed.place.Ref.{Ref};
ghost use Rattle.dn_hist.specs.Calls.{key_of};
ghost use Rattle.dn_record.specs.Record.{spelling};
ghost use Rattle.dn_services.specs.Spelled.{IsWrite, call_spelling, call_words, task_record};
ghost use Rattle.dn_tend.specs.Fit.{FitsRecord};
ghost use Rattle.dn_log.specs.Log.{plan_of, reach_of, IsApart};
ghost use Rattle.dn_services.specs.Staged.{staged_of, AreWithin, GoApart};
ghost use Rattle.dn_services.specs.Sealing.{place_in, next_of, turn_of, known_after, waits_after, call_seal, task_seal, IsReady, IsSealing};

use crate::spelled::{MAX_WORDS, TASK_WORDS, call_words, key_of, spell_call, spell_task};
use crate::staged::stage;
use dn_act::Action;
use dn_hist::Call;
use dn_known::Known;
use dn_log::{LogWriter, Staging};
use dn_plan::Sealing;
use dn_tend::TendSeal;
use dn_word::regions::gate_at;
use dn_word::{Cell, Gate, Ref};

/// A record that is being sealed: its words flow to the pool, and then the gate is exchanged.
#[derive(Clone, Copy)]
pub struct Seal {
    /// The key whose value the record says where to find.
    pub key: u64,
    /// How many words the record has.
    pub words: u16,
    /// The gate word from which the exchange begins.
    pub gate: u64,
    /// The stamp of the new gate word.
    pub stamp: u32,
}

/// How a seal goes on.
#[derive(Clone, Copy)]
pub enum SealTurn {
    /// There is a next action.
    More,
    /// The exchange was done, and the record stands here.
    Sealed { at: Ref },
    /// The exchange found another gate. The record would have stood here.
    Shut { at: Ref },
}

/// Stages what is written for the record of a put or delete.
fn stage_call(log: &LogWriter, staging: &mut Staging, call: &Call)
    requires write { IsWrite call.now }
    requires least { 2 ≤ call_words call.now }
    requires most { call_words call.now ≤ 130 }
    requires room { (plan_of log.now (call_words call.now)).need_segment ≡ false }
    requires empty { staging.old ≡ [] }
    ensures value { staging.new
        ≡ staged_of log.now (call_words call.now) (call_spelling call.now) }
    ensures within { AreWithin log.now.pool staging.new }
    ensures count { length staging.new ≤ 132 }
    ensures apart { IsApart (reach_of log.now) → GoApart staging.new }
{
    let mut words = [0u64; MAX_WORDS];
    let count = spell_call(call, &mut words);
    stage(log, staging, &words[..count]);
}

impl Seal {
    /// Begins to seal the record of a put or delete. What is written for it waits from then on, and goes to different
    /// words of the pool where the lane's segments do.
    pub fn of_call(known: &Known, staging: &mut Staging, call: &Call, sealing: &Sealing) -> Seal
        requires write { IsWrite call.now }
        requires stamp { sealing.now.stamp < 2 ^ 31 }
        requires ready { IsReady known.now (call_words call.now) }
        requires empty { staging.old ≡ [] }
        ensures value { result ≡ call_seal call.now sealing.now }
        ensures waits { staging.new
            ≡ staged_of known.now.log (call_words call.now) (call_spelling call.now) }
        ensures fits { IsSealing known.now result staging.new }
        ensures left { length staging.new ≤ 132 }
        ensures apart { IsApart (reach_of known.now.log) → GoApart staging.new }
    {
        let words = call_words(call);
        stage_call(known.log(), staging, call);
        Seal {
            key: key_of(call),
            words,
            gate: sealing.gate,
            stamp: sealing.stamp,
        }
    }

    /// Begins to seal the record of a task for its key. What is written for it waits from then on, as for a call's.
    pub fn of_task(known: &Known, staging: &mut Staging, key: u64, seal: TendSeal) -> Seal
        requires task { FitsRecord seal }
        requires ready { IsReady known.now 3 }
        requires empty { staging.old ≡ [] }
        ensures value { result ≡ task_seal key seal }
        ensures waits { staging.new ≡ staged_of known.now.log 3
            (spelling (task_record key seal)) }
        ensures fits { IsSealing known.now result staging.new }
        ensures left { length staging.new ≤ 132 }
        ensures apart { IsApart (reach_of known.now.log) → GoApart staging.new }
    {
        let words = spell_task(key, seal);
        stage(known.log(), staging, &words);
        let (gate, stamp) = match seal {
            TendSeal::Share { opening, gate, .. } => (gate, Cell::read(opening).stamp),
            TendSeal::Unshare { stamp, gate, .. } => (gate, stamp),
        };
        Seal {
            key,
            words: TASK_WORDS,
            gate,
            stamp,
        }
    }

    /// The next action: the store of the word that waits the longest, and the exchange of the gate once none waits. The
    /// others may flow before it, as `Staging::flow` gives them.
    pub fn next(self, known: &Known, staging: &Staging) -> Action
        requires { IsSealing known.now self staging.now }
        ensures value { result ≡ next_of known.now self staging.now }
        ensures within { at_of result < pool_size known.now.log.pool }
    {
        match staging.flow(0) {
            Some(store) => store,
            None => self.exchange(known),
        }
    }

    /// The exchange of the gate for one with the seal's stamp and the length behind the record.
    fn exchange(self, known: &Known) -> Action
        requires stamp { self.stamp < 2 ^ 31 }
        requires least { 1 ≤ self.words }
        requires most { self.words ≤ 130 }
        ensures value { result ≡ next_of known.now self [] }
        ensures within { at_of result < pool_size known.now.log.pool }
    {
        let gate = Gate {
            fenced: false,
            stamp: self.stamp,
            len: known.log().plan(self.words).len,
        };
        Action::Cas {
            at: gate_at(known.number()),
            old: self.gate,
            new: gate.word(),
        }
    }

    /// Takes the word that the action found. A store takes its word from those that wait; the exchange was done exactly
    /// where it found the gate from which it began. If it wasn't, log, spare segment and pending records stay.
    pub fn take(self, known: &mut Known, staging: &mut Staging, word: u64) -> SealTurn
        requires { IsSealing known.old self staging.old }
        ensures turn { result ≡ turn_of known.old self word staging.old }
        ensures known { known.new ≡ known_after known.old self word staging.old }
        ensures waits { staging.new ≡ waits_after staging.old }
        ensures fits { result ≡ SealTurn.More → IsSealing known.new self staging.new }
        ensures falls { result ≡ SealTurn.More → length staging.new < length staging.old }
        ensures sealed { (at : Ref) → (result ≡ SealTurn.Sealed at)
            ↔ ((staging.old ≡ []) × (word ≡ self.gate) × (at ≡ place_in known.old self)) }
        ensures shut { (at : Ref) → (result ≡ SealTurn.Shut at)
            ↔ ((staging.old ≡ []) × (word ≢ self.gate) × (at ≡ place_in known.old self)) }
    {
        if !staging.is_empty() {
            staging.flowed(0);
            return SealTurn::More;
        }
        let plan = known.log().plan(self.words);
        let at = Ref {
            lane: known.number(),
            offset: plan.at,
        };
        if word != self.gate {
            return SealTurn::Shut { at };
        }
        known.sealed(&plan, Some(self.key));
        SealTurn::Sealed { at }
    }
}
