ghost use Rattle.std.specs.Prelude.{◌≡◌, ◌<◌, ◌≤◌, ◌+◌, ◌*◌, ◌^◌, [], None, Some, ℕ, length, IfOk, IfSome, false, true};
ghost use Rattle.dn_word.specs.Regions.{IsLane, segments_at};
ghost use Rattle.dn_act.specs.Words.{pool_size};
ghost use Rattle.dn_log.specs.Log.{plan_of, sealed_of, word_of, reach_of, new_segment_of, IsPlan, IsPlaced, Fills};

use crate::plans::{NewSegment, Plan};
use dn_word::OutOfMemory;
use dn_word::regions::{LANE_SEGMENTS, SEGMENT_WORDS, segment_at};
use std::alloc::Global;
use std::marker::Model;

/// What a lane knows of its log: the sealed length, its segments, and a spare one. Contracts see the record of these,
/// with the lane's number and the pool's number of segments.
#[derive(Drop)]
pub struct LogWriter {
    lane: u8,
    pool: u32,
    len: u32,
    segments: Vec<u32>,
    spare: Option<u32>,
}

impl Model for LogWriter {
    ghost use Rattle.std.specs.Prelude.{◌≤◌, vec_capacity};
    ghost use Rattle.dn_log.specs.Log.{Log, IsFit};

    ghost Value = { Log };

    ghost view = { λ a. record {
      lane = a.lane;
      pool = a.pool;
      len = a.len;
      segments =
          a.segments.items;
      spare = a.spare;
    } };

    ghost invariant = { λ a. (256 ≤ vec_capacity a.segments)
        × IsFit (record {
          lane = a.lane;
          pool = a.pool;
          len = a.len;
          segments = a.segments.items;
          spare = a.spare;
        }) };
}

impl LogWriter {
    /// The empty log of a lane, from 1 to 63, in a pool of so many segments, with room for the lane's 256. Answers want of memory, or the log.
    pub fn new(alloc: Global, lane: u8, segments: u32) -> Result<LogWriter, OutOfMemory>
        requires lane { IsLane lane }
        requires segments { segments ≤ 8192 }
        ensures { IfOk result (λ log. log
            ≡ record { lane = lane; pool = segments; len = 0; segments = []; spare = None }) }
    {
        let own = Vec::with_capacity(alloc, LANE_SEGMENTS as usize)?;
        Ok(LogWriter {
            lane,
            pool: segments,
            len: 0,
            segments: own,
            spare: None,
        })
    }

    /// The sealed length in words, at most that of 256 segments.
    pub fn len(&self) -> u32
        ensures value { result ≡ self.now.len }
        ensures bound { result ≤ 262144 }
    {
        self.len
    }

    /// How many segments the lane has, without the spare.
    pub fn segments(&self) -> u32
        ensures value { result ≡ length self.now.segments }
        ensures bound { result ≤ 256 }
    {
        self.segments.len() as u32
    }

    /// The number of the lane.
    pub fn lane(&self) -> u8
        ensures value { result ≡ self.now.lane }
        ensures below { result < 64 }
    {
        self.lane
    }

    /// The pool's number of segments.
    pub fn pool(&self) -> u32
        ensures value { result ≡ self.now.pool }
        ensures bound { result ≤ 8192 }
    {
        self.pool
    }

    /// The claimed segment that no plan has used yet.
    pub fn spare(&self) -> Option<u32>
        ensures value { result ≡ self.now.spare }
        ensures below { IfSome result (λ segment. segment < self.now.pool) }
    {
        self.spare
    }

    /// Where a record of 1 to 1,024 words goes: behind the sealed length and in one segment, with a pad before it where the rest
    /// of the segment in use is too short.
    pub fn plan(&self, record_words: u16) -> Plan
        requires least { 1 ≤ record_words }
        requires most { record_words ≤ 1024 }
        ensures value { result ≡ plan_of self.now record_words }
        ensures placed { IsPlaced self.now result record_words }
        ensures pad { Fills result.pad self.now.len result.at record_words }
        ensures need { result.need_segment ≡ true → self.now.spare ≡ None }
        ensures bound { result.len ≤ 263168 }
    {
        let words = record_words as u32;
        let rest = SEGMENT_WORDS - self.len % SEGMENT_WORDS;
        let (pad, at) = if rest < words {
            (Some((self.len, rest as u16)), self.len + rest)
        } else {
            (None, self.len)
        };
        let reach = self.segments.len() as u32 + self.spare.is_some() as u32;
        let len = at + words;
        Plan {
            pad,
            at,
            len,
            need_segment: SEGMENT_WORDS * reach < len,
        }
    }

    /// The segment that a plan adds to the log: the spare, under the next number of the lane's directory. None where the lane's own
    /// segments reach so far, or there is no spare.
    pub fn new_segment(&self, plan: &Plan) -> Option<NewSegment>
        ensures value { result ≡ new_segment_of self.now plan.now }
        ensures number { IfSome result (λ new. new.number < 256) }
        ensures segment { IfSome result (λ new. new.segment < self.now.pool) }
    {
        let number = self.segments.len() as u32;
        if SEGMENT_WORDS * number < plan.len {
            let segment = self.spare?;
            Some(NewSegment { number, segment })
        } else {
            None
        }
    }

    /// The pool's word of an offset that lies in the lane's segments or in the spare behind them.
    pub fn word_at(&self, offset: u32) -> u32
        requires { offset < 1024 * length (reach_of self.now) }
        ensures value { result ≡ word_of self.now offset }
        ensures least { segments_at ≤ result }
        ensures below { result < pool_size self.now.pool }
    {
        let number = (offset / SEGMENT_WORDS) as usize;
        let segment = if number < self.segments.len() {
            self.segments[number]
        } else {
            self.spare.unwrap()
        };
        segment_at(segment) + offset % SEGMENT_WORDS
    }

    /// Makes a claimed segment the spare, where there is none and the lane has fewer than 256. Then every plan has its segment.
    pub fn keep(&mut self, segment: u32)
        requires none { self.old.spare ≡ None }
        requires count { length self.old.segments < 256 }
        requires segment { segment < self.old.pool }
        ensures value { self.new ≡ record self.old { spare = Some segment } }
        ensures reach { (words : ℕ) → words ≤ 1024
            → (plan_of self.new words).need_segment ≡ false }
    {
        self.spare = Some(segment);
    }

    /// Moves the sealed length past a plan that the log gives now and that needs no segment; the spare that it used is the lane's last segment.
    pub fn sealed(&mut self, plan: &Plan)
        requires plan { (words : ℕ) × IsPlan self.old plan.now words }
        requires room { plan.now.need_segment ≡ false }
        ensures after { self.new ≡ sealed_of self.old plan.now }
        ensures within { plan.now.len ≤ 262144 }
    {
        self.len = plan.len;
        if SEGMENT_WORDS * (self.segments.len() as u32) < plan.len {
            let spare = self.spare.take().unwrap();
            self.segments.push(spare).unwrap();
        }
    }
}
