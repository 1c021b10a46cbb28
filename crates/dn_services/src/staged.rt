//! The words of a record, staged on their way to the pool.

ghost use Rattle.std.specs.Prelude.{◌≡◌, ◌<◌, ◌≤◌, ◌+◌, ◌*◌, ◌^◌, ◌++◌, [], false, length, ℕ, All};
ghost use Rattle.dn_log.specs.declared.staging.Staged.{Staged};
ghost use Rattle.dn_log.specs.Log.{plan_of, reach_of, new_segment_of, IsPlan, IsApart};
ghost use Rattle.dn_services.specs.Staged.{placed, directory_staged, pad_staged, staged_of, AreWithin, GoApart};

use dn_log::{LogWriter, Plan, Staging};
use dn_record::Head;
use dn_word::regions::directory_at;

/// Stages words at consecutive offsets of a log.
fn stage_words(log: &LogWriter, staging: &mut Staging, at: u32, words: &[u64])
    requires room { length staging.old + length words.now ≤ 140 }
    requires fits { at < 2 ^ 24 }
    requires reach { at + length words.now ≤ 1024 * length (reach_of log.now) }
    requires before { AreWithin log.now.pool staging.old }
    ensures value { staging.new ≡ staging.old ++ placed log.now at words.now }
    ensures within { AreWithin log.now.pool staging.new }
    ensures count { length staging.new ≡ length staging.old + length words.now }
{
    for (index, word) in words.iter().enumerate() {
        staging.put(log.word_at(at + index as u32), *word);
    }
}

/// Stages the directory word of the segment that a plan adds to the log.
fn stage_directory(log: &LogWriter, staging: &mut Staging, plan: &Plan)
    requires room { length staging.old < 140 }
    requires before { AreWithin log.now.pool staging.old }
    ensures value { staging.new ≡ staging.old
        ++ directory_staged log.now (new_segment_of log.now plan.now) }
    ensures within { AreWithin log.now.pool staging.new }
    ensures count { length staging.new ≤ length staging.old + 1 }
    ensures before { All (λ (s : Staged). s.at < 98304)
        (directory_staged log.now (new_segment_of log.now plan.now)) }
{
    if let Some(new) = log.new_segment(plan) {
        staging.put(
            directory_at(log.lane(), new.number),
            u64::from(new.segment) + 1,
        );
    }
}

/// Stages the header of a plan's pad.
fn stage_pad(log: &LogWriter, staging: &mut Staging, plan: &Plan)
    requires room { length staging.old < 140 }
    requires plan { (words : ℕ) × IsPlan log.now plan.now words }
    requires reach { plan.now.need_segment ≡ false }
    requires bound { plan.now.len ≤ 263168 }
    requires before { AreWithin log.now.pool staging.old }
    ensures value { staging.new ≡ staging.old ++ pad_staged log.now plan.now.pad }
    ensures within { AreWithin log.now.pool staging.new }
    ensures count { length staging.new ≤ length staging.old + 1 }
{
    if let Some((at, words)) = plan.pad {
        stage_words(log, staging, at, &[Head::Pad { words }.word()]);
    }
}

/// Stages what is written for a record of these words, of which there are 1 to 130 and for which the log has room: the
/// directory word of a new segment, the header of a pad, and then the record's words.
pub fn stage(log: &LogWriter, staging: &mut Staging, words: &[u64])
    requires least { 1 ≤ length words.now }
    requires most { length words.now ≤ 130 }
    requires reach { (plan_of log.now (length words.now)).need_segment ≡ false }
    requires empty { staging.old ≡ [] }
    ensures value { staging.new ≡ staged_of log.now (length words.now) words.now }
    ensures within { AreWithin log.now.pool staging.new }
    ensures count { length staging.new ≤ 132 }
    ensures apart { IsApart (reach_of log.now) → GoApart staging.new }
{
    let plan = log.plan(words.len() as u16);
    stage_directory(log, staging, &plan);
    stage_pad(log, staging, &plan);
    stage_words(log, staging, plan.at, words);
}
