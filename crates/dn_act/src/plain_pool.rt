ghost use Rattle.std.specs.Prelude.{◌≡◌, ◌<◌, ◌≤◌, ◌+◌, ◌*◌, ◌^◌, [], IfOk, length};
ghost use Rattle.dn_act.specs.Words.{word_at, IsZeros, pool_size};
ghost use Rattle.dn_act.specs.Action.{at_of};
ghost use Rattle.dn_act.specs.Calls.{Ascend, uncalled, next_fails, counted, answer_of, calls_after};

use crate::actions::Action;
use crate::faults::{Failed, OutOfMemory};
use crate::memories::Memory;
use crate::running::exec;
use crate::sound_pool::Sound;
use std::alloc::Global;
use std::marker::Model;

/// A pool of which those calls fail that were listed when it was made. Contracts see its words, how many calls were made,
/// the listed calls that are ahead, and how many were met, which is its count of faults.
#[derive(Drop)]
pub struct Plain {
    words: Sound,
    failing: Vec<(u64, bool)>,
    met: usize,
    made: u64,
}

impl Model for Plain {
    ghost use Rattle.std.specs.Prelude.{drop, ◌≤◌, vec_len};
    ghost use Rattle.dn_act.specs.Calls.{Calls};

    ghost Value = { Calls };

    ghost view = { λ pool. record {
      words = pool.words;
      made = pool.made;
      ahead = drop pool.met pool.failing.items;
      met = pool.met;
    } };

    ghost invariant = { λ pool. pool.met ≤ vec_len pool.failing };
}

impl Plain {
    /// A pool of 98,304 words and so many segments of 1,024 words, all 0. Each pair is the number of a call that fails, counted from 1,
    /// and whether its action is done. The numbers ascend, each once. Answers want of memory, or the pool.
    pub fn new(
        alloc: Global,
        segments: u32,
        failing: Vec<(u64, bool)>,
    ) -> Result<Plain, OutOfMemory>
        requires segments { pool_size segments < 2 ^ 32 }
        requires ascend { Ascend failing.items }
        ensures size { IfOk result (λ pool. length pool.words ≡ pool_size segments) }
        ensures zeros { IfOk result (λ pool. IsZeros pool.words) }
        ensures calls { IfOk result (λ pool. pool ≡ uncalled pool.words failing.items) }
    {
        let words = Sound::new(alloc, segments)?;
        Ok(Plain {
            words,
            failing,
            met: 0,
            made: 0,
        })
    }

    /// The word at a place below the size. Counts as no call.
    pub fn word(&self, at: u32) -> u64
        requires { at < length self.now.words }
        ensures { result ≡ word_at self.now.words at }
    {
        self.words.word(at)
    }

    /// Counts a call, and says whether it fails, and then whether its action is done.
    fn count(&mut self) -> Option<bool>
        ensures fails { result ≡ next_fails self.old }
        ensures pool { self.new ≡ counted self.old }
    {
        self.made = self.made.saturating_add(1);
        if self.met < self.failing.len() {
            let (number, done) = self.failing[self.met];
            if number == self.made {
                self.met += 1;
                return Some(done);
            }
        }
        None
    }

    /// One call: it fails where its number is listed.
    fn call(&mut self, action: Action) -> Result<u64, Failed>
        requires { at_of action < length self.old.words }
        ensures answer { result ≡ answer_of self.old action }
        ensures pool { self.new ≡ calls_after self.old action }
    {
        match self.count() {
            None => exec(&mut self.words, &action),
            Some(false) => Err(Failed),
            Some(true) => {
                exec(&mut self.words, &action)?;
                Err(Failed)
            }
        }
    }
}

impl Memory for Plain {
    ghost words = { λ pool. pool.words };

    ghost faults = { λ pool. pool.met };

    fn size(&self) -> u32 {
        self.words.size()
    }

    fn load(&mut self, at: u32) -> Result<u64, Failed>
        requires { at < length self.old.words }
        ensures answer { result ≡ answer_of self.old (Action.Load at) }
        ensures pool { self.new ≡ calls_after self.old (Action.Load at) }
    {
        self.call(Action::Load { at })
    }

    fn store(&mut self, at: u32, word: u64) -> Result<u64, Failed>
        requires { at < length self.old.words }
        ensures answer { result ≡ answer_of self.old (Action.Store at word) }
        ensures pool { self.new ≡ calls_after self.old (Action.Store at word) }
    {
        self.call(Action::Store { at, word })
    }

    fn cas(&mut self, at: u32, old: u64, new: u64) -> Result<u64, Failed>
        requires { at < length self.old.words }
        ensures answer { result ≡ answer_of self.old (Action.Cas at old new) }
        ensures pool { self.new ≡ calls_after self.old (Action.Cas at old new) }
    {
        self.call(Action::Cas { at, old, new })
    }

    fn or(&mut self, at: u32, bits: u64) -> Result<u64, Failed>
        requires { at < length self.old.words }
        ensures answer { result ≡ answer_of self.old (Action.Or at bits) }
        ensures pool { self.new ≡ calls_after self.old (Action.Or at bits) }
    {
        self.call(Action::Or { at, bits })
    }

    fn add(&mut self, at: u32, by: u64) -> Result<u64, Failed>
        requires { at < length self.old.words }
        ensures answer { result ≡ answer_of self.old (Action.Add at by) }
        ensures pool { self.new ≡ calls_after self.old (Action.Add at by) }
    {
        self.call(Action::Add { at, by })
    }
}
