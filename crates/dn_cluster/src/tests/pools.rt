//! A pool that lends its words, and of which an access fails where it is told to.

ghost use Rattle.std.specs.Prelude.{◌≡◌, ◌<◌, ◌≤◌, ◌^◌, IfOk, OnErr, length, if◌then◌else◌};
ghost use Rattle.dn_act.specs.Access.{CountsFault};
ghost use Rattle.dn_act.specs.Action.{at_of, word_after, Performs, MayPerform};
ghost use Rattle.dn_act.specs.Words.{IsZeros, pool_size};

use dn_act::{Action, Failed, Memory};
use dn_word::OutOfMemory;
use std::alloc::Global;
use std::marker::Model;

/// A pool of which the next access may fail, and is then done or not done. Contracts see its words, and whether the next
/// access fails.
#[derive(Drop)]
pub struct Pool {
    words: Vec<u64>,
    fails: bool,
    done: bool,
}

impl Model for Pool {
    ghost use Rattle.std.specs.Prelude.{List, ℕ, Bool, ◌<◌, ◌^◌, vec_len};

    ghost Value = { List ℕ × Bool };

    ghost view = { λ pool. (pool.words.items, pool.fails) };

    ghost invariant = { λ pool. vec_len pool.words < 2 ^ 32 };
}

/// What an action makes of the word that it finds.
fn after(action: &Action, found: u64) -> u64
    ensures { result ≡ word_after action.now found }
{
    match *action {
        Action::Load { .. } => found,
        Action::Store { word, .. } => word,
        Action::Cas { old, new, .. } => { if found == old { new } else { found } }
        Action::Or { bits, .. } => found | bits,
        Action::Add { by, .. } => found.wrapping_add(by),
    }
}

impl Pool {
    /// A pool of so many segments whose words are all 0. No access fails.
    pub fn new(alloc: Global, segments: u32) -> Result<Pool, OutOfMemory>
        requires { segments ≤ 8192 }
        ensures size { IfOk result (λ pool. length pool.0 ≡ pool_size segments) }
        ensures zeros { IfOk result (λ pool. IsZeros pool.0) }
    {
        let size = 98304 + 1024 * segments as usize;
        Ok(Pool {
            words: vec![in alloc; 0u64; size]?,
            fails: false,
            done: false,
        })
    }

    /// Lends the words.
    pub fn words(&self) -> &[u64]
        ensures { result.now ≡ self.now.0 }
    {
        self.words.as_slice()
    }

    /// The next access fails, and its action is done or not done.
    pub fn fail(&mut self, done: bool)
        ensures { self.new.0 ≡ self.old.0 }
    {
        self.fails = true;
        self.done = done;
    }

    /// An access.
    fn access(&mut self, action: Action) -> Result<u64, Failed>
        requires { at_of action < length self.old.0 }
        ensures ok { IfOk result (λ word. Performs action word self.old.0 self.new.0) }
        ensures failed { OnErr result (MayPerform action self.old.0 self.new.0) }
        ensures count { CountsFault result (if self.old.1 then 0 else 1)
            (if self.new.1 then 0 else 1) }
    {
        let at = action.at() as usize;
        let found = self.words[at];
        if !self.fails {
            self.words[at] = after(&action, found);
            return Ok(found);
        }
        self.fails = false;
        if self.done {
            self.words[at] = after(&action, found);
        }
        Err(Failed)
    }
}

impl Memory for Pool {
    ghost words = { λ pool. pool.0 };

    ghost faults = { λ pool. if pool.1 then 0 else 1 };

    fn size(&self) -> u32 {
        self.words.len() as u32
    }

    fn load(&mut self, at: u32) -> Result<u64, Failed> {
        self.access(Action::Load { at })
    }

    fn store(&mut self, at: u32, word: u64) -> Result<u64, Failed> {
        self.access(Action::Store { at, word })
    }

    fn cas(&mut self, at: u32, old: u64, new: u64) -> Result<u64, Failed> {
        self.access(Action::Cas { at, old, new })
    }

    fn or(&mut self, at: u32, bits: u64) -> Result<u64, Failed> {
        self.access(Action::Or { at, bits })
    }

    fn add(&mut self, at: u32, by: u64) -> Result<u64, Failed> {
        self.access(Action::Add { at, by })
    }
}
