ghost use Rattle.std.specs.Prelude.{◌≡◌, ◌<◌, ◌≤◌, ◌+◌, ◌*◌, ◌^◌, IfOk, length};
ghost use Rattle.dn_act.specs.Words.{word_at, IsZeros, pool_size};

use crate::faults::{Failed, OutOfMemory};
use crate::memories::Memory;
use std::alloc::Global;
use std::marker::Model;

/// A pool of which no call fails. Contracts see it as the list of its words.
#[derive(Drop)]
pub struct Sound {
    words: Vec<u64>,
}

impl Model for Sound {
    ghost use Rattle.std.specs.Prelude.{List, ℕ, ◌<◌, ◌^◌, vec_len};

    ghost Value = { List ℕ };

    ghost view = { λ pool. pool.words.items };

    ghost invariant = { λ pool. vec_len pool.words < 2 ^ 32 };
}

impl Sound {
    /// A pool of 98,304 words and so many segments of 1,024 words, all 0. Answers want of memory, or the pool.
    pub fn new(alloc: Global, segments: u32) -> Result<Sound, OutOfMemory>
        requires { pool_size segments < 2 ^ 32 }
        ensures size { IfOk result (λ pool. length pool ≡ pool_size segments) }
        ensures zeros { IfOk result (λ pool. IsZeros pool) }
    {
        let size = 98304 + 1024 * segments as usize;
        let words = vec![in alloc; 0u64; size]?;
        Ok(Sound { words })
    }

    /// The word at a place below the size. Counts as no call.
    pub fn word(&self, at: u32) -> u64
        requires { at < length self.now }
        ensures { result ≡ word_at self.now at }
    {
        self.words[at as usize]
    }
}

impl Memory for Sound {
    ghost words = { λ pool. pool };

    ghost faults = { λ _. 0 };

    fn size(&self) -> u32 {
        self.words.len() as u32
    }

    fn load(&mut self, at: u32) -> Result<u64, Failed> {
        Ok(self.words[at as usize])
    }

    fn store(&mut self, at: u32, word: u64) -> Result<u64, Failed> {
        let old = self.words[at as usize];
        self.words[at as usize] = word;
        Ok(old)
    }

    fn cas(&mut self, at: u32, old: u64, new: u64) -> Result<u64, Failed> {
        let found = self.words[at as usize];
        if found == old {
            self.words[at as usize] = new;
        }
        Ok(found)
    }

    fn or(&mut self, at: u32, bits: u64) -> Result<u64, Failed> {
        let old = self.words[at as usize];
        self.words[at as usize] = old | bits;
        Ok(old)
    }

    fn add(&mut self, at: u32, by: u64) -> Result<u64, Failed> {
        let old = self.words[at as usize];
        self.words[at as usize] = old.wrapping_add(by);
        Ok(old)
    }
}
