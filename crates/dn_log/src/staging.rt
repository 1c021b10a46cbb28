ghost use Rattle.std.specs.Prelude.{◌≡◌, ◌<◌, ◌≤◌, ◌↔◌, ◌++◌, ◌∷◌, [], length, IfOk, IsTrue};
ghost use Rattle.std.specs.List.{remove};
ghost use Rattle.dn_log.specs.Staged.{flow_of};

use dn_act::Action;
use dn_word::OutOfMemory;
use std::alloc::Global;
use std::collections::VecDeque;
use std::marker::Model;

/// The most words that wait: a record of 1,024 bytes has 130, and before it may stand a directory word and a pad's header.
const ROOM: usize = 140;

/// A word on its way to the pool.
#[derive(Clone, Copy, Debug, PartialEq, Eq)]
pub struct Staged {
    /// The word of the pool that it goes to.
    pub at: u32,
    /// What that word becomes.
    pub word: u64,
}

/// The words that a lane has stored and that haven't reached the pool, the oldest first. They may flow in any order.
/// Contracts see the list; it has room for 140.
///
/// They stand in a ring, since they mostly flow oldest first: then none of the others moves.
#[derive(Drop)]
pub struct Staging {
    words: VecDeque<Staged>,
}

impl Model for Staging {
    ghost use Rattle.std.specs.Prelude.{List, ◌≤◌};
    ghost use Rattle.std.specs.VecDeque.{deque_len, deque_capacity};
    ghost use Rattle.dn_log.specs.declared.staging.Staged.{Staged};

    ghost Value = { List Staged };

    ghost view = { λ staging. staging.words.items };

    ghost invariant = { λ staging. (deque_len staging.words ≤ 140)
        × (140 ≤ deque_capacity staging.words) };
}

impl Staging {
    /// An empty queue with its room, or want of memory.
    pub fn new(alloc: Global) -> Result<Staging, OutOfMemory>
        ensures { IfOk result (λ staging. staging ≡ []) }
    {
        let words = VecDeque::with_capacity(alloc, ROOM)?;
        Ok(Staging { words })
    }

    /// How many words wait.
    pub fn len(&self) -> u32
        ensures value { result ≡ length self.now }
        ensures room { result ≤ 140 }
    {
        self.words.len() as u32
    }

    /// Whether none waits.
    pub fn is_empty(&self) -> bool
        ensures { IsTrue result ↔ (self.now ≡ []) }
    {
        self.words.is_empty()
    }

    /// Adds a word as the newest, where fewer than 140 wait.
    pub fn put(&mut self, at: u32, word: u64)
        requires { length self.old < 140 }
        ensures { self.new ≡ self.old ++ record { at = at; word = word } ∷ [] }
    {
        self.words.push_back(Staged { at, word }).unwrap();
    }

    /// The store of the word at this place from the oldest, which is 0. None exactly where no more than `index` words wait.
    pub fn flow(&self, index: u32) -> Option<Action>
        ensures { result ≡ flow_of self.now index }
    {
        let staged = *self.words.get(index as usize)?;
        Some(Action::Store {
            at: staged.at,
            word: staged.word,
        })
    }

    /// Takes that word out, where it is there; the others keep their order. For the oldest none of them moves.
    pub fn flowed(&mut self, index: u32)
        ensures { self.new ≡ remove self.old index }
    {
        self.words.remove(index as usize);
    }

    /// No word waits any more.
    pub fn clear(&mut self)
        ensures { self.new ≡ [] }
    {
        self.words.clear();
    }
}
