ghost use Rattle.std.specs.Prelude.{◌≡◌, ◌<◌, ◌≤◌, ◌+◌, ◌-◌, ◌∷◌, ◌++◌, [], length, take, drop, OnOk};
ghost use Rattle.dn_pending.specs.Queue.{Row};

use dn_word::OutOfMemory;
use std::alloc::Global;
use std::marker::Model;

/// A queue whose items lie side by side, so that they are lent as one slice.
///
/// What is dropped at the front stays in the buffer until it is more than what is left; only then are the others moved, so
/// that a drop costs, over all, what it drops.
#[derive(Drop)]
pub struct Queue<T: Copy> {
    items: Vec<T>,
    gone: usize,
}

impl<T: Copy> Model for Queue<T> {
    ghost use Rattle.std.specs.Prelude.{◌≤◌, ◌-◌, drop, vec_len, vec_capacity};
    ghost use Rattle.dn_pending.specs.Queue.{Row};

    ghost Value = { Row T };

    ghost view = { λ q. record {
      items = drop q.gone q.items.items;
      room = vec_capacity q.items - vec_len q.items;
    } };

    ghost invariant = { λ q. q.gone ≤ vec_len q.items };
}

impl<T: Copy> Queue<T> {
    /// An empty queue.
    pub fn new(alloc: Global) -> Queue<T>
        ensures { result.items ≡ [] }
    {
        Queue {
            items: Vec::new(alloc),
            gone: 0,
        }
    }

    /// Lends all items, the oldest first.
    pub fn as_slice(&self) -> &[T]
        ensures { result.now ≡ self.now.items }
    {
        &self.items.as_slice()[self.gone..]
    }

    /// Makes room for so many more.
    pub fn reserve(&mut self, more: usize) -> Result<(), OutOfMemory>
        ensures same { self.new.items ≡ self.old.items }
        ensures kept { self.old.room ≤ self.new.room }
        ensures room { OnOk result (more ≤ self.new.room) }
    {
        self.items.reserve(more).map_err(|_| OutOfMemory)
    }

    /// Adds an item as the newest.
    pub fn push(&mut self, item: T)
        requires { 1 ≤ self.old.room }
        ensures items { self.new.items ≡ self.old.items ++ item ∷ [] }
        ensures room { self.new.room ≡ self.old.room - 1 }
    {
        self.items.push_reserved(item);
    }

    /// Puts an item in the place of the newest.
    pub fn replace_last(&mut self, item: T)
        requires { 1 ≤ length self.old.items }
        ensures items { self.new.items ≡
            take (length self.old.items - 1) self.old.items ++ item ∷ [] }
        ensures room { self.new.room ≡ self.old.room }
    {
        self.items.pop();
        self.items.push_reserved(item);
    }

    /// Drops so many of the oldest items.
    pub fn drop_front(&mut self, count: usize)
        requires { count ≤ length self.old.items }
        ensures items { self.new.items ≡ drop count self.old.items }
        ensures room { self.old.room ≤ self.new.room }
    {
        self.gone += count;
        if self.items.len() - self.gone < self.gone {
            drop(self.items.drain(..self.gone));
            self.gone = 0;
        }
    }
}
