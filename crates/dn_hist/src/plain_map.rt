//! The map that says which reply is right.

ghost use Rattle.std.specs.Prelude.{◌≡◌, ◌↔◌, IsTrue, OnOk, OnErr};
ghost use Rattle.std.specs.Option.{option_copied};
ghost use Rattle.std.specs.FinMap as map;
ghost use Rattle.dn_hist.specs.Calls.{reply_of, map_after};

use crate::calls::{Call, Reply};
use dn_word::{OutOfMemory, Value};
use std::alloc::Global;
use std::collections::BTreeMap;
use std::marker::Model;

/// A map from keys to values, which contracts see as a finite map from numbers to lists of bytes.
#[derive(Drop)]
pub struct PlainMap {
    values: BTreeMap<u64, Value>,
}

impl Model for PlainMap {
    ghost use Rattle.std.specs.Prelude.{List, ℕ};
    ghost use Rattle.std.specs.Ordering.{nat_cmp};
    ghost use Rattle.std.specs.Coded.{coded_ℕ, coded_list};
    ghost use Rattle.std.specs.FinMap as map;

    ghost Value = { map.FinMap nat_cmp (List ℕ) };

    ghost coded = { map.code coded_ℕ (coded_list coded_ℕ) };

    ghost view = { λ a. map.from_entries a.values.entries };
}

impl PlainMap {
    /// A map without a key. It takes no memory.
    pub fn new(alloc: Global) -> PlainMap
        ensures { result ≡ map.empty }
    {
        PlainMap {
            values: BTreeMap::new(alloc),
        }
    }

    /// The number of keys that have a value.
    pub fn len(&self) -> u64
        ensures { result ≡ map.len self.now }
    {
        self.values.len() as u64
    }

    /// The key's value.
    pub fn get(&self, key: u64) -> Option<&Value>
        ensures { option_copied result ≡ map.get self.now key }
    {
        self.values.get(&key)
    }

    /// Gives the key this value, in place of the one it has. Where memory is wanting the map stays as it was.
    pub fn insert(&mut self, key: u64, value: Value) -> Result<(), OutOfMemory>
        ensures ok { OnOk result (self.new ≡ map.insert self.old key value) }
        ensures err { OnErr result (self.new ≡ self.old) }
    {
        match self.values.insert(key, value) {
            Ok(_) => Ok(()),
            Err(_) => Err(OutOfMemory),
        }
    }

    /// Takes the key's value away, where it has one.
    pub fn remove(&mut self, key: u64)
        ensures { self.new ≡ map.remove self.old key }
    {
        self.values.remove(&key);
    }

    /// Whether this is the reply that the map gives the call.
    pub(crate) fn gives(&self, call: &Call, reply: &Reply) -> bool
        ensures { IsTrue result ↔ (reply.now ≡ reply_of call.now self.now) }
    {
        match (call, reply) {
            (Call::Get { key }, Reply::Value(value)) => match self.get(*key) {
                Some(found) => found.as_bytes() == value.as_bytes(),
                None => false,
            },
            (Call::Get { key }, Reply::Absent) => self.get(*key).is_none(),
            (Call::Put { .. }, Reply::Stored) => true,
            (Call::Delete { .. }, Reply::Deleted) => true,
            _ => false,
        }
    }

    /// Changes the map as the call does. Only a put takes memory, for a copy of its value; where it is wanting the map stays as it was.
    pub fn apply(&mut self, alloc: Global, call: &Call) -> Result<(), OutOfMemory>
        ensures ok { OnOk result (self.new ≡ map_after call.now self.old) }
        ensures err { OnErr result (self.new ≡ self.old) }
    {
        match call {
            Call::Get { .. } => {}
            Call::Put { key, value } => self.insert(*key, value.copy(alloc)?)?,
            Call::Delete { key } => self.remove(*key),
        }
        Ok(())
    }
}
