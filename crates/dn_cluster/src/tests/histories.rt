//! The receipts of a play, and the map that they leave in the order of their positions, read by a plain slow program.

use super::KEYS;
use super::plays::{Play, key_in};
use dn_hist::{Call, Receipt, Reply};
use dn_model::pool_map;
use dn_word::{Position, Value};
use std::alloc::Global;
use std::process::Abort;
use std::test::Fail;

/// The receipts that stand, as they came.
#[derive(Drop)]
pub struct History {
    receipts: Vec<Receipt>,
}

/// A position behind all those of receipts.
const END: Position = Position {
    stamp: u32::MAX,
    rank: 0,
    session: 0,
};

/// Whether a receipt is of a put or delete of a key, before a position.
fn writes(receipt: &Receipt, key: u64, before: Position) -> bool {
    let writes = match receipt.call {
        Call::Get { .. } => false,
        Call::Put { .. } | Call::Delete { .. } => true,
    };
    writes && key_in(&receipt.call) == key && receipt.position < before
}

/// That of two receipts which has the greater position.
fn later<'a>(last: Option<&'a Receipt>, receipt: &'a Receipt) -> &'a Receipt {
    match last {
        Some(last) => {
            if receipt.position < last.position {
                last
            } else {
                receipt
            }
        }
        None => receipt,
    }
}

/// What a put or delete leaves at its key.
fn left_by(receipt: &Receipt) -> Option<&Value> {
    match &receipt.call {
        Call::Put { value, .. } => Some(value),
        Call::Get { .. } | Call::Delete { .. } => None,
    }
}

/// Whether both are the same.
fn are_same(one: Option<&Value>, other: Option<&Value>) -> bool {
    match (one, other) {
        (Some(one), Some(other)) => one.as_bytes() == other.as_bytes(),
        (None, None) => true,
        _ => false,
    }
}

impl History {
    /// A history without a receipt.
    pub fn new(alloc: Global) -> History {
        History {
            receipts: Vec::new(alloc),
        }
    }

    /// The number of receipts.
    pub fn len(&self) -> usize {
        self.receipts.len()
    }

    /// The last put or delete of a key before a position.
    fn last_write(&self, key: u64, before: Position) -> Option<&Receipt> {
        let mut last = None;
        for receipt in self.receipts.as_slice() {
            if writes(receipt, key, before) {
                last = Some(later(last, receipt));
            }
        }
        last
    }

    /// What the receipts before a position leave at a key.
    fn value_before(&self, key: u64, before: Position) -> Option<&Value> {
        match self.last_write(key, before) {
            Some(receipt) => left_by(receipt),
            None => None,
        }
    }

    /// What all receipts leave at a key.
    pub fn value(&self, key: u64) -> Option<&Value> {
        self.value_before(key, END)
    }

    /// Whether the reply is right: a get's is the value that the receipts before it leave.
    fn is_right(&self, receipt: &Receipt) -> bool {
        match (&receipt.call, &receipt.reply) {
            (Call::Get { key }, Reply::Value(value)) => {
                are_same(self.value_before(*key, receipt.position), Some(value))
            }
            (Call::Get { key }, Reply::Absent) => {
                self.value_before(*key, receipt.position).is_none()
            }
            (Call::Put { .. }, Reply::Stored) | (Call::Delete { .. }, Reply::Deleted) => true,
            _ => false,
        }
    }

    /// A receipt joins.
    pub fn add(&mut self, rt: &impl Abort, receipt: Receipt) -> Result<(), Fail> {
        assert!(rt; self.is_right(&receipt));
        self.receipts.push(receipt)?;
        Ok(())
    }

    /// The last receipt's position.
    pub fn last(&self) -> Option<Position> {
        match self.receipts.last() {
            Some(receipt) => Some(receipt.position),
            None => None,
        }
    }

    /// The replies of all receipts are right, whatever came later, and no two have one position.
    pub fn is_legal(&self) -> bool {
        for receipt in self.receipts.as_slice() {
            if !self.is_right(receipt) || self.count(receipt.position) != 1 {
                return false;
            }
        }
        true
    }

    /// How many receipts have this position.
    fn count(&self, position: Position) -> usize {
        let mut count = 0usize;
        for receipt in self.receipts.as_slice() {
            if receipt.position == position {
                count = count.saturating_add(1);
            }
        }
        count
    }

    /// The map of the pool is what the receipts leave.
    pub fn is_of(&self, rt: &impl Abort, alloc: Global, play: &Play) -> Result<(), Fail> {
        let map = pool_map(alloc, play.words())?;
        let mut count = 0u64;
        for key in KEYS {
            let value = self.value(key);
            assert!(rt; are_same(map.get(key), value), "at key {key}");
            if value.is_some() {
                count = count.saturating_add(1);
            }
        }
        assert_eq!(rt; map.len(), count);
        Ok(())
    }
}
