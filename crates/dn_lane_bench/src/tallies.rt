//! What is counted.

use dn_hist::{Receipt, Reply};
use dn_plan::Way;
use dn_word::fnv1a;

/// Counts of what was played, and sums of what was found.
#[derive(Clone, Copy)]
pub struct Tally {
    /// Calls that were made. The one that finds a log full isn't among them.
    pub calls: u64,
    /// Of them those whose key had a pending record.
    pub pending: u64,
    /// Actions on a word of a pool, of all calls.
    pub actions: u64,
    /// The stamp of the last position.
    pub stamp: u32,
    /// A sum over the words that the actions found and the values that were read, in their order.
    pub sum: u64,
}

impl Tally {
    /// Nothing is counted.
    pub fn new() -> Tally {
        Tally {
            calls: 0,
            pending: 0,
            actions: 0,
            stamp: 0,
            sum: 0,
        }
    }

    /// Adds to the sum.
    fn add(&mut self, word: u64) {
        self.sum = self.sum.wrapping_mul(31).wrapping_add(word);
    }

    /// Counts an action, which found this word.
    pub fn act(&mut self, word: u64) {
        self.actions = self.actions.saturating_add(1);
        self.add(word);
    }

    /// Counts a call that was made.
    pub fn make(&mut self, receipt: &Receipt, way: Way) {
        self.calls = self.calls.saturating_add(1);
        if way == Way::Pending {
            self.pending = self.pending.saturating_add(1);
        }
        self.stamp = receipt.position.stamp;
        if let Reply::Value(value) = &receipt.reply {
            self.add(fnv1a(value.as_bytes()));
        }
    }
}
