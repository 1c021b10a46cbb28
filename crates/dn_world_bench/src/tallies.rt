//! What is counted.

use dn_hist::{Receipt, Reply};
use dn_outcomes::{CallAnswer, Outcome};
use dn_plan::Way;
use dn_word::fnv1a;

/// Counts of what was done, and a sum of what was answered.
#[derive(Clone, Copy)]
pub struct Tally {
    /// Calls that were made.
    pub calls: u64,
    /// Of them those whose key had a pending record.
    pub pending: u64,
    /// Actions on a word of the pool.
    pub actions: u64,
    /// Attempts that were refused.
    pub refused: u64,
    /// A sum over the positions of calls and the values that were read, in the order of the answers.
    pub sum: u64,
}

impl Tally {
    /// Nothing is counted.
    pub fn new() -> Tally {
        Tally {
            calls: 0,
            pending: 0,
            actions: 0,
            refused: 0,
            sum: 0,
        }
    }

    /// Adds to the sum.
    fn add(&mut self, number: u64) {
        self.sum = self.sum.wrapping_mul(31).wrapping_add(number);
    }

    /// Counts an action.
    pub fn count(&mut self) {
        self.actions = self.actions.saturating_add(1);
    }

    /// Counts a call that was made.
    pub fn pass(&mut self, way: Way) {
        self.calls = self.calls.saturating_add(1);
        if way == Way::Pending {
            self.pending = self.pending.saturating_add(1);
        }
    }

    /// Counts what came of an event of an actor.
    pub fn act(&mut self, outcome: Outcome) {
        match outcome {
            Outcome::Nothing => return,
            Outcome::Answered {
                answer: CallAnswer::Made { way },
                ..
            } => self.pass(way),
            Outcome::Answered { .. } => self.refused = self.refused.saturating_add(1),
            _ => {}
        }
        self.count();
    }

    /// Adds what a call was answered.
    pub fn make(&mut self, receipt: &Receipt) {
        self.add(u64::from(receipt.position.stamp));
        self.add(u64::from(receipt.position.rank));
        if let Reply::Value(value) = &receipt.reply {
            self.add(fnv1a(value.as_bytes()));
        }
    }
}
