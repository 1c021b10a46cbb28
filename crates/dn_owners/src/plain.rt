//! Which pending records count, computed plainly.

ghost use Rattle.std.specs.Prelude.{◌≡◌, if◌then◌else◌, Some};
ghost use Rattle.dn_owners.specs.Counting.{counts, last_counting as last_counting_of};

/// A record that a lane has sealed and not yet seen merged.
#[derive(Clone, Copy, Debug, PartialEq, Eq)]
pub struct Pending {
    /// Its key.
    pub key: u64,
    /// Its offset in the lane's log, in words.
    pub offset: u64,
}

/// The record, where it is of the key and counts, or else the one before it.
fn later(one: Pending, key: u64, learnt_at: u64, before: Option<Pending>) -> Option<Pending>
    ensures { result ≡ (if counts key learnt_at one then Some one else before) }
{
    if one.key == key && learnt_at <= one.offset {
        Some(one)
    } else {
        before
    }
}

/// The last pending record of a key that counts for its slot: one at or past the length, in words, that the lane's log
/// had when the lane learnt the slot's epoch. An earlier one was sealed before the slot went to another lane and came
/// back, so it says nothing of now.
pub fn last_counting(pending: &[Pending], key: u64, learnt_at: u64) -> Option<Pending>
    ensures last { result ≡ last_counting_of key learnt_at pending.now }
{
    let mut last = None;
    for one in pending {
        last = later(*one, key, learnt_at, last);
    }
    last
}
