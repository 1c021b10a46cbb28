ghost use Rattle.std.specs.Prelude.{◌≡◌};
ghost use Rattle.dn_pending.specs.Entries.{last_of};

/// A record that is sealed and not yet merged.
#[derive(Clone, Copy, Debug, PartialEq, Eq)]
pub struct Entry {
    /// The key that it puts or deletes.
    pub key: u64,
    /// Its place: where it begins in the lane's log, in words.
    pub at: u32,
}

/// The place of the key's last entry in a list, found by a walk from the end. It takes no memory.
///
/// This is the definition's plain program: [`crate::Pending::last`] answers the same, and walks less.
pub fn last_of(entries: &[Entry], key: u64) -> Option<u32>
    ensures { result ≡ last_of key entries.now }
{
    entries
        .iter()
        .rev()
        .find(|entry| entry.key == key)
        .map(|entry| entry.at)
}
