use dn_word::Ref;

/// What a walk is for.
#[derive(Clone, Copy)]
pub enum Errand {
    /// To find the place of the key's record.
    Find,
    /// To set it.
    Set { at: Ref },
    /// To remove the key.
    Remove,
}

/// A place of a bucket: a key word, and the place word three words behind it.
#[derive(Clone, Copy)]
pub struct Spot {
    /// The bucket, below 8,192.
    pub bucket: u16,
    /// The number of the key word in the bucket, from 1 to 3.
    pub number: u8,
}

/// What a walk knows of the chain.
#[derive(Clone, Copy)]
pub struct Trail {
    /// The bucket that it is in.
    pub bucket: u16,
    /// How many more buckets it may enter.
    pub left: u16,
    /// The first free place so far.
    pub free: Option<Spot>,
}

/// Where a walk is in its sequence of actions, with what it knows there.
#[derive(Clone, Copy)]
pub enum WalkPlace {
    /// The key word with this number, from 1 to 3, is loaded next.
    Key {
        errand: Errand,
        trail: Trail,
        number: u8,
    },
    /// The next word of a bucket that doesn't have the key is loaded.
    Next {
        errand: Errand,
        trail: Trail,
    },
    /// The key was met: find loads its place word, set stores it, remove stores 0 for the key.
    Match {
        errand: Errand,
        spot: Spot,
    },
    /// The chain ended in the bucket `last` without the key and without a free place: the overflow counter is loaded.
    Counter {
        at: Ref,
        last: u16,
    },
    /// It is below 4,096: the add that claims a bucket.
    Claim {
        at: Ref,
        last: u16,
    },
    /// The place word of a free place is stored. A new bucket is to be linked behind the bucket `from`.
    FillPlace {
        at: Ref,
        spot: Spot,
        from: Option<u16>,
    },
    /// Its place word stands: the key word is stored.
    FillKey {
        spot: Spot,
        from: Option<u16>,
    },
    /// Key and place of a new bucket stand: the next word of the chain's last bucket is stored.
    Link {
        last: u16,
        new: u16,
    },
}

/// How a walk goes on.
#[derive(Clone, Copy, Debug, PartialEq, Eq)]
pub enum WalkTurn {
    /// There is a next action.
    More,
    /// The index gives this place for the key.
    Found { at: Ref },
    /// The index gives no place for the key.
    Absent,
    /// The key is set or removed.
    Written,
    /// A bucket is needed, and `counter`, which the walk read off the overflow counter, is at least 4,096.
    IndexFull { counter: u64 },
}

/// The walk goes on at a place, or ends.
#[derive(Clone, Copy)]
pub enum Step {
    On { place: WalkPlace },
    End { turn: WalkTurn },
}
