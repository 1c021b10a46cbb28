use dn_index::Walk;

/// What a record asks of the index.
#[derive(Clone, Copy, Debug, PartialEq, Eq)]
pub enum Change {
    /// That it gives the record's place for the record's key.
    Set,
    /// That it gives none.
    Remove,
}

/// Where a merger is in its turn, with what it knows there. `mark` is the merged mark that this turn loaded, which is the offset of the
/// record at hand; `from` is the pool's word of that record's header; `to` is the offset behind the record.
#[derive(Clone, Copy)]
pub enum MergePlace {
    /// Loads the gate: a turn begins.
    Gate,
    /// Loads the merged mark. `gate` is the gate word that this turn loaded.
    Mark {
        gate: u64,
    },
    /// Loads the directory word of the record's segment.
    Directory {
        mark: u32,
    },
    /// Loads the record's header.
    Header {
        mark: u32,
        from: u32,
    },
    /// Loads the record's key.
    Key {
        mark: u32,
        from: u32,
        to: u32,
        change: Change,
    },
    /// Walks through the index, which it changes.
    Walk {
        to: u32,
        walk: Walk,
    },
    /// Stores the merged mark: a turn ends.
    Pass {
        to: u32,
    },
}
