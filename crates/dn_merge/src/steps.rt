//! Where a merger goes on by the word that an action found.

ghost use Rattle.std.specs.Prelude.{◌≡◌, ◌≢◌, ◌<◌, ◌≤◌, ◌+◌, ◌^◌, ◌↔◌, ℕ};
ghost use Rattle.dn_word.specs.Regions.{segments_at};
ghost use Rattle.dn_model.specs.Regions.{place_in};
ghost use Rattle.dn_act.specs.Words.{pool_size};
ghost use Rattle.dn_record.specs.Reading.{head_in};
ghost use Rattle.dn_index.specs.Walk.{walk_turn, walk_after, actions_left, IsFull as NeedsMore};
ghost use Rattle.dn_merge.specs.Merge.{ended, on, change_of, marked, headed, by_change, keyed, walked, FitsAt};
ghost use Rattle.dn_merge.specs.Left.{HasFewer};

use crate::mergers::MergeTurn;
use crate::places::{Change, MergePlace};
use dn_index::{Walk, WalkTurn};
use dn_record::Head;
use dn_word::regions::{SEGMENT_WORDS, segment_at};
use dn_word::{Gate, Ref};

/// Where a merger goes on, and what it answers.
#[derive(Clone, Copy)]
pub struct MergeStep {
    pub place: MergePlace,
    pub turn: MergeTurn,
}

/// The turn ends, and the next one begins.
pub(crate) fn end(turn: MergeTurn) -> MergeStep
    ensures { result ≡ ended turn }
{
    MergeStep {
        place: MergePlace::Gate,
        turn,
    }
}

/// The turn goes on.
pub(crate) fn go(place: MergePlace) -> MergeStep
    ensures { result ≡ on place }
{
    MergeStep {
        place,
        turn: MergeTurn::More,
    }
}

/// What a record of this head asks of the index. A value or a loss that a cell leads to stands in the cell, and a pad says nothing.
fn change_of(head: Head) -> Option<Change>
    ensures { result ≡ change_of head }
{
    match head {
        Head::Put { .. } | Head::Share { .. } | Head::Unshare => Some(Change::Set),
        Head::Delete => Some(Change::Remove),
        Head::Loose { .. } | Head::LooseDelete | Head::Pad { .. } => None,
    }
}

/// After the mark: all is merged where the gate's length equals it.
pub(crate) fn after_mark(gate: u64, word: u64) -> MergeStep
    requires { word ≤ 262144 }
    ensures value { result ≡ marked gate word }
    ensures fits { FitsAt result.place }
    ensures falls { HasFewer 16398 result.place }
{
    if Gate::read(gate).len as u64 == word {
        end(MergeTurn::Idle { gate, mark: word })
    } else {
        go(MergePlace::Directory { mark: word as u32 })
    }
}

/// The pool's word of an offset, by the directory word of its segment.
fn word_of(offset: u32, directory: u64) -> u32
    requires least { 0 < directory }
    requires most { directory ≤ 8192 }
    ensures value { result ≡ place_in directory offset }
    ensures below { result < pool_size 8192 }
{
    segment_at(directory as u32 - 1) + offset % SEGMENT_WORDS
}

/// After the directory word.
pub(crate) fn after_directory(mark: u32, word: u64) -> MergeStep
    requires mark { mark ≤ 262144 }
    requires least { 0 < word }
    requires most { word ≤ 8192 }
    ensures value { result ≡ on (MergePlace.Header mark (place_in word mark)) }
    ensures fits { FitsAt result.place }
{
    go(MergePlace::Header {
        mark,
        from: word_of(mark, word),
    })
}

/// After the header. One that is outside the grammar, which no sealed log has, ends the turn.
pub(crate) fn after_header(mark: u32, from: u32, word: u64) -> MergeStep
    requires mark { mark ≤ 262144 }
    requires least { segments_at ≤ from }
    requires most { from < pool_size 8192 }
    ensures value { result ≡ headed mark from (head_in word) }
    ensures fits { FitsAt result.place }
    ensures falls { HasFewer 16396 result.place }
{
    let Some(head) = Head::read(word) else {
        return end(MergeTurn::More);
    };
    let to = mark + u32::from(head.words());
    match change_of(head) {
        None => go(MergePlace::Pass { to }),
        Some(change) => go(MergePlace::Key {
            mark,
            from,
            to,
            change,
        }),
    }
}

/// After the key word: the walk begins.
pub(crate) fn after_key(at: Ref, to: u32, change: Change, word: u64) -> MergeStep
    requires offset { at.offset < 2 ^ 24 }
    requires to { to < 327680 }
    requires key { word ≢ 0 }
    ensures value { result ≡ keyed at to change word }
    ensures fits { FitsAt result.place }
    ensures falls { HasFewer 16395 result.place }
{
    let walk = match change {
        Change::Set => Walk::set(word, at),
        Change::Remove => Walk::remove(word),
    };
    go(MergePlace::Walk { to, walk })
}

/// After a word of the walk: where the walk has ended the mark is next.
pub(crate) fn after_walk(to: u32, walk: Walk, word: u64) -> MergeStep
    requires to { to < 327680 }
    ensures value { result ≡ walked to (walk_turn walk word) (walk_after walk word) }
    ensures fits { FitsAt result.place }
    ensures falls { HasFewer (1 + actions_left walk) result.place }
    ensures full { (counter : ℕ)
        → result.turn ≡ MergeTurn.IndexFull counter ↔ (word ≡ counter)
        × NeedsMore walk.place word }
{
    let mut walk = walk;
    match walk.take(word) {
        WalkTurn::More => go(MergePlace::Walk { to, walk }),
        WalkTurn::IndexFull { counter } => end(MergeTurn::IndexFull { counter }),
        WalkTurn::Found { .. } | WalkTurn::Absent | WalkTurn::Written => go(MergePlace::Pass {
            to,
        }),
    }
}
