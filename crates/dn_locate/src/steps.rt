ghost use Rattle.std.specs.Prelude.{◌≡◌, ◌≤◌, ◌+◌, ◌*◌, ◌/◌, ◌^◌, ◌<◌};
ghost use Rattle.dn_act.specs.Words.{pool_size};
ghost use Rattle.dn_word.specs.Ref.{ref_of};
ghost use Rattle.dn_record.specs.Head.{IsHead, head_words};
ghost use Rattle.dn_record.specs.Reading.{head_in};
ghost use Rattle.dn_model.specs.Regions.{place_in};
ghost use Rattle.dn_locate.specs.Fetch.{rest_of, ended, on, directed, ends_inside, by_rest, headed, contained, reached, linked, FitsAt, FitsStep, IsRest, end_of};

use crate::fetches::{FetchPlace, FetchTurn, Wish};
use dn_record::Head;
use dn_word::Ref;
use dn_word::regions::{SEGMENT_WORDS, segment_at};

/// What a fetch loads behind a header.
#[derive(Clone, Copy)]
pub enum Rest {
    Nothing,
    /// The words of the record up to this number.
    Words { count: u16 },
    /// The key word of an Unshare and its third word, and then the record at the place that this names.
    Linked,
}

/// Where a fetch goes on, what it answers, and the place of the record that it goes on with, where that is another.
#[derive(Clone, Copy)]
pub struct FetchStep {
    pub place: FetchPlace,
    pub turn: FetchTurn,
    pub follow: Option<Ref>,
}

fn behind(head: Head, wish: Wish) -> Rest
    requires { IsHead head }
    ensures value { result ≡ rest_of head wish }
    ensures short { IsRest (head_words head) result }
{
    match (head, wish) {
        (Head::Put { .. } | Head::Loose { .. }, Wish::Value)
        | (Head::Unshare, Wish::Place)
        | (Head::Share { .. }, _) => Rest::Words {
            count: head.words(),
        },
        (Head::Unshare, Wish::Value) => Rest::Linked,
        _ => Rest::Nothing,
    }
}

fn end(turn: FetchTurn) -> FetchStep
    ensures { result ≡ ended turn }
{
    FetchStep {
        place: FetchPlace::Idle,
        turn,
        follow: None,
    }
}

fn go(place: FetchPlace) -> FetchStep
    ensures { result ≡ on place }
{
    FetchStep {
        place,
        turn: FetchTurn::More,
        follow: None,
    }
}

/// The pool's word of an offset, by the directory word of its segment.
fn word_of(offset: u32, directory: u64) -> u32
    requires least { 0 < directory }
    requires most { directory ≤ 8192 }
    ensures value { result ≡ place_in directory offset }
    ensures inside { result < pool_size directory }
{
    segment_at(directory as u32 - 1) + offset % SEGMENT_WORDS
}

/// The step after a directory word, in a pool of so many segments.
pub(crate) fn after_directory(segments: u32, at: Ref, word: u64) -> FetchStep
    requires { segments ≤ 8192 }
    ensures value { result ≡ directed segments at word }
    ensures stays { result.follow ≡ None }
    ensures fits { FitsAt 0 result.place }
    ensures inside { end_of result.place ≤ pool_size segments }
{
    if word == 0 || word > u64::from(segments) {
        return end(FetchTurn::Absent);
    }
    go(FetchPlace::Header {
        from: word_of(at.offset, word),
    })
}

/// Whether a record of so many words, whose header is this word of the pool, ends in the header's segment.
fn ends_inside(from: u32, count: u16) -> bool
    ensures { result ≡ ends_inside from count }
{
    from % SEGMENT_WORDS + u32::from(count) <= SEGMENT_WORDS
}

/// The step to what is loaded behind the header at this word of the pool.
fn go_behind(from: u32, rest: Rest) -> FetchStep
    ensures { result ≡ by_rest from rest }
{
    match rest {
        Rest::Nothing => end(FetchTurn::Done),
        Rest::Words { count } => go(FetchPlace::Content { from, count }),
        Rest::Linked => go(FetchPlace::Link { from }),
    }
}

/// The step after a header, at this word of the pool.
pub(crate) fn after_header(from: u32, wish: Wish, word: u64) -> FetchStep
    ensures value { result ≡ headed from wish (head_in word) }
    ensures fits { FitsStep 0 0 (1024 * (from / 1024 + 1)) result.place result.follow }
{
    match Head::read(word) {
        Some(head) if ends_inside(from, head.words()) => go_behind(from, behind(head, wish)),
        _ => end(FetchTurn::Absent),
    }
}

/// The step after the word with this number of a record of which `count` words are loaded.
pub(crate) fn after_content(key: u64, from: u32, count: u16, number: usize, word: u64) -> FetchStep
    requires { FitsAt number (FetchPlace.Content from count) }
    ensures value { result ≡ contained key from count number word }
    ensures fits { FitsStep number 0 (from + count) result.place result.follow }
{
    if number == 1 && word != key {
        end(FetchTurn::Absent)
    } else if number + 1 == count as usize {
        end(FetchTurn::Done)
    } else {
        go(FetchPlace::Content { from, count })
    }
}

/// The step after the third word of an Unshare.
fn after_third(follows: u16, word: u64) -> FetchStep
    ensures value { result ≡ reached follows (ref_of word) }
    ensures fits { FitsStep 2 follows 0 result.place result.follow }
{
    match Ref::read(word) {
        Some(at) if follows != 0 => FetchStep {
            place: FetchPlace::Directory,
            turn: FetchTurn::More,
            follow: Some(at),
        },
        _ => end(FetchTurn::Done),
    }
}

/// The step after the key word or the third word of an Unshare.
pub(crate) fn after_link(key: u64, from: u32, follows: u16, number: usize, word: u64) -> FetchStep
    requires { FitsAt number (FetchPlace.Link from) }
    ensures value { result ≡ linked key from follows number word }
    ensures fits { FitsStep number follows (from + 3) result.place result.follow }
{
    if number != 1 {
        after_third(follows, word)
    } else if word == key {
        go(FetchPlace::Link { from })
    } else {
        end(FetchTurn::Absent)
    }
}
