ghost use Rattle.std.specs.Prelude.{◌≡◌, ◌+◌, ◌*◌, ◌<◌, ◌≤◌, ◌^◌, ◌↔◌, true, IfOk, IsTrue, length};
ghost use Rattle.dn_act.specs.Action.{at_of};
ghost use Rattle.dn_word.specs.Regions.{segments_at};
ghost use Rattle.dn_act.specs.Words.{pool_size};
ghost use Rattle.dn_locate.specs.Fetch.{idle, of_pool, started, fetch_next, fetch_turn, fetch_after, fetch_left, is_under_way, IsAstray, IsLoad, directory_of, joined, FitsStep};
ghost use Rattle.dn_locate.specs.Sequence.{Fetches, sequence};

use crate::steps::{FetchStep, after_content, after_directory, after_header, after_link};
use dn_act::Action;
use dn_word::regions::{POOL_SEGMENTS, SEGMENT_WORDS, directory_at};
use dn_word::{OutOfMemory, Ref};
use std::alloc::Global;
use std::marker::Model;

/// The most words of a record that are kept: a value of 1,024 bytes has 128, behind a header and a key.
const ROOM: usize = 133;

/// How many Unshares a fetch follows, so that it ends whatever the pool holds. Of a log that lanes wrote none leads to another.
const FOLLOWS: u16 = 4096;

/// What a fetch is to bring.
#[derive(Clone, Copy, Debug, PartialEq, Eq)]
pub enum Wish {
    /// The value, for a get. An Unshare is followed to the record that it names.
    Value,
    /// The record's kind, for a put or delete; of a shared key the opening word too.
    Kind,
    /// What a task needs: of an Unshare the place that it names, of a shared key the opening word.
    Place,
}

/// Where a fetch is in its sequence of loads. `from` is the pool's word of the record's header.
#[derive(Clone, Copy)]
pub enum FetchPlace {
    /// No fetch is under way.
    Idle,
    /// The directory word of the record's segment is loaded next.
    Directory,
    /// The header is next.
    Header { from: u32 },
    /// The next word of a record of which `count` words are loaded.
    Content { from: u32, count: u16 },
    /// The next word of an Unshare whose place is followed.
    Link { from: u32 },
}

/// How a fetch goes on.
#[derive(Clone, Copy, Debug, PartialEq, Eq)]
pub enum FetchTurn {
    /// There is a next action.
    More,
    /// The words that were wished for are there.
    Done,
    /// There is no record of the key: the directory word names no segment of the pool, the header says no record or one that crosses
    /// the end of its segment, or the loaded key is another one.
    Absent,
}

/// The fetch of the record at a place, load by load: the lane's directory word, the header, and by kind and wish the words behind it.
/// Only `new` takes memory.
#[derive(Drop)]
pub struct Fetch {
    key: u64,
    wish: Wish,
    at: Ref,
    place: FetchPlace,
    words: Vec<u64>,
    follows: u16,
    segments: u32,
}

impl Model for Fetch {
    ghost use Rattle.std.specs.Prelude.{◌≤◌, vec_capacity};
    ghost use Rattle.dn_locate.specs.Fetch.{Fetching, IsFetch};

    ghost Value = { Fetching };

    ghost view = { λ f. record {
      key = f.key;
      wish = f.wish;
      at = f.at;
      place = f.place;
      words =
          f.words.items;
      follows = f.follows;
      segments = f.segments;
    } };

    ghost invariant = { λ f. (133 ≤ vec_capacity f.words)
        × IsFetch (record {
          key = f.key;
          wish = f.wish;
          at = f.at;
          place = f.place;
          words =
              f.words.items;
          follows = f.follows;
          segments = f.segments;
        }) };
}

/// The directory word of a place's segment.
fn directory(at: Ref) -> u32
    requires { at.offset < 2 ^ 24 }
    ensures value { result ≡ directory_of at }
    ensures below { result < segments_at }
{
    directory_at(0, 0) + 256 * at.lane as u32 + at.offset / SEGMENT_WORDS
}

impl Fetch {
    /// No fetch is under way, and the pool has 8,192 segments until `of_pool` says otherwise. Answers want of memory, or the fetch
    /// with its room for 133 words.
    pub fn new(alloc: Global) -> Result<Fetch, OutOfMemory>
        ensures { IfOk result (λ fetch. fetch ≡ idle) }
    {
        let words = Vec::with_capacity(alloc, ROOM)?;
        Ok(Fetch {
            key: 0,
            wish: Wish::Kind,
            at: Ref { lane: 0, offset: 0 },
            place: FetchPlace::Idle,
            words,
            follows: 0,
            segments: POOL_SEGMENTS,
        })
    }

    /// Says how many segments the pool has, at most 8,192. No fetch is under way then.
    pub fn of_pool(&mut self, segments: u32)
        requires { segments ≤ 8192 }
        ensures { self.new ≡ of_pool self.old segments }
    {
        self.place = FetchPlace::Idle;
        self.segments = segments;
    }

    /// Begins the fetch of a key's record at a place, whatever was under way.
    pub fn start(&mut self, key: u64, at: Ref, wish: Wish)
        requires { at.offset < 2 ^ 24 }
        ensures value { self.new ≡ started self.old key at wish }
        ensures sequence { Fetches self.new (sequence self.new.segments 4096 key wish at) }
    {
        self.key = key;
        self.wish = wish;
        self.at = at;
        self.place = FetchPlace::Directory;
        self.words.clear();
        self.follows = FOLLOWS;
    }

    /// The next load of the fetch that is under way: of a directory word, or of a word of the pool's segments.
    pub fn next(&self) -> Action
        requires { is_under_way self.now ≡ true }
        ensures value { result ≡ fetch_next self.now }
        ensures footprint { IsLoad result }
        ensures inside { at_of result < pool_size self.now.segments }
    {
        let at = match self.place {
            FetchPlace::Idle => 0,
            FetchPlace::Directory => directory(self.at),
            FetchPlace::Header { from } => from,
            FetchPlace::Content { from, .. } | FetchPlace::Link { from } => {
                from + self.words.len() as u32
            }
        };
        Action::Load { at }
    }

    /// Takes the word that the load found, whatever it is. `Absent` comes exactly for a directory word that names no segment of the
    /// pool, a header that says no record or one that crosses its segment's end, and another key word.
    pub fn take(&mut self, word: u64) -> FetchTurn
        requires { is_under_way self.old ≡ true }
        ensures turn { result ≡ fetch_turn self.old word }
        ensures after { self.new ≡ fetch_after self.old word }
        ensures goes_on { result ≡ FetchTurn.More ↔ is_under_way self.new ≡ true }
        ensures absent { result ≡ FetchTurn.Absent ↔ IsAstray self.old word self.old.place }
        ensures falls { result ≡ FetchTurn.More → fetch_left self.new < fetch_left self.old }
    {
        let number = self.words.len();
        match self.place {
            FetchPlace::Idle => FetchTurn::Absent,
            FetchPlace::Directory => {
                let step = after_directory(self.segments, self.at, word);
                self.place = step.place;
                step.turn
            }
            FetchPlace::Header { from } => { self.join(word, after_header(from, self.wish, word)) }
            FetchPlace::Content { from, count } => {
                self.join(word, after_content(self.key, from, count, number, word))
            }
            FetchPlace::Link { from } => {
                self.join(word, after_link(self.key, from, self.follows, number, word))
            }
        }
    }

    /// Takes a word of the record and goes on by a step.
    fn join(&mut self, word: u64, step: FetchStep) -> FetchTurn
        requires room { length self.old.words < 133 }
        requires fits { FitsStep (length self.old.words) self.old.follows
            (pool_size self.old.segments) step.place step.follow }
        ensures turn { result ≡ step.turn }
        ensures after { self.new ≡ joined self.old word step.place step.follow }
    {
        match step.follow {
            None => self.words.push_reserved(word),
            Some(at) => {
                self.at = at;
                self.words.clear();
                self.follows -= 1;
            }
        }
        self.place = step.place;
        step.turn
    }

    /// The words of the last record that were loaded so far, its header first.
    pub fn words(&self) -> &[u64]
        ensures { result.now ≡ self.now.words }
    {
        self.words.as_slice()
    }

    /// Where the last record that was fetched stands.
    pub fn place(&self) -> Ref
        ensures value { result ≡ self.now.at }
        ensures offset { result.offset < 2 ^ 24 }
    {
        self.at
    }
}
