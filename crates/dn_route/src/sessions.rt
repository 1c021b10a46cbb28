ghost use Rattle.std.specs.Prelude.{◌≡◌, ◌≢◌, ◌+◌, ◌-◌, ◌^◌, ◌<◌, ◌≤◌, ℕ, length, OnOk, OnErr, slice_index};
ghost use Rattle.dn_word.specs.Deed.{deed_of};
ghost use Rattle.dn_route.specs.SessionState.{opened, numbered, hint_of, view_of, heard, refreshed};

use dn_hist::SessionView;
use dn_word::{Deed, OutOfMemory, Position};
use std::alloc::Global;
use std::marker::Model;

/// How many slots there are.
const SLOTS: usize = 64;

/// What a caller knows between its calls. Contracts see a record of plain data: the session's number, the number of its
/// last call, the last position, the routes of the 64 slots, and the pairs of key and cell that it was told of.
///
/// A route is a guess: a call that comes to a lane that doesn't own the key's slot is refused there, and the session
/// then looks at the slot's deed.
#[derive(Drop)]
pub struct Session {
    session: u32,
    number: u32,
    last: Position,
    routes: [u8; SLOTS],
    hints: Vec<(u64, u8)>,
}

impl Model for Session {
    ghost use Rattle.std.specs.Prelude.{◌≡◌, ◌^◌, ◌<◌, length};
    ghost use Rattle.dn_route.specs.SessionState.{SessionState};

    ghost Value = { SessionState };

    ghost view = { λ a.
        record { session = a.session; number = a.number; last = a.last; routes = a.routes; hints = a.hints.items } };

    ghost invariant = { λ a. length a.routes ≡ 64 };
}

impl Session {
    /// A session with this number, from 1 to 1,000, that has made no call. Its last position is its own with stamp 0
    /// and rank 0, no route is known, and there are no hints. It takes no memory before it is given hints.
    pub fn new(alloc: Global, number: u32) -> Session
        requires least { 1 ≤ number }
        requires most { number ≤ 1000 }
        ensures { result ≡ opened number }
    {
        Session {
            session: number,
            number: 0,
            last: Position {
                stamp: 0,
                rank: 0,
                session: number,
            },
            routes: [0; SLOTS],
            hints: Vec::new(alloc),
        }
    }

    /// Gives the next call its number, which is one more than the last one's, and what the session shows with it. The
    /// condition is that fewer than 2^32 - 1 calls were numbered.
    pub fn view(&mut self, key: u64) -> SessionView
        requires { self.old.number < 2 ^ 32 - 1 }
        ensures after { self.new ≡ numbered self.old }
        ensures value { result ≡ view_of self.new key }
    {
        self.number += 1;
        self.again(key)
    }

    /// What the session shows with a further attempt at its last call, under the same number. The hint is the cell of
    /// the first pair with the key, or none.
    pub fn again(&self, key: u64) -> SessionView
        ensures { result ≡ view_of self.now key }
    {
        SessionView {
            session: self.session,
            number: self.number,
            last: self.last,
            hint: hint(self.hints.as_slice(), key),
        }
    }

    /// The last position that the session knows.
    pub fn last(&self) -> Position
        ensures { result ≡ self.now.last }
    {
        self.last
    }

    /// Tells the session a position, of a reply to a call of its own or from another session: its last position is the
    /// greater of the two.
    pub fn told(&mut self, position: Position)
        ensures { self.new ≡ heard self.old position }
    {
        if self.last < position {
            self.last = position;
        }
    }

    /// The lane, from 1 to 63, that the session sends its calls on keys of a slot (from 0 to 63) to; 0 where it knows
    /// none.
    pub fn route(&self, slot: u8) -> u8
        requires { slot < 64 }
        ensures value { result ≡ slice_index self.now.routes slot }
        ensures slots { length self.now.routes ≡ 64 }
    {
        self.routes[slot as usize]
    }

    /// Learns the route of a slot (from 0 to 63) from the word of its deed: the lane that owns it, or the one that the
    /// word names otherwise, which is 0 where the slot is nobody's. All other routes stay.
    pub fn refresh(&mut self, slot: u8, deed_word: u64)
        requires { slot < 64 }
        ensures after { self.new ≡ refreshed self.old slot deed_word }
        ensures route { slice_index self.new.routes slot ≡ (deed_of deed_word).lane }
        ensures others { (s : ℕ) → s ≢ slot
            → slice_index self.new.routes s ≡ slice_index self.old.routes s }
    {
        self.routes[slot as usize] = Deed::read(deed_word).lane;
    }

    /// Replaces all hints by these pairs of a key and a cell. At want of memory the session stays as it was.
    pub fn hints(&mut self, pairs: &[(u64, u8)]) -> Result<(), OutOfMemory>
        ensures ok { OnOk result (self.new ≡ record self.old { hints = pairs.now }) }
        ensures err { OnErr result (self.new ≡ self.old) }
    {
        let alloc = *self.hints.allocator();
        self.hints = Vec::from_slice(alloc, pairs).map_err(|_| OutOfMemory)?;
        Ok(())
    }
}

/// The cell of the first pair with a key, or none.
fn hint(pairs: &[(u64, u8)], key: u64) -> Option<u8>
    ensures { result ≡ hint_of pairs.now key }
{
    pairs.iter().find(|pair| pair.0 == key).map(|pair| pair.1)
}
