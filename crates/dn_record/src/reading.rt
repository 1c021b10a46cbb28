ghost use Rattle.std.specs.Prelude.{◌≡◌, IfOk, IfSome, IfNone, OnSome};
ghost use Rattle.dn_record.specs.Record.{seen_of, held_after};
ghost use Rattle.dn_record.specs.Grammar.{FrontSpells, BeginsWithRecord};
ghost use Rattle.dn_record.specs.declared.records.Record.{Record};

use crate::contents::seen;
use crate::heads::Head;
use crate::records::{Record, Seen};
use dn_word::{OutOfMemory, ValueRoom};
use std::alloc::Global;

/// The record that a front of the words spells, with the value of a Put or Loose in the room. None exactly where no front
/// spells one. The room then stays, and so it does at the other kinds. A pad is spelled by its header alone.
pub fn look(words: &[u64], room: &mut ValueRoom) -> Option<Seen>
    ensures record { (r : Record) → FrontSpells words.now r → result ≡ Some (seen_of r) }
    ensures value { (r : Record) → FrontSpells words.now r
        → room.new ≡ held_after r room.old }
    ensures only { OnSome result (BeginsWithRecord words.now) }
    ensures none { IfNone result (room.new ≡ room.old) }
{
    let head = Head::read(*words.first()?)?;
    seen(&head, words, room)
}

/// The record that a front of the words spells: Ok of None exactly where no front spells one.
pub fn read(alloc: Global, words: &[u64]) -> Result<Option<Record>, OutOfMemory>
    ensures record { IfOk result (λ found. (r : Record) → FrontSpells words.now r
        → found ≡ Some r) }
    ensures only { IfOk result (λ found. IfSome found (λ r. FrontSpells words.now r)) }
{
    let mut room = ValueRoom::new(alloc)?;
    match look(words, &mut room) {
        None => Ok(None),
        Some(seen) => Ok(Some(seen.with(room))),
    }
}
