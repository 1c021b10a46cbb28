ghost use Rattle.std.specs.Prelude.{◌≤◌};

use dn_pending::{Entry, Pending, last_of};
use dn_word::{OutOfMemory, hash};
use std::alloc::Global;

/// How many words lie between the places of two entries.
const WORDS_APART: u32 = 8;

/// How much is looked up among how much.
#[derive(Clone, Copy)]
pub struct Load {
    /// How many entries there are, at most 32,768, which fill a log.
    pub entries: u32,
    /// How many keys there are; they are numbered from 1.
    pub keys: u32,
    /// How many keys are looked up.
    pub look_ups: u32,
    ghost in_log: { entries ≤ 32768 },
    ghost some_key: { 1 ≤ keys },
}

/// A key that is picked by a number, each as likely as any other.
fn key_of(number: u64, keys: u32) -> u64
    requires { 1 ≤ keys }
{
    hash(number) % u64::from(keys) + 1
}

/// The table of the load's entries.
pub fn table(alloc: Global, load: &Load) -> Result<Pending, OutOfMemory> {
    let mut table = Pending::new(alloc)?;
    for number in 0..load.entries {
        table.reserve()?;
        table.add(key_of(u64::from(number), load.keys), WORDS_APART * number);
    }
    Ok(table)
}

/// The list of the load's entries.
pub fn entries(alloc: Global, load: &Load) -> Result<Vec<Entry>, OutOfMemory> {
    let mut entries = Vec::new(alloc);
    for number in 0..load.entries {
        let entry = Entry {
            key: key_of(u64::from(number), load.keys),
            at: WORDS_APART * number,
        };
        entries.push(entry).map_err(|_| OutOfMemory)?;
    }
    Ok(entries)
}

/// The key of a look-up.
fn looked_up(number: u32, keys: u32) -> u64
    requires { 1 ≤ keys }
{
    key_of(u64::MAX - u64::from(number), keys)
}

/// The sum of the places that the table answers, with 1 for a key that it doesn't have.
pub fn sum_of_table(table: &Pending, load: &Load) -> u64 {
    let mut sum = 0u64;
    for number in 0..load.look_ups {
        let place = table.last(looked_up(number, load.keys)).unwrap_or(1);
        sum = sum.wrapping_add(u64::from(place));
    }
    sum
}

/// The same sum by a walk over the list.
pub fn sum_of_list(entries: &[Entry], load: &Load) -> u64 {
    let mut sum = 0u64;
    for number in 0..load.look_ups {
        let place = last_of(entries, looked_up(number, load.keys)).unwrap_or(1);
        sum = sum.wrapping_add(u64::from(place));
    }
    sum
}
