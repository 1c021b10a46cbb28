//! Measures the look-up in a pending table against a walk over one list of the same entries.
//!
//! With the word `pending` or `list` it looks 100,000 keys up among 30,000 entries that lie 8 words apart, over 10,000
//! keys, in that way, and prints the sum of the places found; without a word it does both on a hundredth of that.
#![tactic(auto)]

mod loads;

use crate::loads::{Load, entries, sum_of_list, sum_of_table, table};
use anyhow::bail;
use std::env;

/// The load that is measured.
const WHOLE: Load = Load {
    entries: 30_000,
    keys: 10_000,
    look_ups: 100_000,
};

/// The load that shows both ways in no time.
const SMALL: Load = Load {
    entries: 300,
    keys: 100,
    look_ups: 1000,
};

fn pending(rt: &HostRuntime, load: &Load) -> anyhow::Result<()> {
    let sum = sum_of_table(&table(rt.alloc(), load)?, load);
    println!(rt; "pending {sum}")?;
    Ok(())
}

fn list(rt: &HostRuntime, load: &Load) -> anyhow::Result<()> {
    let sum = sum_of_list(entries(rt.alloc(), load)?.as_slice(), load);
    println!(rt; "list {sum}")?;
    Ok(())
}

fn main(rt: HostRuntime) -> anyhow::Result<()> {
    let Some(word) = env::args(&rt)?.nth(1) else {
        pending(&rt, &SMALL)?;
        return list(&rt, &SMALL);
    };
    match word.as_str() {
        "pending" => pending(&rt, &WHOLE),
        "list" => list(&rt, &WHOLE),
        _ => bail!("the one word is pending or list"),
    }
}
