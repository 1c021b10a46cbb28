//! Measures what an action costs in a world of 8 nodes, of which 50 sessions make calls in turn.
//!
//! With the word `calls` 100,000 calls are made, about half of them puts of 8 bytes, over 10,000 keys; with `sample` 10,000.
//! A session starts its next call once it is answered. Each turn every node makes an action, and in every fourth turn so does
//! every merger. All is carried out event by event over a memory in the process. With the word `turns` the same 100,000 calls are
//! made by 8 nodes and their mergers without a world, in the same turns; with `alone` one call after the other; and with `sample`
//! 10,000 of them in each of these ways.
//!
//! What is printed are counts and sums of what was done and answered, so that no work can be left out.
#![tactic(auto)]

mod alone;
mod loads;
mod players;
mod plays;
mod tallies;

use crate::tallies::Tally;
use anyhow::bail;
use std::env;

/// Prints what was counted.
fn show(rt: &HostRuntime, way: &str, tally: &Tally) -> anyhow::Result<()> {
    println!(rt;
        "{} calls {} pending {} actions {} refused {} sum {}",
        way, tally.calls, tally.pending, tally.actions, tally.refused, tally.sum
    )?;
    Ok(())
}

/// Makes so many calls in a world.
fn in_world(rt: &HostRuntime, calls: u32) -> anyhow::Result<()> {
    show(rt, "world", &players::play(rt.alloc(), calls)?)
}

/// Prints what was counted of calls that nodes alone have made.
fn show_alone(rt: &HostRuntime, way: &str, tally: Option<Tally>) -> anyhow::Result<()> {
    match tally {
        Some(tally) => show(rt, way, &tally),
        None => bail!("there is no memory, or a call isn't made"),
    }
}

/// Makes so many calls by nodes alone, one after the other.
fn one_by_one(rt: &HostRuntime, calls: u32) -> anyhow::Result<()> {
    show_alone(rt, "alone", alone::play(rt.alloc(), calls))
}

/// Makes so many calls by nodes alone, which act in turn.
fn in_turn(rt: &HostRuntime, calls: u32) -> anyhow::Result<()> {
    show_alone(rt, "turns", alone::play_in_turn(rt.alloc(), calls))
}

fn main(rt: HostRuntime) -> anyhow::Result<()> {
    let word = env::args(&rt)?.nth(1);
    match word.as_deref() {
        Some("calls") => in_world(&rt, 100_000),
        Some("alone") => one_by_one(&rt, 100_000),
        Some("turns") => in_turn(&rt, 100_000),
        Some("sample") => {
            in_world(&rt, 10_000)?;
            one_by_one(&rt, 10_000)?;
            in_turn(&rt, 10_000)
        }
        _ => bail!("the one word is calls, alone, turns or sample"),
    }
}
