//! Measures what an action of the next key node costs.
//!
//! With the word `small` or `large` a lane makes puts of 8 or of 1,024 bytes over 100 keys, and with `gets` puts of 8
//! bytes and gets. Each call is carried out action by action over a memory in the process. When the log is full a fresh
//! lane begins over a fresh memory, so often that more than 3,000,000 actions are done. No merger runs, so each key that
//! was put has a pending record. With `sample` each of the three is played for one round in a pool of 16 segments.
//!
//! What is printed are counts and sums of what was done and found, so that no work can be left out.
#![tactic(auto)]

mod loads;
mod plays;
mod tallies;

use crate::loads::{Load, Size};
use crate::plays::play;
use anyhow::bail;
use std::env;

/// Puts of 8 bytes: 699,595 actions a round.
const SMALL: Load = Load {
    size: Size::Small,
    gets: false,
    segments: 256,
    rounds: 5,
};

/// Puts of 1,024 bytes: 243,147 actions a round.
const LARGE: Load = Load {
    size: Size::Large,
    gets: false,
    segments: 256,
    rounds: 13,
};

/// Puts of 8 bytes and gets: 1,222,795 actions a round.
const GETS: Load = Load {
    size: Size::Small,
    gets: true,
    segments: 256,
    rounds: 3,
};

/// About a hundredth of a load: one round in a pool of 16 segments.
fn sample(load: &Load) -> Load {
    Load {
        size: load.size,
        gets: load.gets,
        segments: 16,
        rounds: 1,
    }
}

/// Plays a load and prints its sums behind its name.
fn show(rt: &HostRuntime, name: &str, load: &Load) -> anyhow::Result<()> {
    let tally = play(rt.alloc(), load)?;
    println!(rt;
        "{name} calls {} pending {} actions {} stamp {} sum {}",
        tally.calls, tally.pending, tally.actions, tally.stamp, tally.sum
    )?;
    Ok(())
}

fn main(rt: HostRuntime) -> anyhow::Result<()> {
    let word = env::args(&rt)?.nth(1);
    match word.as_deref() {
        Some("small") => show(&rt, "small", &SMALL),
        Some("large") => show(&rt, "large", &LARGE),
        Some("gets") => show(&rt, "gets", &GETS),
        Some("sample") => {
            show(&rt, "small", &sample(&SMALL))?;
            show(&rt, "large", &sample(&LARGE))?;
            show(&rt, "gets", &sample(&GETS))
        }
        _ => bail!("the one word is small, large, gets or sample"),
    }
}
