//! The calls that a run of a script has.

ghost use Rattle.std.specs.Prelude.{◌≡◌, ◌<◌, ◌-◌, ◌^◌, length, IfOk};
ghost use Rattle.dn_script.specs.Asked.{calls_of, with_line, asked_by};

use crate::scripts::Line;
use dn_hist::Call;
use dn_word::OutOfMemory;
use std::alloc::Global;

/// A call of a run, by its session and its number there, from 1.
#[derive(Drop)]
pub struct AskedCall {
    pub session: u32,
    pub number: u32,
    pub call: Call,
}

/// How many of these calls are a session's.
fn calls_of(session: u32, asked: &[AskedCall]) -> usize
    ensures { result ≡ calls_of session asked.now }
{
    asked.iter().filter(|x| x.session == session).count()
}

/// Adds the call of a line, if it is a call line. Fewer than 2^32 - 1 calls stand there. At want of memory nothing is added.
fn add_line(alloc: Global, asked: &mut Vec<AskedCall>, line: &Line) -> Result<(), OutOfMemory>
    requires { length asked.old.items < 2 ^ 32 - 1 }
    ensures ok { IfOk result (λ done. asked.new.items ≡ with_line asked.old.items line.now) }
{
    if let Line::Call { session, call, .. } = line {
        let number = calls_of(*session, asked.as_slice()) as u32 + 1;
        let call = call.copy(alloc)?;
        asked.push(AskedCall {
            session: *session,
            number,
            call,
        })?;
    }
    Ok(())
}

/// The calls that a run of these lines has, fewer than 2^32: of each line it is told whether it was taken, and not refused at
/// once. The calls of a session are numbered from 1 in the order of the lines. Answers want of memory, or the calls. It counts
/// them anew for each line, so it is for tests.
pub fn asked_by(
    alloc: Global,
    lines: &[Line],
    taken: &[bool],
) -> Result<Vec<AskedCall>, OutOfMemory>
    requires few { length lines.now < 2 ^ 32 }
    requires each { length taken.now ≡ length lines.now }
    ensures { IfOk result (λ asked. asked.items ≡ asked_by lines.now taken.now) }
{
    let mut asked = Vec::new(alloc);
    for at in 0..lines.len() {
        if taken[at] {
            add_line(alloc, &mut asked, &lines[at])?;
        }
    }
    Ok(asked)
}
