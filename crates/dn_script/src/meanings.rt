//! What a line gives.

ghost use Rattle.std.specs.Prelude.{◌≡◌, IfOk};
ghost use Rattle.dn_script.specs.Found.{said_by};
ghost use Rattle.dn_script.specs.Meaning.{calling, putting, meaning_of};

use crate::fields::Found;
use crate::rows::Row;
use crate::scripts::Line;
use crate::values::made;
use dn_hist::Call;
use dn_word::OutOfMemory;
use std::alloc::Global;

/// What the header lines so far say.
#[derive(Clone, Copy, Drop)]
pub(crate) struct Header {
    pub(crate) segments: Option<u32>,
    pub(crate) nodes: Option<u8>,
    pub(crate) units: Option<u32>,
}

/// What a line gives: a header line a number of its own, and another line what it asks for.
#[derive(Drop)]
pub(crate) enum Meaning {
    Segments(u32),
    Nodes(u8),
    Units(u32),
    Line(Line),
}

/// The line of a call.
fn calling(found: Found<'_>, call: Call) -> Meaning
    ensures { result ≡ calling (said_by found.entry) call }
{
    Meaning::Line(Line::Call {
        session: found.session,
        lane: found.named,
        start: found.start,
        call,
    })
}

/// The line of a put.
fn putting(alloc: Global, found: Found<'_>) -> Result<Meaning, OutOfMemory>
    ensures { IfOk result (λ meaning. meaning ≡ putting (said_by found.entry)) }
{
    match made(alloc, found.value) {
        Ok(value) => Ok(calling(
            found,
            Call::Put {
                key: found.key,
                value,
            },
        )),
        Err(_) => Err(OutOfMemory),
    }
}

/// What a line of the row gives, where its fields say this.
pub(crate) fn given_by(alloc: Global, row: Row, found: Found<'_>) -> Result<Meaning, OutOfMemory>
    ensures { IfOk result (λ meaning. meaning ≡ meaning_of row (said_by found.entry)) }
{
    let Found {
        lane,
        key,
        count,
        index,
        from,
        to,
        ..
    } = found;
    let line = match row {
        Row::Pool => return Ok(Meaning::Segments(found.segments)),
        Row::Nodes => return Ok(Meaning::Nodes(found.nodes)),
        Row::Cache => return Ok(Meaning::Units(found.units)),
        Row::Get(_) => return Ok(calling(found, Call::Get { key })),
        Row::Put(_) => return putting(alloc, found),
        Row::Delete(_) => return Ok(calling(found, Call::Delete { key })),
        Row::Step => Line::Step { lane, count },
        Row::Flow => Line::Flow { lane, index },
        Row::Merge => Line::Merge { lane, count },
        Row::Monitor => Line::Monitor { count },
        Row::Add => Line::Add,
        Row::Move => Line::Move {
            start: false,
            key,
            lane,
        },
        Row::Fence => Line::Fence { lane },
        Row::Takeover => Line::Takeover { start: false, lane },
        Row::StartMove => Line::Move {
            start: true,
            key,
            lane,
        },
        Row::StartTakeover => Line::Takeover { start: true, lane },
        Row::Balance => Line::Balance,
        Row::Remove => Line::Remove { lane },
        Row::Stop => Line::Stop { lane },
        Row::Fuse => Line::Fuse {
            lane,
            actions: count,
        },
        Row::Fail => Line::Fail { lane },
        Row::Trim => Line::Trim { lane },
        Row::Tell => Line::Tell { from, to },
    };
    Ok(Meaning::Line(line))
}
