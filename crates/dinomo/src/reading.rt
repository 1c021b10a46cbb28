//! The script of a source, or why there is none.

ghost use Rattle.std.specs.Prelude.{IfOk, IfErr, OnOk};
ghost use Rattle.std.specs.Io.KnownBytes.{IsAtEnd};
ghost use Rattle.dn_script.specs.Fit.{IsScript};
ghost use Rattle.dinomo.specs.Verdict.{IsRead, IsInputFault, Played};

use dn_io::{ReadAllFault, Source, read_all};
use dn_script::{Cause, Mode, ParseFault, Script, parse};
use std::alloc::Global;

/// The most bytes of a script.
pub const MAX_BYTES: u64 = 67_108_864;

/// Why there is no script.
#[derive(Clone, Copy, Debug, PartialEq, Eq)]
pub enum InputFault {
    Read,
    Long,
    Bad { line: u64, cause: Cause },
    OutOfMemory,
}

/// Reads the script of a source to its end, for a pool of so many segments.
pub(crate) fn read_script<S: Source>(
    alloc: Global,
    source: &mut S,
    segments: u32,
) -> Result<Script, InputFault>
    ensures ok { IfOk result (λ script. IsRead segments (S.left source.old)
        (S.faults source.old) (S.faults source.new) (Played script)) }
    ensures fits { IfOk result (λ script. IsScript segments 67108864 script) }
    ensures fault { IfErr result (IsInputFault segments (S.left source.old)
        (S.faults source.old) (S.faults source.new)) }
    ensures end { OnOk result (IsAtEnd (S.left source.new)) }
{
    let bytes = match read_all(alloc, source, MAX_BYTES) {
        Ok(bytes) => bytes,
        Err(ReadAllFault::Read) => return Err(InputFault::Read),
        Err(ReadAllFault::Long) => return Err(InputFault::Long),
        Err(ReadAllFault::OutOfMemory) => return Err(InputFault::OutOfMemory),
    };
    match parse(alloc, bytes.as_slice(), Mode::Play, segments) {
        Ok(script) => Ok(script),
        Err(ParseFault::Bad { line, cause }) => Err(InputFault::Bad { line, cause }),
        Err(ParseFault::Lines) => Err(InputFault::Long),
        Err(ParseFault::OutOfMemory) => Err(InputFault::OutOfMemory),
    }
}
