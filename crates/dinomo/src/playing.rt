//! A play: a script is read, played over a pool, and its output written.

ghost use Rattle.std.specs.Prelude.{◌≡◌, ◌≢◌, ◌⊎◌, ◌<◌, ◌≤◌, ℕ, List, All, length};
ghost use Rattle.dn_act.specs.Words.{IsZeros, pool_size};
ghost use Rattle.dn_io.specs.Rose.{Rose};
ghost use Rattle.dn_io.specs.Whole.{WroteFront};
ghost use Rattle.dn_script.specs.Fit.{IsLine};
ghost use Rattle.dinomo.specs.Ending.{Writes, EndsPlayed, EndsBad, status_of};
ghost use Rattle.dinomo.specs.Plays.{Plays};
ghost use Rattle.dinomo.specs.Pool.{IsPoolSize};

use crate::reading::{InputFault, read_script};
use dn_act::Memory;
use dn_io::{Sink, Source, Status, write_all};
use dn_play::Stop;
use dn_print::bad_line;
use dn_script::{Cause, Script};
use dn_whole::End;
use dn_word::regions::{SEGMENT_WORDS, SEGMENTS_AT};
use std::alloc::Global;

/// Writes the output of a play that ended so. Where that fails, the write fault takes the place of the status.
pub(crate) fn write_out<K: Sink>(sink: &mut K, out: &[u8], status: Status) -> Status
    ensures ends { (result ≡ status) ⊎ (result ≡ Status.WriteFault) }
    ensures cause { result ≡ Status.WriteFault → status ≢ Status.WriteFault
        → Rose (K.faults sink.old) (K.faults sink.new) }
    ensures whole { result ≢ Status.WriteFault
        → Writes (K.written sink.old) (K.written sink.new) out.now }
    ensures part { result ≡ Status.WriteFault → status ≢ Status.WriteFault
        → WroteFront (K.written sink.old) (K.written sink.new) out.now }
    ensures no_write_fault { result ≢ Status.WriteFault
        → K.faults sink.new ≡ K.faults sink.old }
{
    match write_all(sink, out) {
        Ok(()) => status,
        Err(_) => Status::WriteFault,
    }
}

/// How the end of a play is told.
fn status_of(end: End) -> Status
    ensures { result ≡ status_of end }
{
    match end {
        End::Done => Status::Ok,
        End::Long => Status::TooLong,
        End::IndexFull => Status::IndexFull,
    }
}

/// Plays a script over the words of its segments, which all are 0, and writes the output after all of it was made.
fn play_script<K: Sink, M: Memory>(
    alloc: Global,
    sink: &mut K,
    pool: &mut M,
    script: Script,
) -> Status
    requires size { pool_size script.segments ≤ length (M.words pool.old) }
    requires zeros { IsZeros (M.words pool.old) }
    requires segments { script.segments ≤ 8192 }
    requires some { 1 ≤ script.nodes }
    requires most { script.nodes ≤ 63 }
    requires fit { All IsLine script.lines }
    ensures ends { EndsPlayed script
        (record {
          words = M.words pool.old;
          now = M.words pool.new;
          old = K.written sink.old;
          new = K.written sink.new;
        })
        result }
    ensures no_read { result ≢ Status.ReadFault }
    ensures write_fault { result ≡ Status.WriteFault
        → Rose (K.faults sink.old) (K.faults sink.new) }
    ensures no_write_fault { result ≢ Status.WriteFault
        → K.faults sink.new ≡ K.faults sink.old }
    ensures pool_fault { result ≡ Status.PoolFault → M.faults pool.old < M.faults pool.new }
    ensures no_fault { result ≢ Status.PoolFault → M.faults pool.new ≡ M.faults pool.old }
{
    let mut out = Vec::new(alloc);
    match dn_whole::play(alloc, pool, script, &mut out) {
        Ok(end) => write_out(sink, out.as_slice(), status_of(end)),
        Err(Stop::Pool) => Status::PoolFault,
        Err(Stop::OutOfMemory) => Status::OutOfMemory,
        Err(Stop::Long) => unreachable!(),
    }
}

/// Writes the line that names the first bad line of a script.
fn refuse<K: Sink>(alloc: Global, sink: &mut K, line: u64, cause: Cause) -> Status
    ensures ends { (words : List ℕ) → EndsBad (record { line = line; cause = cause })
        (record {
          words = words;
          now = words;
          old = K.written sink.old;
          new = K.written sink.new;
        })
        result }
    ensures write_fault { result ≡ Status.WriteFault
        → Rose (K.faults sink.old) (K.faults sink.new) }
    ensures no_write_fault { result ≢ Status.WriteFault
        → K.faults sink.new ≡ K.faults sink.old }
    ensures no_read { result ≢ Status.ReadFault }
    ensures no_pool { result ≢ Status.PoolFault }
{
    let mut out = Vec::new(alloc);
    match bad_line(&mut out, line, cause.name()) {
        Ok(()) => write_out(sink, out.as_slice(), Status::BadScript),
        Err(_) => Status::OutOfMemory,
    }
}

/// Plays the script of the source over the pool, and writes the output to the sink after all of it was made. A script has at
/// most as many segments as the pool.
///
/// A source, sink or access of the pool that fails ends the play with its status. What the output is where the status is
/// Ok is the definition `IsPlayed` of dn_whole, and in words docs/SCRIPT.md. All that a play promises is `Plays`.
pub fn play<S: Source, K: Sink, M: Memory>(
    alloc: Global,
    source: &mut S,
    sink: &mut K,
    pool: &mut M,
) -> Status
    requires size { IsPoolSize (length (M.words pool.old)) }
    requires zeros { IsZeros (M.words pool.old) }
    ensures plays { Plays
        (record {
          left = S.left source.old;
          reads = S.faults source.old;
          written = K.written sink.old;
          writes = K.faults sink.old;
          words = M.words pool.old;
          accesses = M.faults pool.old;
        })
        (record {
          left = S.left source.new;
          reads = S.faults source.new;
          written = K.written sink.new;
          writes = K.faults sink.new;
          words = M.words pool.new;
          accesses = M.faults pool.new;
        })
        result }
{
    let segments = (pool.size() - SEGMENTS_AT) / SEGMENT_WORDS;
    match read_script(alloc, source, segments) {
        Ok(script) => play_script(alloc, sink, pool, script),
        Err(InputFault::Bad { line, cause }) => refuse(alloc, sink, line, cause),
        Err(InputFault::Read) => Status::ReadFault,
        Err(InputFault::Long) => Status::TooLong,
        Err(InputFault::OutOfMemory) => Status::OutOfMemory,
    }
}
