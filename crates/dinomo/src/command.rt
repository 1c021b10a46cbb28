//! The words of the command line.

ghost use Rattle.std.specs.Prelude.{◌≡◌, ◌≢◌, ◌↔◌, length, IsTrue};
ghost use Rattle.dn_act.specs.Words.{IsZeros};
ghost use Rattle.dn_io.specs.Rose.{Rose};
ghost use Rattle.dn_io.specs.Whole.{WroteFront};
ghost use Rattle.dn_print.specs.RefusalLine.{bad_words_text};
ghost use Rattle.dinomo.specs.Pool.{IsPoolSize};
ghost use Rattle.dinomo.specs.Command.{IsPlay, RefusesWords};
ghost use Rattle.dinomo.specs.Ending.{Writes};
ghost use Rattle.dinomo.specs.Plays.{Plays};

use crate::playing::{play, write_out};
use dn_act::Memory;
use dn_io::{Sink, Source, Status};
use dn_print::bad_words;
use std::alloc::Global;

/// Whether the words are the one word `play`.
fn is_play(words: &[String]) -> bool
    ensures { IsTrue result ↔ IsPlay words.now }
{
    words.len() == 1 && words.iter().all(|word| word.as_str() == "play")
}

/// Does what the words of the command line ask for: `play` alone plays the script of the source over the pool, as `play` says.
/// Other words are refused, and the pool stays as it is.
pub fn run<S: Source, K: Sink, M: Memory>(
    alloc: Global,
    words: &[String],
    source: &mut S,
    sink: &mut K,
    pool: &mut M,
) -> Status
    requires size { IsPoolSize (length (M.words pool.old)) }
    requires zeros { IsZeros (M.words pool.old) }
    // The word `play` plays, and nothing else does; other words are refused, and then source and pool stay.
    ensures plays { IsPlay words.now → Plays
        (record {
          left = S.left source.old;
          reads = S.faults source.old;
          written = K.written sink.old;
          writes = K.faults sink.old;
          words = M.words pool.old;
          accesses = M.faults pool.old;
        })
        (record {
          left = S.left source.new;
          reads = S.faults source.new;
          written = K.written sink.new;
          writes = K.faults sink.new;
          words = M.words pool.new;
          accesses = M.faults pool.new;
        })
        result }
    ensures other { (IsPlay words.now → ⊥) → RefusesWords result }
    ensures refused { (IsPlay words.now → ⊥) → result ≡ Status.BadWords
        → Writes (K.written sink.old) (K.written sink.new) bad_words_text }
    ensures refused_part { (IsPlay words.now → ⊥) → result ≡ Status.WriteFault
        → WroteFront (K.written sink.old) (K.written sink.new) bad_words_text }
    ensures unwritten { (IsPlay words.now → ⊥) → result ≡ Status.OutOfMemory
        → K.written sink.new ≡ K.written sink.old }
    ensures write_fault { (IsPlay words.now → ⊥) → result ≡ Status.WriteFault
        → Rose (K.faults sink.old) (K.faults sink.new) }
    ensures no_write_fault { (IsPlay words.now → ⊥) → result ≢ Status.WriteFault
        → K.faults sink.new ≡ K.faults sink.old }
    ensures unread { (IsPlay words.now → ⊥) → S.left source.new ≡ S.left source.old }
    ensures no_reads { (IsPlay words.now → ⊥) → S.faults source.new ≡ S.faults source.old }
    ensures unasked { (IsPlay words.now → ⊥) → M.words pool.new ≡ M.words pool.old }
    ensures no_accesses { (IsPlay words.now → ⊥) → M.faults pool.new ≡ M.faults pool.old }
{
    if is_play(words) {
        return play(alloc, source, sink, pool);
    }
    let mut out = Vec::new(alloc);
    match bad_words(&mut out) {
        Ok(()) => write_out(sink, out.as_slice(), Status::BadWords),
        Err(_) => Status::OutOfMemory,
    }
}
