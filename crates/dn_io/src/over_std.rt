//! std's readers and writers as sources and sinks: the edge to the outside, which tells what the reader or writer tells.

ghost use Rattle.std.specs.Prelude.{◌≡◌};

use crate::faults::Failed;
use crate::streams::{Sink, Source};
use std::io::{Read, Write};
use std::marker::Model;

/// A source over std's reader. Each `Err` of the reader is a failed read, and counted up to 2^64 - 1.
#[derive(Drop)]
pub struct StdIn<R> {
    reader: R,
    faults: u64,
}

impl<R: Read + Drop> StdIn<R> {
    /// The source of what this reader gives.
    pub fn new(reader: R) -> StdIn<R>
        ensures left { ⟦<StdIn<R> as Source>⟧.left result ≡ R.remaining reader }
        ensures faults { ⟦<StdIn<R> as Source>⟧.faults result ≡ 0 }
    {
        StdIn { reader, faults: 0 }
    }
}

impl<R: Read + Drop> Source for StdIn<R> {
    ghost left = { λ source. R.remaining source.reader };

    ghost faults = { λ source. source.faults };

    fn read(&mut self, into: &mut [u8]) -> Result<usize, Failed> {
        match self.reader.read(into) {
            Ok(count) => Ok(count),
            Err(_) => {
                self.faults = self.faults.saturating_add(1);
                Err(Failed)
            }
        }
    }
}

/// A sink over std's writer. Each `Err` of the writer, and each write that takes no byte of a piece that has one, is a
/// failed write, and counted up to 2^64 - 1.
#[derive(Drop)]
pub struct StdOut<W> {
    writer: W,
    faults: u64,
}

impl<W: Write + Drop> StdOut<W> {
    /// The sink that hands all to this writer.
    pub fn new(writer: W) -> StdOut<W>
        ensures written { ⟦<StdOut<W> as Sink>⟧.written result ≡ W.contents writer }
        ensures faults { ⟦<StdOut<W> as Sink>⟧.faults result ≡ 0 }
    {
        StdOut { writer, faults: 0 }
    }
}

impl<W: Write + Drop> Sink for StdOut<W> {
    ghost written = { λ sink. W.contents sink.writer };

    ghost faults = { λ sink. sink.faults };

    fn write(&mut self, from: &[u8]) -> Result<usize, Failed> {
        match self.writer.write(from) {
            Ok(count) if count > 0 || from.is_empty() => Ok(count),
            _ => {
                self.faults = self.faults.saturating_add(1);
                Err(Failed)
            }
        }
    }
}
