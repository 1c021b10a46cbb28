//! Sources and sinks in memory, whose calls fail where they are told to.

ghost use Rattle.std.specs.Prelude.{◌≡◌, ◌<◌, ◌≤◌, ◌-◌, Some, is_err, if◌then◌else◌, length, min, take, IfOk, OnErr};
ghost use Rattle.std.specs.Io.KnownBytes.{Consumes, Appends, Keeps, IsAtEnd};
ghost use Rattle.dn_io.specs.Rose.{Rose};
ghost use Rattle.dn_io.specs.InMemory.{fresh_input, fresh_output, counted, is_listed, fitting, is_refused};

use crate::faults::{Failed, OutOfMemory};
use crate::streams::{Sink, Source};
use std::alloc::Global;
use std::marker::Model;

/// A source in memory. The reads fail whose numbers, from 1, are listed.
#[derive(Drop)]
pub struct BytesIn {
    bytes: Vec<u8>,
    start: usize,
    failing: Vec<u64>,
    calls: u64,
    faults: u64,
}

impl Model for BytesIn {
    ghost use Rattle.std.specs.Prelude.{◌≤◌, drop, vec_len};
    ghost use Rattle.dn_io.specs.InMemory.{InputState};

    ghost Value = { InputState };

    ghost view = { λ source. record {
      left = drop source.start source.bytes.items;
      failing =
          source.failing.items;
      calls = source.calls;
      faults = source.faults;
    } };

    ghost invariant = { λ source. source.start ≤ vec_len source.bytes };
}

impl BytesIn {
    /// A source of these bytes.
    pub fn new(bytes: Vec<u8>, failing: Vec<u64>) -> BytesIn
        ensures { result ≡ fresh_input bytes.items failing.items }
    {
        BytesIn {
            bytes,
            start: 0,
            failing,
            calls: 0,
            faults: 0,
        }
    }
}

impl Source for BytesIn {
    ghost left = { λ source. Some source.left };

    ghost faults = { λ source. source.faults };

    /// Takes as many bytes as are left and fit into the piece, unless the call's number is listed.
    fn read(&mut self, into: &mut [u8]) -> Result<usize, Failed>
        ensures within { IfOk result (λ count. count ≤ length into.new) }
        ensures taken { IfOk result (λ count. Consumes (Some self.old.left) (Some self.new.left)
            (take count into.new)) }
        ensures end { IfOk result (λ count. count ≡ 0 → 0 < length into.new
            → IsAtEnd (Some self.new.left)) }
        ensures kept { OnErr result (Keeps (Some self.old.left) (Some self.new.left)) }
        ensures cause { OnErr result (Rose self.old.faults self.new.faults) }
        ensures faults { self.old.faults ≤ self.new.faults }
        ensures fails { is_err result ≡ is_listed self.old.failing (counted self.old.calls) }
        ensures count { IfOk result (λ count.
            count ≡ min (length into.old) (length self.old.left)) }
        ensures listed { self.new.failing ≡ self.old.failing }
        ensures calls { self.new.calls ≡ counted self.old.calls }
        ensures counted { self.new.faults ≡ (if is_err result then counted self.old.faults else
            self.old.faults) }
    {
        self.calls = self.calls.saturating_add(1);
        if self.failing.contains(&self.calls) {
            self.faults = self.faults.saturating_add(1);
            return Err(Failed);
        }
        let count = into.len().min(self.bytes.len() - self.start);
        into[..count].copy_from_slice(&self.bytes[self.start..self.start + count]);
        self.start += count;
        Ok(count)
    }
}

/// A sink in memory, with room for so many bytes. The writes fail whose numbers, from 1, are listed, and those of which no
/// byte fits though they have one.
#[derive(Drop)]
pub struct BytesOut {
    bytes: Vec<u8>,
    room: usize,
    failing: Vec<u64>,
    calls: u64,
    faults: u64,
}

impl Model for BytesOut {
    ghost use Rattle.std.specs.Prelude.{◌≤◌, vec_len, vec_capacity};
    ghost use Rattle.dn_io.specs.InMemory.{OutputState};

    ghost Value = { OutputState };

    ghost view = { λ sink. record {
      written = sink.bytes.items;
      room = sink.room;
      failing =
          sink.failing.items;
      calls = sink.calls;
      faults = sink.faults;
    } };

    ghost invariant = { λ sink. (vec_len sink.bytes ≤ sink.room)
        × (sink.room ≤ vec_capacity sink.bytes) };
}

impl BytesOut {
    /// A sink with room for so many bytes, which is taken here; no write takes memory.
    pub fn new(alloc: Global, room: u64, failing: Vec<u64>) -> Result<BytesOut, OutOfMemory>
        ensures { IfOk result (λ sink. sink ≡ fresh_output room failing.items) }
    {
        let room = room as usize;
        let bytes = Vec::with_capacity(alloc, room)?;
        Ok(BytesOut {
            bytes,
            room,
            failing,
            calls: 0,
            faults: 0,
        })
    }

    /// What was written.
    pub fn bytes(&self) -> &[u8]
        ensures { result.now ≡ self.now.written }
    {
        self.bytes.as_slice()
    }
}

impl Sink for BytesOut {
    ghost written = { λ sink. Some sink.written };

    ghost faults = { λ sink. sink.faults };

    /// Takes as many bytes as fit.
    fn write(&mut self, from: &[u8]) -> Result<usize, Failed>
        ensures within { IfOk result (λ count. count ≤ length from.now) }
        ensures some { IfOk result (λ count. 0 < length from.now → 0 < count) }
        ensures written { IfOk result (λ count. Appends (Some self.old.written)
            (Some self.new.written) (take count from.now)) }
        ensures kept { OnErr result (Keeps (Some self.old.written) (Some self.new.written)) }
        ensures cause { OnErr result (Rose self.old.faults self.new.faults) }
        ensures faults { self.old.faults ≤ self.new.faults }
        ensures fails { is_err result ≡ is_refused self.old from.now }
        ensures count { IfOk result (λ count. count ≡ fitting self.old from.now) }
        ensures room { self.new.room ≡ self.old.room }
        ensures listed { self.new.failing ≡ self.old.failing }
        ensures calls { self.new.calls ≡ counted self.old.calls }
        ensures counted { self.new.faults ≡ (if is_err result then counted self.old.faults else
            self.old.faults) }
    {
        self.calls = self.calls.saturating_add(1);
        let count = from.len().min(self.room - self.bytes.len());
        if self.failing.contains(&self.calls) || (count == 0 && !from.is_empty()) {
            self.faults = self.faults.saturating_add(1);
            return Err(Failed);
        }
        self.bytes.extend_from_slice(&from[..count]).unwrap();
        Ok(count)
    }
}
