//! Adapters: a reader as a source, and a writer as a sink, such as standard input and output.
//! They tell nothing of content, since what happens outside of the program is not known.

ghost use Rattle.std.specs.Prelude.{◌≡◌, ℕ, ◌<◌, ◌≤◌, List, None, IfOk, OnOk, OnErr, length, take};
ghost use Rattle.std.specs.Io.KnownBytes.{Appends, Keeps, ReadConsumes, WriteAppends};
ghost use Rattle.rht_io.specs.Told.{Rose};
ghost use Rattle.rht_io.specs.Memory.{counted};

use crate::sink::Sink;
use crate::source::{Failed, Source};
use std::io::{ErrorKind, Read, Write};
use std::marker::Model;

/// A reader as a source. A read that fails is a fault, unless a signal interrupted it.
#[derive(Debug, Drop)]
pub struct InputSource<R> {
    input: R,
    faults: u64,
}

impl<R> Model for InputSource<R> {
    ghost use Rattle.rht_io.specs.Adapter.{Adapted};

    ghost Value = { Adapted R };

    ghost view = { λ s. record { through = s.input; faults = s.faults } };
}

impl<R> InputSource<R> {
    /// A source that gives what this reader does.
    pub fn new(input: R) -> InputSource<R>
        ensures { result ≡ record { through = input; faults = 0 } }
    {
        InputSource { input, faults: 0 }
    }
}

impl<R: Read> Source for InputSource<R> {
    ghost left = { λ s. None };

    ghost faults = { λ s. s.faults };

    /// Reads once. A read that a signal interrupts is tried again.
    fn take(&mut self, room: &mut [u8]) -> Result<usize, Failed>
        ensures bytes { ReadConsumes None None result room.new }
        ensures within { IfOk result (λ n. n ≤ length room.new) }
        ensures failed { OnErr result (Rose self.old.faults self.new.faults) }
        ensures kept { self.old.faults ≤ self.new.faults }
        ensures through { ReadConsumes (R.remaining self.old.through) (R.remaining self.new.through)
            result room.new }
        ensures no_fault { OnOk result (self.new.faults ≡ self.old.faults) }
        ensures fault { OnErr result (self.new.faults ≡ counted self.old.faults) }
    {
        let read = read_once(&mut self.input, room);
        if read.is_err() {
            self.faults = self.faults.saturating_add(1);
        }
        read
    }
}

/// Reads until a read isn't interrupted.
fn read_once<R: Read>(input: &mut R, room: &mut [u8]) -> Result<usize, Failed>
    ensures within { IfOk result (λ n. n ≤ length room.new) }
    ensures bytes { ReadConsumes (R.remaining input.old) (R.remaining input.new) result room.new }
{
    for _ in 0..u64::MAX {
        match input.read(room) {
            Ok(n) => return Ok(n),
            Err(error) if error.kind() == ErrorKind::Interrupted => {}
            Err(_) => return Err(Failed),
        }
    }
    Err(Failed)
}

/// A writer as a sink. It is flushed in each put. A write that fails is a fault, unless a signal
/// interrupted it, and so are a write that takes nothing and a flush that fails.
#[derive(Debug, Drop)]
pub struct OutputSink<W> {
    output: W,
    faults: u64,
}

impl<W> Model for OutputSink<W> {
    ghost use Rattle.rht_io.specs.Adapter.{Adapted};

    ghost Value = { Adapted W };

    ghost view = { λ s. record { through = s.output; faults = s.faults } };
}

impl<W> OutputSink<W> {
    /// A sink that puts into this writer.
    pub fn new(output: W) -> OutputSink<W>
        ensures { result ≡ record { through = output; faults = 0 } }
    {
        OutputSink { output, faults: 0 }
    }
}

impl<W: Write> Sink for OutputSink<W> {
    ghost held = { λ s. None };

    ghost faults = { λ s. s.faults };

    /// Writes once and flushes. A write that a signal interrupts is tried again. Where the flush
    /// fails the writer may have taken bytes of the piece.
    fn put(&mut self, piece: &[u8]) -> Result<usize, Failed>
        ensures bytes { WriteAppends None None result piece.now }
        ensures within { IfOk result (λ n. n ≤ length piece.now) }
        ensures some { 0 < length piece.now → IfOk result (λ n. 0 < n) }
        ensures failed { OnErr result (Rose self.old.faults self.new.faults) }
        ensures kept { self.old.faults ≤ self.new.faults }
        ensures through { IfOk result (λ n. Appends (W.contents self.old.through)
            (W.contents self.new.through) (take n piece.now)) }
        ensures no_fault { OnOk result (self.new.faults ≡ self.old.faults) }
        ensures fault { OnErr result (self.new.faults ≡ counted self.old.faults) }
    {
        let written = write_once(&mut self.output, piece);
        if written.is_err() {
            self.faults = self.faults.saturating_add(1);
        }
        written
    }
}

/// Flushes behind so many bytes that were written.
fn flushed<W: Write>(output: &mut W, written: usize) -> Result<usize, Failed>
    ensures written { IfOk result (λ n. n ≡ written) }
    ensures kept { OnOk result (Keeps (W.contents output.old) (W.contents output.new)) }
{
    match output.flush() {
        Ok(()) => Ok(written),
        Err(_) => Err(Failed),
    }
}

/// Writes until a write isn't interrupted, and flushes. An empty piece is flushed alone.
fn write_once<W: Write>(output: &mut W, piece: &[u8]) -> Result<usize, Failed>
    ensures within { IfOk result (λ n. n ≤ length piece.now) }
    ensures some { 0 < length piece.now → IfOk result (λ n. 0 < n) }
    ensures bytes { IfOk result
        (λ n. Appends (W.contents output.old) (W.contents output.new) (take n piece.now)) }
{
    if piece.is_empty() {
        return flushed(output, 0);
    }
    for _ in 0..u64::MAX {
        match output.write(piece) {
            Ok(0) => return Err(Failed),
            Ok(n) => return flushed(output, n),
            Err(error) if error.kind() == ErrorKind::Interrupted => {}
            Err(_) => return Err(Failed),
        }
    }
    Err(Failed)
}
