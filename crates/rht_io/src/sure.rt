//! A source and a sink that never fail: for the parts of a program that are proved apart from
//! faults of the outside. They stand on the traits alone.

ghost use Rattle.std.specs.Prelude.{◌≡◌, ℕ, ◌<◌, ◌≤◌, min, List, None, Some, IsOk, IfOk, OnErr, length, drop};
ghost use Rattle.std.specs.Io.KnownBytes.{ReadConsumes, WriteAppends};
ghost use Rattle.rht_io.specs.Told.{Rose};
ghost use Rattle.rht_io.specs.Memory.{filled};

use crate::sink::Sink;
use crate::source::{Failed, Source};
use std::marker::Model;

/// A source of these bytes that never fails. A contract sees it as the bytes that are left.
#[derive(Debug, Drop)]
pub struct SureSource {
    bytes: Vec<u8>,
    given: usize,
}

impl Model for SureSource {
    ghost Value = { List ℕ };

    ghost view = { λ s. drop s.given s.bytes.items };

    ghost invariant = { λ s. s.given ≤ length s.bytes.items };
}

impl SureSource {
    /// A source with all of these bytes left.
    pub fn new(bytes: Vec<u8>) -> SureSource
        ensures { result ≡ bytes.items }
    {
        SureSource { bytes, given: 0 }
    }
}

impl Source for SureSource {
    ghost left = { λ s. Some s };

    ghost faults = { λ s. 0 };

    /// Gives as much as is left and has room.
    fn take(&mut self, room: &mut [u8]) -> Result<usize, Failed>
        ensures bytes { ReadConsumes (Some self.old) (Some self.new) result room.new }
        ensures within { IfOk result (λ n. n ≤ length room.new) }
        ensures failed { OnErr result (Rose 0 0) }
        ensures kept { 0 ≤ 0 }
        ensures sure { IsOk result }
        ensures count { IfOk result (λ n. n ≡ min (length self.old) (length room.old)) }
        ensures rest { IfOk result (λ n. self.new ≡ drop n self.old) }
        ensures room { IfOk result (λ n. room.new ≡ filled self.old room.old n) }
    {
        let left = &self.bytes[self.given..];
        let n = copy_front(left, room);
        self.given += n;
        Ok(n)
    }
}

/// Copies as much of the front of the bytes as the room takes, and answers how much that is.
fn copy_front(bytes: &[u8], room: &mut [u8]) -> usize
    ensures count { result ≡ min (length bytes.now) (length room.old) }
    ensures room { room.new ≡ filled bytes.now room.old result }
{
    let n = bytes.len().min(room.len());
    room[..n].copy_from_slice(&bytes[..n]);
    n
}

/// A sink that takes every piece whole and never fails. It keeps no bytes, and doesn't tell what
/// it was put.
#[derive(Clone, Copy, Debug, Default, PartialEq, Eq)]
pub struct SureSink;

impl SureSink {
    /// A sink that takes everything.
    pub fn new() -> SureSink {
        SureSink
    }
}

impl Sink for SureSink {
    ghost held = { λ s. None };

    ghost faults = { λ s. 0 };

    /// Takes the whole piece.
    fn put(&mut self, piece: &[u8]) -> Result<usize, Failed>
        ensures bytes { WriteAppends None None result piece.now }
        ensures within { IfOk result (λ n. n ≤ length piece.now) }
        ensures some { 0 < length piece.now → IfOk result (λ n. 0 < n) }
        ensures failed { OnErr result (Rose 0 0) }
        ensures kept { 0 ≤ 0 }
        ensures sure { IsOk result }
        ensures whole { IfOk result (λ n. n ≡ length piece.now) }
    {
        Ok(piece.len())
    }
}
