//! A source and a sink over memory, whose faults are planned: a list says which of their calls
//! fail. They stand on the traits and on the sure source.

ghost use Rattle.std.specs.Prelude.{◌≡◌, ◌⊎◌, ◌↔◌, ℕ, ◌-◌, ◌<◌, ◌≤◌, min, List, [], Some, IfOk, IsErr, OnOk, OnErr, length, take};
ghost use Rattle.std.specs.Io.KnownBytes.{ReadConsumes, WriteAppends};
ghost use Rattle.rht_io.specs.Told.{Rose};
ghost use Rattle.rht_io.specs.Memory.{IsToFail, IsTooFull, counted, after_success, after_failure, after_take, after_failed_take, after_put, after_failed_put, filled};

use crate::sink::Sink;
use crate::source::{Failed, Source};
use crate::sure::SureSource;
use std::alloc::{AllocError, Global};
use std::marker::Model;

/// Counts calls and faults, and makes the planned calls fail.
#[derive(Debug, Drop)]
struct Calls {
    made: u64,
    fails: Vec<u64>,
    faults: u64,
}

impl Model for Calls {
    ghost use Rattle.rht_io.specs.Memory.{CallCounts};

    ghost Value = { CallCounts };

    ghost view = { λ c. record { made = c.made; fails = c.fails.items; faults = c.faults } };
}

impl Calls {
    fn new(fails: Vec<u64>) -> Calls
        ensures { result ≡ record { made = 0; fails = fails.items; faults = 0 } }
    {
        Calls {
            made: 0,
            fails,
            faults: 0,
        }
    }

    /// Counts a call, which fails where its number is on the list.
    fn begin(&mut self) -> Result<(), Failed>
        ensures planned { IsErr result ↔ IsToFail self.old }
        ensures ok { OnOk result (self.new ≡ after_success self.old) }
        ensures err { OnErr result (self.new ≡ after_failure self.old) }
        ensures kept { self.old.faults ≤ self.new.faults }
    {
        self.made = self.made.saturating_add(1);
        if self.fails.contains(&self.made) {
            return Err(self.fault());
        }
        Ok(())
    }

    /// Counts a fault.
    fn fault(&mut self) -> Failed
        ensures counted { self.new ≡ record self.old { faults = counted self.old.faults } }
        ensures kept { self.old.faults ≤ self.new.faults }
    {
        self.faults = self.faults.saturating_add(1);
        Failed
    }
}

/// A source of these bytes, which gives at most `piece` bytes a call and fails at planned calls.
#[derive(Debug, Drop)]
pub struct MemSource {
    rest: SureSource,
    piece: usize,
    calls: Calls,
}

impl Model for MemSource {
    ghost use Rattle.std.specs.Prelude.{◌<◌};
    ghost use Rattle.rht_io.specs.Memory.{MemoryInput};

    ghost Value = { MemoryInput };

    ghost view = { λ s. record { left = s.rest; piece = s.piece; calls = s.calls } };

    ghost invariant = { λ s. 0 < s.piece };
}

impl MemSource {
    /// A source with all of these bytes left. A call gives at most `piece` bytes, which is at
    /// least 1. `fails` has the numbers of the calls that are to fail; the first call is 1.
    pub fn new(bytes: Vec<u8>, piece: usize, fails: Vec<u64>) -> MemSource
        requires { 1 ≤ piece }
        ensures left { result.left ≡ bytes.items }
        ensures piece { result.piece ≡ piece }
        ensures calls { result.calls ≡ record { made = 0; fails = fails.items; faults = 0 } }
    {
        MemSource {
            rest: SureSource::new(bytes),
            piece,
            calls: Calls::new(fails),
        }
    }
}

impl Source for MemSource {
    ghost left = { λ s. Some s.left };

    ghost faults = { λ s. s.calls.faults };

    /// Fails where this call's number is on the list. Else gives as much as is left, has room and
    /// is within a piece.
    fn take(&mut self, room: &mut [u8]) -> Result<usize, Failed>
        ensures bytes { ReadConsumes (Some self.old.left) (Some self.new.left) result room.new }
        ensures within { IfOk result (λ n. n ≤ length room.new) }
        ensures failed { OnErr result (Rose self.old.calls.faults self.new.calls.faults) }
        ensures kept { self.old.calls.faults ≤ self.new.calls.faults }
        ensures planned { IsErr result ↔ IsToFail self.old.calls }
        ensures count { IfOk result
            (λ n. n ≡ min self.old.piece (min (length self.old.left) (length room.old))) }
        ensures rest { IfOk result (λ n. self.new ≡ after_take self.old n) }
        ensures room { IfOk result (λ n. room.new ≡ filled self.old.left room.old n) }
        ensures same { OnErr result (self.new ≡ after_failed_take self.old) }
        ensures same_room { OnErr result (room.new ≡ room.old) }
    {
        self.calls.begin()?;
        let most = room.len().min(self.piece);
        self.rest.take(&mut room[..most])
    }
}

/// A sink that holds at most `room` bytes and fails at planned calls.
#[derive(Debug, Drop)]
pub struct MemSink {
    bytes: Vec<u8>,
    room: usize,
    calls: Calls,
}

impl Model for MemSink {
    ghost use Rattle.std.specs.Prelude.{◌≤◌, length, vec_capacity};
    ghost use Rattle.rht_io.specs.Memory.{MemoryOutput};

    ghost Value = { MemoryOutput };

    ghost view = { λ s. record { held = s.bytes.items; room = s.room; calls = s.calls } };

    ghost invariant = { λ s. (length s.bytes.items ≤ s.room) × (s.room ≤ vec_capacity s.bytes) };
}

impl MemSink {
    /// An empty sink with room for this many bytes, which it takes at once; the one refusal is
    /// want of memory. `fails` has the numbers of the calls that are to fail; the first call is 1.
    pub fn new(alloc: Global, room: usize, fails: Vec<u64>) -> Result<MemSink, AllocError>
        ensures held { IfOk result (λ s. s.held ≡ []) }
        ensures room { IfOk result (λ s. s.room ≡ room) }
        ensures calls { IfOk result
            (λ s. s.calls ≡ record { made = 0; fails = fails.items; faults = 0 }) }
    {
        Ok(MemSink {
            bytes: Vec::with_capacity(alloc, room)?,
            room,
            calls: Calls::new(fails),
        })
    }

    /// The bytes that the sink holds.
    pub fn bytes(&self) -> &[u8]
        ensures { result.now ≡ self.now.held }
    {
        &self.bytes
    }
}

impl Sink for MemSink {
    ghost held = { λ s. Some s.held };

    ghost faults = { λ s. s.calls.faults };

    /// Fails where this call's number is on the list, and where there is a piece and no room.
    /// Else appends as much of the piece as has room. Takes no memory.
    fn put(&mut self, piece: &[u8]) -> Result<usize, Failed>
        ensures bytes { WriteAppends (Some self.old.held) (Some self.new.held) result piece.now }
        ensures within { IfOk result (λ n. n ≤ length piece.now) }
        ensures some { 0 < length piece.now → IfOk result (λ n. 0 < n) }
        ensures failed { OnErr result (Rose self.old.calls.faults self.new.calls.faults) }
        ensures kept { self.old.calls.faults ≤ self.new.calls.faults }
        ensures fails { IsErr result ↔ (IsToFail self.old.calls ⊎ IsTooFull self.old piece.now) }
        ensures count { IfOk result
            (λ n. n ≡ min (length piece.now) (self.old.room - length self.old.held)) }
        ensures added { IfOk result (λ n. self.new ≡ after_put self.old (take n piece.now)) }
        ensures same { OnErr result (self.new ≡ after_failed_put self.old) }
    {
        self.calls.begin()?;
        let n = piece.len().min(self.room - self.bytes.len());
        if n == 0 && !piece.is_empty() {
            return Err(self.calls.fault());
        }
        self.bytes.extend_from_slice(&piece[..n]).unwrap();
        Ok(n)
    }
}
