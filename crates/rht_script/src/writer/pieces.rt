//! Text on its way to a sink, piece by piece. What doesn't fill the buffer waits there, so that
//! many lines cost one put, and a line that isn't too long is put whole.

ghost use Rattle.std.specs.Prelude.{◌≡◌, ◌+◌, ◌≤◌, [], ◌++◌, length, codes, decimal, flat_map, OnOk};
ghost use Rattle.rht_script.specs.Text.{spaced, named, owners_text, pair_text};
ghost use Rattle.rht_script.specs.PortWords.{port_text};
ghost use Rattle.rht_script.specs.Writing.{Adds};

use super::buffer::TextBuffer;
use itoa::Buffer;
use rht_io::{Failed, Sink, put_all};
use rht_words::Port;

/// A sink, and the text that waits to be put behind what it has, of at most 4,096 bytes. It takes no memory.
///
/// Each call adds a text, and `put` puts all that waits. A writer that is dropped puts nothing. After a call
/// that failed the writer is used no more: its callers pass the failure on at once.
#[derive(Drop)]
pub struct Writer<'a, O> {
    out: &'a mut O,
    waiting: TextBuffer,
}

impl<'a, O: Sink> Writer<'a, O> {
    /// A writer to this sink. Nothing waits.
    #[inline]
    pub fn new(out: &'a mut O) -> Writer<'a, O>
        ensures same_sink { result.out.ghost_name ≡ out.entry.ghost_name }
        ensures unchanged { result.out.now ≡ out.old }
        ensures none { result.waiting ≡ [] }
    {
        Writer {
            out,
            waiting: TextBuffer::new(),
        }
    }

    /// Adds a word, or another piece of at most 40 bytes.
    #[inline]
    pub fn add(&mut self, piece: &[u8]) -> Result<(), Failed>
        requires { length piece.now ≤ 40 }
        ensures text { Adds O.held O.faults self.old.out.now self.new.out.now result
            self.old.waiting self.new.waiting piece.now }
        ensures same_sink { self.new.out.ghost_name ≡ self.old.out.ghost_name }
    {
        self.make_room(piece.len())?;
        self.waiting.push(piece);
        Ok(())
    }

    /// Adds a number. A single digit, as most workers are, is a byte by itself.
    #[inline]
    #[tactic(auto, using(std::proofs::lemmas::Fmt::decimal_digit))]
    pub fn add_number(&mut self, number: u64) -> Result<(), Failed>
        ensures text { Adds O.held O.faults self.old.out.now self.new.out.now result
            self.old.waiting self.new.waiting (decimal number) }
        ensures same_sink { self.new.out.ghost_name ≡ self.old.out.ghost_name }
    {
        if number < 10 {
            return self.add(&[b'0' + number as u8]);
        }
        let mut buffer = Buffer::new();
        self.add(buffer.format(number).as_bytes())
    }

    /// Adds a port: its number, behind its net and a dot where the net isn't 0.
    pub fn add_port(&mut self, port: Port) -> Result<(), Failed>
        ensures text { Adds O.held O.faults self.old.out.now self.new.out.now result
            self.old.waiting self.new.waiting (port_text port) }
        ensures same_sink { self.new.out.ghost_name ≡ self.old.out.ghost_name }
    {
        if port.net == 0 {
            return self.add_number(port.number.into());
        }
        self.add_number(port.net.into())?;
        self.add(b".")?;
        self.add_number(port.number.into())
    }

    /// Adds a number after a space.
    pub fn add_spaced(&mut self, number: u64) -> Result<(), Failed>
        ensures text { Adds O.held O.faults self.old.out.now self.new.out.now result
            self.old.waiting self.new.waiting (spaced number) }
        ensures same_sink { self.new.out.ghost_name ≡ self.old.out.ghost_name }
    {
        self.add(b" ")?;
        self.add_number(number)
    }

    /// Adds a name of at most 40 bytes and its number.
    pub fn add_named(&mut self, name: &[u8], number: u64) -> Result<(), Failed>
        requires { length name.now ≤ 40 }
        ensures text { Adds O.held O.faults self.old.out.now self.new.out.now result
            self.old.waiting self.new.waiting (named name.now number) }
        ensures same_sink { self.new.out.ghost_name ≡ self.old.out.ghost_name }
    {
        self.add(name)?;
        self.add_spaced(number)
    }

    /// Adds a name of at most 40 bytes and its two numbers.
    pub fn add_two(&mut self, name: &[u8], first: u64, second: u64) -> Result<(), Failed>
        requires { length name.now ≤ 40 }
        ensures text { Adds O.held O.faults self.old.out.now self.new.out.now result
            self.old.waiting self.new.waiting (named name.now first ++ spaced second) }
        ensures same_sink { self.new.out.ghost_name ≡ self.old.out.ghost_name }
    {
        self.add_named(name, first)?;
        self.add_spaced(second)
    }

    /// Adds each owner after a space.
    pub fn add_owners(&mut self, owners: &[u32]) -> Result<(), Failed>
        ensures text { Adds O.held O.faults self.old.out.now self.new.out.now result
            self.old.waiting self.new.waiting (owners_text owners.now) }
        ensures same_sink { self.new.out.ghost_name ≡ self.old.out.ghost_name }
    {
        for owner in owners {
            self.add_spaced((*owner).into())?;
        }
        Ok(())
    }

    /// Adds each port with its first owner after a space.
    pub fn add_pairs(&mut self, pairs: &[(Port, u32)]) -> Result<(), Failed>
        ensures text { Adds O.held O.faults self.old.out.now self.new.out.now result
            self.old.waiting self.new.waiting (flat_map pair_text pairs.now) }
        ensures same_sink { self.new.out.ghost_name ≡ self.old.out.ghost_name }
    {
        for pair in pairs {
            self.add_pair(*pair)?;
        }
        Ok(())
    }

    /// Adds a port with its first owner after a space.
    fn add_pair(&mut self, pair: (Port, u32)) -> Result<(), Failed>
        ensures text { Adds O.held O.faults self.old.out.now self.new.out.now result
            self.old.waiting self.new.waiting (pair_text pair) }
        ensures same_sink { self.new.out.ghost_name ≡ self.old.out.ghost_name }
    {
        let (port, owner) = pair;
        self.add(b" ")?;
        self.add_port(port)?;
        self.add(b"=")?;
        self.add_number(owner.into())
    }

    /// Ends a line.
    pub fn end_line(&mut self) -> Result<(), Failed>
        ensures text { Adds O.held O.faults self.old.out.now self.new.out.now result
            self.old.waiting self.new.waiting (codes "\n") }
        ensures same_sink { self.new.out.ghost_name ≡ self.old.out.ghost_name }
    {
        self.add(b"\n")
    }

    /// Puts what waits where a piece of this length has no room behind it.
    #[inline]
    fn make_room(&mut self, len: usize) -> Result<(), Failed>
        requires { len ≤ 4096 }
        ensures text { Adds O.held O.faults self.old.out.now self.new.out.now result
            self.old.waiting self.new.waiting [] }
        ensures room { OnOk result (length self.new.waiting + len ≤ 4096) }
        ensures same_sink { self.new.out.ghost_name ≡ self.old.out.ghost_name }
    {
        if self.waiting.has_room(len) {
            return Ok(());
        }
        self.put()
    }

    /// Puts all that waits. After `Ok` nothing waits.
    pub fn put(&mut self) -> Result<(), Failed>
        ensures text { Adds O.held O.faults self.old.out.now self.new.out.now result
            self.old.waiting self.new.waiting [] }
        ensures none { OnOk result (self.new.waiting ≡ []) }
        ensures same_sink { self.new.out.ghost_name ≡ self.old.out.ghost_name }
    {
        put_all(self.out, self.waiting.as_slice())?;
        self.waiting.clear();
        Ok(())
    }
}
