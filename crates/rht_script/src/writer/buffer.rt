//! The end of a text, which waits in a buffer until it is put. It takes no memory.

ghost use Rattle.std.specs.Prelude.{◌≡◌, ◌+◌, ◌≤◌, ◌↔◌, [], ◌++◌, length, IsTrue};

use std::marker::Model;

/// How many bytes can wait.
const ROOM: usize = 4096;

/// The bytes that wait to be put. Contracts see the list of them.
#[derive(Drop)]
pub(super) struct TextBuffer {
    bytes: [u8; ROOM],
    len: usize,
}

impl Model for TextBuffer {
    ghost use Rattle.std.specs.Prelude.{ℕ, ◌≤◌, List, take};

    ghost Value = { List ℕ };

    ghost view = { λ text. take text.len text.bytes };

    ghost invariant = { λ text. text.len ≤ 4096 };
}

impl TextBuffer {
    /// Nothing waits.
    #[inline]
    pub fn new() -> TextBuffer
        ensures { result ≡ [] }
    {
        TextBuffer {
            bytes: [0; ROOM],
            len: 0,
        }
    }

    /// Whether a piece of this length has room behind what waits.
    #[inline]
    pub fn has_room(&self, len: usize) -> bool
        requires { len ≤ 4096 }
        ensures { IsTrue result ↔ (length self.now + len ≤ 4096) }
    {
        self.len + len <= ROOM
    }

    /// What waits.
    #[inline]
    pub fn as_slice(&self) -> &[u8]
        ensures { result.now ≡ self.now }
    {
        &self.bytes[..self.len]
    }

    /// Takes a piece that has room behind what waits.
    #[inline]
    pub fn push(&mut self, piece: &[u8])
        requires { length self.old + length piece.now ≤ 4096 }
        ensures { self.new ≡ self.old ++ piece.now }
    {
        let end = self.len + piece.len();
        self.bytes[self.len..end].copy_from_slice(piece);
        self.len = end;
    }

    /// Nothing waits any longer.
    #[inline]
    pub fn clear(&mut self)
        ensures { self.new ≡ [] }
    {
        self.len = 0;
    }
}
