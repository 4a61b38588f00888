//! Where bytes come from.

ghost use Rattle.std.specs.Prelude.{ℕ, ◌≤◌, List, Option, IfOk, OnErr, length};
ghost use Rattle.std.specs.Io.KnownBytes.{ReadConsumes};
ghost use Rattle.rht_io.specs.Told.{Rose};

/// A source gave nothing, or a sink took nothing, because of a fault of its own.
#[derive(Clone, Copy, Debug, PartialEq, Eq)]
pub struct Failed;

/// Where bytes come from.
pub trait Source {
    /// What is left, where the source tells it.
    ghost left: { Self → Option (List ℕ) };

    /// How many calls failed. The count never falls, and stops at the last value of a counter.
    ghost faults: { Self → ℕ };

    /// Puts the next bytes at the front of the room and answers how many. 0 for a room that isn't
    /// empty is the end of the input. After `Failed` what is left is as before.
    fn take(&mut self, room: &mut [u8]) -> Result<usize, Failed>
        ensures bytes { ReadConsumes (left self.old) (left self.new) result room.new }
        ensures within { IfOk result (λ n. n ≤ length room.new) }
        ensures failed { OnErr result (Rose (faults self.old) (faults self.new)) }
        ensures kept { faults self.old ≤ faults self.new };
}
