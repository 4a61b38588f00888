//! Where bytes go.

ghost use Rattle.std.specs.Prelude.{ℕ, ◌<◌, ◌≤◌, List, Option, IfOk, OnErr, length};
ghost use Rattle.std.specs.Io.KnownBytes.{WriteAppends};
ghost use Rattle.rht_io.specs.Told.{Rose, Puts};

use crate::source::Failed;

/// Where bytes go.
pub trait Sink {
    /// What the sink holds, where it tells that.
    ghost held: { Self → Option (List ℕ) };

    /// How many calls failed. The count never falls, and stops at the last value of a counter.
    ghost faults: { Self → ℕ };

    /// Appends bytes from the front of the piece and answers how many: at least one of a piece
    /// that isn't empty. A device that takes nothing of such a piece is a fault. After `Failed`
    /// what the sink holds is as before.
    fn put(&mut self, piece: &[u8]) -> Result<usize, Failed>
        ensures bytes { WriteAppends (held self.old) (held self.new) result piece.now }
        ensures within { IfOk result (λ n. n ≤ length piece.now) }
        ensures some { 0 < length piece.now → IfOk result (λ n. 0 < n) }
        ensures failed { OnErr result (Rose (faults self.old) (faults self.new)) }
        ensures kept { faults self.old ≤ faults self.new };
}

/// Puts the whole piece. On `Failed` a prefix of it was put.
pub fn put_all<O: Sink>(out: &mut O, piece: &[u8]) -> Result<(), Failed>
    ensures { Puts O.held O.faults out.old out.new result piece.now }
{
    let mut rest = piece;
    while !rest.is_empty() {
        let n = out.put(rest)?;
        rest = &rest[n..];
    }
    Ok(())
}
