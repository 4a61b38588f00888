//! Who hears of each command.

/// Hears of each command of a worker, before it and after it. A gate answers nothing, so no
/// claim rests on it; tests use it to see that workers run beside each other. A command has as its index
/// which of its worker's commands it is, counted from 1; where any worker may do a command, which one of
/// the script's it is.
pub trait Gate {
    /// The worker, counted from 1, is about to begin the command of this index.
    fn before(&self, worker: u32, index: u32);

    /// The worker, counted from 1, has ended the command of this index.
    fn after(&self, worker: u32, index: u32);
}

/// A gate that does nothing.
#[derive(Clone, Copy, Debug)]
pub struct NoGate;

impl Gate for NoGate {
    fn before(&self, _worker: u32, _index: u32) {}

    fn after(&self, _worker: u32, _index: u32) {}
}
