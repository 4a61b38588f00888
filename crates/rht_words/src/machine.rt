//! What a machine answers. A machine performs one operation after another: its `plan` names the
//! next one, and its `take` is told the word's old value.

/// What a machine says when it is told an old value.
#[derive(Clone, Copy, Debug, PartialEq, Eq, Drop)]
pub enum Next<R> {
    /// It has a further operation.
    Go,
    /// It is at its end, with this answer. It is neither asked nor told anything again.
    Done(R),
}

/// A machine that is made, or its answer where it has no operation to perform.
#[derive(Clone, Copy, Debug, PartialEq, Eq, Drop)]
pub enum Start<T, R> {
    /// The machine, before its first operation.
    Running(T),
    /// The answer, without an operation.
    Done(R),
}
