//! What many tests assert, of values and of machines. Each is generic, so that it is proved once.

use rht_words::{Next, Op};
use std::fmt::Debug;
use std::process::Abort;

/// Asserts that a value is this one.
pub fn assert_same<T: Copy + Debug + PartialEq>(rt: &impl Abort, found: T, want: T) {
    assert_eq!(rt; found, want);
}

/// A machine or a piece of one, as a test drives it.
pub trait Machine {
    type Answer;

    fn plan(&self) -> Op;

    fn take(&mut self, old: u64) -> Next<Self::Answer>;
}

/// Asserts that a machine performs these operations, which find these words, before it is at its end,
/// with this answer. It gives what the machine says behind the last one.
pub fn said_behind<M>(
    rt: &impl Abort,
    machine: &mut M,
    said: Next<M::Answer>,
    steps: &[(Op, u64)],
    answer: M::Answer,
) -> Next<M::Answer>
where
    M: Machine,
    M::Answer: Copy + Debug + PartialEq,
{
    let mut next = said;
    for (op, old) in steps {
        let as_said = next == Next::Go && machine.plan() == *op;
        assert!(rt; as_said, "{op:?} is next, to {answer:?}");
        next = machine.take(*old);
    }
    next
}

/// Asserts that a machine performs these operations, part by part, which find these words, and that it
/// is at its end, with this answer, behind the last one and not before.
pub fn assert_parts<M>(rt: &impl Abort, machine: M, parts: &[&[(Op, u64)]], answer: M::Answer)
where
    M: Machine + Drop,
    M::Answer: Copy + Debug + PartialEq,
{
    let mut machine = machine;
    let mut next = Next::Go;
    for part in parts {
        next = said_behind(rt, &mut machine, next, part, answer);
    }
    assert!(rt;
        next == Next::Done(answer),
        "{answer:?} is behind the last one"
    );
}

/// The same where there is one part.
pub fn assert_performs<M>(rt: &impl Abort, machine: M, steps: &[(Op, u64)], answer: M::Answer)
where
    M: Machine + Drop,
    M::Answer: Copy + Debug + PartialEq,
{
    assert_parts(rt, machine, &[steps], answer);
}
