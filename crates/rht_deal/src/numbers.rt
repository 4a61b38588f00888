//! The numbers of the commands, and the queue through which workers get them.
//!
//! Stands on `crossbeam_queue`, whose queue is under the rule of `specs/Numbers.antt`: no number is
//! lost, none is taken twice, and each worker's rise.

ghost use Rattle.std.specs.Prelude.{◌≡◌, ◌+◌, ◌<◌, ◌≤◌, ◌^◌, [], IfOk, MatchOption};
ghost use Rattle.crossbeam_queue.specs.Passes.{view, IsPassOf, ruled_capacity};
ghost use Rattle.rht_deal.specs.Numbers.{hand, all_parts, sharing, shared, joined, Took, HasAll};

use crossbeam_queue::protocol::{Join, Lesson, Outcome, Protocol, Split};
use crossbeam_queue::{Pass, RuledArrayQueue};
use std::alloc::{AllocError, Global};
use std::collections::LinkedList;
use std::sync::Wait;

/// What a pass of the queue knows. No value of it is made: it exists in proofs alone.
pub struct Hand {
    /// How many parts it has of the right to know the whole.
    pub parts: u64,
    /// How many numbers were pushed.
    pub pushed: u64,
    /// The numbers that it has taken, in their order.
    pub taken: LinkedList<u32>,
}

/// The rule of the queue.
pub struct Dealing;

impl Protocol<u32, Hand> for Dealing {
    ghost use Rattle.std.specs.Prelude.{[]};
    ghost use Rattle.rht_deal.specs.Numbers.{hand, all_parts, AreDealt};

    ghost holds = { AreDealt };

    ghost first = { hand all_parts 0 [] };
}

/// Passes are made of one another, and brought together again.
pub struct Sharing;

impl Split<Hand> for Sharing {
    ghost use Rattle.rht_deal.specs.Numbers.{sharing, shared};

    ghost left = { sharing };

    ghost right = { shared };
}

impl Join<Hand> for Sharing {
    ghost use Rattle.std.specs.Prelude.{[]};
    ghost use Rattle.rht_deal.specs.Numbers.{hand, joined};

    ghost both = { joined };

    ghost spent = { hand 0 0 [] };
}

/// A number is pushed.
pub struct Pushing;

impl Outcome<u32, Hand> for Pushing {
    ghost use Rattle.rht_deal.specs.Numbers.{Pushed};

    ghost then = { Pushed };
}

impl Lesson<u32, Hand> for Pushing {
    ghost use Rattle.rht_deal.specs.Numbers.{KnowsAll};

    ghost fact = { KnowsAll };
}

/// A number is taken.
pub struct Taking;

impl Outcome<u32, Hand> for Taking {
    ghost use Rattle.rht_deal.specs.Numbers.{Took};

    ghost then = { Took };
}

impl Lesson<u32, Hand> for Taking {
    ghost use Rattle.rht_deal.specs.Numbers.{KnowsAll};

    ghost fact = { KnowsAll };
}

/// The queue of the numbers.
pub type Numbers = RuledArrayQueue<u32, Hand, Dealing>;

/// A worker's token for that queue.
pub type NumberPass = Pass<u32, Hand>;

/// A queue with the numbers from 1 to this one, in their order, and the pass that has pushed them. The
/// one refusal is want of memory.
pub fn filled<R: Wait>(
    rt: &R,
    alloc: Global,
    count: usize,
) -> Result<(Numbers, NumberPass), AllocError>
    requires { count < 2 ^ 32 }
    ensures queue { IfOk result (λ q. IsPassOf q.0 q.1) }
    ensures pass { IfOk result (λ q. view q.1 ≡ hand all_parts count []) }
{
    let (queue, mut pass) = Numbers::ruled(alloc, count.max(1))?;
    for i in 0..count {
        let number = i as u32 + 1;
        push(rt, &queue, &mut pass, number);
    }
    Ok((queue, pass))
}

/// Pushes the next number, for which there is room: so many were pushed before it.
fn push<R: Wait>(rt: &R, queue: &Numbers, pass: &mut NumberPass, number: u32)
    requires queue { IsPassOf queue.now pass.old }
    requires room { number ≤ ruled_capacity queue.now }
    requires next { (view pass.old).pushed + 1 ≡ number }
    requires all { (view pass.old).parts ≡ all_parts }
    ensures queue { IsPassOf queue.now pass.new }
    ensures pass { view pass.new ≡ hand all_parts number (view pass.old).taken }
{
    match queue.push_as::<Pushing, R>(rt, pass, number) {
        Ok(()) => {}
        Err(_) => unreachable!(),
    }
}

/// Takes the next number. `None` where none was left at one moment of the call.
pub fn next<R: Wait>(rt: &R, queue: &Numbers, pass: &mut NumberPass) -> Option<u32>
    requires queue { IsPassOf queue.now pass.old }
    requires part { 0 < (view pass.old).parts }
    ensures queue { IsPassOf queue.now pass.new }
    ensures taken { MatchOption result
        ((view pass.new ≡ view pass.old) × HasAll (view pass.old))
        (λ number. Took (view pass.old) number (view pass.new)) }
{
    queue.pop_as::<Taking, R>(rt, pass)
}

/// A pass more.
pub fn share(queue: &Numbers, pass: &mut NumberPass) -> NumberPass
    requires queue { IsPassOf queue.now pass.old }
    requires parts { 1 < (view pass.old).parts }
    ensures queue { IsPassOf queue.now pass.new × IsPassOf queue.now result }
    ensures left { view pass.new ≡ sharing (view pass.old) }
    ensures right { view result ≡ shared (view pass.old) }
{
    queue.another::<Sharing>(pass)
}

/// Takes in another pass.
pub fn join(queue: &Numbers, pass: &mut NumberPass, other: NumberPass)
    requires queue { IsPassOf queue.now pass.old × IsPassOf queue.now other }
    requires part { 0 < (view pass.old).parts }
    ensures queue { IsPassOf queue.now pass.new }
    ensures joined { view pass.new ≡ joined (view pass.old) (view other) }
{
    queue.absorb::<Sharing>(pass, other);
}
