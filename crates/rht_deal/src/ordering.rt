//! What all workers have done, put in the order of the commands. Each has done its own in rising order,
//! so the next one is always the first that one of them has left.

ghost use Rattle.std.specs.Prelude.{◌≡◌, ◌+◌, ◌<◌, ◌≤◌, ◌^◌, ◌↔◌, ℕ, [], IfOk, IsTrue, slice_index_or, vec_len};
ghost use Rattle.std.specs.List.{AllByRecursion};
ghost use Rattle.rht_deal.specs.DoneCommands.{numbers_of, done_by};
ghost use Rattle.rht_deal.specs.Numbers.{numbers_to};
ghost use Rattle.rht_deal.specs.Ordering.{kept_items, BeginsWith, TakesOut, AreOwn, AreEachOnce};

use rht_script::Done;
use std::alloc::{AllocError, Global};
use std::collections::VecDeque;

/// All that was done, in the order of the commands, of which there are so many. The one refusal is want
/// of memory.
pub fn in_order(
    alloc: Global,
    mut kept: Vec<VecDeque<Done>>,
    count: usize,
) -> Result<Vec<Done>, AllocError>
    requires few { count < 2 ^ 32 }
    requires own { AreOwn 1 (kept_items kept) }
    requires once { AreEachOnce count (kept_items kept) }
    ensures numbers { IfOk result (λ done. numbers_of done.items ≡ numbers_to count) }
    ensures workers { IfOk result (λ done. AllByRecursion (λ one. (1 ≤ one.worker) × (one.worker ≤ vec_len kept)) done.items) }
    ensures own { IfOk result (λ done. (i : ℕ) → i < vec_len kept
        → done_by (i + 1) done.items ≡ slice_index_or (kept_items kept) i []) }
{
    let mut done = Vec::with_capacity(alloc, count)?;
    for i in 0..count {
        let number = i as u32 + 1;
        let Some(next) = taken_out(&mut kept, number) else {
            unreachable!()
        };
        done.push(next)?;
    }
    Ok(done)
}

/// Takes out what was done of this number, where it is the first that somebody has left.
fn taken_out(kept: &mut Vec<VecDeque<Done>>, number: u32) -> Option<Done>
    ensures { TakesOut (kept_items kept.old) (kept_items kept.new) number result }
{
    for i in 0..kept.len() {
        if is_next(&kept[i], number) {
            return kept[i].pop_front();
        }
    }
    None
}

/// Whether this number is the first one left here.
fn is_next(own: &VecDeque<Done>, number: u32) -> bool
    ensures { IsTrue result ↔ BeginsWith own.now.items number }
{
    match own.front() {
        Some(done) => done.number == number,
        None => false,
    }
}
