//! The table as a library: a registry of ports that two threads share. docs/THREADS.md goes through it.

ghost use Rattle.std.specs.Prelude.{◌≡◌, true, IfSome};
ghost use Rattle.rht_core.specs.Locals.{is_idle};
ghost use Rattle.rht_policy.specs.Mix.{low_mix};
ghost use Rattle.rht_run.specs.Passes.{IsPassOf, AreNew, IsNew};

use crate::asserts::{SMALL, assert_pairs, assert_same};
use rht_model::Reply;
use rht_policy::{Low, Mix};
use rht_run::{Pass, Table};
use rht_words::{Config, Port};
use std::alloc::{AllocError, Global};
use std::sync::Wait;
use std::test::Fail;
use std::thread::{Threads, join};

/// What a thread does: it binds the port of this number, asks who has it, gives it back, tidies, and binds
/// it to another owner. The tidying may be `Pending`, since the other thread may be in a call.
fn work<M: Mix, R: Wait>(rt: &R, table: &Table<M>, mut pass: Pass<M>, number: u32) -> Pass<M>
    requires pass { IsPassOf M.mix_of table.now pass }
    requires idle { is_idle pass.local ≡ true }
    ensures pass { IsPassOf M.mix_of table.now result }
    ensures idle { is_idle result.local ≡ true }
{
    table.bind(rt, &mut pass, Port::plain(number), 1);
    table.find(&mut pass, Port::plain(number));
    table.release(rt, &mut pass, Port::plain(number), 1);
    table.tidy(&mut pass);
    table.bind(rt, &mut pass, Port::plain(number), 2);
    pass
}

/// Two threads do so at the same time, each with a pass and a port of its own.
fn both<M: Mix + Send + Sync, R: Threads + Wait + Sync>(
    rt: &R,
    table: &Table<M>,
    first: Pass<M>,
    second: Pass<M>,
) -> (Pass<M>, Pass<M>)
    requires first { IsPassOf M.mix_of table.now first × (is_idle first.local ≡ true) }
    requires second { IsPassOf M.mix_of table.now second × (is_idle second.local ≡ true) }
    ensures first { IsPassOf M.mix_of table.now result.0 × (is_idle result.0.local ≡ true) }
    ensures second { IsPassOf M.mix_of table.now result.1 × (is_idle result.1.local ≡ true) }
{
    join(
        rt,
        move || work(rt, table, first, 5),
        move || work(rt, table, second, 6),
    )
}

/// The greatest number of buckets that a table may have.
const MOST_BUCKETS: u32 = 131_072;

/// The bound ports with their first owners. The table is walked in pieces, of which each ends behind a
/// bucket once so many pairs or more are shown; so there are no more pieces than buckets. `None` where
/// the walk has to begin anew.
fn walked<M: Mix>(
    alloc: Global,
    table: &Table<M>,
    pass: &mut Pass<M>,
    limit: u32,
) -> Result<Option<Vec<(Port, u32)>>, AllocError>
    requires pass { IsPassOf M.mix_of table.now pass.old }
    requires idle { is_idle pass.old.local ≡ true }
{
    let mut pairs = Vec::new(alloc);
    let mut from = None;
    for _ in 0..MOST_BUCKETS {
        let Reply::Walked { next, .. } = table.walk(pass, from, limit) else {
            return Ok(None);
        };
        pairs.extend_from_slice(pass.pairs())?;
        if next.is_none() {
            return Ok(Some(pairs));
        }
        from = next;
    }
    Ok(None)
}

/// The two passes of a new table.
pub fn pair<M: Mix>(table: &Table<M>, mut passes: Vec<Pass<M>>) -> Option<(Pass<M>, Pass<M>)>
    requires { AreNew M.mix_of table.now 0 passes.items }
    ensures { IfSome result (λ r. IsNew M.mix_of table.now 0 r.0 × IsNew M.mix_of table.now 1 r.1) }
{
    if passes.len() != 2 {
        return None;
    }
    let second = passes.pop()?;
    let first = passes.pop()?;
    Some((first, second))
}

/// What is in the table behind the two threads: what the count says, what each one's pass finds of the other's
/// port, and what a walk shows.
type Seen = ([Reply; 3], Option<Vec<(Port, u32)>>);

/// Runs the threads, and looks what is there then.
fn shared<R: Threads + Wait + Sync>(
    rt: &R,
    alloc: Global,
    table: &Table<Low>,
    first: Pass<Low>,
    second: Pass<Low>,
) -> Result<Seen, AllocError>
    requires first { IsPassOf low_mix table.now first × (is_idle first.local ≡ true) }
    requires second { IsPassOf low_mix table.now second × (is_idle second.local ≡ true) }
{
    let (mut first, mut second) = both(rt, table, first, second);
    let counted = table.count(&mut first);
    let found = table.find(&mut first, Port::plain(6));
    let other = table.find(&mut second, Port::plain(5));
    let pairs = walked(alloc, table, &mut first, 1)?;
    Ok(([counted, found, other], pairs))
}

#[test]
fn two_threads_share_a_registry(rt: HostRuntime) -> Result<(), Fail> {
    let config = Config {
        callers: 2,
        ..SMALL
    };
    assert!(rt; config.is_settled());
    let (table, passes) = Table::<Low>::open(rt.alloc(), config)?;
    let (first, second) = pair(&table, passes).ok_or("two passes")?;
    let (replies, pairs) = shared(&rt, rt.alloc(), &table, first, second)?;
    let want = [
        Reply::Counted { count: 2 },
        Reply::Found { owner: 2 },
        Reply::Found { owner: 2 },
    ];
    assert_same(&rt, replies, want);
    let pairs = pairs.ok_or("a whole walk")?;
    assert_pairs(&rt, pairs.as_slice(), &[(5, 2), (6, 2)]);
    Ok(())
}
