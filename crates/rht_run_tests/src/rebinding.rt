//! Two threads replace owners of one port, while a third one lists them.

ghost use Rattle.std.specs.Prelude.{◌≡◌, true, IfSome};
ghost use Rattle.rht_core.specs.Locals.{is_idle};
ghost use Rattle.rht_policy.specs.Mix.{low_mix};
ghost use Rattle.rht_run.specs.Passes.{IsPassOf, AreNew, IsNew};

use crate::asked::{Asked, ask};
use crate::asserts::{SMALL, assert_same};
use rht_model::{Call, Entry, Owners, Reply, is_legal};
use rht_policy::{Low, Mix};
use rht_run::{Pass, Table};
use rht_words::{Config, Kind, Port};
use std::alloc::{AllocError, Global};
use std::sync::Wait;
use std::test::Fail;
use std::thread::{Threads, join};

/// The three passes of a new table.
fn three<M: Mix>(table: &Table<M>, mut passes: Vec<Pass<M>>) -> Option<(Pass<M>, Pass<M>, Pass<M>)>
    requires { AreNew M.mix_of table.now 0 passes.items }
    ensures { IfSome result (λ r. IsNew M.mix_of table.now 0 r.0 × IsNew M.mix_of table.now 1 r.1 × IsNew M.mix_of table.now 2 r.2) }
{
    if passes.len() != 3 {
        return None;
    }
    let third = passes.pop()?;
    let second = passes.pop()?;
    let first = passes.pop()?;
    Some((first, second, third))
}

/// Binds port 80 to the owners 1, 2 and 3.
fn bind_three<M: Mix, R: Wait>(rt: &R, table: &Table<M>, mut pass: Pass<M>) -> Pass<M>
    requires pass { IsPassOf M.mix_of table.now pass }
    requires idle { is_idle pass.local ≡ true }
    ensures pass { IsPassOf M.mix_of table.now result }
    ensures idle { is_idle result.local ≡ true }
{
    ask(rt, table, &mut pass, Asked::Bind { port: 80, owner: 1 });
    ask(rt, table, &mut pass, Asked::Bind { port: 80, owner: 2 });
    ask(rt, table, &mut pass, Asked::Bind { port: 80, owner: 3 });
    pass
}

/// What a thread does: it makes this call.
fn answered<M: Mix, R: Wait>(
    rt: &R,
    table: &Table<M>,
    mut pass: Pass<M>,
    asked: Asked,
) -> (Pass<M>, Reply)
    requires pass { IsPassOf M.mix_of table.now pass }
    requires idle { is_idle pass.local ≡ true }
    ensures pass { IsPassOf M.mix_of table.now result.0 }
    ensures idle { is_idle result.0.local ≡ true }
{
    let reply = ask(rt, table, &mut pass, asked);
    (pass, reply)
}

/// Puts owner 4 in the place of owner 3 of port 80.
const REPLACE_3: Asked = Asked::Rebind {
    port: 80,
    owner: 3,
    new: 4,
};

/// Puts owner 5 in the place of owner 1 of port 80.
const REPLACE_1: Asked = Asked::Rebind {
    port: 80,
    owner: 1,
    new: 5,
};

/// Lists the owners of port 80.
const LIST: Asked = Asked::All { port: 80 };

/// Two threads replace the owners 3 and 1.
fn both<M: Mix + Send + Sync, R: Threads + Wait + Sync>(
    rt: &R,
    table: &Table<M>,
    first: Pass<M>,
    second: Pass<M>,
) -> ((Pass<M>, Reply), (Pass<M>, Reply))
    requires first { IsPassOf M.mix_of table.now first }
    requires first_idle { is_idle first.local ≡ true }
    requires second { IsPassOf M.mix_of table.now second }
    requires second_idle { is_idle second.local ≡ true }
    ensures first { IsPassOf M.mix_of table.now result.0.0 }
    ensures first_idle { is_idle result.0.0.local ≡ true }
{
    join(
        rt,
        move || answered(rt, table, first, REPLACE_3),
        move || answered(rt, table, second, REPLACE_1),
    )
}

/// A third thread lists them meanwhile.
fn all<M: Mix + Send + Sync, R: Threads + Wait + Sync>(
    rt: &R,
    table: &Table<M>,
    first: Pass<M>,
    second: Pass<M>,
    third: Pass<M>,
) -> (((Pass<M>, Reply), (Pass<M>, Reply)), (Pass<M>, Reply))
    requires first { IsPassOf M.mix_of table.now first }
    requires first_idle { is_idle first.local ≡ true }
    requires second { IsPassOf M.mix_of table.now second }
    requires second_idle { is_idle second.local ≡ true }
    requires third { IsPassOf M.mix_of table.now third }
    requires third_idle { is_idle third.local ≡ true }
    ensures first { IsPassOf M.mix_of table.now result.0.0.0 }
    ensures first_idle { is_idle result.0.0.0.local ≡ true }
{
    join(
        rt,
        move || -> ((Pass<M>, Reply), (Pass<M>, Reply))
            requires first { IsPassOf M.mix_of table.now first }
            requires first_idle { is_idle first.local ≡ true }
            requires second { IsPassOf M.mix_of table.now second }
            requires second_idle { is_idle second.local ≡ true }
            ensures first { IsPassOf M.mix_of table.entry.now result.0.0 }
            ensures first_idle { is_idle result.0.0.local ≡ true }
        { both(rt, table, first, second) },
        move || answered(rt, table, third, LIST),
    )
}

/// What a call of port 80 was answered.
#[derive(Clone, Copy)]
enum Line {
    Bound { owner: u32 },
    Rebound { owner: u32, new: u32 },
    Listed { len: u32 },
}

/// The entry. A listing has told these owners.
fn entry(alloc: Global, line: Line, told: &[u32]) -> Result<Entry, AllocError> {
    let port = Port::plain(80);
    let mut owners = Owners::new(alloc);
    let (call, reply) = match line {
        Line::Bound { owner } => {
            let once = false;
            let call = Call::Bind { port, owner, once };
            (call, Reply::Bound { kick: false })
        }
        Line::Rebound { owner, new } => (Call::Rebind { port, owner, new }, Reply::Rebound),
        Line::Listed { len } => {
            for owner in told {
                owners.push(*owner)?;
            }
            (Call::All { port }, Reply::Listed { len })
        }
    };
    Ok(Entry {
        caller: 0,
        call,
        reply,
        owners,
    })
}

/// Whether it is legal that these follow the three binds in this order.
fn is_legal_in(alloc: Global, order: [Line; 3], told: &[u32]) -> Result<bool, AllocError> {
    let [first, second, third] = order;
    let lines = [
        Line::Bound { owner: 1 },
        Line::Bound { owner: 2 },
        Line::Bound { owner: 3 },
        first,
        second,
        third,
    ];
    let mut history = Vec::new(alloc);
    for line in lines {
        history.push(entry(alloc, line, told)?)?;
    }
    is_legal(alloc, Kind::Listed, &history)
}

const FIRST: Line = Line::Rebound { owner: 3, new: 4 };

const LAST: Line = Line::Rebound { owner: 1, new: 5 };

const LISTED: Line = Line::Listed { len: 3 };

/// Each order of the two rebinds and the listing.
const ORDERS: [[Line; 3]; 6] = [
    [LISTED, FIRST, LAST],
    [LISTED, LAST, FIRST],
    [FIRST, LISTED, LAST],
    [LAST, LISTED, FIRST],
    [FIRST, LAST, LISTED],
    [LAST, FIRST, LISTED],
];

/// In how many of these orders it is legal that the listing told these owners.
fn legal_orders(alloc: Global, told: &[u32]) -> Result<u32, AllocError> {
    let mut count = 0u32;
    for order in ORDERS {
        if is_legal_in(alloc, order, told)? {
            count = count.saturating_add(1);
        }
    }
    Ok(count)
}

/// What the threads were answered, which owners were listed meanwhile, and which behind them.
#[derive(Clone, Copy)]
struct Round {
    rebound: [Reply; 2],
    listed: Reply,
    meanwhile: Option<[u32; 3]>,
    behind: Option<[u32; 3]>,
}

/// Three owners, where there are just as many.
fn three_owners(owners: &[u32]) -> Option<[u32; 3]> {
    if owners.len() == 3 {
        Some([owners[0], owners[1], owners[2]])
    } else {
        None
    }
}

/// Runs the three threads on a new table.
fn played<R: Threads + Wait + Sync>(
    rt: &R,
    table: &Table<Low>,
    first: Pass<Low>,
    second: Pass<Low>,
    third: Pass<Low>,
) -> Round
    requires first { IsPassOf low_mix table.now first × (is_idle first.local ≡ true) }
    requires second { IsPassOf low_mix table.now second × (is_idle second.local ≡ true) }
    requires third { IsPassOf low_mix table.now third × (is_idle third.local ≡ true) }
{
    let first = bind_three(rt, table, first);
    let (rebound, (third, listed)) = all(rt, table, first, second, third);
    let ((mut first, one), (_, other)) = rebound;
    ask(rt, table, &mut first, LIST);
    Round {
        rebound: [one, other],
        listed,
        meanwhile: three_owners(third.owners()),
        behind: three_owners(first.owners()),
    }
}

#[test]
fn owners_of_one_port_are_replaced_by_two_threads(rt: HostRuntime) -> Result<(), Fail> {
    let config = Config {
        kind: Kind::Listed,
        callers: 3,
        ..SMALL
    };
    assert!(rt; config.is_settled());
    for _ in 0..200 {
        let (table, passes) = Table::<Low>::open(rt.alloc(), config)?;
        let (first, second, third) = three(&table, passes).ok_or("three passes")?;
        let round = played(&rt, &table, first, second, third);
        assert_same(&rt, round.rebound, [Reply::Rebound, Reply::Rebound]);
        assert_same(&rt, round.listed, Reply::Listed { len: 3 });
        let meanwhile = round.meanwhile.ok_or("three owners")?;
        assert!(rt; legal_orders(rt.alloc(), &meanwhile)? > 0);
        // Whoever came first, each new owner has the place of the one that it replaced.
        assert_same(&rt, round.behind, Some([4, 2, 5]));
    }
    Ok(())
}

#[test]
fn lists_that_no_order_gives(rt: HostRuntime) -> Result<(), Fail> {
    // The list is 3, 2, 1 at first and 4, 2, 5 in the end, each in the two orders that have the listing there.
    // It is 4, 2, 1 or 3, 2, 5 between the rebinds, as the one or the other comes first.
    let rows: [([u32; 3], u32); 6] = [
        ([3, 2, 1], 2),
        ([4, 2, 1], 1),
        ([3, 2, 5], 1),
        ([4, 2, 5], 2),
        ([4, 3, 2], 0),
        ([5, 2, 1], 0),
    ];
    for (told, want) in rows {
        let found = legal_orders(rt.alloc(), &told)?;
        assert_same(&rt, (told, found), (told, want));
    }
    Ok(())
}
