//! Each call once, and by what a chain, a count and a kick make of it. The replies are worked out by hand
//! from what the calls say.

ghost use Rattle.std.specs.Prelude.{◌≡◌, true, IfOk, IfSome};
ghost use Rattle.rht_core.specs.Locals.{is_idle};
ghost use Rattle.rht_run.specs.Passes.{IsPassOf, AreNew, IsNew};

use crate::asked::{Asked, Row, ask, assert_rows, lists, replies, shows};
use crate::asserts::{SMALL, assert_bound, assert_same};
use crate::library::pair;
use rht_model::{Closed, Cursor, Reply};
use rht_policy::{Lookup3, Low, Mix};
use rht_run::{Pass, Table};
use rht_words::{Config, Kind, word_of};
use std::alloc::{AllocError, Global};
use std::process::Abort;
use std::sync::Wait;
use std::test::Fail;

const BOUND: Reply = Reply::Bound { kick: false };

const RELEASED: Reply = Reply::Released { kick: false };

/// A table of four buckets.
const FOUR: Config = Config { hint: 3, ..SMALL };

fn bind(port: u64, owner: u32) -> Asked {
    Asked::Bind { port, owner }
}

fn bind_once(port: u64, owner: u32) -> Asked {
    Asked::BindOnce { port, owner }
}

fn command(port: u64, owner: u32, auto: bool) -> Asked {
    Asked::Command { port, owner, auto }
}

fn find(port: u64) -> Asked {
    Asked::Find { port }
}

fn release(port: u64, owner: u32) -> Asked {
    Asked::Release { port, owner }
}

/// A walk from this bucket on of the table with the serial 0.
fn cursor(bucket: u32) -> Option<Cursor> {
    Some(Cursor { serial: 0, bucket })
}

fn walk(from: Option<Cursor>, limit: u32) -> Asked {
    Asked::Walk { from, limit }
}

fn walked(len: u32, next: Option<Cursor>) -> Reply {
    Reply::Walked { len, next }
}

/// A tidying gives so many nodes back.
fn tidies(returned: u32) -> Row<'static> {
    replies(Asked::Tidy, Reply::Clear { returned })
}

/// The only pass of a new table.
fn only<M: Mix>(table: &Table<M>, mut passes: Vec<Pass<M>>) -> Option<Pass<M>>
    requires { AreNew M.mix_of table.now 0 passes.items }
    ensures { IfSome result (λ pass. IsNew M.mix_of table.now 0 pass) }
{
    if passes.len() != 1 {
        return None;
    }
    passes.pop()
}

/// A new table, and its only pass.
fn opened<M: Mix>(
    rt: &impl Abort,
    alloc: Global,
    config: Config,
) -> Result<(Table<M>, Pass<M>), Fail>
    ensures { IfOk result (λ r. IsNew M.mix_of r.0 0 r.1) }
{
    assert!(rt; config.is_settled());
    let (table, passes) = Table::<M>::open(alloc, config)?;
    let pass = only(&table, passes).ok_or("a pass")?;
    Ok((table, pass))
}

/// Closes a table of one pass. Where memory is refused it is closed with all that came back.
fn closed<M: Mix>(alloc: Global, table: Table<M>, pass: Pass<M>) -> Result<Closed, AllocError>
    requires { IsPassOf M.mix_of table pass }
{
    let mut passes = Vec::new(alloc);
    passes.push(pass)?;
    match Table::close(alloc, table, passes) {
        Ok(closed) => Ok(closed),
        Err(back) => Table::close(alloc, back.table, back.passes).map_err(|_| AllocError),
    }
}

/// The calls of a new table's only caller do as the rows say, and then it is closed.
fn closed_after<R: Abort + Wait>(
    rt: &R,
    alloc: Global,
    config: Config,
    rows: &[Row<'_>],
) -> Result<Closed, Fail> {
    let (table, mut pass) = opened::<Low>(rt, alloc, config)?;
    assert_rows(rt, &table, &mut pass, rows);
    Ok(closed(alloc, table, pass)?)
}

#[test]
fn makes_each_call(rt: HostRuntime) -> Result<(), Fail> {
    let rebind = Asked::Rebind {
        port: 5,
        owner: 9,
        new: 4,
    };
    let rows = [
        replies(bind(5, 9), BOUND),
        replies(bind_once(5, 3), Reply::Exists { owner: 9 }),
        replies(find(5), Reply::Found { owner: 9 }),
        replies(rebind, Reply::Rebound),
        replies(bind(6, 2), BOUND),
        replies(release(6, 2), RELEASED),
        replies(Asked::Count, Reply::Counted { count: 1 }),
        replies(Asked::Work, Reply::Idle),
        lists(5, 1, &[4]),
    ];
    let closed = closed_after(&rt, rt.alloc(), SMALL, &rows)?;
    assert_bound(&rt, &closed, 64, &[(5, &[4])]);
    Ok(())
}

#[test]
fn a_table_that_has_grown_is_closed(rt: HostRuntime) -> Result<(), Fail> {
    let rows = [
        replies(bind(7, 1), BOUND),
        replies(bind(2, 2), BOUND),
        replies(bind(11, 3), BOUND),
        replies(bind(5, 4), Reply::Bound { kick: true }),
        replies(Asked::Work, Reply::Moved { again: false }),
    ];
    let closed = closed_after(&rt, rt.alloc(), FOUR, &rows)?;
    let bound: [(u64, &[u32]); 4] = [(2, &[2]), (5, &[4]), (7, &[1]), (11, &[3])];
    assert_bound(&rt, &closed, 8, &bound);
    Ok(())
}

/// Of the three owners of port 80 one is left. Where the first closing is refused for want of memory, the second one,
/// of the table and the pass that came back, tells the same.
#[test]
fn a_table_of_lists_is_closed(rt: HostRuntime) -> Result<(), Fail> {
    let config = Config {
        kind: Kind::Listed,
        ..Config::plain()
    };
    let rows = [
        replies(bind(80, 1), BOUND),
        replies(bind(80, 2), BOUND),
        replies(bind(80, 3), BOUND),
        lists(80, 3, &[3, 2, 1]),
        replies(release(80, 3), RELEASED),
        replies(find(80), Reply::Found { owner: 2 }),
        replies(release(80, 1), RELEASED),
        lists(80, 1, &[2]),
        lists(81, 0, &[]),
    ];
    let (table, mut pass) = opened::<Lookup3>(&rt, rt.alloc(), config)?;
    assert_rows(&rt, &table, &mut pass, &rows);
    let closed = closed(rt.alloc(), table, pass)?;
    assert_bound(&rt, &closed, 64, &[(80, &[2])]);
    Ok(())
}

/// Binds sixteen ports of one bucket.
fn crowd<M: Mix, R: Wait>(rt: &R, table: &Table<M>, pass: &mut Pass<M>)
    requires pass { IsPassOf M.mix_of table.now pass.old }
    requires idle { is_idle pass.old.local ≡ true }
    ensures pass { IsPassOf M.mix_of table.now pass.new }
    ensures idle { is_idle pass.new.local ≡ true }
{
    for i in 0..16u64 {
        ask(rt, table, pass, bind(64 * i, 1));
    }
}

#[test]
fn a_full_chain_takes_a_further_table(rt: HostRuntime) -> Result<(), Fail> {
    let (table, mut pass) = opened::<Low>(&rt, rt.alloc(), Config { nodes: 32, ..SMALL })?;
    crowd(&rt, &table, &mut pass);
    // Behind 16 nodes the bind attaches another table of 64, and has to be made again. Then it goes
    // past the first table's bucket into the new one's. Port 0 is still in the first: it is the last
    // of its chain.
    let rows = [
        replies(bind_once(1024, 1), Reply::Again { table: 1 }),
        replies(bind_once(1024, 2), BOUND),
        replies(find(1024), Reply::Found { owner: 2 }),
        replies(release(0, 2), Reply::Absent),
        replies(release(0, 1), RELEASED),
    ];
    assert_rows(&rt, &table, &mut pass, &rows);
    let closed = closed(rt.alloc(), table, pass)?;
    assert_same(&rt, (closed.size, closed.keys), (64, 16));
    let bindings = &closed.bindings;
    assert!(rt; bindings.len() == 16);
    let ends = (word_of(bindings.port(0)), word_of(bindings.port(15)));
    assert_same(&rt, ends, (64, 1024));
    assert_same(&rt, bindings.owners(15), &[2]);
    Ok(())
}

/// The fourth port has the table grow, from 4 buckets to 8, where the work is made behind it.
#[test]
fn a_kick_is_followed_by_work_where_that_is_automatic(rt: HostRuntime) -> Result<(), Fail> {
    for (auto, size) in [(true, 8), (false, 4)] {
        let rows = [
            replies(command(7, 1, auto), BOUND),
            replies(command(2, 2, auto), BOUND),
            replies(command(11, 3, auto), BOUND),
            replies(command(5, 4, auto), Reply::Bound { kick: true }),
        ];
        let closed = closed_after(&rt, rt.alloc(), FOUR, &rows)?;
        assert_same(&rt, (closed.size, closed.keys), (size, 4));
    }
    Ok(())
}

/// Two callers of a table of one node. The node that one of them takes out is free once that one has tidied.
#[test]
fn a_node_that_was_tidied_is_bound_again(rt: HostRuntime) -> Result<(), Fail> {
    let config = Config {
        nodes: 1,
        callers: 2,
        ..SMALL
    };
    assert!(rt; config.is_settled());
    let (table, passes) = Table::<Low>::open(rt.alloc(), config)?;
    let (mut first, mut second) = pair(&table, passes).ok_or("two passes")?;
    let takes_out = [replies(bind(5, 9), BOUND), replies(release(5, 9), RELEASED)];
    assert_rows(&rt, &table, &mut first, &takes_out);
    // The second caller's batch is empty. No call is open when the first one tidies.
    let is_refused = [replies(bind(6, 2), Reply::NoNode), tidies(0)];
    assert_rows(&rt, &table, &mut second, &is_refused);
    assert_rows(&rt, &table, &mut first, &[tidies(1), tidies(0)]);
    assert_rows(&rt, &table, &mut second, &[replies(bind(6, 2), BOUND)]);
    let finds = [replies(find(6), Reply::Found { owner: 2 })];
    assert_rows(&rt, &table, &mut first, &finds);
    Ok(())
}

/// Port 5 is in bucket 1, port 2 in bucket 2, and port 7 in the last one.
#[test]
fn a_walk_shows_each_port(rt: HostRuntime) -> Result<(), Fail> {
    let rows = [
        replies(bind(7, 1), BOUND),
        replies(bind(2, 2), BOUND),
        replies(bind(5, 4), BOUND),
        shows(walk(None, 8), walked(3, None), &[(5, 4), (2, 2), (7, 1)]),
        shows(walk(None, 1), walked(1, cursor(2)), &[(5, 4)]),
        shows(walk(cursor(2), 1), walked(1, cursor(3)), &[(2, 2)]),
        shows(walk(cursor(3), 1), walked(1, None), &[(7, 1)]),
        // The table has no fifth bucket, so the walk begins anew.
        replies(walk(cursor(4), 1), Reply::Again { table: 0 }),
    ];
    let closed = closed_after(&rt, rt.alloc(), FOUR, &rows)?;
    assert_bound(&rt, &closed, 4, &[(2, &[2]), (5, &[4]), (7, &[1])]);
    Ok(())
}

/// A cursor is of one table. It fits neither where that is gone nor where another one has its slot, though
/// that has as many buckets: only its serial is another, 2.
#[test]
fn a_cursor_fits_no_later_table(rt: HostRuntime) -> Result<(), Fail> {
    let config = Config {
        shrink: true,
        ..FOUR
    };
    let rows = [
        replies(bind(7, 1), BOUND),
        replies(bind(2, 2), BOUND),
        replies(bind(5, 4), BOUND),
        shows(walk(None, 1), walked(1, cursor(2)), &[(5, 4)]),
        // A fourth port, so that a table of eight buckets follows. The second work gives back the first one.
        replies(bind(11, 3), Reply::Bound { kick: true }),
        replies(Asked::Work, Reply::Moved { again: false }),
        replies(Asked::Work, Reply::Idle),
        replies(walk(cursor(2), 1), Reply::Again { table: 1 }),
        // One port is left, so that a table of four buckets follows. It takes the slot that the first one had.
        replies(release(11, 3), RELEASED),
        replies(release(5, 4), RELEASED),
        replies(release(2, 2), Reply::Released { kick: true }),
        replies(Asked::Work, Reply::Moved { again: false }),
        replies(walk(cursor(2), 1), Reply::Again { table: 0 }),
        // Port 7 is in the last bucket.
        shows(walk(None, 1), walked(1, None), &[(7, 1)]),
    ];
    let closed = closed_after(&rt, rt.alloc(), config, &rows)?;
    assert_bound(&rt, &closed, 4, &[(7, &[1])]);
    Ok(())
}
