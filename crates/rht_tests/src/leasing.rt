//! Lease scripts done by workers, and a book beside a pass. What is answered is worked out by hand from what
//! the commands say.

ghost use Rattle.std.specs.Prelude.{◌≡◌, true, IfSome};
ghost use Rattle.rht_core.specs.Locals.{is_idle};
ghost use Rattle.rht_run.specs.Passes.{IsPassOf, AreNew, IsNew};

use crate::asserts::{SMALL, assert_bound, assert_same};
use crate::turns::InTurn;
use rht_io::{Gate, NoGate};
use rht_lease::{LeaseOutcome, LeaseReplies, LeaseReply, Leases, Swept, read_leases, run_leases};
use rht_model::Reply;
use rht_policy::{Lookup3, Low, Mix};
use rht_run::{Pass, Table};
use rht_script::ReadError;
use rht_words::{Hash, Port};
use std::alloc::{AllocError, Global};
use std::process::Abort;
use std::sync::Wait;
use std::test::Fail;
use std::thread::Threads;

const BOUND: LeaseReply = LeaseReply::Plain(Reply::Bound { kick: false });

const RELEASED: LeaseReply = LeaseReply::Plain(Reply::Released { kick: false });

/// Reads a lease script and does it. A fault is want of memory here: the scripts of these tests have none.
fn lease<R: Threads + Wait + Sync, G: Gate + Sync>(
    rt: &R,
    alloc: Global,
    text: &str,
    gate: &G,
) -> Result<LeaseOutcome, AllocError> {
    match read_leases(alloc, text.as_bytes()) {
        Ok(script) => match script.config.hash {
            Hash::Mix => run_leases::<Lookup3, _, _>(rt, alloc, &script, gate),
            Hash::Low => run_leases::<Low, _, _>(rt, alloc, &script, gate),
        },
        Err(ReadError::Fault(_)) | Err(ReadError::Memory) => Err(AllocError),
    }
}

/// What a sweep came to.
fn swept(released: u32, absent: u32) -> LeaseReply {
    LeaseReply::Swept(Swept { released, absent })
}

/// Asserts that a worker was answered so.
fn assert_answers(rt: &impl Abort, answers: &LeaseReplies, want: &[LeaseReply]) {
    assert_same(rt, answers.len(), want.len());
    for i in 0..want.len() {
        assert!(rt; i < answers.len());
        assert_same(rt, (i, answers.reply(i)), (i, want[i]));
    }
}

#[test]
fn leases_end(rt: HostRuntime) -> Result<(), Fail> {
    // At its last tick a lease holds still. Renewed to 30 it holds at 25; the other one doesn't.
    let text =
        "table single\n1 lease 80 1 10\n1 lease 81 1 20\n1 bind 82 1\n1 sweep 10\n1 renew 81 1 30\n1 sweep 25\n1 sweep 31\n1 find 82\n1 renew 80 1 40\n";
    let outcome = lease(&rt, rt.alloc(), text, &NoGate)?;
    assert_same(&rt, outcome.replies.len(), 1);
    assert!(rt; 0 < outcome.replies.len());
    assert_answers(
        &rt,
        &outcome.replies[0],
        &[
            BOUND,
            BOUND,
            BOUND,
            swept(0, 0),
            LeaseReply::Renewed,
            swept(1, 0),
            swept(1, 0),
            LeaseReply::Plain(Reply::Found { owner: 1 }),
            LeaseReply::NoLease,
        ],
    );
    assert_bound(&rt, &outcome.closed, 64, &[(82, &[1])]);
    Ok(())
}

#[test]
fn books_keep_what_was_granted(rt: HostRuntime) -> Result<(), Fail> {
    // Two leases of one pair in a table of lists: a renew changes the first of them alone, and so does a cancel.
    // An earlier last tick ends a lease earlier. A refused bind leaves no lease, and a binding that is gone leaves
    // its lease, whose release finds nothing. The greatest moment is later than any other one alone.
    let text =
        "table listed\n1 lease 80 1 10\n1 lease 80 1 20\n1 renew 80 1 30\n1 sweep 25\n1 cancel 80 1\n1 cancel 80 1\n1 lease 81 2 50\n1 release 81 2\n1 cancel 81 2\n1 lease 82 3 18446744073709551615\n1 lease 83 4 18446744073709551614\n1 sweep 18446744073709551615\n1 renew 82 3 5\n1 sweep 6\n1 renew 82 3 7\n";
    let outcome = lease(&rt, rt.alloc(), text, &NoGate)?;
    assert_same(&rt, outcome.replies.len(), 1);
    assert!(rt; 0 < outcome.replies.len());
    assert_answers(
        &rt,
        &outcome.replies[0],
        &[
            BOUND,
            BOUND,
            LeaseReply::Renewed,
            swept(1, 0),
            RELEASED,
            LeaseReply::NoLease,
            BOUND,
            RELEASED,
            LeaseReply::Plain(Reply::Absent),
            BOUND,
            BOUND,
            swept(1, 0),
            LeaseReply::Renewed,
            swept(1, 0),
            LeaseReply::NoLease,
        ],
    );
    assert_bound(&rt, &outcome.closed, 64, &[]);
    Ok(())
}

#[test]
fn workers_lease_in_turn(rt: HostRuntime) -> Result<(), Fail> {
    // The lines stand in the order of the turns. A worker's sweep ends the leases of its own book alone.
    let text =
        "table single workers 2\n1 lease 80 1 10\n2 lease 80 2 10\n1 sweep 11\n2 lease 80 2 20\n1 lease 80 1 20\n2 cancel 80 2\n1 lease 80 1 30\n2 sweep 40\n1 count\n2 find 80\n";
    let outcome = lease(&rt, rt.alloc(), text, &InTurn::new())?;
    assert_same(&rt, outcome.replies.len(), 2);
    assert!(rt; 1 < outcome.replies.len());
    assert_answers(
        &rt,
        &outcome.replies[0],
        &[
            BOUND,
            swept(1, 0),
            LeaseReply::Plain(Reply::Exists { owner: 2 }),
            BOUND,
            LeaseReply::Plain(Reply::Counted { count: 1 }),
        ],
    );
    assert_answers(
        &rt,
        &outcome.replies[1],
        &[
            LeaseReply::Plain(Reply::Exists { owner: 1 }),
            BOUND,
            RELEASED,
            swept(0, 0),
            LeaseReply::Plain(Reply::Found { owner: 1 }),
        ],
    );
    assert_bound(&rt, &outcome.closed, 64, &[(80, &[1])]);
    Ok(())
}

#[test]
fn a_big_book_is_swept(rt: HostRuntime) -> Result<(), Fail> {
    // Every second lease ends with the first sweep, and the others with the second.
    let alloc = rt.alloc();
    let mut text = String::from_str(
        alloc,
        "table single nodes 65536 pages 4096 hint 65536 hash low\n",
    )?;
    for port in 0..65_536u32 {
        let last = if port % 2 == 0 { 10 } else { 20 };
        let line = format!(in alloc; "1 lease {port} 1 {last}\n")?;
        text.push_str(&line)?;
    }
    text.push_str("1 sweep 11\n1 count\n1 sweep 21\n")?;
    let outcome = lease(&rt, alloc, &text, &NoGate)?;
    assert_same(&rt, outcome.replies.len(), 1);
    assert!(rt; 0 < outcome.replies.len());
    let answers = &outcome.replies[0];
    assert_same(&rt, answers.len(), 65_539);
    assert!(rt; 65_538 < answers.len());
    assert_same(&rt, answers.reply(65_536), swept(32_768, 0));
    let counted = LeaseReply::Plain(Reply::Counted { count: 32_768 });
    assert_same(&rt, answers.reply(65_537), counted);
    assert_same(&rt, answers.reply(65_538), swept(32_768, 0));
    assert_same(&rt, outcome.closed.keys, 0);
    Ok(())
}

/// The only pass of a new table.
fn only<M: Mix>(table: &Table<M>, mut passes: Vec<Pass<M>>) -> Option<Pass<M>>
    requires { AreNew M.mix_of table.now 0 passes.items }
    ensures { IfSome result (λ pass. IsNew M.mix_of table.now 0 pass) }
{
    if passes.len() != 1 {
        return None;
    }
    passes.pop()
}

/// Leases a port, renews the lease to an earlier moment, sweeps at its last tick and behind it, and leases the
/// port once more.
fn book_beside_a_pass<M: Mix, R: Wait>(
    rt: &R,
    alloc: Global,
    table: &Table<M>,
    pass: &mut Pass<M>,
) -> Result<Option<(Swept, Swept, Option<Reply>)>, AllocError>
    requires pass { IsPassOf M.mix_of table.now pass.old }
    requires idle { is_idle pass.old.local ≡ true }
{
    let port = Port::plain(80);
    let mut book = Leases::new(alloc, 1)?;
    if book.is_full() {
        return Ok(None);
    }
    book.lease(rt, table, pass, port, 100, 10, true);
    if !book.is_full() || !book.renew(port, 100, 5) || book.renew(port, 7, 5) {
        return Ok(None);
    }
    let held = book.sweep(rt, table, pass, 5, true);
    let ended = book.sweep(rt, table, pass, 6, true);
    if book.is_full() {
        return Ok(None);
    }
    book.lease(rt, table, pass, port, 100, 10, true);
    let cancelled = book.cancel(rt, table, pass, port, 100, true);
    Ok(Some((held, ended, cancelled)))
}

#[test]
fn a_book_is_kept_beside_a_pass(rt: HostRuntime) -> Result<(), Fail> {
    assert!(rt; SMALL.is_settled());
    let (table, passes) = Table::<Low>::open(rt.alloc(), SMALL)?;
    let mut pass = only(&table, passes).ok_or("a pass")?;
    let kept = book_beside_a_pass(&rt, rt.alloc(), &table, &mut pass)?;
    let none = Swept {
        released: 0,
        absent: 0,
    };
    let one = Swept {
        released: 1,
        absent: 0,
    };
    let released = Some(Reply::Released { kick: false });
    assert_same(&rt, kept, Some((none, one, released)));
    Ok(())
}
