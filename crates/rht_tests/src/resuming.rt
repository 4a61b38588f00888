//! Resume scripts done by workers, and a resumed walk beside a pass. What is answered is worked out by hand from
//! the rules of pieces: in a table of `hash low` a port lies in the bucket of its lowest bits, and a bucket shows
//! the port that was bound last first.

ghost use Rattle.std.specs.Prelude.{◌≡◌, true, IfOk, IfSome};
ghost use Rattle.rht_core.specs.Locals.{is_idle};
ghost use Rattle.rht_run.specs.Passes.{IsPassOf, AreNew, IsNew};

use crate::asserts::{SMALL, assert_pairs, assert_same};
use crate::turns::InTurn;
use rht_io::{Gate, MemSink, NoGate};
use rht_policy::{Lookup3, Low, Mix};
use rht_resume::{
    Piece, ResumeOutcome, ResumeReplies, ResumeReply, Resumed, read_resume, run_resumed,
    write_resumed,
};
use rht_run::{Pass, Table};
use rht_script::ReadError;
use rht_words::{Hash, Port};
use std::alloc::{AllocError, Global};
use std::process::Abort;
use std::sync::Wait;
use std::test::Fail;
use std::thread::Threads;

/// Reads a resume script and does it. A fault is want of memory here: the scripts of these tests have none.
fn resumed<R: Threads + Wait + Sync, G: Gate + Sync>(
    rt: &R,
    alloc: Global,
    text: &str,
    gate: &G,
) -> Result<ResumeOutcome, AllocError> {
    match read_resume(alloc, text.as_bytes()) {
        Ok(script) => match script.config.hash {
            Hash::Mix => run_resumed::<Lookup3, _, _>(rt, alloc, &script, gate),
            Hash::Low => run_resumed::<Low, _, _>(rt, alloc, &script, gate),
        },
        Err(ReadError::Fault(_)) | Err(ReadError::Memory) => Err(AllocError),
    }
}

/// A table line with the commands behind it, and the text that they leave.
#[derive(Clone, Copy)]
struct Case {
    name: &'static str,
    script: &'static str,
    text: &'static str,
}

const CASES: [Case; 9] = [
    Case {
        name: "a walk in pieces, and once more whole",
        script: "table single hash low\n1 bind 0 10\n1 bind 64 20\n1 bind 1 11\n1 next 1\n1 next 1\n1 next 5\n1 next 5\n",
        text: "1: bound\n1: bound\n1: bound\n1: next 64=20 more\n1: next 0=10 more\n1: next 1=11 end\n1: next 64=20 0=10 1=11 end\nport 0: 10\nport 1: 11\nport 64: 20\nsize 64 keys 3\n",
    },
    // The sixth port finds the table full, and a second one is attached. The walk comes to the end of the first
    // one with bucket 3, and finds the second one behind. After the work that is the current table.
    Case {
        name: "a table behind the walked one",
        script: "table single hint 1 hash low work manual\n1 bind 0 10\n1 bind 1 11\n1 bind 2 12\n1 bind 3 13\n1 bind 4 14\n1 bind 5 15\n1 next 2\n1 next 9\n1 work\n1 next 9\n",
        text: "1: bound\n1: bound\n1: bound\n1: bound\n1: bound\n1: bound\n1: next 4=14 0=10 more\n1: next again 1\n1: moved\n1: next 0=10 1=11 2=12 3=13 4=14 5=15 end\nport 0: 10\nport 1: 11\nport 2: 12\nport 3: 13\nport 4: 14\nport 5: 15\nsize 8 keys 6\n",
    },
    Case {
        name: "one pair at a time of a bucket of four",
        script: "table single hash low\n1 bind 0 10\n1 bind 64 11\n1 bind 128 12\n1 bind 192 13\n1 next 1\n1 next 1\n1 next 1\n1 next 1\n1 next 1\n1 next 3\n",
        text: "1: bound\n1: bound\n1: bound\n1: bound\n1: next 192=13 more\n1: next 128=12 more\n1: next 64=11 more\n1: next 0=10 more\n1: next end\n1: next 192=13 128=12 64=11 more\nport 0: 10\nport 64: 11\nport 128: 12\nport 192: 13\nsize 64 keys 4\n",
    },
    // Two pairs were shown, and one is left of the bucket: it is passed over.
    Case {
        name: "a bucket that shrinks between two pieces",
        script: "table single hash low\n1 bind 0 10\n1 bind 64 11\n1 bind 128 12\n1 bind 1 21\n1 next 2\n1 release 128 12\n1 release 64 11\n1 next 2\n",
        text: "1: bound\n1: bound\n1: bound\n1: bound\n1: next 128=12 64=11 more\n1: released\n1: released\n1: next 1=21 end\nport 0: 10\nport 1: 21\nsize 64 keys 2\n",
    },
    // One pair was shown, and another has come before it: the one that was shown is shown again.
    Case {
        name: "a bucket that grows between two pieces",
        script: "table single hash low\n1 bind 0 10\n1 bind 64 11\n1 next 1\n1 bind 128 12\n1 next 5\n",
        text: "1: bound\n1: bound\n1: next 64=11 more\n1: bound\n1: next 64=11 0=10 end\nport 0: 10\nport 64: 11\nport 128: 12\nsize 64 keys 3\n",
    },
    // The next occupied bucket is another one then, and its first pair is passed over.
    Case {
        name: "a bucket that is emptied between two pieces",
        script: "table single hash low\n1 bind 0 10\n1 bind 64 11\n1 bind 1 21\n1 bind 65 22\n1 bind 129 23\n1 next 1\n1 release 0 10\n1 release 64 11\n1 next 1\n1 next 1\n1 next 1\n",
        text: "1: bound\n1: bound\n1: bound\n1: bound\n1: bound\n1: next 64=11 more\n1: released\n1: released\n1: next 65=22 more\n1: next 1=21 more\n1: next end\nport 1: 21\nport 65: 22\nport 129: 23\nsize 64 keys 3\n",
    },
    // A cursor into the old table fits the new one no longer.
    Case {
        name: "a resize between two pieces",
        script: "table single hint 1 hash low work manual\n1 bind 0 10\n1 bind 1 11\n1 bind 2 12\n1 bind 3 13\n1 bind 4 14\n1 bind 5 15\n1 next 2\n1 work\n1 next 9\n1 next 6\n1 next 1\n",
        text: "1: bound\n1: bound\n1: bound\n1: bound\n1: bound\n1: bound\n1: next 4=14 0=10 more\n1: moved\n1: next again 1\n1: next 0=10 1=11 2=12 3=13 4=14 5=15 more\n1: next end\nport 0: 10\nport 1: 11\nport 2: 12\nport 3: 13\nport 4: 14\nport 5: 15\nsize 8 keys 6\n",
    },
    // Without a cursor the walk begins in the new table, where bucket 0 has one pair.
    Case {
        name: "a resize within the first bucket",
        script: "table single hint 1 hash low work manual\n1 bind 0 10\n1 bind 1 11\n1 bind 2 12\n1 bind 3 13\n1 bind 4 14\n1 bind 5 15\n1 next 1\n1 work\n1 next 9\n",
        text: "1: bound\n1: bound\n1: bound\n1: bound\n1: bound\n1: bound\n1: next 4=14 more\n1: moved\n1: next 1=11 2=12 3=13 4=14 5=15 end\nport 0: 10\nport 1: 11\nport 2: 12\nport 3: 13\nport 4: 14\nport 5: 15\nsize 8 keys 6\n",
    },
    // Each port once, with the first of its owners.
    Case {
        name: "a table of lists",
        script: "table listed hash low form 2\n1 bind 3.64 1\n1 bind 3.64 2\n1 bind 5 7\n1 all 3.64\n1 next 1\n1 walk\n1 count\n1 tidy\n1 next 1\n1 next 1\n",
        text: "1: bound\n1: bound\n1: bound\n1: list 2 1\n1: next 3.64=2 more\n1: walk 3.64=2 5=7 end\n1: count 2\n1: clear 0\n1: next 5=7 more\n1: next end\nport 5: 7\nport 3.64: 2 1\nsize 64 keys 2\n",
    },
];

#[test]
fn pieces_are_printed(rt: HostRuntime) -> Result<(), Fail> {
    let alloc = rt.alloc();
    for i in 0..CASES.len() {
        let case = &CASES[i];
        let outcome = resumed(&rt, alloc, case.script, &NoGate)?;
        let mut sink = MemSink::new(alloc, 1024, Vec::new(alloc))?;
        assert!(rt; write_resumed(&mut sink, &outcome).is_ok());
        assert_same(
            &rt,
            (case.name, sink.bytes()),
            (case.name, case.text.as_bytes()),
        );
    }
    Ok(())
}

#[test]
fn a_nested_table_is_walked_in_pieces(rt: HostRuntime) -> Result<(), Fail> {
    // A work moves 40 ports from a table of 256 buckets to one of 64. The bind of port 65 finds 65 ports there,
    // and no two pages in a row for 128 buckets: it attaches a nested table. The next work puts a flat one
    // behind that, moves all other ports there, and makes the nested one the current one.
    let alloc = rt.alloc();
    let mut text = String::from_str(
        alloc,
        "table single pages 7 hint 192 shrink on hash low work manual\n",
    )?;
    for port in 0..66u32 {
        if port == 40 {
            text.push_str("1 work\n")?;
        }
        let line = format!(in alloc; "1 bind {port} 1\n")?;
        text.push_str(&line)?;
    }
    text.push_str(
        "1 work\n1 next 1\n1 next 1\n1 next 65\n1 work\n1 next 65\n1 next 65\n1 next 65\n",
    )?;
    let outcome = resumed(&rt, alloc, &text, &NoGate)?;
    assert_same(&rt, (outcome.closed.size, outcome.closed.keys), (128, 66));
    assert_same(&rt, outcome.replies.len(), 1);
    assert!(rt; 0 < outcome.replies.len());
    let answers = &outcome.replies[0];
    assert_same(&rt, answers.len(), 75);
    assert!(rt; 74 < answers.len());
    let part = ResumeReply::Next(Piece::Part);
    assert_same(&rt, answers.reply(68), part);
    assert_pairs(&rt, answers.pairs(68), &[(65, 1)]);
    // At the end of the nested table the flat one is behind it, so the walk begins anew.
    let behind = answers.reply(69);
    assert!(rt; matches!(behind, ResumeReply::Next(Piece::Again { .. })));
    assert_same(&rt, answers.reply(70), behind);
    assert_same(&rt, answers.reply(72), part);
    assert_same(&rt, answers.pairs(72).len(), 65);
    assert_same(
        &rt,
        answers.reply(73),
        ResumeReply::Next(Piece::End { len: 1 }),
    );
    assert_pairs(&rt, answers.pairs(73), &[(65, 1)]);
    assert_same(&rt, answers.reply(74), part);
    Ok(())
}

/// Asserts that the answer at this place is this piece with these pairs.
fn assert_piece(
    rt: &impl Abort,
    answers: &ResumeReplies,
    i: usize,
    piece: Piece,
    pairs: &[(u64, u32)],
) {
    assert!(rt; i < answers.len());
    assert_same(rt, (i, answers.reply(i)), (i, ResumeReply::Next(piece)));
    assert_pairs(rt, answers.pairs(i), pairs);
}

#[test]
fn workers_walk_in_turn(rt: HostRuntime) -> Result<(), Fail> {
    // The lines stand in the order of the turns. Bucket 0 has both ports, and each worker has a walk of its own.
    let text =
        "table single workers 2 hash low\n1 bind 0 10\n2 bind 64 20\n1 next 1\n2 next 1\n1 next 1\n2 next 2\n1 next 1\n2 next 1\n";
    let outcome = resumed(&rt, rt.alloc(), text, &InTurn::new())?;
    assert_same(&rt, outcome.replies.len(), 2);
    assert!(rt; 1 < outcome.replies.len());
    let first = &outcome.replies[0];
    assert_same(&rt, first.len(), 4);
    assert_piece(&rt, first, 1, Piece::Part, &[(64, 20)]);
    assert_piece(&rt, first, 2, Piece::Part, &[(0, 10)]);
    assert_piece(&rt, first, 3, Piece::End { len: 0 }, &[]);
    let second = &outcome.replies[1];
    assert_same(&rt, second.len(), 4);
    assert_piece(&rt, second, 1, Piece::Part, &[(64, 20)]);
    assert_piece(&rt, second, 2, Piece::End { len: 1 }, &[(0, 10)]);
    assert_piece(&rt, second, 3, Piece::Part, &[(64, 20)]);
    Ok(())
}

/// The only pass of a new table.
fn only<M: Mix>(table: &Table<M>, mut passes: Vec<Pass<M>>) -> Option<Pass<M>>
    requires { AreNew M.mix_of table.now 0 passes.items }
    ensures { IfSome result (λ pass. IsNew M.mix_of table.now 0 pass) }
{
    if passes.len() != 1 {
        return None;
    }
    passes.pop()
}

/// Binds three ports of a table of four buckets, two of them in bucket 0.
fn bind_three<M: Mix, R: Wait>(rt: &R, table: &Table<M>, pass: &mut Pass<M>)
    requires pass { IsPassOf M.mix_of table.now pass.old }
    requires idle { is_idle pass.old.local ≡ true }
    ensures pass { IsPassOf M.mix_of table.now pass.new }
    ensures idle { is_idle pass.new.local ≡ true }
{
    table.bind(rt, pass, Port::plain(0), 10);
    table.bind(rt, pass, Port::plain(4), 14);
    table.bind(rt, pass, Port::plain(1), 11);
}

/// The pieces of a walk that is restarted behind its first one, and those of another walk beside it.
fn restarted_walk<M: Mix>(
    alloc: Global,
    table: &Table<M>,
    pass: &mut Pass<M>,
) -> Result<Option<[Piece; 4]>, AllocError>
    requires pass { IsPassOf M.mix_of table.now pass.old }
    requires idle { is_idle pass.old.local ≡ true }
    requires config { table.now.env.config.nodes ≡ 8 }
{
    let mut walk = Resumed::new(alloc, 8)?;
    let mut other = Resumed::new(alloc, 8)?;
    if walk.is_ended() || other.is_ended() || !walk.pairs().is_empty() {
        return Ok(None);
    }
    let first = walk.next(table, pass, 2);
    let whole = other.next(table, pass, 8);
    walk.restart();
    if walk.pairs().len() != 2 || !other.is_ended() {
        return Ok(None);
    }
    let anew = walk.next(table, pass, 1);
    if walk.is_ended() || walk.pairs().len() != 1 {
        return Ok(None);
    }
    let rest = walk.next(table, pass, 3);
    if !walk.is_ended() || walk.pairs().len() != 2 {
        return Ok(None);
    }
    Ok(Some([first, whole, anew, rest]))
}

#[test]
fn a_walk_is_restarted(rt: HostRuntime) -> Result<(), Fail> {
    assert!(rt; SMALL.is_settled());
    let (table, passes) = Table::<Low>::open(rt.alloc(), SMALL)?;
    let mut pass = only(&table, passes).ok_or("a pass")?;
    bind_three(&rt, &table, &mut pass);
    let pieces = restarted_walk(rt.alloc(), &table, &mut pass)?;
    let want = [
        Piece::Part,
        Piece::End { len: 3 },
        Piece::Part,
        Piece::End { len: 2 },
    ];
    assert_same(&rt, pieces, Some(want));
    Ok(())
}
