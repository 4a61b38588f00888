//! Dealt scripts, done by the program, with their texts by hand. Where a table has several workers it is left
//! open who does a command, so there each line is compared but for its worker.

use crate::asserts::{
    Case, Outside, USAGE, WHOLE, add_lines, assert_cases, assert_left, assert_same, run_on,
    run_with,
};
use crate::workers::Meeting;
use rht_io::Gate;
use std::alloc::Global;
use std::process::Abort;
use std::str::Lines;
use std::sync::atomic::{AtomicBool, Ordering};
use std::test::Fail;

/// A dealt script.
const DEALT: &str = "table single\nany bind 80 100\nany find 80\n";

/// What is printed of it.
const TEXT: &str = "1 1: bound\n2 1: found 100\nport 80: 100\nsize 64 keys 1\n";

#[test]
fn scripts_are_dealt(rt: HostRuntime) -> Result<(), Fail> {
    let cases: [Case; 9] = [
        (&["deal"], DEALT, 0, TEXT, ""),
        (
            &["deal"],
            "table listed form 2\nany bind 3.80 1\nany bind 3.80 2\nany all 3.80\nany rebind 3.80 2 9\nany release 3.80 1\nany count",
            0,
            "1 1: bound\n2 1: bound\n3 1: list 2 1\n4 1: rebound\n5 1: released\n6 1: count 1\nport 3.80: 9\nsize 64 keys 1\n",
            "",
        ),
        (
            &["deal"],
            "table single workers 16\n",
            0,
            "size 64 keys 0\n",
            "",
        ),
        // A worker's number, a command that can't be dealt, and a line of a schedule.
        (
            &["deal"],
            "table single\n1 find 80\n",
            2,
            "",
            "rht: line 2: unknown or missing word\n",
        ),
        (
            &["deal"],
            "table single\nany find 80\nany tidy\n",
            2,
            "",
            "rht: line 3: unknown or missing word\n",
        ),
        (
            &["deal"],
            "table single\nskip 1 1\n",
            2,
            "",
            "rht: line 2: unknown or missing word\n",
        ),
        // In a script of workers there is no such word.
        (&["run"], DEALT, 2, "", "rht: line 2: bad number\n"),
        (&["deal", "x"], DEALT, 1, "", USAGE),
        (&["deals"], DEALT, 1, "", USAGE),
    ];
    assert_cases(&rt, rt.alloc(), &cases)
}

#[test]
fn what_was_dealt_is_written_or_not(rt: HostRuntime) -> Result<(), Fail> {
    // The take that fails, the put, and what is left then: the whole text is one put.
    let cases = [
        (1, 0, 3, "", "rht: read failed\n"),
        (0, 1, 4, "", "rht: write failed\n"),
        (0, 2, 0, TEXT, ""),
    ];
    for (take, put, status, out, err) in cases {
        let outside = Outside { take, put, ..WHOLE };
        let left = run_on(&rt, rt.alloc(), &["deal"], DEALT, outside)?;
        assert_left(&rt, &left, status, out, err, out);
    }
    Ok(())
}

/// Has those meet who do the first two commands, whichever workers they are.
#[derive(Drop)]
struct Takers {
    meeting: Meeting,
}

/// Whether each of the two has seen the other.
fn have_met(meeting: &Meeting) -> bool {
    let seen = &meeting.seen[..];
    seen.len() == 2 && seen[0].load(Ordering::SeqCst) && seen[1].load(Ordering::SeqCst)
}

impl Gate for Takers {
    fn before(&self, _worker: u32, index: u32) {
        self.meeting.before(index, index);
    }

    fn after(&self, _worker: u32, _index: u32) {}
}

#[test]
fn two_takers_meet(rt: HostRuntime) -> Result<(), Fail> {
    // One thread alone couldn't do this: it would be in the first command until the second's flag is raised.
    let gate = Takers {
        meeting: Meeting {
            raised: [AtomicBool::new(false), AtomicBool::new(false)],
            seen: [AtomicBool::new(false), AtomicBool::new(false)],
        },
    };
    let script = "table single workers 2\nany bind 1 1\nany bind 2 2\n";
    let left = run_with(&rt, rt.alloc(), &["deal"], script, WHOLE, &gate)?;
    assert!(rt; have_met(&gate.meeting));
    let texts = [
        "1 1: bound\n2 2: bound\nport 1: 1\nport 2: 2\nsize 64 keys 2\n",
        "1 2: bound\n2 1: bound\nport 1: 1\nport 2: 2\nsize 64 keys 2\n",
    ];
    let found = left.out.bytes();
    assert!(rt; found == texts[0].as_bytes() || found == texts[1].as_bytes());
    assert_same(&rt, left.status, 0);
    Ok(())
}

/// Asserts that the next line is the one of this command, bound by one of four workers.
fn assert_bound(
    rt: &impl Abort,
    alloc: Global,
    lines: &mut Lines<'_>,
    number: u32,
) -> Result<(), Fail> {
    let line = lines.next();
    let mut is_one = false;
    for worker in 1..=4u32 {
        let want = format!(in alloc; "{number} {worker}: bound")?;
        is_one = is_one || line == Some(want.as_str());
    }
    assert!(rt; is_one);
    Ok(())
}

#[test]
fn four_workers_do_all_commands(rt: HostRuntime) -> Result<(), Fail> {
    // The table begins with 2,048 buckets, the least power of two that is no less than four thirds of 1,536.
    // Each port has a bucket of its own, so nobody meets a refusal, and the table stays as it is.
    let alloc = rt.alloc();
    let mut script = String::from_str(alloc, "table single workers 4 hint 1536 hash low\n")?;
    let mut closing = String::new(alloc);
    for port in 1..=1000u32 {
        script.push_str(&format!(in alloc; "any bind {port} 1\n")?)?;
        closing.push_str(&format!(in alloc; "port {port}: 1\n")?)?;
    }
    add_lines(&mut closing, 1, "size 2048 keys 1000\n")?;
    let left = run_on(&rt, alloc, &["deal"], &script, WHOLE)?;
    let text = str::from_utf8(left.out.bytes())?;
    let mut lines = text.lines();
    for number in 1..=1000u32 {
        assert_bound(&rt, alloc, &mut lines, number)?;
    }
    for want in closing.lines() {
        assert_same(&rt, lines.next(), Some(want));
    }
    assert_same(&rt, (left.status, lines.next()), (0, None));
    Ok(())
}
