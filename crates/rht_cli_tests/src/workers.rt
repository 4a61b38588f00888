//! Scripts of several workers: that each is served, that their threads meet, and the script of a number.

use crate::asserts::{
    Outside, SCRIPT, WHOLE, add_lines, assert_left, assert_same, run_on, run_with,
};
use rht_io::Gate;
use std::alloc::Global;
use std::hint::spin_loop;
use std::process::Abort;
use std::str::Lines;
use std::sync::atomic::{AtomicBool, AtomicU64, Ordering};
use std::test::Fail;

/// A worker's commands for 500 ports of its own.
fn add_commands(alloc: Global, script: &mut String, w: u32) -> Result<(), Fail> {
    for j in 0..500u32 {
        let p = w.wrapping_mul(1000).wrapping_add(j);
        script.push_str(&format!(in alloc;
            "{w} bind {p} {w}\n{w} find {p}\n{w} release {p} {w}\n{w} find {p}\n"
        )?)?;
    }
    Ok(())
}

/// What they are answered.
fn add_answers(alloc: Global, text: &mut String, w: u32) -> Result<(), Fail> {
    let lines = format!(in alloc; "{w}: bound\n{w}: found {w}\n{w}: released\n{w}: missing\n")?;
    add_lines(text, 500, &lines)
}

#[test]
fn four_workers_are_served(rt: HostRuntime) -> Result<(), Fail> {
    // Each has ports of its own, so the replies are the same in every order of the workers' operations.
    let mut script = String::from_str(rt.alloc(), "table single workers 4\n")?;
    let mut text = String::new(rt.alloc());
    for w in 1..=4u32 {
        add_commands(rt.alloc(), &mut script, w)?;
        add_answers(rt.alloc(), &mut text, w)?;
    }
    text.push_str("size 64 keys 0\n")?;
    let left = run_on(&rt, rt.alloc(), &["run"], &script, WHOLE)?;
    assert_left(&rt, &left, 0, &text, "", "four workers");
    Ok(())
}

/// How often a worker looks for the other one.
const TURNS: u32 = 100_000_000;

/// Where two workers meet. Each raises its flag, looks for the other's, and notes whether it saw it.
#[derive(Drop)]
pub struct Meeting {
    pub raised: [AtomicBool; 2],
    pub seen: [AtomicBool; 2],
}

impl Gate for Meeting {
    fn before(&self, worker: u32, _index: u32) {
        let (own, other) = if worker == 1 { (0, 1) } else { (1, 0) };
        self.raised[own].store(true, Ordering::SeqCst);
        for _ in 0..TURNS {
            if self.raised[other].load(Ordering::SeqCst) {
                self.seen[own].store(true, Ordering::SeqCst);
                return;
            }
            spin_loop();
        }
    }

    fn after(&self, _worker: u32, _index: u32) {}
}

#[test]
fn two_workers_meet(rt: HostRuntime) -> Result<(), Fail> {
    // One thread alone couldn't do this, whichever worker it began with: the second flag would be
    // raised once the first worker had looked for it.
    let scripts = [
        "table single workers 2\n1 bind 1 1\n2 bind 2 2\n",
        "table single workers 2\n2 bind 2 2\n1 bind 1 1\n",
    ];
    for script in scripts {
        let gate = Meeting {
            raised: [AtomicBool::new(false), AtomicBool::new(false)],
            seen: [AtomicBool::new(false), AtomicBool::new(false)],
        };
        let left = run_with(&rt, rt.alloc(), &["run"], script, WHOLE, &gate)?;
        let seen = gate.seen[0].load(Ordering::SeqCst);
        assert!(rt; seen && gate.seen[1].load(Ordering::SeqCst));
        let text = "1: bound\n2: bound\nport 1: 1\nport 2: 2\nsize 64 keys 2\n";
        assert_left(&rt, &left, 0, text, "", script);
    }
    Ok(())
}

/// How many commands a gate has heard of.
#[derive(Drop)]
struct Heard {
    before: AtomicU64,
    after: AtomicU64,
}

impl Gate for Heard {
    fn before(&self, _worker: u32, _index: u32) {
        self.before.fetch_add(1, Ordering::SeqCst);
    }

    fn after(&self, _worker: u32, _index: u32) {
        self.after.fetch_add(1, Ordering::SeqCst);
    }
}

#[test]
fn a_number_is_run(rt: HostRuntime) -> Result<(), Fail> {
    // Of 500 rounds of each of 8 workers 250 bind a port twice and leave it bound, and 250 release it.
    // Bound stay the ports 10,000 w + o + j of the even j, with o the number's last three digits:
    // 250 * (360,000 + 8 o) + 8 * 62,250 = 90,498,000 + 2,000 o.
    let cases = [
        ("7", "7", "90512000"),
        ("0000000007", "7", "90512000"),
        ("4294967295", "4294967295", "91088000"),
    ];
    for (word, number, sum) in cases {
        let heard = Heard {
            before: AtomicU64::new(0),
            after: AtomicU64::new(0),
        };
        // Nothing is read: a take would fail.
        let outside = Outside {
            piece: 16,
            take: 1,
            put: 0,
            err: 0,
        };
        let left = run_with(&rt, rt.alloc(), &["gen", word], SCRIPT, outside, &heard)?;
        let text = format!(in rt.alloc();
            "gen {number}: commands 20000 bound 4000 exists 2000 found 6000 missing 6000 released 2000 keys 2000 sum {sum}\n"
        )?;
        assert_left(&rt, &left, 0, &text, "", word);
        let before = heard.before.load(Ordering::SeqCst);
        assert!(rt; before == 20_000 && heard.after.load(Ordering::SeqCst) == 20_000);
    }
    Ok(())
}

/// Asserts that the line is the worker's, with this reply.
fn assert_line(
    rt: &impl Abort,
    alloc: Global,
    line: Option<&str>,
    w: u32,
    reply: &str,
) -> Result<(), Fail> {
    let want = format!(in alloc; "{w}: {reply}")?;
    assert_same(rt, line, Some(want.as_str()));
    Ok(())
}

/// Asserts that the line is the worker's, with one of 16 owners that was found.
fn assert_found(rt: &impl Abort, alloc: Global, line: Option<&str>, w: u32) -> Result<(), Fail> {
    let found = line.ok_or("a reply")?;
    let begins = format!(in alloc; "{w}: found ")?;
    let owner = found.strip_prefix(begins.as_str()).ok_or("an owner")?;
    assert!(rt; matches!(owner.parse::<u32>(), Ok(1..=16)), "{found}");
    Ok(())
}

/// Twenty rounds of the worker, each of which binds the port, looks it up and takes it out.
fn add_rounds(alloc: Global, script: &mut String, w: u32) -> Result<(), Fail> {
    let lines = format!(in alloc; "{w} bind 80 {w}\n{w} find 80\n{w} release 80 {w}\n")?;
    add_lines(script, 20, &lines)
}

/// Asserts that the next lines answer these rounds.
fn assert_rounds(
    rt: &impl Abort,
    alloc: Global,
    lines: &mut Lines<'_>,
    w: u32,
) -> Result<(), Fail> {
    for _ in 0..20 {
        assert_line(rt, alloc, lines.next(), w, "bound")?;
        assert_found(rt, alloc, lines.next(), w)?;
        assert_line(rt, alloc, lines.next(), w, "released")?;
    }
    Ok(())
}

#[test]
fn sixteen_workers_share_a_port(rt: HostRuntime) -> Result<(), Fail> {
    // Each binds the port to itself, looks it up and takes its own binding out. Its look-up finds an owner,
    // since its own is bound then; whose, is for the order of the workers to say.
    let mut script = String::from_str(rt.alloc(), "table listed workers 16\n")?;
    for w in 1..=16u32 {
        add_rounds(rt.alloc(), &mut script, w)?;
    }
    let left = run_on(&rt, rt.alloc(), &["run"], &script, WHOLE)?;
    assert_same(&rt, left.status, 0);
    let text = str::from_utf8(left.out.bytes())?;
    let mut lines = text.lines();
    for w in 1..=16u32 {
        assert_rounds(&rt, rt.alloc(), &mut lines, w)?;
    }
    let last = (lines.next(), lines.next());
    assert_same(&rt, last, (Some("size 64 keys 0"), None));
    Ok(())
}
