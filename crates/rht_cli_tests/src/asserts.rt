//! The program run in memory, and what many tests assert of what it leaves.

use rht_forms::program::run;
use rht_io::{Gate, MemSink, MemSource, NoGate};
use std::alloc::Global;
use std::fmt::Debug;
use std::process::Abort;
use std::sync::Wait;
use std::test::Fail;
use std::thread::Threads;

/// The line of status 1.
pub const USAGE: &str =
    "rht: usage: rht run | rht replay | rht gen NUMBER | rht deal | rht lease | rht check | rht resume\n";

/// Five lines, of 64 bytes together.
pub const SCRIPT: &str = "table single\n1 bind 80 100\n1 find 80\n1 release 80 100\n1 find 80\n";

/// How the outside behaves: how many bytes a take gives, and which take, put to `out` and put to
/// `err` fails, counted from 1; 0 for none.
#[derive(Clone, Copy)]
pub struct Outside {
    pub piece: usize,
    pub take: u64,
    pub put: u64,
    pub err: u64,
}

/// An outside that doesn't fail.
pub const WHOLE: Outside = Outside {
    piece: 4096,
    take: 0,
    put: 0,
    err: 0,
};

/// What a run left.
#[derive(Drop)]
pub struct Left {
    pub status: u8,
    pub out: MemSink,
    pub err: MemSink,
}

/// The words as the program has them.
pub fn strings(alloc: Global, words: &[&str]) -> Result<Vec<String>, Fail> {
    let mut list = Vec::new(alloc);
    for word in words {
        list.push(String::from_str(alloc, word)?)?;
    }
    Ok(list)
}

/// Runs the program on these words and this script, with a gate that does nothing.
pub fn run_on<R: Threads + Wait + Sync>(
    rt: &R,
    alloc: Global,
    words: &[&str],
    script: &str,
    outside: Outside,
) -> Result<Left, Fail> {
    run_with(rt, alloc, words, script, outside, &NoGate)
}

/// Runs it with a gate of the test's own.
pub fn run_with<R: Threads + Wait + Sync, G: Gate + Sync>(
    rt: &R,
    alloc: Global,
    words: &[&str],
    script: &str,
    outside: Outside,
    gate: &G,
) -> Result<Left, Fail> {
    let bytes = script.as_bytes().to_vec(alloc)?;
    run_bytes(rt, alloc, words, bytes, outside, gate)
}

/// Runs it on bytes, which need be no text.
pub fn run_bytes<R: Threads + Wait + Sync, G: Gate + Sync>(
    rt: &R,
    alloc: Global,
    words: &[&str],
    bytes: Vec<u8>,
    outside: Outside,
    gate: &G,
) -> Result<Left, Fail> {
    let list = strings(alloc, words)?;
    let mut source = MemSource::new(bytes, outside.piece.max(1), vec![in alloc; outside.take]?);
    let mut out = MemSink::new(alloc, 131_072, vec![in alloc; outside.put]?)?;
    let mut err = MemSink::new(alloc, 4096, vec![in alloc; outside.err]?)?;
    let status = run(rt, alloc, &list, &mut source, &mut out, &mut err, gate);
    Ok(Left { status, out, err })
}

/// Asserts that a value is this one.
pub fn assert_same<T: Copy + Debug + PartialEq>(rt: &impl Abort, found: T, want: T) {
    assert_eq!(rt; found, want);
}

/// Asserts that this status, this text and this line of the error were left.
pub fn assert_left(rt: &impl Abort, left: &Left, status: u8, out: &str, err: &str, case: &str) {
    let found = (left.status, left.out.bytes(), left.err.bytes());
    let want = (status, out.as_bytes(), err.as_bytes());
    assert_same(rt, (case, found), (case, want));
}

/// The words and the input, and what is left: the status, the text and the line of the error.
pub type Case = (
    &'static [&'static str],
    &'static str,
    u8,
    &'static str,
    &'static str,
);

/// Asserts that each case leaves that, whatever the input's pieces.
pub fn assert_cases<R: Threads + Wait + Sync + Abort>(
    rt: &R,
    alloc: Global,
    cases: &[Case],
) -> Result<(), Fail> {
    for (words, script, status, out, err) in cases {
        for piece in [1, 4096] {
            let left = run_on(rt, alloc, words, script, Outside { piece, ..WHOLE })?;
            assert_left(rt, &left, *status, out, err, script);
        }
    }
    Ok(())
}

/// So many times these lines.
pub fn add_lines(text: &mut String, count: u32, lines: &str) -> Result<(), Fail> {
    for _ in 0..count {
        text.push_str(lines)?;
    }
    Ok(())
}
