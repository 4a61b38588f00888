//! A caller that stops for good, and inputs that are no script: what is printed of each, by hand from
//! the operations of a bind, and from the rules of scripts.

use crate::asserts::{Outside, WHOLE, assert_left, run_bytes, run_on};
use rht_io::NoGate;
use std::alloc::Global;
use std::process::Abort;
use std::sync::Wait;
use std::test::Fail;
use std::thread::Threads;

#[test]
fn look_ups_go_past_a_caller_that_stopped(rt: HostRuntime) -> Result<(), Fail> {
    let alloc = rt.alloc();
    // Worker 1 locks bucket 5 with its eleventh operation, and with the eighteenth it binds port 5
    // and unlocks.
    for stop in 1..=18u32 {
        let script = format!(in alloc;
            "table single nodes 8 workers 2 hash low\n2 bind 69 7\n1 bind 5 6\n2 find 69\n2 find 5\nfinish 2 1\nskip 1 {stop}\nfinish 2 2\n"
        )?;
        let text = if stop < 18 {
            "2: bound\n2: found 7\n2: missing\nopen 1\nsize 64\n"
        } else {
            "2: bound\n2: found 7\n2: found 6\nopen 1\nsize 64\n"
        };
        let left = run_on(&rt, alloc, &["replay"], &script, WHOLE)?;
        assert_left(&rt, &left, 0, text, "", &script);
    }
    Ok(())
}

/// Asserts that this form refuses the bytes with this line.
fn assert_refused<R: Threads + Wait + Sync + Abort>(
    rt: &R,
    alloc: Global,
    form: &str,
    bytes: Vec<u8>,
    line: &str,
) -> Result<(), Fail> {
    let outside = Outside {
        piece: 65_536,
        ..WHOLE
    };
    let left = run_bytes(rt, alloc, &[form], bytes, outside, &NoGate)?;
    assert_left(rt, &left, 2, "", line, form);
    Ok(())
}

#[test]
fn broken_scripts_are_refused(rt: HostRuntime) -> Result<(), Fail> {
    let alloc = rt.alloc();
    let cases = [
        ("tab", "rht: line 1: no table line\n"),
        ("table", "rht: line 1: unknown or missing word\n"),
        (
            "table single nodes",
            "rht: line 1: unknown or missing word\n",
        ),
        ("table single nodes x", "rht: line 1: bad number\n"),
        ("table single nodes 0", "rht: line 1: number out of range\n"),
        (
            "table single min 8 max 4",
            "rht: line 1: options do not agree\n",
        ),
        (
            "table single seed 1 seed 1",
            "rht: line 1: options do not agree\n",
        ),
    ];
    for (script, line) in cases {
        for form in ["run", "replay"] {
            let bytes = script.as_bytes().to_vec(alloc)?;
            assert_refused(&rt, alloc, form, bytes, line)?;
        }
    }
    // A comment of 257 bytes, a word that is no text, and a byte more than a script may have.
    let mut long = "table single\n".as_bytes().to_vec(alloc)?;
    long.extend_from_slice("#".repeat(alloc, 257)?.as_bytes())?;
    assert_refused(&rt, alloc, "run", long, "rht: line 2: line too long\n")?;
    let mut word = "table single\n1 ".as_bytes().to_vec(alloc)?;
    word.push(255)?;
    assert_refused(
        &rt,
        alloc,
        "replay",
        word,
        "rht: line 2: unknown or missing word\n",
    )?;
    let much = vec![in alloc; b'x'; 16_777_217]?;
    assert_refused(&rt, alloc, "run", much, "rht: line 1: script too long\n")
}
