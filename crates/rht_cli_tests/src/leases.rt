//! Lease scripts, done by the program, with their texts by hand from the rules of the printed text.

use crate::asserts::{Case, Outside, USAGE, WHOLE, assert_cases, assert_left, run_on};
use std::test::Fail;

/// A lease script.
const LEASED: &str =
    "table single\n1 lease 80 1 10\n1 renew 80 1 5\n1 sweep 6\n1 cancel 80 1\n1 bind 81 2\n";

/// What is printed of it.
const TEXT: &str =
    "1: bound\n1: renewed\n1: swept 1 0\n1: nolease\n1: bound\nport 81: 2\nsize 64 keys 1\n";

#[test]
fn leases_are_granted_and_end(rt: HostRuntime) -> Result<(), Fail> {
    let cases: [Case; 12] = [
        (&["lease"], LEASED, 0, TEXT, ""),
        (
            &["lease"],
            "table single\n1 lease 80 1 10\n1 lease 81 1 20\n1 bind 82 1\n1 sweep 10\n1 renew 81 1 30\n1 sweep 25\n1 sweep 31\n1 find 82\n1 renew 80 1 40\n",
            0,
            "1: bound\n1: bound\n1: bound\n1: swept 0 0\n1: renewed\n1: swept 1 0\n1: swept 1 0\n1: found 1\n1: nolease\nport 82: 1\nsize 64 keys 1\n",
            "",
        ),
        // The binding is another owner's when its lease ends.
        (
            &["lease"],
            "table single\n1 lease 80 1 10\n1 release 80 1\n1 bind 80 2\n1 sweep 11\n1 find 80\n",
            0,
            "1: bound\n1: released\n1: bound\n1: swept 0 1\n1: found 2\nport 80: 2\nsize 64 keys 1\n",
            "",
        ),
        (
            &["lease"],
            "table listed form 2\n1 lease 3.80 1 7\n1 lease 3.80 2 9\n1 all 3.80\n1 count\n1 sweep 8\n1 rebind 3.80 2 5\n1 cancel 3.80 2\n",
            0,
            "1: bound\n1: bound\n1: list 2 1\n1: count 1\n1: swept 1 0\n1: rebound\n1: absent\nport 3.80: 5\nsize 64 keys 1\n",
            "",
        ),
        (
            &["lease"],
            "table single workers 16\n",
            0,
            "size 64 keys 0\n",
            "",
        ),
        // A command that lease scripts don't have, a line of a schedule, and a moment that is too great.
        (
            &["lease"],
            "table single\n1 lease 80 1 10\n1 walk\n",
            2,
            "",
            "rht: line 3: unknown or missing word\n",
        ),
        (
            &["lease"],
            "table single\nstep 1 1\n",
            2,
            "",
            "rht: line 2: unknown or missing word\n",
        ),
        (
            &["lease"],
            "table single\n1 sweep 18446744073709551616\n",
            2,
            "",
            "rht: line 2: number out of range\n",
        ),
        (
            &["lease"],
            "table single\n1 lease 80 1\n",
            2,
            "",
            "rht: line 2: unknown or missing word\n",
        ),
        // In another script there is no such command.
        (
            &["run"],
            LEASED,
            2,
            "",
            "rht: line 2: unknown or missing word\n",
        ),
        (&["lease", "x"], LEASED, 1, "", USAGE),
        (&["leases"], LEASED, 1, "", USAGE),
    ];
    assert_cases(&rt, rt.alloc(), &cases)
}

#[test]
fn what_was_leased_is_written_or_not(rt: HostRuntime) -> Result<(), Fail> {
    // The take that fails, the put, and what is left then: the whole text is one put.
    let cases = [
        (1, 0, 3, "", "rht: read failed\n"),
        (0, 1, 4, "", "rht: write failed\n"),
        (0, 2, 0, TEXT, ""),
    ];
    for (take, put, status, out, err) in cases {
        let outside = Outside { take, put, ..WHOLE };
        let left = run_on(&rt, rt.alloc(), &["lease"], LEASED, outside)?;
        assert_left(&rt, &left, status, out, err, out);
    }
    Ok(())
}
