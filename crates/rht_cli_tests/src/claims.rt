//! Claimed histories, judged by the program, with their texts by hand from the rules of verdicts.

use crate::asserts::{Case, Outside, USAGE, WHOLE, assert_cases, assert_left, run_on};
use std::test::Fail;

/// A history that is accepted.
const LEGAL: &str =
    "table single workers 2\n1 bind 80 100\n1 find 80\n2 bind 80 7\nhistory\n1: bound\n2: exists 100\n1: found 100\n";

/// What is printed of it.
const ACCEPTED: &str = "legal\nport 80: 100\nkeys 1\n";

#[test]
fn claims_are_judged(rt: HostRuntime) -> Result<(), Fail> {
    let cases: [Case; 10] = [
        (&["check"], LEGAL, 0, ACCEPTED, ""),
        // Worker 2's bind of a port that has an owner is said to have succeeded.
        (
            &["check"],
            "table single workers 2\n1 bind 80 100\n1 find 80\n2 bind 80 7\nhistory\n1: bound\n2: bound\n1: found 100\n",
            0,
            "claim 2: wrong\n",
            "",
        ),
        (
            &["check"],
            "table single workers 2\n1 bind 80 100\n1 find 80\n2 bind 80 7\nhistory\n1: bound\n2: exists 100\n",
            0,
            "worker 1: unfinished\n",
            "",
        ),
        // A look-up has no refusal.
        (
            &["check"],
            "table single workers 2\n1 bind 80 100\n1 find 80\n2 bind 80 7\nhistory\n1: bound\n2: exists 100\n1: nonode\n",
            0,
            "claim 3: wrong\n",
            "",
        ),
        (
            &["check"],
            "table single workers 2\n1 bind 80 100\n1 find 80\n2 bind 80 7\nhistory\n1: bound\n2: exists 100\n1: found 100\n2: missing\n",
            0,
            "claim 4: extra\n",
            "",
        ),
        // Four lines, and the line `history` is missing behind them.
        (
            &["check"],
            "table single workers 2\n1 bind 80 100\n1 find 80\n2 bind 80 7\n",
            2,
            "",
            "rht: line 5: unknown or missing word\n",
        ),
        (
            &["check"],
            "table single\n1 find 80\nhistory\n: missing\n",
            2,
            "",
            "rht: line 4: bad number\n",
        ),
        // A script has no claims, and a claimed history is no script.
        (&["run"], LEGAL, 2, "", "rht: line 5: bad number\n"),
        (&["check", "x"], LEGAL, 1, "", USAGE),
        (&["checks"], LEGAL, 1, "", USAGE),
    ];
    assert_cases(&rt, rt.alloc(), &cases)
}

#[test]
fn a_verdict_is_read_and_written_or_not(rt: HostRuntime) -> Result<(), Fail> {
    // The take that fails, the put, and what is left then.
    let cases = [
        (1, 0, 3, "", "rht: read failed\n"),
        (0, 1, 4, "", "rht: write failed\n"),
        (0, 2, 4, "legal\n", "rht: write failed\n"),
        (0, 3, 4, "legal\nport 80: 100\n", "rht: write failed\n"),
        (0, 9, 0, ACCEPTED, ""),
    ];
    for (take, put, status, out, err) in cases {
        let outside = Outside { take, put, ..WHOLE };
        let left = run_on(&rt, rt.alloc(), &["check"], LEGAL, outside)?;
        assert_left(&rt, &left, status, out, err, out);
    }
    Ok(())
}
