//! Resume scripts, done by the program, with their texts by hand from the rules of the printed text.

use crate::asserts::{Case, USAGE, assert_cases};
use std::test::Fail;

/// A resume script: bucket 0 has two ports, of which the first piece shows one.
const RESUMED: &str =
    "table single hash low\n1 bind 0 10\n1 bind 64 20\n1 bind 1 11\n1 next 1\n1 next 1\n1 next 5\n1 next 5\n";

#[test]
fn walks_come_in_pieces(rt: HostRuntime) -> Result<(), Fail> {
    let cases: [Case; 8] = [
        (
            &["resume"],
            RESUMED,
            0,
            "1: bound\n1: bound\n1: bound\n1: next 64=20 more\n1: next 0=10 more\n1: next 1=11 end\n1: next 64=20 0=10 1=11 end\nport 0: 10\nport 1: 11\nport 64: 20\nsize 64 keys 3\n",
            "",
        ),
        // The sixth port has led to a second table, which the work makes the current one.
        (
            &["resume"],
            "table single hint 1 hash low work manual\n1 bind 0 10\n1 bind 1 11\n1 bind 2 12\n1 bind 3 13\n1 bind 4 14\n1 bind 5 15\n1 next 2\n1 next 9\n1 work\n1 next 9\n",
            0,
            "1: bound\n1: bound\n1: bound\n1: bound\n1: bound\n1: bound\n1: next 4=14 0=10 more\n1: next again 1\n1: moved\n1: next 0=10 1=11 2=12 3=13 4=14 5=15 end\nport 0: 10\nport 1: 11\nport 2: 12\nport 3: 13\nport 4: 14\nport 5: 15\nsize 8 keys 6\n",
            "",
        ),
        // A piece of no pairs, a line of a schedule, and a piece of more pairs than there are nodes.
        (
            &["resume"],
            "table single\n1 next 0\n",
            2,
            "",
            "rht: line 2: number out of range\n",
        ),
        (
            &["resume"],
            "table single\nstep 1 1\n",
            2,
            "",
            "rht: line 2: unknown or missing word\n",
        ),
        (
            &["resume"],
            "table single nodes 8\n1 next 9\n",
            2,
            "",
            "rht: line 2: number out of range\n",
        ),
        // In another script there is no such command.
        (
            &["run"],
            RESUMED,
            2,
            "",
            "rht: line 5: unknown or missing word\n",
        ),
        (&["resume", "x"], RESUMED, 1, "", USAGE),
        (&["resumes"], RESUMED, 1, "", USAGE),
    ];
    assert_cases(&rt, rt.alloc(), &cases)
}
