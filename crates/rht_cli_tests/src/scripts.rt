//! Scripts that are served, refused or replayed, with their texts by hand from the rules of the printed text.

use crate::asserts::{Case, SCRIPT, USAGE, assert_cases, assert_same, strings};
use rht_forms::laws::complete;
use rht_io::NoGate;
use std::test::Fail;

const NO_TABLE_LINE: &str = "rht: line 1: no table line\n";

#[test]
fn scripts_are_served_and_others_refused(rt: HostRuntime) -> Result<(), Fail> {
    let cases: [Case; 31] = [
        (&["run"], "table single\n", 0, "size 64 keys 0\n", ""),
        (
            &["run"],
            SCRIPT,
            0,
            "1: bound\n1: found 100\n1: released\n1: missing\nsize 64 keys 0\n",
            "",
        ),
        (
            &["run"],
            "table single\n1 bind 4294967295 8\n1 bind 0 7\n",
            0,
            "1: bound\n1: bound\nport 0: 7\nport 4294967295: 8\nsize 64 keys 2\n",
            "",
        ),
        (
            &["run"],
            "table single\n1 bind 80 100\n1 bind 80 7\n1 release 80 7\n1 find 080\n",
            0,
            "1: bound\n1: exists 100\n1: absent\n1: found 100\nport 80: 100\nsize 64 keys 1\n",
            "",
        ),
        // Ports 5, 69 and 133 are in one bucket, of which one leaves from between the others and one
        // comes again; 6 is in another. Nothing of that shows, whichever hash is named.
        (
            &["run"],
            "table single hash low\n1 bind 5 1\n1 bind 69 2\n1 bind 133 3\n1 bind 6 4\n1 release 69 2\n1 find 69\n1 find 5\n1 bind 69 7\n1 find 133\n1 release 5 2\n",
            0,
            "1: bound\n1: bound\n1: bound\n1: bound\n1: released\n1: missing\n1: found 1\n1: bound\n1: found 3\n1: absent\nport 5: 1\nport 6: 4\nport 69: 7\nport 133: 3\nsize 64 keys 4\n",
            "",
        ),
        (
            &["run"],
            "table single hash mix seed 7 min 4 hint 1\n1 bind 5 1\n1 bind 69 2\n1 find 69\n1 bind 5 3\n",
            0,
            "1: bound\n1: bound\n1: found 2\n1: exists 1\nport 5: 1\nport 69: 2\nsize 4 keys 2\n",
            "",
        ),
        // The words of owners: who has a port alone gives it away, and a list has its last owner first.
        (
            &["run"],
            "table single\n1 bind 80 1\n1 rebind 80 2 3\n1 rebind 80 1 3\n1 all 80\n1 all 81\n1 count\n",
            0,
            "1: bound\n1: absent\n1: rebound\n1: list 3\n1: list\n1: count 1\nport 80: 3\nsize 64 keys 1\n",
            "",
        ),
        (
            &["run"],
            "table listed\n1 bind 80 1\n1 bind 80 2\n1 bind 80 3\n1 all 80\n1 release 80 2\n1 find 80\n1 all 81\n",
            0,
            "1: bound\n1: bound\n1: bound\n1: list 3 2 1\n1: released\n1: found 3\n1: list\nport 80: 3 1\nsize 64 keys 1\n",
            "",
        ),
        // Refusals: a table of at most 4 buckets holds 8 ports, all of them in 4 buckets; and of 1 node
        // none is left while a port is bound. Once that was released, a bind tidies and has the node; where
        // a command tidies before, there is nothing left to do.
        (
            &["run"],
            "table single max 4 hash low\n1 bind 0 9\n1 bind 1 9\n1 bind 2 9\n1 bind 3 9\n1 bind 4 9\n1 bind 5 9\n1 bind 6 9\n1 bind 7 9\n1 bind 8 9\n",
            0,
            "1: bound\n1: bound\n1: bound\n1: bound\n1: bound\n1: bound\n1: bound\n1: bound\n1: toobig 8\nport 0: 9\nport 1: 9\nport 2: 9\nport 3: 9\nport 4: 9\nport 5: 9\nport 6: 9\nport 7: 9\nsize 4 keys 8\n",
            "",
        ),
        (
            &["run"],
            "table single nodes 1\n1 bind 80 1\n1 bind 81 1\n1 release 80 1\n1 bind 81 1\n",
            0,
            "1: bound\n1: nonode\n1: released\n1: bound\nport 81: 1\nsize 64 keys 1\n",
            "",
        ),
        (
            &["run"],
            "table single nodes 1\n1 bind 80 1\n1 bind 81 2\n1 release 80 1\n1 tidy\n1 bind 81 2\n",
            0,
            "1: bound\n1: nonode\n1: released\n1: clear 1\n1: bound\nport 81: 2\nsize 64 keys 1\n",
            "",
        ),
        // The options, comments, blank lines, blanks between words, and a last line that the end of
        // the input cuts. 96 * 4 / 3 = 128; 129 is rounded up to 256.
        (
            &["run"],
            "table single hint 96\n",
            0,
            "size 128 keys 0\n",
            "",
        ),
        (&["run"], "table single min 129", 0, "size 256 keys 0\n", ""),
        (
            &["run"],
            "# caf\u{e9}\n\ntable\tsingle hint 3 min 3\r\n 1 bind 9 7 \r\n# b\n1\t find 9",
            0,
            "1: bound\n1: found 7\nport 9: 7\nsize 4 keys 1\n",
            "",
        ),
        // Each cause, on the line that is at fault.
        (&["run"], "", 2, "", NO_TABLE_LINE),
        (&["run"], "1 find 80\n", 2, "", NO_TABLE_LINE),
        (
            &["run"],
            "table single most 4\n",
            2,
            "",
            "rht: line 1: unknown or missing word\n",
        ),
        (
            &["run"],
            "table single\n1 bind 80",
            2,
            "",
            "rht: line 2: unknown or missing word\n",
        ),
        (
            &["run"],
            "table single\n\n1 find x\n",
            2,
            "",
            "rht: line 3: bad number\n",
        ),
        (
            &["run"],
            "table single\n1 bind 0 7\n1 bind 4294967295 8\n1 find 4294967296\n",
            2,
            "",
            "rht: line 4: number out of range\n",
        ),
        (
            &["run"],
            "table single\n2 find 1\n",
            2,
            "",
            "rht: line 2: number out of range\n",
        ),
        (
            &["run"],
            "table single pages 4 hint 300\n",
            2,
            "",
            "rht: line 1: options do not agree\n",
        ),
        (&["run", "x"], "table single\n", 1, "", USAGE),
        (&["gen"], "table single\n", 1, "", USAGE),
        (&["gen", "-1"], "table single\n", 1, "", USAGE),
        (&["run", "--"], "table single\n", 1, "", USAGE),
        (&["replay", "x"], "table single\n", 1, "", USAGE),
        // The number of `gen` has 1 to 10 digits, and 32 bits.
        (&["gen", "4294967296"], "table single\n", 1, "", USAGE),
        (&["gen", "00000000007"], "table single\n", 1, "", USAGE),
        (&["gen", "7", "7"], "table single\n", 1, "", USAGE),
        (&[], "table single\n", 1, "", USAGE),
    ];
    assert_cases(&rt, rt.alloc(), &cases)
}

#[test]
fn schedules_are_replayed(rt: HostRuntime) -> Result<(), Fail> {
    let cases = [
        // The worker has no command, and its events do nothing. One too many has the limit in its place.
        ("table single\nstep 1 1000000\n", "size 64 keys 0\n"),
        (
            "table single\nstep 1 1000000\nstep 1 1\n",
            "limit\nsize 64 keys 0\n",
        ),
        // Worker 1 has the lock of resizing while worker 2 tries.
        (
            "table single workers 2\n1 work\n2 work\nskip 1 1\nfinish 2 1\nfinish 1 1\n",
            "2: elsewhere\n1: idle\nsize 64 keys 0\n",
        ),
        // The node map of 8 nodes is at 280, node 0 from 282 on, and the pages from 314 on; port 5 has
        // bucket 5, which is at 319 and has the marker 2 * 319 + 1.
        (
            "table single nodes 8 pages 4 workers 2 hash low\n1 bind 5 9\n2 find 5\nstep 1 17\nstep 2 8\n",
            "1 load 280 255\n1 and 280 18446744073709551614 255\n1 store 283 5\n1 store 284 9\n1 store 285 0\n1 add 8 1 0\n1 load 0 0\n1 load 24 6\n1 load 25 1\n1 load 319 0\n1 cas 319 0 1 0\n1 load 26 0\n1 load 2 0\n1 store 282 639\n1 add 2 1 0\n1 store 319 2\n1 add 8 1 1\n1: bound\n2 add 9 1 0\n2 load 0 0\n2 load 24 6\n2 load 25 1\n2 load 319 2\n2 load 283 5\n2 load 284 9\n2 add 9 1 1\n2: found 9\nport 5: 9\nsize 64 keys 1\n",
        ),
        // Worker 1 opens its section, reads the current table and its shape, and stops. The node of port 80
        // doesn't come back until it has ended its look-up. In a replay a bind doesn't tidy by itself.
        (
            "table single nodes 1 workers 2\n2 bind 80 1\n2 release 80 1\n2 tidy\n2 bind 81 2\n2 tidy\n2 bind 81 2\n1 find 80\nfinish 2 1\nskip 1 3\nfinish 2 3\nfinish 1 1\nfinish 2 2\n",
            "2: bound\n2: released\n2: pending 0 1\n2: nonode\n1: missing\n2: clear 1\n2: bound\nport 81: 2\nsize 64 keys 1\n",
        ),
        // A worker that is in a call at the end is named.
        (
            "table single workers 2\n1 bind 5 9\n2 find 5\nskip 1 1\nfinish 2 1\n",
            "2: missing\nopen 1\nsize 64\n",
        ),
    ];
    for (script, text) in cases {
        assert_cases(&rt, rt.alloc(), &[(&["replay"], script, 0, text, "")])?;
    }
    Ok(())
}

#[test]
fn where_nothing_outside_can_fail(rt: HostRuntime) -> Result<(), Fail> {
    let cases: [(&[&str], &str, u8); 15] = [
        (&["run"], SCRIPT, 0),
        (
            &["deal"],
            "table single workers 2\nany find 80\nany bind 80 1\n",
            0,
        ),
        (&["deal"], SCRIPT, 2),
        (&["deal", "7"], SCRIPT, 1),
        (&["check"], SCRIPT, 2),
        (&["check"], "table single\nhistory\n", 0),
        (&["check", "7"], "table single\nhistory\n", 1),
        (&["run"], "", 2),
        (&["run"], "table single\n1 bind 80", 2),
        (&["replay"], SCRIPT, 0),
        (&["replay"], "", 2),
        (&["replay", "x"], SCRIPT, 1),
        (&["gen", "7"], "", 0),
        (&["gen"], SCRIPT, 1),
        (&[], SCRIPT, 1),
    ];
    for (words, script, status) in cases {
        let list = strings(rt.alloc(), words)?;
        let bytes = script.as_bytes().to_vec(rt.alloc())?;
        let left = complete(&rt, rt.alloc(), &list, bytes, &NoGate);
        assert_same(&rt, (words, script, left), (words, script, status));
    }
    Ok(())
}
