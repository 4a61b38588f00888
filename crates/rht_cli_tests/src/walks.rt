//! Walks: what each script prints, by hand from the buckets of its ports, and from the operations of
//! each call where others act beside it.

use crate::asserts::{Case, assert_cases};
use std::test::Fail;

#[test]
fn walks_go_bucket_by_bucket(rt: HostRuntime) -> Result<(), Fail> {
    let cases: [Case; 3] = [
        // The sixth bind counts five ports in four buckets, and attaches a table of eight.
        (
            &["run"],
            "table single hint 1 hash low work manual\n1 bind 0 10\n1 bind 1 11\n1 bind 2 12\n1 bind 3 13\n1 bind 4 14\n1 bind 5 15\n1 walk\n1 work\n1 walk\n",
            0,
            "1: bound\n1: bound\n1: bound\n1: bound\n1: bound\n1: bound\n1: walk again 1\n1: moved\n1: walk 0=10 1=11 2=12 3=13 4=14 5=15 end\nport 0: 10\nport 1: 11\nport 2: 12\nport 3: 13\nport 4: 14\nport 5: 15\nsize 8 keys 6\n",
            "",
        ),
        // Bucket 1 has the ports 1 and 5, of which 5 was bound last, and port 1 has owner 4 before owner 2.
        (
            &["run"],
            "table listed hint 3 hash low\n1 walk\n1 bind 6 1\n1 bind 1 2\n1 bind 5 3\n1 bind 1 4\n1 walk\n",
            0,
            "1: walk end\n1: bound\n1: bound\n1: bound\n1: bound\n1: walk 5=3 1=4 6=1 end\nport 1: 4 2\nport 5: 3\nport 6: 1\nsize 4 keys 3\n",
            "",
        ),
        // There is one node, so a walk that has shown a port ends behind its bucket.
        (
            &["run"],
            "table single nodes 1 hint 3 hash low\n1 bind 1 11\n1 walk\n1 release 1 11\n1 bind 3 13\n1 walk\n",
            0,
            "1: bound\n1: walk 1=11 more\n1: released\n1: bound\n1: walk 3=13 end\nport 3: 13\nsize 4 keys 1\n",
            "",
        ),
    ];
    assert_cases(&rt, rt.alloc(), &cases)
}

#[test]
fn walks_stop_beside_others(rt: HostRuntime) -> Result<(), Fail> {
    let cases: [Case; 2] = [
        // Worker 1 has walked bucket 0 of 4 when worker 2 changes it, and bucket 2 behind it.
        (
            &["replay"],
            "table single nodes 8 pages 4 workers 2 hint 3 hash low\n2 bind 0 10\n2 bind 1 11\n2 bind 2 12\n1 walk\n2 release 0 10\n2 bind 4 14\n2 release 2 12\n2 bind 6 16\nfinish 2 3\nskip 1 8\nfinish 2 4\nfinish 1 1\n",
            0,
            "2: bound\n2: bound\n2: bound\n2: released\n2: bound\n2: released\n2: bound\n1: walk 0=10 1=11 6=16 end\nport 1: 11\nport 4: 14\nport 6: 16\nsize 4 keys 3\n",
            "",
        ),
        // Worker 1 has loaded the owner of port 4 when worker 2 moves that to another bucket of a table of 8.
        (
            &["replay"],
            "table single nodes 8 pages 4 workers 2 hint 3 hash low\n2 bind 0 10\n2 bind 1 11\n2 bind 2 12\n2 bind 4 14\n2 work\n1 walk\nfinish 2 4\nskip 1 7\nfinish 2 1\nstep 1 3\n",
            0,
            "2: bound\n2: bound\n2: bound\n2: bound kick\n2: moved\n1 load 294 765\n1 load 26 2\n1 add 8 1 1\n1: walk again 1\nport 0: 10\nport 1: 11\nport 2: 12\nport 4: 14\nsize 8 keys 4\n",
            "",
        ),
    ];
    assert_cases(&rt, rt.alloc(), &cases)
}
