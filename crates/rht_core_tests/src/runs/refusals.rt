//! What isn't begun, a walk that is, and binds that are refused.

use super::asked::Asked;
use super::{
    BOUND, FIND_5, assert_run, begins, bind, ends, enrolls, for_two, idles, replies, small, steps,
};
use rht_model::{Cursor, Reply};
use rht_policy::Low;
use rht_words::{Config, Op};
use std::test::Fail;

#[test]
fn a_walk_shows_what_is_bound(rt: HostRuntime) -> Result<(), Fail> {
    let walk = |from, limit| Asked::Walk { from, limit };
    let ended = |len| Reply::Walked { len, next: None };
    // The first table has the serial 0, and port 5 is in its bucket 5.
    let next = Some(Cursor {
        serial: 0,
        bucket: 6,
    });
    let rows = [
        enrolls(0),
        replies(walk(None, 8), ended(0)),
        replies(bind(5, 9), BOUND),
        replies(walk(None, 8), ended(1)),
        replies(walk(None, 1), Reply::Walked { len: 1, next }),
        replies(walk(next, 8), ended(0)),
    ];
    assert_run::<Low>(&rt, rt.alloc(), small(), &rows)
}

#[test]
fn only_enrolled_and_idle_callers_begin(rt: HostRuntime) -> Result<(), Fail> {
    assert_run::<Low>(
        &rt,
        rt.alloc(),
        for_two(),
        &[
            // Nobody has enrolled; then caller 0 has, then caller 1; a third one finds no room.
            begins(0, FIND_5),
            idles(0),
            enrolls(0),
            begins(1, FIND_5),
            idles(1),
            enrolls(1),
            begins(2, FIND_5),
            idles(2),
            enrolls(2),
            begins(3, FIND_5),
            idles(3),
            enrolls(3),
            begins(2, FIND_5),
            idles(2),
            begins(3, FIND_5),
            idles(3),
            // An idle caller has no operation. A busy one keeps the call that it has.
            idles(1),
            begins(1, FIND_5),
            begins(1, bind(5, 9)),
            steps(1, &[(Op::add(9, 1), 0)]),
            begins(1, bind(5, 9)),
            steps(1, &[(Op::load(0), 0)]),
        ],
    )
}

#[test]
fn full_tables_refuse(rt: HostRuntime) -> Result<(), Fail> {
    let config = Config {
        nodes: 1,
        ..small()
    };
    let no_node = [(Op::load(280), 0)];
    assert_run::<Low>(
        &rt,
        rt.alloc(),
        config,
        &[
            enrolls(0),
            replies(bind(5, 9), BOUND),
            begins(0, bind(6, 9)),
            ends(0, &no_node, bind(6, 9), Reply::NoNode),
        ],
    )?;
    // A table that may have at most 4 buckets may hold 2 * 4 ports.
    let config = Config {
        nodes: 16,
        max: 4,
        ..small()
    };
    assert_run::<Low>(
        &rt,
        rt.alloc(),
        config,
        &[
            enrolls(0),
            replies(bind(0, 9), BOUND),
            replies(bind(1, 9), BOUND),
            replies(bind(2, 9), BOUND),
            replies(bind(3, 9), BOUND),
            replies(bind(4, 9), BOUND),
            replies(bind(5, 9), BOUND),
            replies(bind(6, 9), BOUND),
            replies(bind(7, 9), BOUND),
            replies(bind(8, 9), Reply::TooBig { count: 8 }),
        ],
    )
}
