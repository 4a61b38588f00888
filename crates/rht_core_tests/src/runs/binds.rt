//! Binds, look-ups, releases and counts in a table of one owner for each port.

use super::asked::Asked;
use super::{
    BOUND, FIND_5, NET_3_PORT_5, RELEASED, assert_run, begins, bind, ends, enrolls, filled,
    for_two, linked, located, opened, release, replies, small, steps,
};
use rht_model::Reply;
use rht_policy::{Lookup3, Low};
use rht_words::{Config, Hash, Op};
use std::test::Fail;

#[test]
fn one_bind_and_one_find(rt: HostRuntime) -> Result<(), Fail> {
    let locked = [(Op::load(319), 0), (Op::exchange(319, 0, 1), 0)];
    // The look-up closes its section once it has loaded the owner.
    let found = [
        (Op::load(319), 2),
        (Op::load(283), 5),
        (Op::load(284), 9),
        (Op::add(8, 1), 3),
    ];
    assert_run::<Low>(
        &rt,
        rt.alloc(),
        small(),
        &[
            enrolls(0),
            begins(0, bind(5, 9)),
            steps(0, &filled(255, 0, 5, 9)),
            steps(0, &opened(0, 0)),
            steps(0, &located(1)),
            steps(0, &locked),
            ends(0, &linked(), bind(5, 9), BOUND),
            begins(0, FIND_5),
            steps(0, &opened(0, 2)),
            steps(0, &located(1)),
            ends(0, &found, FIND_5, Reply::Found { owner: 9 }),
        ],
    )
}

#[test]
fn releases_and_counts(rt: HostRuntime) -> Result<(), Fail> {
    let absent = Reply::Absent;
    let found = Reply::Found { owner: 7 };
    assert_run::<Low>(
        &rt,
        rt.alloc(),
        small(),
        &[
            enrolls(0),
            replies(Asked::Count, Reply::Counted { count: 0 }),
            replies(release(5, 9), absent),
            replies(bind(5, 9), BOUND),
            replies(bind(69, 7), BOUND),
            begins(0, Asked::Count),
            ends(
                0,
                &[(Op::load(2), 2)],
                Asked::Count,
                Reply::Counted { count: 2 },
            ),
            replies(release(5, 7), absent),
            replies(release(6, 9), absent),
            replies(release(5, 9), RELEASED),
            replies(release(5, 9), absent),
            replies(FIND_5, Reply::Missing),
            replies(Asked::Find { port: 69 }, found),
            replies(Asked::Count, Reply::Counted { count: 1 }),
            replies(bind(5, 3), BOUND),
            replies(release(69, 7), RELEASED),
            replies(release(5, 3), RELEASED),
            replies(Asked::Count, Reply::Counted { count: 0 }),
        ],
    )
}

#[test]
fn two_callers_at_one_bucket(rt: HostRuntime) -> Result<(), Fail> {
    let waits = [
        (Op::exchange(319, 0, 1), 1),
        (Op::load(319), 1),
        (Op::load(319), 1),
    ];
    let linked_before = [
        (Op::load(319), 2),
        (Op::exchange(319, 2, 3), 2),
        (Op::load(283), 5),
        (Op::load(282), 639),
        (Op::load(26), 0),
        (Op::load(2), 1),
        (Op::store(286, 2), 0),
        (Op::add(2, 1), 1),
        (Op::store(319, 4), 3),
        (Op::add(9, 1), 1),
    ];
    let exists = [
        (Op::load(319), 4),
        (Op::exchange(319, 4, 5), 4),
        (Op::load(287), 69),
        (Op::load(286), 2),
        (Op::load(283), 5),
        (Op::load(284), 9),
        (Op::store(319, 4), 5),
        (Op::add(8, 1), 3),
        (Op::or(280, 4), 248),
    ];
    assert_run::<Low>(
        &rt,
        rt.alloc(),
        for_two(),
        &[
            enrolls(0),
            enrolls(1),
            begins(0, bind(5, 9)),
            steps(0, &filled(255, 0, 5, 9)),
            steps(0, &opened(0, 0)),
            steps(0, &located(1)),
            steps(0, &[(Op::load(319), 0)]),
            // Port 69 has bucket 69 - 64 too.
            begins(1, bind(69, 7)),
            steps(1, &filled(254, 1, 69, 7)),
            steps(1, &opened(1, 0)),
            steps(1, &located(1)),
            steps(1, &[(Op::load(319), 0)]),
            // Both found the bucket unlocked. Caller 0 locks it, and caller 1 waits.
            steps(0, &[(Op::exchange(319, 0, 1), 0)]),
            steps(1, &waits),
            ends(0, &linked(), bind(5, 9), BOUND),
            ends(1, &linked_before, bind(69, 7), BOUND),
            // The chain is node 1, then node 0. A third node is taken and given back.
            begins(0, bind(5, 3)),
            steps(0, &filled(252, 2, 5, 3)),
            steps(0, &opened(0, 2)),
            steps(0, &located(1)),
            ends(0, &exists, bind(5, 3), Reply::Exists { owner: 9 }),
        ],
    )
}

/// Port 5 of net 3 has the bucket of port 5 too, and another key word: both are in the chain.
#[test]
fn two_ports_with_one_number(rt: HostRuntime) -> Result<(), Fail> {
    let find_net_3 = Asked::Find { port: NET_3_PORT_5 };
    let linked_before = [
        (Op::load(319), 2),
        (Op::exchange(319, 2, 3), 2),
        (Op::load(283), 5),
        (Op::load(282), 639),
        (Op::load(26), 0),
        (Op::load(2), 1),
        (Op::store(286, 2), 0),
        (Op::add(2, 1), 1),
        (Op::store(319, 4), 3),
        (Op::add(8, 1), 3),
    ];
    let found_second = [
        (Op::load(319), 4),
        (Op::load(287), NET_3_PORT_5),
        (Op::load(286), 2),
        (Op::load(283), 5),
        (Op::load(284), 9),
        (Op::add(8, 1), 5),
    ];
    let found_first = [
        (Op::load(319), 4),
        (Op::load(287), NET_3_PORT_5),
        (Op::load(288), 7),
        (Op::add(8, 1), 7),
    ];
    assert_run::<Low>(
        &rt,
        rt.alloc(),
        small(),
        &[
            enrolls(0),
            replies(bind(5, 9), BOUND),
            begins(0, bind(NET_3_PORT_5, 7)),
            steps(0, &filled(254, 1, NET_3_PORT_5, 7)),
            steps(0, &opened(0, 2)),
            steps(0, &located(1)),
            ends(0, &linked_before, bind(NET_3_PORT_5, 7), BOUND),
            begins(0, FIND_5),
            steps(0, &opened(0, 4)),
            steps(0, &located(1)),
            ends(0, &found_second, FIND_5, Reply::Found { owner: 9 }),
            begins(0, find_net_3),
            steps(0, &opened(0, 6)),
            steps(0, &located(1)),
            ends(0, &found_first, find_net_3, Reply::Found { owner: 7 }),
            replies(bind(NET_3_PORT_5, 3), Reply::Exists { owner: 7 }),
            replies(release(NET_3_PORT_5, 9), Reply::Absent),
            replies(release(5, 9), RELEASED),
            replies(FIND_5, Reply::Missing),
            replies(find_net_3, Reply::Found { owner: 7 }),
        ],
    )
}

#[test]
fn a_table_with_the_mixed_hash(rt: HostRuntime) -> Result<(), Fail> {
    let config = Config {
        hash: Hash::Mix,
        seed: 0,
        ..small()
    };
    // The published mix of port 1 with the seed 0 is 0x40f3f2be, which is 62 modulo 64: the bucket
    // is at 314 + 62 = 376.
    let found = [
        (Op::load(376), 2),
        (Op::load(283), 1),
        (Op::load(284), 8),
        (Op::add(8, 1), 3),
    ];
    let find = Asked::Find { port: 1 };
    assert_run::<Lookup3>(
        &rt,
        rt.alloc(),
        config,
        &[
            enrolls(0),
            replies(bind(1, 8), BOUND),
            begins(0, find),
            steps(0, &opened(0, 2)),
            steps(0, &located(0)),
            ends(0, &found, find, Reply::Found { owner: 8 }),
            replies(bind(5, 9), BOUND),
            replies(bind(69, 7), BOUND),
            replies(bind(5, 3), Reply::Exists { owner: 9 }),
            replies(FIND_5, Reply::Found { owner: 9 }),
            replies(Asked::Find { port: 69 }, Reply::Found { owner: 7 }),
            replies(Asked::Find { port: 6 }, Reply::Missing),
        ],
    )
}
