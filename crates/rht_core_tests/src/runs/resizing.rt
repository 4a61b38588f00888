//! Tables that are attached, and resizings that move entries.

use super::asked::Asked;
use super::{
    BOUND, FIND_5, RELEASED, assert_run, assert_same, begins, bind, ends, enrolls, filled,
    finishes, for_two, opened, release, replies, reply_to, small, steps,
};
use rht_core::{Event, State};
use rht_model::Reply;
use rht_policy::Low;
use rht_words::{Config, Op};
use std::process::Abort;
use std::test::Fail;

#[test]
fn a_table_is_resized(rt: HostRuntime) -> Result<(), Fail> {
    let config = Config {
        min: 4,
        hint: 3,
        ..small()
    };
    let grows = Reply::Bound { kick: true };
    assert_run::<Low>(
        &rt,
        rt.alloc(),
        config,
        &[
            enrolls(0),
            replies(Asked::Work, Reply::Idle),
            replies(bind(0, 1), BOUND),
            replies(bind(1, 2), BOUND),
            replies(bind(5, 3), BOUND),
            replies(Asked::Work, Reply::Idle),
            // The fourth port is more than three quarters of 4 buckets.
            replies(bind(8, 4), grows),
            replies(Asked::Work, Reply::Moved { again: false }),
            replies(Asked::Work, Reply::Idle),
            replies(FIND_5, Reply::Found { owner: 3 }),
            replies(release(8, 4), RELEASED),
            replies(bind(69, 5), BOUND),
            replies(Asked::Count, Reply::Counted { count: 4 }),
        ],
    )
}

/// A table of 4 buckets, 314 to 317, gets a fifth port into a bucket that it has locked, while one of
/// 8 is attached behind it. Who binds the same port later has to come through that bucket first.
#[test]
fn two_binds_of_a_port_across_an_attach(rt: HostRuntime) -> Result<(), Fail> {
    let config = Config {
        min: 4,
        hint: 3,
        ..for_two()
    };
    let grows = Reply::Bound { kick: true };
    let mine = bind(8, 41);
    let other = bind(8, 40);
    let shape_and_seed = [(Op::load(24), 2), (Op::load(25), 1)];
    assert_run::<Low>(
        &rt,
        rt.alloc(),
        config,
        &[
            enrolls(0),
            enrolls(1),
            replies(bind(0, 1), BOUND),
            replies(bind(1, 2), BOUND),
            replies(bind(5, 3), BOUND),
            replies(bind(6, 4), grows),
            begins(1, mine),
            steps(1, &filled(240, 4, 8, 41)),
            steps(1, &opened(1, 0)),
            steps(1, &shape_and_seed),
            steps(
                1,
                &[
                    (Op::load(314), 2),
                    (Op::exchange(314, 2, 3), 2),
                    (Op::load(283), 0),
                    (Op::load(282), 629),
                    (Op::load(26), 0),
                    (Op::load(2), 4),
                ],
            ),
            // The fifth port goes into the table of 4, and the sixth attaches one of 8.
            replies(bind(7, 5), grows),
            replies(bind(69, 6), grows),
            begins(0, other),
            steps(0, &filled(128, 7, 8, 40)),
            // Six binds have opened and closed this section before, the last of them twice.
            steps(0, &opened(0, 14)),
            steps(0, &shape_and_seed),
            steps(0, &[(Op::load(314), 3), (Op::load(314), 3)]),
            ends(
                1,
                &[
                    (Op::store(298, 2), 0),
                    (Op::add(2, 1), 6),
                    (Op::store(314, 10), 3),
                    (Op::add(9, 1), 1),
                ],
                mine,
                grows,
            ),
            ends(
                0,
                &[
                    (Op::load(314), 10),
                    (Op::exchange(314, 10, 11), 10),
                    (Op::load(299), 8),
                    (Op::load(300), 41),
                    (Op::store(314, 10), 11),
                    (Op::add(8, 1), 15),
                    (Op::or(280, 128), 0),
                ],
                other,
                Reply::Exists { owner: 41 },
            ),
        ],
    )
}

/// The states of all slots, by which a worker sees that none has a retired table: there is one table, in
/// slot 0.
pub fn one_table() -> [(Op, u64); 8] {
    [
        (Op::load(28), 1),
        (Op::load(60), 0),
        (Op::load(92), 0),
        (Op::load(124), 0),
        (Op::load(156), 0),
        (Op::load(188), 0),
        (Op::load(220), 0),
        (Op::load(252), 0),
    ]
}

/// The worker, caller 1, opens its section, the word of which was this, and finds four ports in the only table,
/// which has 4 buckets.
pub fn counted(section: u64) -> [(Op, u64); 5] {
    [
        (Op::add(9, 1), section),
        (Op::load(0), 0),
        (Op::load(26), 0),
        (Op::load(24), 2),
        (Op::load(2), 4),
    ]
}

/// So it makes a table of 8 buckets in slot 1, with page 1, and attaches it.
pub fn made() -> [(Op, u64); 11] {
    [
        (Op::exchange(28, 0, 1), 1),
        (Op::exchange(60, 0, 1), 0),
        (Op::load(281), 14),
        (Op::load(281), 14),
        (Op::and(281, !2), 14),
        (Op::add(3, 1), 1),
        (Op::store(56, 1027), 0),
        (Op::store(57, 2), 0),
        (Op::store(58, 0), 0),
        (Op::store(59, 1), 0),
        (Op::exchange(26, 0, 2), 0),
    ]
}

/// In a table of 16 nodes it moves port 0, in node 0, from its bucket at 346 into the one at 410.
pub fn first_moved() -> [(Op, u64); 16] {
    [
        (Op::load(26), 2),
        (Op::load(24), 2),
        (Op::load(346), 2),
        (Op::exchange(346, 2, 3), 2),
        (Op::load(26), 2),
        (Op::load(58), 0),
        (Op::load(56), 1027),
        (Op::load(57), 2),
        (Op::load(346), 3),
        (Op::load(282), 693),
        (Op::load(283), 0),
        (Op::load(410), 0),
        (Op::exchange(410, 0, 1), 0),
        (Op::store(282, 821), 693),
        (Op::store(410, 2), 1),
        (Op::store(346, 1), 3),
    ]
}

/// With 16 nodes the pages begin at 346. The worker moves the table of 4 buckets, 346 to 349, to one
/// of 8, 410 to 417. Once it has moved an entry a bind attaches one of 16, from 474 on, and the next
/// entry goes there.
#[test]
fn a_mover_is_overtaken_by_an_attach(rt: HostRuntime) -> Result<(), Fail> {
    let config = Config {
        nodes: 16,
        min: 4,
        hint: 3,
        ..for_two()
    };
    let grows = Reply::Bound { kick: true };
    let emptied = [
        (Op::load(26), 2),
        (Op::load(58), 3),
        (Op::load(90), 0),
        (Op::load(88), 2052),
        (Op::load(89), 3),
        (Op::load(346), 1),
        (Op::store(346, 0), 1),
    ];
    let second_moved = [
        (Op::load(347), 6),
        (Op::exchange(347, 6, 7), 6),
        (Op::load(26), 2),
        (Op::load(58), 3),
        (Op::load(90), 0),
        (Op::load(88), 2052),
        (Op::load(89), 3),
        (Op::load(347), 7),
        (Op::load(290), 4),
        (Op::load(286), 695),
        (Op::load(287), 1),
        (Op::load(475), 0),
        (Op::exchange(475, 0, 1), 0),
        (Op::store(286, 951), 695),
        (Op::store(475, 4), 1),
        (Op::store(290, 695), 4),
    ];
    assert_run::<Low>(
        &rt,
        rt.alloc(),
        config,
        &[
            enrolls(0),
            enrolls(1),
            replies(bind(0, 1), BOUND),
            replies(bind(1, 2), BOUND),
            replies(bind(5, 3), BOUND),
            replies(bind(6, 4), grows),
            begins(1, Asked::Work),
            steps(1, &[(Op::exchange(1, 0, 1), 0)]),
            steps(1, &one_table()),
            steps(1, &counted(0)),
            steps(1, &made()),
            steps(1, &first_moved()),
            // These go into the table of 8 buckets, of which more than 6 are too many.
            replies(bind(7, 5), BOUND),
            replies(bind(69, 6), BOUND),
            replies(bind(9, 7), grows),
            replies(bind(10, 8), grows),
            replies(bind(11, 9), grows),
            // There are 9 ports: this one attaches the table of 16.
            replies(bind(13, 10), grows),
            steps(1, &emptied),
            steps(1, &second_moved),
            finishes(1, Asked::Work, Reply::Moved { again: true }),
            replies(FIND_5, Reply::Found { owner: 3 }),
            replies(Asked::Work, Reply::Moved { again: false }),
            replies(Asked::Work, Reply::Idle),
            replies(FIND_5, Reply::Found { owner: 3 }),
            replies(Asked::Count, Reply::Counted { count: 10 }),
        ],
    )
}

/// The first caller is given the call, which runs to this reply.
fn assert_replies(rt: &impl Abort, state: &mut State<Low>, asked: Asked, reply: Reply) {
    let found = reply_to(rt, state, 0, asked);
    assert_same(rt, (asked, found), (asked, Some(reply)));
}

/// Sixteen ports in one bucket of 64: a bind of a further one attaches a table, and a bind that tries
/// once is told of it.
#[test]
fn a_bind_that_tries_once_is_told_of_a_table(rt: HostRuntime) -> Result<(), Fail> {
    let config = Config {
        nodes: 32,
        ..small()
    };
    assert!(rt; config.is_settled());
    let mut state = State::<Low>::open(rt.alloc(), config)?;
    state.step(Event::Enroll);
    for i in 0..16 {
        assert_replies(&rt, &mut state, bind(64 * i, 1), BOUND);
    }
    let once = Asked::Bind {
        port: 1024,
        owner: 1,
        once: true,
    };
    assert_replies(&rt, &mut state, once, Reply::Again { table: 1 });
    assert_replies(&rt, &mut state, once, BOUND);
    Ok(())
}

#[test]
fn one_caller_works_at_a_time(rt: HostRuntime) -> Result<(), Fail> {
    let taken = [(Op::exchange(1, 0, 1), 1)];
    assert_run::<Low>(
        &rt,
        rt.alloc(),
        for_two(),
        &[
            enrolls(0),
            enrolls(1),
            begins(0, Asked::Work),
            begins(1, Asked::Work),
            steps(0, &[(Op::exchange(1, 0, 1), 0), (Op::load(28), 1)]),
            ends(1, &taken, Asked::Work, Reply::Elsewhere),
        ],
    )
}
