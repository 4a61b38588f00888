//! Retired tables, which a resizing gives back once nobody can read them. The first table of 4 buckets is in
//! slot 0, whose shape is at 24, its state at 28, and the words that are kept for the callers 0 and 1 at
//! 32 and 33. It has page 0.

use super::asked::Asked;
use super::{BOUND, FIND_5, assert_run, begins, bind, enrolls, finishes, for_two, replies, steps};
use rht_model::Reply;
use rht_policy::Low;
use rht_words::{Config, Op};
use std::test::Fail;

/// The states of the slots from slot 1 on: there is a table in it, and no other one.
fn later_slots() -> [(Op, u64); 7] {
    [
        (Op::load(60), 1),
        (Op::load(92), 0),
        (Op::load(124), 0),
        (Op::load(156), 0),
        (Op::load(188), 0),
        (Op::load(220), 0),
        (Op::load(252), 0),
    ]
}

/// Caller 1 stands in the first table, and its look-up goes on to the second one, which came meanwhile.
/// Until it has ended the first table stays.
#[test]
fn a_table_waits_for_a_look_up(rt: HostRuntime) -> Result<(), Fail> {
    let config = Config {
        min: 4,
        hint: 3,
        ..for_two()
    };
    let found = Reply::Found { owner: 3 };
    let taken = [(Op::exchange(1, 0, 1), 0), (Op::load(28), 2)];
    // Caller 0 had opened and closed its section four times in binds, and once in its resizing.
    let kept = [(Op::load(32), 10), (Op::load(33), 1)];
    let returned = [
        (Op::load(9), 2),
        (Op::load(24), 2),
        (Op::or(281, 1), 12),
        (Op::store(28, 0), 2),
    ];
    assert_run::<Low>(
        &rt,
        rt.alloc(),
        config,
        &[
            enrolls(0),
            enrolls(1),
            replies(bind(0, 1), BOUND),
            replies(bind(1, 2), BOUND),
            replies(bind(5, 3), BOUND),
            replies(bind(6, 4), Reply::Bound { kick: true }),
            begins(1, FIND_5),
            steps(1, &[(Op::add(9, 1), 0), (Op::load(0), 0)]),
            replies(Asked::Work, Reply::Moved { again: false }),
            begins(0, Asked::Work),
            steps(0, &taken),
            steps(0, &kept),
            steps(0, &[(Op::load(9), 1)]),
            steps(0, &later_slots()),
            steps(0, &[(Op::add(8, 1), 10)]),
            finishes(0, Asked::Work, Reply::Idle),
            finishes(1, FIND_5, found),
            begins(0, Asked::Work),
            steps(0, &taken),
            steps(0, &kept),
            steps(0, &returned),
            steps(0, &later_slots()),
            steps(0, &[(Op::add(8, 1), 12), (Op::load(0), 1)]),
            finishes(0, Asked::Work, Reply::Idle),
            begins(0, FIND_5),
            finishes(0, FIND_5, found),
        ],
    )
}
