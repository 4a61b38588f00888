//! Retired tables that a worker gives back, before it looks whether a table is due. The one of 8 buckets
//! is in slot 1 and in page 1, so its shape is 3 + 1024 * 1. The words that were kept for the callers 0
//! and 1 are at 64 and 65.

use super::{LET_GO, alone, assert_work, made, small};
use rht_model::Reply;
use rht_words::Op;

/// The work lock is taken, and slot 0 has a table.
const FIRST: [(Op, u64); 2] = [
    (
        Op::Exchange {
            place: 1,
            old: 0,
            new: 1,
        },
        0,
    ),
    (Op::Load { place: 28 }, 1),
];

/// The slots from this state on are free.
const FREE: [(Op, u64); 6] = [
    (Op::Load { place: 92 }, 0),
    (Op::Load { place: 124 }, 0),
    (Op::Load { place: 156 }, 0),
    (Op::Load { place: 188 }, 0),
    (Op::Load { place: 220 }, 0),
    (Op::Load { place: 252 }, 0),
];

/// No future, so nothing is to be moved.
const NO_FUTURE: [(Op, u64); 1] = [(Op::Load { place: 26 }, 0)];

/// The flat table's page is given, and then its slot. These pages were free.
fn given(map: u64) -> [(Op, u64); 3] {
    [
        (Op::load(56), 1_027),
        (Op::or(281, 2), map),
        (Op::store(60, 0), 2),
    ]
}

#[test]
fn a_table_comes_back_that_nobody_reads(rt: HostRuntime) {
    // Both callers were in no section.
    let even = [(Op::load(60), 2), (Op::load(64), 2), (Op::load(65), 4)];
    let steps: [&[(Op, u64)]; 7] = [
        &FIRST,
        &even,
        &given(12),
        &FREE,
        &alone(2, 3),
        &NO_FUTURE,
        &LET_GO,
    ];
    assert_work(&rt, small(false), &steps, Reply::Idle);
}

#[test]
fn a_table_comes_back_once_its_readers_have_left(rt: HostRuntime) {
    // Caller 0 is in another section now, and caller 1, the worker, in none.
    let left = [
        (Op::load(60), 2),
        (Op::load(64), 3),
        (Op::load(8), 5),
        (Op::load(65), 3),
        (Op::load(9), 4),
    ];
    let steps: [&[(Op, u64)]; 7] = [
        &FIRST,
        &left,
        &given(12),
        &FREE,
        &alone(2, 3),
        &NO_FUTURE,
        &LET_GO,
    ];
    assert_work(&rt, small(false), &steps, Reply::Idle);
}

#[test]
fn a_table_stays_that_somebody_may_read(rt: HostRuntime) {
    // The words of the callers behind are not looked at.
    let held = [(Op::load(60), 2), (Op::load(64), 3), (Op::load(8), 3)];
    let steps: [&[(Op, u64)]; 6] = [&FIRST, &held, &FREE, &alone(2, 3), &NO_FUTURE, &LET_GO];
    assert_work(&rt, small(false), &steps, Reply::Idle);
}

#[test]
fn the_slot_of_a_table_that_came_back_is_taken_at_once(rt: HostRuntime) {
    // Four ports in four buckets: a table of 8 is due. It takes slot 1 and page 1 again. Another caller
    // has attached one meanwhile, so it is given back once more, and the other one isn't moved to.
    let even = [(Op::load(60), 2), (Op::load(64), 2), (Op::load(65), 4)];
    let lost = [
        (Op::exchange(26, 0, 2), 3),
        (Op::or(281, 2), 12),
        (Op::store(60, 0), 1),
        (Op::load(26), 3),
        (Op::load(24), 2),
        (Op::load(314), 0),
        (Op::exchange(314, 0, 1), 0),
        (Op::load(26), 3),
        (Op::load(90), 0),
        (Op::load(88), 2_087), // 7 + 32 * 1 + 1024 * 2
        (Op::store(314, 0), 1),
    ];
    let steps: [&[(Op, u64)]; 8] = [
        &FIRST,
        &even,
        &given(12),
        &FREE,
        &alone(2, 4),
        &made(14, 2, 1_027),
        &lost,
        &LET_GO,
    ];
    assert_work(&rt, small(false), &steps, Reply::Moved { again: true });
}

#[test]
fn a_nested_table_comes_back(rt: HostRuntime) {
    // 128 buckets, two entries in use in page 1, which is at 378: 7 + 32 * 1 + 1024 * 1. The second
    // one leads to page 2.
    let even = [(Op::load(60), 2), (Op::load(64), 0), (Op::load(65), 0)];
    let nested = [
        (Op::load(56), 1_063),
        (Op::load(378), 0),
        (Op::load(379), 3),
        (Op::store(379, 0), 3),
        (Op::or(281, 4), 8),
        (Op::or(281, 2), 12),
        (Op::store(60, 0), 2),
    ];
    let steps: [&[(Op, u64)]; 7] = [
        &FIRST,
        &even,
        &nested,
        &FREE,
        &alone(2, 3),
        &NO_FUTURE,
        &LET_GO,
    ];
    assert_work(&rt, small(false), &steps, Reply::Idle);
}
