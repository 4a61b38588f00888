//! The resizing alone, told old values by hand. In a table of 8 nodes and 4 pages the node map is at
//! 280, the page map at 281, node n from 282 + 4 * n on (its chain link, key, owner and list link),
//! slot t from 24 + 32 * t on (shape, seed, future, serial and state, and from 8 behind the shape on the
//! section words that were kept), and the pages from 314 on. The current table is in slot 0, with 4
//! buckets in page 0 (so its shape is 2), from 314 to 317. There are two callers, and caller 1 is the
//! worker. The section word of caller 0 is at 8, and that of caller 1 at 9.

mod nested;
mod returning;

use crate::asserts::{Machine, assert_parts, assert_same};
use rht_model::Reply;
use rht_move::Work;
use rht_move::work::choice::{Choice, choice_of};
use rht_policy::Low;
use rht_words::{Config, Env, Hash, Next, Op};
use std::process::Abort;

/// All bits of a word.
const ALL: u64 = 18_446_744_073_709_551_615;

/// A table of 8 nodes and 4 pages, for two callers.
fn small(shrink: bool) -> Config {
    Config {
        nodes: 8,
        pages: 4,
        callers: 2,
        hint: 1,
        hash: Hash::Low,
        shrink,
        ..Config::plain()
    }
}

/// A worker in this table, before its first operation.
fn begun(rt: &impl Abort, config: Config) -> Work<Low> {
    assert!(rt; config.is_settled());
    Work::new(Env::new(config), 1)
}

impl Machine for Work<Low> {
    type Answer = Reply;

    fn plan(&self) -> Op {
        self.plan()
    }

    fn take(&mut self, old: u64) -> Next<Reply> {
        self.take(old)
    }
}

/// In this table a worker performs these operations, which find these words, and has this reply.
fn assert_work(rt: &impl Abort, config: Config, steps: &[&[(Op, u64)]], reply: Reply) {
    assert_parts(rt, begun(rt, config), steps, reply);
}

/// The work lock is taken, and the states of all slots are loaded: a table is in slot 0, these are the
/// states of the slots 1 and 2, and the others are free. No table is retired, so none is given back.
fn taken(second: u64, third: u64) -> [(Op, u64); 9] {
    [
        (Op::exchange(1, 0, 1), 0),
        (Op::load(28), 1),
        (Op::load(60), second),
        (Op::load(92), third),
        (Op::load(124), 0),
        (Op::load(156), 0),
        (Op::load(188), 0),
        (Op::load(220), 0),
        (Op::load(252), 0),
    ]
}

/// The same where a table is in slot 1 too, and the states of the other slots come behind.
const TAKEN: [(Op, u64); 3] = [
    (
        Op::Exchange {
            place: 1,
            old: 0,
            new: 1,
        },
        0,
    ),
    (Op::Load { place: 28 }, 1),
    (Op::Load { place: 60 }, 1),
];

/// The tables of all slots from slot 2 on are retired. Caller 0, whose word was kept in each of them, is
/// still in the section in which it was then, so they stay.
fn held_back() -> [(Op, u64); 18] {
    [
        (Op::load(92), 2),
        (Op::load(96), 3),
        (Op::load(8), 3),
        (Op::load(124), 2),
        (Op::load(128), 3),
        (Op::load(8), 3),
        (Op::load(156), 2),
        (Op::load(160), 3),
        (Op::load(8), 3),
        (Op::load(188), 2),
        (Op::load(192), 3),
        (Op::load(8), 3),
        (Op::load(220), 2),
        (Op::load(224), 3),
        (Op::load(8), 3),
        (Op::load(252), 2),
        (Op::load(256), 3),
        (Op::load(8), 3),
    ]
}

/// The section is opened. The current table has this shape and is the only one, and so many ports are
/// bound.
fn alone(shape: u64, count: u64) -> [(Op, u64); 5] {
    [
        (Op::add(9, 1), 4),
        (Op::load(0), 0),
        (Op::load(26), 0),
        (Op::load(24), shape),
        (Op::load(2), count),
    ]
}

/// The same where behind the current table is one in slot 1, which has this shape and is the last one.
fn two(shape: u64, count: u64) -> [(Op, u64); 6] {
    [
        (Op::add(9, 1), 4),
        (Op::load(0), 0),
        (Op::load(26), 2),
        (Op::load(58), 0),
        (Op::load(56), shape),
        (Op::load(2), count),
    ]
}

/// Slot 1 is taken, the second of the runs of pages in this map, the bits of which are these, and the
/// serial 1. The words of a table of this shape are stored.
fn made(map: u64, run: u64, shape: u64) -> [(Op, u64); 10] {
    [
        (Op::exchange(28, 0, 1), 1),
        (Op::exchange(60, 0, 1), 0),
        (Op::load(281), map),
        (Op::load(281), map),
        (Op::and(281, ALL - run), map),
        (Op::add(3, 1), 1),
        (Op::store(56, shape), 0),
        (Op::store(57, 2), 0), // the config's seed, 1, and the serial
        (Op::store(58, 0), 0),
        (Op::store(59, 1), 0),
    ]
}

/// No slot is free.
fn no_slot() -> [(Op, u64); 8] {
    [
        (Op::exchange(28, 0, 1), 1),
        (Op::exchange(60, 0, 1), 1),
        (Op::exchange(92, 0, 1), 2),
        (Op::exchange(124, 0, 1), 2),
        (Op::exchange(156, 0, 1), 2),
        (Op::exchange(188, 0, 1), 2),
        (Op::exchange(220, 0, 1), 2),
        (Op::exchange(252, 0, 1), 2),
    ]
}

/// The bucket of this place is locked, and has this word.
fn locked(place: usize, word: u32) -> [(Op, u64); 2] {
    let word = u64::from(word);
    [
        (Op::load(place), word),
        (Op::exchange(place, word, word + 1), word),
    ]
}

/// The last table is in slot 1 and has this shape.
fn behind(shape: u64) -> [(Op, u64); 4] {
    [
        (Op::load(26), 2),
        (Op::load(58), 0),
        (Op::load(56), shape),
        (Op::load(57), 2),
    ]
}

/// The bucket of this place is locked, and has no entry.
fn empty(place: usize) -> [(Op, u64); 2] {
    [(Op::load(place), 1), (Op::store(place, 0), 1)]
}

/// The bucket of this place is locked, and is empty. The last table is in slot 1 and has this shape.
fn emptied(place: usize, shape: u64) -> [(Op, u64); 8] {
    let [load, lock] = locked(place, 0);
    let [future, none, last, seed] = behind(shape);
    let [word, unlock] = empty(place);
    [load, lock, future, none, last, seed, word, unlock]
}

/// The current table's future is the table in slot 1, to which its entries are moved.
const BEGUN: [(Op, u64); 2] = [(Op::Load { place: 26 }, 2), (Op::Load { place: 24 }, 2)];

/// The section is closed, and the work lock let go.
const LET_GO: [(Op, u64); 2] = [
    (Op::Add { place: 9, by: 1 }, 5),
    (Op::Store { place: 1, value: 0 }, 1),
];

/// The table in slot 1 is the current one, with this word for its future. The section is closed, and
/// slot 0 retired. The section words of both callers are kept there; caller 0 is in a section.
fn published(future: u64) -> [(Op, u64); 9] {
    [
        (Op::store(0, 1), 0),
        (Op::load(58), future),
        (Op::add(9, 1), 5),
        (Op::store(28, 2), 1),
        (Op::load(8), 3),
        (Op::store(32, 3), 0),
        (Op::load(9), 6),
        (Op::store(33, 6), 0),
        (Op::store(1, 0), 1),
    ]
}

#[test]
fn workers_that_move_nothing(rt: HostRuntime) {
    let growing = small(false);
    let elsewhere = [(Op::exchange(1, 0, 1), 1)];
    assert_work(&rt, growing, &[&elsewhere], Reply::Elsewhere);
    // three of four buckets' ports are not too many, and none is too few for the least size
    let begins = taken(0, 0);
    let none = [(Op::load(26), 0)];
    let idle: [&[(Op, u64)]; 4] = [&begins, &alone(2, 3), &none, &LET_GO];
    assert_work(&rt, growing, &idle, Reply::Idle);
    let idle: [&[(Op, u64)]; 4] = [&begins, &alone(2, 0), &none, &LET_GO];
    assert_work(&rt, small(true), &idle, Reply::Idle);
    // no slot for a table of 8, since those of the retired ones don't come back
    let refused = Reply::NoTable { size: 8 };
    let no_slot: [&[(Op, u64)]; 5] = [&TAKEN, &held_back(), &alone(2, 4), &no_slot(), &LET_GO];
    assert_work(&rt, growing, &no_slot, refused);
    // no run of pages: the slot is given back
    let no_page = [
        (Op::exchange(28, 0, 1), 1),
        (Op::exchange(60, 0, 1), 0),
        (Op::load(281), 0),
        (Op::load(281), 0),
        (Op::load(281), 0),
        (Op::load(281), 0),
        (Op::store(60, 0), 1),
    ];
    let no_page: [&[(Op, u64)]; 4] = [&begins, &alone(2, 4), &no_page, &LET_GO];
    assert_work(&rt, growing, &no_page, refused);
}

/// The last entry of the bucket at 314 is node 0, with port 4, and node 1 is before it. It is moved
/// to bucket 4 of the table in slot 1, which is at 382.
const FIRST_ENTRY: [(Op, u64); 15] = [
    (Op::Load { place: 314 }, 4),
    (
        Op::Exchange {
            place: 314,
            old: 4,
            new: 5,
        },
        4,
    ),
    (Op::Load { place: 26 }, 2),
    (Op::Load { place: 58 }, 0),
    (Op::Load { place: 56 }, 1_027),
    (Op::Load { place: 57 }, 2),
    (Op::Load { place: 314 }, 5),
    (Op::Load { place: 286 }, 2),
    (Op::Load { place: 282 }, 629), // the marker of 314
    (Op::Load { place: 283 }, 4),
    (Op::Load { place: 382 }, 0),
    (
        Op::Exchange {
            place: 382,
            old: 0,
            new: 1,
        },
        0,
    ),
    (
        Op::Store {
            place: 282,
            value: 765,
        },
        629,
    ), // the marker of 382
    (
        Op::Store {
            place: 382,
            value: 2,
        },
        1,
    ),
    (
        Op::Store {
            place: 286,
            value: 629,
        },
        2,
    ),
];

#[test]
fn a_table_grows_and_is_emptied_into_two(rt: HostRuntime) {
    let attached = [(Op::exchange(26, 0, 2), 0)];
    // Then the only entry is node 1, with port 0. Meanwhile a table of 8 was attached in slot 2, in
    // page 2, and its bucket 0, at 442, has node 5 in it. Its lock has to be waited for.
    let second = [
        (Op::load(26), 2),
        (Op::load(58), 3),
        (Op::load(90), 0),
        (Op::load(88), 2_051), // 3 + 1024 * 2
        (Op::load(89), 3),
        (Op::load(314), 5),
        (Op::load(286), 629),
        (Op::load(287), 0),
        (Op::load(442), 13),
        (Op::load(442), 12),
        (Op::exchange(442, 12, 13), 13),
        (Op::load(442), 12),
        (Op::exchange(442, 12, 13), 12),
        (Op::store(286, 12), 629),
        (Op::store(442, 4), 13),
        (Op::store(314, 1), 5),
        (Op::load(26), 2),
        (Op::load(58), 3),
        (Op::load(90), 0),
        (Op::load(88), 2_051),
        (Op::load(89), 3),
        (Op::load(314), 1),
        (Op::store(314, 0), 1),
    ];
    let steps: [&[(Op, u64)]; 11] = [
        &taken(0, 0),
        &alone(2, 4),
        &made(14, 2, 1_027), // 3 + 1024 * 1
        &attached,
        &BEGUN,
        &FIRST_ENTRY,
        &second,
        &emptied(315, 1_027),
        &emptied(316, 1_027),
        &emptied(317, 1_027),
        &published(3),
    ];
    assert_work(&rt, small(false), &steps, Reply::Moved { again: true });
}

#[test]
fn a_table_is_moved_that_has_a_future(rt: HostRuntime) {
    let empties = [314, 315, 316, 317].map(|place| emptied(place, 1_027));
    let [first, second, third, fourth] = &empties;
    // Four ports are not too many for 8, and with shrinking on they are not too few.
    for shrink in [false, true] {
        let steps: [&[(Op, u64)]; 8] = [
            &taken(1, 0),
            &two(1_027, 4),
            &BEGUN,
            first,
            second,
            third,
            fourth,
            &published(0),
        ];
        assert_work(&rt, small(shrink), &steps, Reply::Moved { again: false });
    }
    // A smaller table is due, but not now.
    let steps: [&[(Op, u64)]; 8] = [
        &taken(1, 0),
        &two(1_027, 1),
        &BEGUN,
        first,
        second,
        third,
        fourth,
        &published(0),
    ];
    assert_work(&rt, small(true), &steps, Reply::Moved { again: true });
    // A larger one is due behind the last, and can't be had.
    let steps: [&[(Op, u64)]; 10] = [
        &TAKEN,
        &held_back(),
        &two(1_027, 7),
        &no_slot(),
        &BEGUN,
        first,
        second,
        third,
        fourth,
        &published(0),
    ];
    assert_work(&rt, small(false), &steps, Reply::Moved { again: true });
}

#[test]
fn a_move_stops_before_a_nested_table(rt: HostRuntime) {
    // Another table was attached, in slot 2, so the one in slot 1 is given back. The other one is
    // nested, and the first bucket, which isn't empty, stays as it is.
    let lost = [
        (Op::exchange(26, 0, 2), 3),
        (Op::or(281, 2), 4),
        (Op::store(60, 0), 1),
        (Op::load(26), 3),
        (Op::load(24), 2),
        (Op::load(314), 4),
        (Op::exchange(314, 4, 5), 4),
        (Op::load(26), 3),
        (Op::load(90), 0),
        (Op::load(88), 3_111),
        (Op::store(314, 4), 5),
    ];
    let steps: [&[(Op, u64)]; 5] = [
        &taken(0, 0),
        &alone(2, 4),
        &made(14, 2, 1_027),
        &lost,
        &LET_GO,
    ];
    assert_work(&rt, small(false), &steps, Reply::Moved { again: true });
}

#[test]
fn tables_that_are_due(rt: HostRuntime) {
    let config = small(true);
    assert!(rt; config.is_settled());
    let env = Env::new(config);
    // the count, the shape, whether the table is the only one, and what is due
    let cases = [
        (48, 6, true, Choice::Nothing), // 64 / 4 * 3 = 48
        (49, 6, true, Choice::Attach { size: 128 }),
        (49, 6, false, Choice::Attach { size: 128 }),
        (19, 6, true, Choice::Nothing), // 64 * 3 / 10 = 19
        (18, 6, true, Choice::Attach { size: 32 }), // 18 * 3 / 2 = 27
        (18, 6, false, Choice::Later),
        (0, 6, true, Choice::Attach { size: 4 }),
        // 128 buckets, nested: 7 + 32 * 1
        (60, 39, true, Choice::Attach { size: 128 }),
        (97, 39, false, Choice::Attach { size: 256 }),
        (1, 39, false, Choice::Attach { size: 128 }),
        (1, 39, true, Choice::Attach { size: 4 }),
        // more ports than there can be are as many as there can be
        (ALL, 16, true, Choice::Attach { size: 131_072 }),
        (ALL, 17, true, Choice::Nothing),
    ];
    for (count, shape, alone, want) in cases {
        let choice = choice_of(env, count, shape, alone);
        assert_same(
            &rt,
            (count, shape, alone, choice),
            (count, shape, alone, want),
        );
    }
}
