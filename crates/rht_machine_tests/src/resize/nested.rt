//! Nested tables. One of 128 buckets has two entries in its top page, the first for the even buckets
//! and the second for the odd ones, and its buckets are in the pages to which these lead.

use super::{
    ALL, BEGUN, FIRST_ENTRY, LET_GO, TAKEN, alone, assert_work, begun, behind, emptied, empty,
    held_back, locked, made, no_slot, published, small, taken, two,
};
use crate::asserts::{assert_same, said_behind};
use rht_model::Reply;
use rht_words::{Config, Next, Op};

/// A table of 8 nodes and 8 pages, whose words are where they are with 4 pages.
fn large() -> Config {
    Config {
        pages: 8,
        ..small(false)
    }
}

#[test]
fn a_nested_table_gets_no_flat_one(rt: HostRuntime) {
    // Page 3 is free, and no run of two pages is. It isn't taken for a nested table.
    let no_run = [
        (Op::exchange(28, 0, 1), 1),
        (Op::exchange(60, 0, 1), 1),
        (Op::exchange(92, 0, 1), 0),
        (Op::load(281), 8),
        (Op::load(281), 8),
        (Op::store(92, 0), 1),
    ];
    let refused = Reply::NoTable { size: 128 };
    // The nested one is the current table, in page 0, or is behind that, in page 2.
    let only = alone(39, 4); // 7 + 32 * 1
    let last = two(2_087, 4); // 7 + 32 * 1 + 1024 * 2
    let (begins, held, no_slot) = (taken(1, 0), held_back(), no_slot());
    let steps: [&[(Op, u64)]; 5] = [&TAKEN, &held, &only, &no_slot, &LET_GO];
    assert_work(&rt, small(false), &steps, refused);
    let steps: [&[(Op, u64)]; 5] = [&TAKEN, &held, &last, &no_slot, &LET_GO];
    assert_work(&rt, small(false), &steps, refused);
    let steps: [&[(Op, u64)]; 4] = [&begins, &only, &no_run, &LET_GO];
    assert_work(&rt, small(false), &steps, refused);
    let steps: [&[(Op, u64)]; 4] = [&begins, &last, &no_run, &LET_GO];
    assert_work(&rt, small(false), &steps, refused);
}

/// Bucket 4 of the nested table is at 380. Its only entry is node 0, with port 4, and goes to bucket 4
/// of the flat table, at 446.
fn entry_moved() -> [(Op, u64); 8] {
    [
        (Op::load(380), 3),
        (Op::load(282), 761), // the marker of 380
        (Op::load(283), 4),
        (Op::load(446), 0),
        (Op::exchange(446, 0, 1), 0),
        (Op::store(282, 893), 761), // the marker of 446
        (Op::store(446, 2), 1),
        (Op::store(380, 1), 3),
    ]
}

#[test]
fn a_nested_table_is_emptied_into_a_flat_one(rt: HostRuntime) {
    let moved = Reply::Moved { again: false };
    let attached = [
        (Op::exchange(26, 0, 2), 0),
        (Op::load(26), 2),
        (Op::load(24), 39),
    ];
    // The first entry leads to page 1, from 378 on, and the second to none. By the last bucket that one
    // may have got page 4, from 570 on.
    let late = emptied(633, 2_055);
    let lasts: [(u64, &[(Op, u64)]); 2] = [(0, &[]), (5, &late)];
    for (entry, last) in lasts {
        let mut work = begun(&rt, large());
        let mut next = said_behind(&rt, &mut work, Next::Go, &taken(0, 0), moved);
        next = said_behind(&rt, &mut work, next, &alone(39, 3), moved);
        // a flat table of its size in the pages 2 and 3: 7 + 1024 * 2
        next = said_behind(&rt, &mut work, next, &made(252, 12, 2_055), moved);
        next = said_behind(&rt, &mut work, next, &attached, moved);
        for pair in 0..64 {
            next = said_behind(&rt, &mut work, next, &[(Op::load(314), 2)], moved);
            let place = 378 + pair;
            if pair == 2 {
                next = said_behind(&rt, &mut work, next, &locked(place, 2), moved);
                next = said_behind(&rt, &mut work, next, &behind(2_055), moved);
                next = said_behind(&rt, &mut work, next, &entry_moved(), moved);
                next = said_behind(&rt, &mut work, next, &behind(2_055), moved);
                next = said_behind(&rt, &mut work, next, &empty(place), moved);
            } else {
                next = said_behind(&rt, &mut work, next, &emptied(place, 2_055), moved);
            }
            let odd = if pair == 63 { entry } else { 0 };
            next = said_behind(&rt, &mut work, next, &[(Op::load(315), odd)], moved);
        }
        next = said_behind(&rt, &mut work, next, last, moved);
        next = said_behind(&rt, &mut work, next, &published(0), moved);
        assert_same(&rt, next, Next::Done(moved));
    }
}

#[test]
fn the_way_to_a_bucket_leads_over_two_entries(rt: HostRuntime) {
    let moved = Reply::Moved { again: false };
    // 8,192 buckets, nested: 13 + 32 * 1
    let mut work = begun(&rt, small(false));
    let mut next = said_behind(&rt, &mut work, Next::Go, &taken(1, 0), moved);
    next = said_behind(&rt, &mut work, next, &two(1_027, 4), moved);
    next = said_behind(
        &rt,
        &mut work,
        next,
        &[(Op::load(26), 2), (Op::load(24), 45)],
        moved,
    );
    let entries = [
        (Op::load(314), 3),
        (Op::load(442), 0), // bucket 0 has no page
        (Op::load(315), 0), // nor has bucket 1
        (Op::load(314), 3),
        (Op::load(443), 4), // bucket 2 is the first one of page 3
    ];
    next = said_behind(&rt, &mut work, next, &entries, moved);
    next = said_behind(&rt, &mut work, next, &emptied(506, 1_027), moved);
    assert_same(&rt, (work.plan(), next), (Op::load(315), Next::Go));
}

/// The last table is in slot 3: it is flat, has 128 buckets, and is in the pages 4 and 5.
fn behind_two() -> [(Op, u64); 6] {
    [
        (Op::load(26), 2),
        (Op::load(58), 3),
        (Op::load(90), 4),
        (Op::load(122), 0),
        (Op::load(120), 4_103), // 7 + 1024 * 4
        (Op::load(121), 4),
    ]
}

/// That table is made, where the pages 2 and 4 to 7 are free, and attached behind the nested one in
/// slot 2.
fn attached_behind_two() -> [(Op, u64); 14] {
    [
        (Op::exchange(28, 0, 1), 1),
        (Op::exchange(60, 0, 1), 1),
        (Op::exchange(92, 0, 1), 1),
        (Op::exchange(124, 0, 1), 0),
        (Op::load(281), 244),
        (Op::load(281), 244),
        (Op::load(281), 244),
        (Op::and(281, ALL - 48), 244),
        (Op::add(3, 1), 3),
        (Op::store(120, 4_103), 0),
        (Op::store(121, 4), 0), // the config's seed, 1, and the serial
        (Op::store(122, 0), 0),
        (Op::store(123, 3), 0),
        (Op::exchange(90, 0, 4), 0),
    ]
}

/// The last table is the nested one in slot 2.
fn nested_behind() -> [(Op, u64); 4] {
    [
        (Op::load(26), 2),
        (Op::load(58), 3),
        (Op::load(90), 0),
        (Op::load(88), 3_111), // 7 + 32 * 1 + 1024 * 3
    ]
}

#[test]
fn a_move_stops_where_a_nested_table_came(rt: HostRuntime) {
    // Node 0 is moved. Then the last table is a nested one, and node 1 stays where it is.
    let kept = [(Op::store(314, 4), 5)];
    let steps: [&[(Op, u64)]; 7] = [
        &taken(1, 0),
        &two(1_027, 4),
        &BEGUN,
        &FIRST_ENTRY,
        &nested_behind(),
        &kept,
        &LET_GO,
    ];
    assert_work(&rt, large(), &steps, Reply::Moved { again: true });
}

/// Node 1, with port 0, goes to bucket 0 of the flat table, at 570.
fn moved_on() -> [(Op, u64); 8] {
    [
        (Op::load(314), 5),
        (Op::load(286), 629), // the marker of 314
        (Op::load(287), 0),
        (Op::load(570), 0),
        (Op::exchange(570, 0, 1), 0),
        (Op::store(286, 1_141), 629), // the marker of 570
        (Op::store(570, 4), 1),
        (Op::store(314, 1), 5),
    ]
}

#[test]
fn a_later_call_goes_on_where_that_one_stopped(rt: HostRuntime) {
    let moved = Reply::Moved { again: true };
    let [opened, current, ..] = alone(2, 4);
    let steps: [&[(Op, u64)]; 11] = [
        &taken(1, 1),
        &[opened, current],
        &nested_behind(),
        &[(Op::load(2), 4)],
        &attached_behind_two(),
        &BEGUN,
        &locked(314, 4),
        &behind_two(),
        &moved_on(),
        &behind_two(),
        &empty(314),
    ];
    let mut work = begun(&rt, large());
    let mut next = Next::Go;
    for part in steps {
        next = said_behind(&rt, &mut work, next, part, moved);
    }
    for place in 315..318 {
        next = said_behind(&rt, &mut work, next, &locked(place, 0), moved);
        next = said_behind(&rt, &mut work, next, &behind_two(), moved);
        next = said_behind(&rt, &mut work, next, &empty(place), moved);
    }
    next = said_behind(&rt, &mut work, next, &published(3), moved);
    assert_same(&rt, next, Next::Done(moved));
}
