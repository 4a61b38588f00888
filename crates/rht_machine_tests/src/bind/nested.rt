//! Binds into nested tables. The top page of the table of 128 buckets is page 1. Port 5 has bucket 5
//! there: the entry at 379, which is 314 + 64 * 1 + 5 % 2, and word 5 / 2 of the page behind it.

use super::{begun, node_0_filled, node_given, small};
use crate::asserts::{assert_same, said_behind};
use rht_model::Reply;
use rht_words::{Kind, Next, Op};
use std::process::Abort;

/// From the shape of the table in slot 0, whose future is this word, to the entry, which leads to no
/// page.
fn page_missing(future: u64) -> [(Op, u64); 4] {
    [
        (Op::load(24), 1_063), // 7 + 32 * 1 + 1024 * 1
        (Op::load(25), 1),
        (Op::load(26), future),
        (Op::load(379), 0),
    ]
}

/// Pages 0 and 1 are in use, and page 2 is taken.
fn page_2_taken() -> [(Op, u64); 4] {
    [
        (Op::load(281), 12),
        (Op::load(281), 12),
        (Op::load(281), 12),
        (Op::and(281, !4), 12),
    ]
}

/// The node goes into the empty bucket at a place with this marker, in the table of slot 0. Then the
/// section is closed.
fn bound_at(place: usize, marker: u64) -> [(Op, u64); 8] {
    [
        (Op::load(place), 0),
        (Op::exchange(place, 0, 1), 0),
        (Op::load(26), 0),
        (Op::load(2), 40),
        (Op::store(282, marker), 0),
        (Op::add(2, 1), 40),
        (Op::store(place, 2), 1),
        (Op::add(10, 1), 5),
    ]
}

/// Behind the missing page a bind of port 5 to owner 9 performs these operations, list by list, which
/// find these words. The last one has this reply, whether a port has one owner or a list.
fn assert_enters(
    rt: &impl Abort,
    future: u64,
    taken: &[(Op, u64)],
    entered: &[(Op, u64)],
    behind: &[(Op, u64)],
    reply: Reply,
) {
    for kind in [Kind::Single, Kind::Listed] {
        let mut bind = begun(rt, small(kind, 0), 5, false);
        let mut next = said_behind(rt, &mut bind, Next::Go, &node_0_filled(), reply);
        next = said_behind(rt, &mut bind, next, &page_missing(future), reply);
        next = said_behind(rt, &mut bind, next, taken, reply);
        next = said_behind(rt, &mut bind, next, entered, reply);
        next = said_behind(rt, &mut bind, next, behind, reply);
        assert_same(rt, next, Next::Done(reply));
    }
}

#[test]
fn a_bind_enters_a_page(rt: HostRuntime) {
    let taken = page_2_taken();
    let reply = Reply::Bound { kick: false };
    let entered = [(Op::exchange(379, 0, 3), 0)];
    let bound = bound_at(444, 889); // 314 + 64 * 2 + 2
    assert_enters(&rt, 0, &taken, &entered, &bound, reply);
    // Another caller has entered page 3 before: page 2 is given back.
    let lost = [(Op::exchange(379, 0, 3), 4), (Op::or(281, 4), 8)];
    let bound = bound_at(508, 1_017);
    assert_enters(&rt, 0, &taken, &lost, &bound, reply);
}

#[test]
fn a_bind_that_gets_no_page(rt: HostRuntime) {
    // Another caller takes page 2 meanwhile. The node is given back.
    let none = [
        (Op::load(281), 4),
        (Op::load(281), 4),
        (Op::load(281), 4),
        (Op::and(281, !4), 0),
        (Op::load(281), 0),
    ];
    let given = node_given();
    let reply = Reply::NoTable { size: 128 };
    assert_enters(&rt, 0, &none, &[], &given, reply);
}

#[test]
fn a_bind_past_a_missing_page(rt: HostRuntime) {
    // A table was behind, in slot 1: 64 buckets from page 3 on. No page is entered.
    let table = [(Op::load(56), 3_078), (Op::load(57), 2)];
    let bound = [
        (Op::load(511), 0), // 314 + 64 * 3 + 5
        (Op::exchange(511, 0, 1), 0),
        (Op::load(58), 0),
        (Op::load(2), 40),
        (Op::store(282, 1_023), 0), // the marker of 511
        (Op::add(2, 1), 40),
        (Op::store(511, 2), 1),
        (Op::add(10, 1), 5),
    ];
    let reply = Reply::Bound { kick: false };
    assert_enters(&rt, 2, &[], &table, &bound, reply);
}

/// In a table of 2^13 buckets whose top page is page 0 a bind of port 903 to owner 9 performs these
/// operations, list by list, which find these words. The last one has this reply. The port has entry
/// 903 % 2 of the top page, entry 903 / 2 % 64 of the page behind it, and word 903 / 128 of the last.
fn assert_enters_two(
    rt: &impl Abort,
    first: &[(Op, u64)],
    taken: &[(Op, u64)],
    entered: &[(Op, u64)],
    behind: &[(Op, u64)],
    reply: Reply,
) {
    let mut filling = node_0_filled();
    filling[2].0 = Op::store(283, 903);
    let missing = [
        (Op::load(24), 45), // 13 + 32 * 1 + 1024 * 0
        (Op::load(25), 1),
        (Op::load(26), 0),
        (Op::load(315), 0), // 314 + 1
    ];
    let mut bind = begun(rt, small(Kind::Single, 0), 903, false);
    let mut next = said_behind(rt, &mut bind, Next::Go, &filling, reply);
    next = said_behind(rt, &mut bind, next, &missing, reply);
    next = said_behind(rt, &mut bind, next, first, reply);
    next = said_behind(rt, &mut bind, next, taken, reply);
    next = said_behind(rt, &mut bind, next, entered, reply);
    next = said_behind(rt, &mut bind, next, behind, reply);
    assert_same(rt, next, Next::Done(reply));
}

#[test]
fn binds_where_two_pages_are_missing(rt: HostRuntime) {
    let taken = page_2_taken();
    let bound = Reply::Bound { kick: false };
    // Page 1 is entered in the top page, and page 2 behind it.
    let first = [
        (Op::load(281), 14),
        (Op::load(281), 14),
        (Op::and(281, !2), 14),
        (Op::exchange(315, 0, 2), 0),
        (Op::load(381), 0), // 314 + 64 * 1 + 3
    ];
    let second = [(Op::exchange(381, 0, 3), 0)];
    let behind = bound_at(449, 899); // 314 + 64 * 2 + 7
    assert_enters_two(&rt, &first, &taken, &second, &behind, bound);
    // No page is left for the second entry.
    let none = [(Op::load(281), 0); 4];
    let given = node_given();
    let no_table = Reply::NoTable { size: 8_192 };
    assert_enters_two(&rt, &first, &none, &[], &given, no_table);
    // Another caller has entered page 2 in the top page, and page 3 behind it.
    let [look, again, take, _, _] = first;
    let lost = [
        look,
        again,
        take,
        (Op::exchange(315, 0, 2), 3),
        (Op::or(281, 2), 0),
        (Op::load(445), 4), // 314 + 64 * 2 + 3
    ];
    let behind = bound_at(513, 1_027); // 314 + 64 * 3 + 7
    assert_enters_two(&rt, &lost, &[], &[], &behind, bound);
}
