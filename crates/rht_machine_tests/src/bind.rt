//! The bind alone, told old values by hand. In a table of 8 nodes and 4 pages the node map is
//! at 280, the page map at 281, node n from 282 + 4 * n on, slot t from 24 + 32 * t on, and the pages
//! from 314 on; with 32 nodes the pages are from 410 on. The section word of caller 2 is at 10.

mod nested;

use crate::asserts::{Machine, assert_parts};
use rht_bind::Bind;
use rht_model::Reply;
use rht_policy::Low;
use rht_words::{Config, Env, Hash, Kind, Next, Op, port_of};
use std::process::Abort;

/// The operations that take node 0 and fill it, with what each finds. Behind them the section is
/// opened, and then comes the load that says that the current table is in slot 0.
fn node_0_filled() -> [(Op, u64); 7] {
    [
        (Op::load(280), 1),
        (Op::and(280, !1), 1),
        (Op::store(283, 5), 0),
        (Op::store(284, 9), 0),
        (Op::store(285, 0), 0),
        (Op::add(10, 1), 4),
        (Op::load(0), 0),
    ]
}

/// A table of 8 nodes and 4 pages, with at most so many buckets.
fn small(kind: Kind, max: u32) -> Config {
    Config {
        kind,
        nodes: 8,
        pages: 4,
        max,
        hash: Hash::Low,
        ..Config::plain()
    }
}

/// A bind of the port to owner 9 in this table, before its first operation.
fn begun(rt: &impl Abort, config: Config, port: u64, once: bool) -> Bind<Low> {
    assert!(rt; config.is_settled());
    Bind::new(Env::new(config), 2, port_of(port), 9, once)
}

impl Machine for Bind<Low> {
    type Answer = Reply;

    fn plan(&self) -> Op {
        self.plan()
    }

    fn take(&mut self, old: u64) -> Next<Reply> {
        self.take(old)
    }
}

/// In this table a bind of port 5 to owner 9 performs these operations and then those, which find
/// these words. The last one has this reply.
fn assert_bind(
    rt: &impl Abort,
    config: Config,
    filling: &[(Op, u64)],
    steps: &[(Op, u64)],
    reply: Reply,
) {
    assert_parts(rt, begun(rt, config, 5, false), &[filling, steps], reply);
}

#[test]
fn a_bind_that_gets_no_node(rt: HostRuntime) {
    // The one free node is taken by another caller meanwhile.
    let no_node = [(Op::load(280), 1), (Op::and(280, !1), 0)];
    assert_bind(&rt, small(Kind::Single, 0), &no_node, &[], Reply::NoNode);
}

#[test]
fn binds_that_are_not_made(rt: HostRuntime) {
    // Node 3 is taken. Node 1 has another key, and node 0 the port.
    let node_3_filled = [
        (Op::load(280), 8),
        (Op::and(280, !8), 8),
        (Op::store(295, 5), 0), // 282 + 4 * 3 + 1
        (Op::store(296, 9), 0),
        (Op::store(297, 0), 0),
        (Op::add(10, 1), 4),
        (Op::load(0), 0),
    ];
    let exists = [
        (Op::load(24), 6), // 64 buckets from page 0 on
        (Op::load(25), 1),
        (Op::load(319), 5), // 314 + 5, locked
        (Op::load(319), 4),
        (Op::exchange(319, 4, 5), 4),
        (Op::load(287), 69),
        (Op::load(286), 2),
        (Op::load(283), 5),
        (Op::load(284), 7),
        (Op::store(319, 4), 5),
        (Op::add(10, 1), 5),
        (Op::or(280, 8), 0),
    ];
    let single = small(Kind::Single, 0);
    assert_bind(
        &rt,
        single,
        &node_3_filled,
        &exists,
        Reply::Exists { owner: 7 },
    );
    // With at most 4 buckets there may be at most 2 * 4 ports. Port 5 has bucket 1.
    let too_big = [
        (Op::load(24), 2), // 4 buckets
        (Op::load(25), 1),
        (Op::load(315), 0),
        (Op::exchange(315, 0, 1), 0),
        (Op::load(26), 0),
        (Op::load(2), 8),
        (Op::store(315, 0), 1),
        (Op::add(10, 1), 5),
        (Op::or(280, 1), 0),
    ];
    assert_bind(
        &rt,
        small(Kind::Single, 4),
        &node_0_filled(),
        &too_big,
        Reply::TooBig { count: 8 },
    );
}

#[test]
fn binds_that_are_made(rt: HostRuntime) {
    // Another port is bound between the two looks at the count, which makes 49 of 64.
    let kick = [
        (Op::load(24), 6),
        (Op::load(25), 1),
        (Op::load(319), 0),
        (Op::exchange(319, 0, 1), 0),
        (Op::load(26), 0),
        (Op::load(2), 47),
        (Op::store(282, 639), 0), // the marker of 319
        (Op::add(2, 1), 48),
        (Op::store(319, 2), 1),
        (Op::add(10, 1), 5),
    ];
    for kind in [Kind::Single, Kind::Listed] {
        let reply = Reply::Bound { kick: true };
        assert_bind(&rt, small(kind, 0), &node_0_filled(), &kick, reply);
    }
    // The future table is in slot 1. With 97 of 128 it would be too full.
    let future = [
        (Op::load(24), 6),
        (Op::load(25), 1),
        (Op::load(319), 4),
        (Op::exchange(319, 4, 5), 4),
        (Op::load(287), 69),
        (Op::load(286), 639),
        (Op::load(26), 2),
        (Op::store(319, 4), 5),
        (Op::load(56), 2_055), // 7 + 1024 * 2: 128 buckets from page 2 on
        (Op::load(57), 2),
        (Op::load(447), 0), // 314 + 64 * 2 + 5
        (Op::exchange(447, 0, 1), 0),
        (Op::load(58), 0),
        (Op::load(2), 95),
        (Op::store(282, 895), 0), // the marker of 447
        (Op::add(2, 1), 95),
        (Op::store(447, 2), 1),
        (Op::add(10, 1), 5),
    ];
    for kind in [Kind::Single, Kind::Listed] {
        let reply = Reply::Bound { kick: false };
        assert_bind(&rt, small(kind, 0), &node_0_filled(), &future, reply);
    }
}

#[test]
fn binds_in_front_of_a_list(rt: HostRuntime) {
    let listed = small(Kind::Listed, 0);
    // Node 1 has the port, and is the bucket's first node.
    let first = [
        (Op::load(24), 6),
        (Op::load(25), 1),
        (Op::load(319), 4),
        (Op::exchange(319, 4, 5), 4),
        (Op::load(287), 5),
        (Op::store(285, 4), 0),
        (Op::load(286), 639),
        (Op::store(282, 639), 0),
        (Op::store(319, 2), 5),
        (Op::add(10, 1), 5),
    ];
    let bound = Reply::Bound { kick: false };
    assert_bind(&rt, listed, &node_0_filled(), &first, bound);
    // Node 2, which has another key, is before it, and node 3 behind it.
    let between = [
        (Op::load(24), 6),
        (Op::load(25), 1),
        (Op::load(319), 6),
        (Op::exchange(319, 6, 7), 6),
        (Op::load(291), 69),
        (Op::load(290), 4),
        (Op::load(287), 5),
        (Op::store(285, 4), 0),
        (Op::load(286), 8),
        (Op::store(282, 8), 0),
        (Op::store(290, 2), 4),
        (Op::store(319, 6), 7),
        (Op::add(10, 1), 5),
    ];
    assert_bind(&rt, listed, &node_0_filled(), &between, bound);
}

/// A table of 32 nodes and 4 pages.
fn roomy() -> Config {
    Config {
        nodes: 32,
        ..small(Kind::Single, 0)
    }
}

/// The operations of a walk through the nodes 1 to 16 in bucket 5 of a table of 64 buckets from page 0
/// on, none of which has the port. They are its chain.
fn walk_of_16() -> [(Op, u64); 36] {
    let mut steps = [(Op::load(24), 6); 36];
    steps[1] = (Op::load(25), 1);
    steps[2] = (Op::load(415), 4);
    steps[3] = (Op::exchange(415, 4, 5), 4);
    for i in 0..16_usize {
        let link = if i < 15 { 2 * i as u64 + 6 } else { 831 }; // the marker of 415
        steps[2 * i + 4] = (Op::load(287 + 4 * i), 69);
        steps[2 * i + 5] = (Op::load(286 + 4 * i), link);
    }
    steps
}

/// In the roomy table a bind of port 5 to owner 9 into a chain of 16 nodes performs the operations
/// behind the walk, part by part, which find these words. The last one has this reply.
fn assert_grows(rt: &impl Abort, once: bool, behind: [&[(Op, u64)]; 3], reply: Reply) {
    let [growing, ended, anew] = behind;
    let parts: [&[(Op, u64)]; 5] = [&node_0_filled(), &walk_of_16(), growing, ended, anew];
    assert_parts(rt, begun(rt, roomy(), 5, once), &parts, reply);
}

/// From the future of the chain's table, which has none, to the making of a table of 64 buckets in
/// slot 1, from page 1 on.
fn table_made() -> [(Op, u64); 14] {
    [
        (Op::load(26), 0),
        (Op::store(415, 4), 5),
        (Op::load(0), 0),
        (Op::load(2), 16),
        (Op::exchange(28, 0, 1), 1),
        (Op::exchange(60, 0, 1), 0),
        (Op::load(281), 14), // page 0 is taken
        (Op::load(281), 14),
        (Op::and(281, !2), 14),
        (Op::add(3, 1), 1),
        (Op::store(56, 1_030), 0), // 6 + 1024 * 1: 64 buckets from page 1 on
        (Op::store(57, 2), 0), // the config's seed and the serial
        (Op::store(58, 0), 0),
        (Op::store(59, 1), 0),
    ]
}

/// The section of an attempt is closed, and the node given back.
fn node_given() -> [(Op, u64); 2] {
    [(Op::add(10, 1), 5), (Op::or(280, 1), 0)]
}

/// The section is closed and opened again. The node goes into bucket 5 of the table in slot 1, which is
/// the current one by now.
fn bound_in_slot_1() -> [(Op, u64); 13] {
    [
        (Op::add(10, 1), 5),
        (Op::add(10, 1), 6),
        (Op::load(0), 1),
        (Op::load(56), 1_030),
        (Op::load(57), 2),
        (Op::load(479), 0), // 410 + 64 + 5
        (Op::exchange(479, 0, 1), 0),
        (Op::load(58), 0),
        (Op::load(2), 16),
        (Op::store(282, 959), 0), // the marker of 479
        (Op::add(2, 1), 16),
        (Op::store(479, 2), 1),
        (Op::add(10, 1), 7),
    ]
}

#[test]
fn the_seventeenth_bind_in_a_chain_attaches_a_table(rt: HostRuntime) {
    let made = table_made();
    let attached = [(Op::exchange(26, 0, 2), 0)];
    let again = Reply::Again { table: 1 };
    assert_grows(&rt, true, [&made, &attached, &node_given()], again);
    // Who has attached a table has a kick, with few ports too.
    let bound = Reply::Bound { kick: true };
    assert_grows(&rt, false, [&made, &attached, &bound_in_slot_1()], bound);
}

#[test]
fn a_table_that_is_not_attached_is_given_back(rt: HostRuntime) {
    let made = table_made();
    // Another caller has attached the table in slot 2 meanwhile.
    let lost = [
        (Op::exchange(26, 0, 2), 3),
        (Op::or(281, 2), 12),
        (Op::store(60, 0), 1),
    ];
    let again = Reply::Again { table: 2 };
    assert_grows(&rt, true, [&made, &lost, &node_given()], again);
    let bound = Reply::Bound { kick: false };
    assert_grows(&rt, false, [&made, &lost, &bound_in_slot_1()], bound);
}

#[test]
fn binds_that_attach_no_table(rt: HostRuntime) {
    // The current table is by now in slot 2, and 48 of 64 is not above three quarters.
    let moved = [
        (Op::load(26), 0),
        (Op::store(415, 4), 5),
        (Op::load(0), 2),
        (Op::load(2), 48),
    ];
    let none = [(Op::load(26), 0)];
    let given = node_given();
    for once in [false, true] {
        let busy = Reply::Busy { root: 2, last: 0 };
        assert_grows(&rt, once, [&moved, &none, &given], busy);
    }
    let found = [(Op::load(26), 4)];
    let again = Reply::Again { table: 3 };
    assert_grows(&rt, true, [&moved, &found, &given], again);
    // No slot is free, and above three quarters a table of 128 buckets is wanted.
    let slots = [
        (Op::load(26), 0),
        (Op::store(415, 4), 5),
        (Op::load(0), 2),
        (Op::load(2), 49),
        (Op::exchange(28, 0, 1), 1),
        (Op::exchange(60, 0, 1), 1),
        (Op::exchange(92, 0, 1), 1),
        (Op::exchange(124, 0, 1), 1),
        (Op::exchange(156, 0, 1), 2),
        (Op::exchange(188, 0, 1), 1),
        (Op::exchange(220, 0, 1), 1),
        (Op::exchange(252, 0, 1), 1),
    ];
    for once in [false, true] {
        let no_table = Reply::NoTable { size: 128 };
        assert_grows(&rt, once, [&slots, &none, &given], no_table);
    }
}

#[test]
fn a_table_of_twice_the_size_above_the_size(rt: HostRuntime) {
    // Port 5 has bucket 1 of 4, and there are 5 ports. Another is released between the two looks.
    let above = [
        (Op::load(24), 2),
        (Op::load(25), 1),
        (Op::load(315), 0),
        (Op::exchange(315, 0, 1), 0),
        (Op::load(26), 0),
        (Op::load(2), 5),
        (Op::store(315, 0), 1),
        (Op::load(0), 0),
        (Op::load(2), 4),
        (Op::exchange(28, 0, 1), 1),
        (Op::exchange(60, 0, 1), 0),
        (Op::load(281), 14),
        (Op::load(281), 14),
        (Op::and(281, !2), 14),
        (Op::add(3, 1), 9),
        (Op::store(56, 1_027), 0), // 3 + 1024 * 1: 8 buckets from page 1 on
        (Op::store(57, 10), 0),
        (Op::store(58, 0), 0),
        (Op::store(59, 9), 0),
        (Op::exchange(26, 0, 2), 0),
        // Anew, and on to the table of 8 buckets.
        (Op::add(10, 1), 5),
        (Op::add(10, 1), 6),
        (Op::load(0), 0),
        (Op::load(24), 2),
        (Op::load(25), 1),
        (Op::load(315), 0),
        (Op::exchange(315, 0, 1), 0),
        (Op::load(26), 2),
        (Op::store(315, 0), 1),
        (Op::load(56), 1_027),
        (Op::load(57), 10),
        (Op::load(383), 0), // 314 + 64 + 5
        (Op::exchange(383, 0, 1), 0),
        (Op::load(58), 0),
        (Op::load(2), 4),
        (Op::store(282, 767), 0), // the marker of 383
        (Op::add(2, 1), 4),
        (Op::store(383, 2), 1),
        (Op::add(10, 1), 7),
    ];
    let reply = Reply::Bound { kick: true };
    assert_bind(&rt, small(Kind::Single, 0), &node_0_filled(), &above, reply);
}
