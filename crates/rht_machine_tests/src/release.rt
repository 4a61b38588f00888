//! Releases, rebinds and listings, on words made by hand. In a table of 8 nodes and 4 pages the node
//! map is at 280, node n from 282 + 4 * n on (its chain link, key, owner and list link), slot t from
//! 24 + 32 * t on, and the pages from 314 on. The ports 5, 69, 133 and 197 have bucket 5 of 64,
//! which is at 319 and has the marker 639. The link to node n is 2 * n + 2. The caller is 0, whose
//! section word is at 8: it finds an even one where it opens its read section, and an odd one where it
//! closes it.

use crate::asserts::assert_same;
use rht_model::{Reply, Room};
use rht_policy::Low;
use rht_release::{All, Rebind, Release};
use rht_words::{Config, Env, Hash, Kind, Next, Op, apply, port_of};
use std::process::Abort;
use std::test::Fail;

const CONFIG: Config = Config {
    kind: Kind::Listed,
    nodes: 8,
    pages: 4,
    callers: 1,
    hint: 0,
    min: 4,
    max: 0,
    seed: 1,
    rewalks: 1,
    hash: Hash::Low,
    shrink: true,
};

/// The chain of bucket 5: node 1 with port 69 and owner 1; node 0 with port 5 and owner 9, behind
/// which are node 2 with owner 7 and node 3 with owner 8 in its list; and node 4 with port 133 and
/// owner 2. Three ports are bound, and the nodes 5 to 7 are free.
const WORDS: [(usize, u64); 20] = [
    (2, 3),
    (24, 6), // 64 buckets from page 0 on
    (25, 1),
    (280, 224),
    (282, 10),
    (283, 5),
    (284, 9),
    (285, 6),
    (286, 2),
    (287, 69),
    (288, 1),
    (291, 5),
    (292, 7),
    (293, 8),
    (295, 5),
    (296, 8),
    (298, 639),
    (299, 133),
    (300, 2),
    (319, 4),
];

/// A shape of 128 buckets behind the two entries of page 0, at 314 and 315, which lead to no page: each
/// bucket is missing. Those of the ports of bucket 5 are behind the second entry.
const NESTED: (usize, u64) = (24, 39);

const KICK: Reply = Reply::Released { kick: true };

const NO_KICK: Reply = Reply::Released { kick: false };

/// A machine of this crate.
trait Steps {
    fn plan(&self) -> Op;

    /// A reply, with the node that was taken out.
    fn take(&mut self, old: u64) -> Next<(Reply, Option<u32>)>;
}

impl Steps for Release<Low> {
    fn plan(&self) -> Op {
        self.plan()
    }

    fn take(&mut self, old: u64) -> Next<(Reply, Option<u32>)> {
        self.take(old)
    }
}

impl Steps for Rebind<Low> {
    fn plan(&self) -> Op {
        self.plan()
    }

    fn take(&mut self, old: u64) -> Next<(Reply, Option<u32>)> {
        self.take(old)
    }
}

impl Steps for All<Low> {
    fn plan(&self) -> Op {
        self.plan()
    }

    fn take(&mut self, old: u64) -> Next<(Reply, Option<u32>)> {
        match self.take(old) {
            Next::Go => Next::Go,
            Next::Done(reply) => Next::Done((reply, None)),
        }
    }
}

/// The opening of the read section, and its closing.
fn turn() -> [Op; 1] {
    [Op::add(8, 1)]
}

/// The way to bucket 5 from the opening on, up to the key of its first node.
fn way() -> [Op; 7] {
    [
        Op::add(8, 1),
        Op::load(0),
        Op::load(24),
        Op::load(25),
        Op::load(319),
        Op::exchange(319, 4, 5),
        Op::load(287),
    ]
}

/// From there on to the key of the node with port 5, and to that of the node with port 133.
fn on_to_5() -> [Op; 2] {
    [Op::load(286), Op::load(283)]
}

fn on_to_133() -> [Op; 4] {
    [Op::load(286), Op::load(283), Op::load(282), Op::load(299)]
}

/// From there on to the end, where there is no future table and the bucket is unlocked.
fn on_to_the_end() -> [Op; 3] {
    [Op::load(298), Op::load(26), Op::store(319, 4)]
}

/// The way to a bucket that is behind the second entry of page 0. It ends here where that leads to no
/// page.
fn way_to_entry() -> [Op; 6] {
    [
        Op::add(8, 1),
        Op::load(0),
        Op::load(24),
        Op::load(25),
        Op::load(26),
        Op::load(315),
    ]
}

/// The first table is nested, and lacks the page of port 69. The table of slot 1 is behind, with 128
/// buckets from page 2 on, of which the one with number 69 has node 1 alone. It is at
/// 314 + 64 * 2 + 69, and has the marker 1023.
const BEHIND: [(usize, u64); 6] = [
    NESTED,
    (26, 2),
    (56, 2_055),
    (57, 2),
    (511, 4),
    (286, 1_023),
];

/// The way to that bucket, up to the key of node 1.
fn way_behind() -> [Op; 11] {
    [
        Op::add(8, 1),
        Op::load(0),
        Op::load(24),
        Op::load(25),
        Op::load(26),
        Op::load(315),
        Op::load(56),
        Op::load(57),
        Op::load(511),
        Op::exchange(511, 4, 5),
        Op::load(287),
    ]
}

/// The machine performs these operations in a table that differs from the one above by these
/// words, and ends so.
fn assert_steps<S: Steps>(
    rt: &impl Abort,
    machine: S,
    changes: &[(usize, u64)],
    parts: &[&[Op]],
    end: (Reply, Option<u32>),
) -> S {
    let mut words = [0_u64; 570];
    for list in [WORDS.as_slice(), changes] {
        for (place, word) in list {
            assert!(rt; *place < 570);
            words[*place] = *word;
        }
    }
    let mut machine = machine;
    let mut next = Next::Go;
    for part in parts {
        for op in *part {
            assert_eq!(rt; (next, machine.plan()), (Next::Go, *op), "to {end:?}");
            assert!(rt; op.place() < 570);
            next = machine.take(apply(&mut words, *op));
        }
    }
    assert_eq!(rt; next, Next::Done(end));
    machine
}

/// A release of the port from the owner makes these steps.
fn assert_release(
    rt: &impl Abort,
    of: (u64, u32),
    changes: &[(usize, u64)],
    parts: &[&[Op]],
    end: (Reply, Option<u32>),
) {
    assert!(rt; CONFIG.is_settled());
    let machine = Release::<Low>::new(Env::new(CONFIG), 0, port_of(of.0), of.1);
    assert_steps(rt, machine, changes, parts, end);
}

#[test]
fn releases_of_ports_with_one_owner(rt: HostRuntime) {
    let of_69 = [
        Op::load(288),
        Op::load(289),
        Op::load(286),
        Op::store(319, 2),
        Op::sub(2, 1),
        Op::add(8, 1),
    ];
    // Three tenths of 64 buckets are 19.
    let parts: [&[Op]; 2] = [&way(), &of_69];
    assert_release(&rt, (69, 1), &[], &parts, (KICK, Some(1)));
    assert_release(&rt, (69, 1), &[(2, 19)], &parts, (KICK, Some(1)));
    assert_release(&rt, (69, 1), &[(2, 20)], &parts, (NO_KICK, Some(1)));
    let config = Config {
        shrink: false,
        ..CONFIG
    };
    assert!(rt; config.is_settled());
    let machine = Release::<Low>::new(Env::new(config), 0, port_of(69), 1);
    assert_steps(&rt, machine, &[], &parts, (NO_KICK, Some(1)));
    let of_133 = [
        Op::load(300),
        Op::load(301),
        Op::load(298),
        Op::store(282, 639),
        Op::store(319, 4),
        Op::sub(2, 1),
        Op::add(8, 1),
    ];
    let parts: [&[Op]; 3] = [&way(), &on_to_133(), &of_133];
    assert_release(&rt, (133, 2), &[], &parts, (KICK, Some(4)));
}

#[test]
fn releases_of_ports_that_the_first_table_has_not(rt: HostRuntime) {
    let absent = (Reply::Absent, None);
    let parts: [&[Op]; 2] = [&way_to_entry(), &turn()];
    assert_release(&rt, (69, 1), &[NESTED], &parts, absent);
    let parts: [&[Op]; 4] = [&way(), &on_to_133(), &on_to_the_end(), &turn()];
    assert_release(&rt, (197, 3), &[], &parts, absent);
    // The future table is in slot 1, with 128 buckets from page 2 on. Port 197 has bucket 69 there,
    // at 314 + 64 * 2 + 69, and is in node 5 with owner 3.
    let future = [
        (26, 2),
        (56, 2_055),
        (57, 2),
        (511, 12),
        (302, 1_023),
        (303, 197),
        (304, 3),
    ];
    let of_197 = [
        Op::load(56),
        Op::load(57),
        Op::load(511),
        Op::exchange(511, 12, 13),
        Op::load(303),
        Op::load(304),
        Op::load(305),
        Op::load(302),
        Op::store(511, 0),
        Op::sub(2, 1),
        Op::add(8, 1),
    ];
    let parts: [&[Op]; 4] = [&way(), &on_to_133(), &on_to_the_end(), &of_197];
    assert_release(&rt, (197, 3), &future, &parts, (KICK, Some(5)));
}

/// The taking out of node 1 with port 69, which is alone in the bucket at this place.
fn out_of(place: usize) -> [Op; 6] {
    [
        Op::load(288),
        Op::load(289),
        Op::load(286),
        Op::store(place, 0),
        Op::sub(2, 1),
        Op::add(8, 1),
    ]
}

#[test]
fn releases_in_nested_tables(rt: HostRuntime) {
    let parts: [&[Op]; 2] = [&way_behind(), &out_of(511)];
    assert_release(&rt, (69, 1), &BEHIND, &parts, (KICK, Some(1)));
    // The entry leads to page 3, whose word 69 / 2 is the bucket's. It has the marker 1081.
    let there = [NESTED, (315, 4), (540, 4), (286, 1_081)];
    let bucket = [
        Op::load(540), // 314 + 64 * 3 + 34
        Op::exchange(540, 4, 5),
        Op::load(287),
    ];
    let parts: [&[Op]; 3] = [&way_to_entry(), &bucket, &out_of(540)];
    assert_release(&rt, (69, 1), &there, &parts, (KICK, Some(1)));
    // 8192 buckets behind the entries of page 1. The second one leads to page 2, whose entry 34 leads to
    // page 3, whose first word is the bucket's. It has the marker 1013.
    let deep = [(24, 1_069), (379, 3), (476, 4), (506, 4), (286, 1_013)];
    let way = [
        Op::add(8, 1),
        Op::load(0),
        Op::load(24),
        Op::load(25),
        Op::load(26),
        Op::load(379), // 314 + 64 + 1
        Op::load(476), // 314 + 64 * 2 + 34
        Op::load(506), // 314 + 64 * 3
        Op::exchange(506, 4, 5),
        Op::load(287),
    ];
    let parts: [&[Op]; 2] = [&way, &out_of(506)];
    assert_release(&rt, (69, 1), &deep, &parts, (KICK, Some(1)));
}

/// The loads of three owners, of which each but the last has a node behind it.
fn three_owners() -> [Op; 6] {
    [
        Op::load(284),
        Op::load(285),
        Op::load(292),
        Op::load(293),
        Op::load(296),
        Op::load(297),
    ]
}

#[test]
fn releases_of_a_port_with_three_owners(rt: HostRuntime) {
    let first = [
        Op::load(284),
        Op::load(285),
        Op::load(282),
        Op::store(290, 10),
        Op::store(286, 6),
        Op::store(319, 4),
        Op::add(8, 1),
    ];
    let parts: [&[Op]; 3] = [&way(), &on_to_5(), &first];
    assert_release(&rt, (5, 9), &[], &parts, (NO_KICK, Some(0)));
    // Node 0 is the bucket's first: the link to the second owner's node goes into the word.
    let front = [
        Op::add(8, 1),
        Op::load(0),
        Op::load(24),
        Op::load(25),
        Op::load(319),
        Op::exchange(319, 2, 3),
        Op::load(283),
        Op::load(284),
        Op::load(285),
        Op::load(282),
        Op::store(290, 10),
        Op::store(319, 6),
        Op::add(8, 1),
    ];
    let parts: [&[Op]; 1] = [&front];
    assert_release(&rt, (5, 9), &[(319, 2)], &parts, (NO_KICK, Some(0)));
    let second = [
        Op::load(284),
        Op::load(285),
        Op::load(292),
        Op::load(293),
        Op::store(285, 8),
        Op::store(319, 4),
        Op::add(8, 1),
    ];
    let parts: [&[Op]; 3] = [&way(), &on_to_5(), &second];
    assert_release(&rt, (5, 7), &[], &parts, (NO_KICK, Some(2)));
    let last = [Op::store(293, 0), Op::store(319, 4), Op::add(8, 1)];
    let parts: [&[Op]; 4] = [&way(), &on_to_5(), &three_owners(), &last];
    assert_release(&rt, (5, 8), &[], &parts, (NO_KICK, Some(3)));
    let unlock = [Op::store(319, 4), Op::add(8, 1)];
    let parts: [&[Op]; 4] = [&way(), &on_to_5(), &three_owners(), &unlock];
    assert_release(&rt, (5, 6), &[], &parts, (Reply::Absent, None));
}

/// The making of node 5 with this port and owner 11.
fn new_node(port: u64) -> [Op; 5] {
    [
        Op::load(280),
        Op::and(280, !32),
        Op::store(303, port),
        Op::store(304, 11),
        Op::store(305, 0),
    ]
}

/// A rebind of the port from the owner to owner 11 makes these steps.
fn assert_rebind(
    rt: &impl Abort,
    of: (u64, u32),
    changes: &[(usize, u64)],
    parts: &[&[Op]],
    end: (Reply, Option<u32>),
) {
    assert!(rt; CONFIG.is_settled());
    let machine = Rebind::<Low>::new(Env::new(CONFIG), 0, port_of(of.0), of.1, 11);
    assert_steps(rt, machine, changes, parts, end);
}

#[test]
fn rebinds_that_are_made(rt: HostRuntime) {
    let front = [
        Op::load(288),
        Op::load(289),
        Op::store(305, 0),
        Op::load(286),
        Op::store(302, 2),
        Op::store(319, 12),
        Op::add(8, 1),
    ];
    let parts: [&[Op]; 3] = [&new_node(69), &way(), &front];
    assert_rebind(&rt, (69, 1), &[], &parts, (Reply::Rebound, Some(1)));
    // The owner may take its own place.
    assert_rebind(
        &rt,
        (69, 11),
        &[(288, 11)],
        &parts,
        (Reply::Rebound, Some(1)),
    );
    let later = [
        Op::load(300),
        Op::load(301),
        Op::store(305, 0),
        Op::load(298),
        Op::store(302, 639),
        Op::store(282, 12),
        Op::store(319, 4),
        Op::add(8, 1),
    ];
    let parts: [&[Op]; 4] = [&new_node(133), &way(), &on_to_133(), &later];
    assert_rebind(&rt, (133, 2), &[], &parts, (Reply::Rebound, Some(4)));
    let behind = [
        Op::load(288),
        Op::load(289),
        Op::store(305, 0),
        Op::load(286),
        Op::store(302, 1_023),
        Op::store(511, 12),
        Op::add(8, 1),
    ];
    let parts: [&[Op]; 3] = [&new_node(69), &way_behind(), &behind];
    assert_rebind(&rt, (69, 1), &BEHIND, &parts, (Reply::Rebound, Some(1)));
}

#[test]
fn rebinds_of_a_port_with_three_owners(rt: HostRuntime) {
    let first = [
        Op::load(284),
        Op::load(285),
        Op::store(305, 6),
        Op::load(282),
        Op::store(302, 10),
        Op::store(286, 12),
        Op::store(319, 4),
        Op::add(8, 1),
    ];
    let parts: [&[Op]; 4] = [&new_node(5), &way(), &on_to_5(), &first];
    assert_rebind(&rt, (5, 9), &[], &parts, (Reply::Rebound, Some(0)));
    let second = [
        Op::load(284),
        Op::load(285),
        Op::load(292),
        Op::load(293),
        Op::store(305, 8),
        Op::store(285, 12),
        Op::store(319, 4),
        Op::add(8, 1),
    ];
    let parts: [&[Op]; 4] = [&new_node(5), &way(), &on_to_5(), &second];
    assert_rebind(&rt, (5, 7), &[], &parts, (Reply::Rebound, Some(2)));
    // Of two that are the old owner it is the first.
    assert_rebind(&rt, (5, 7), &[(296, 7)], &parts, (Reply::Rebound, Some(2)));
    let last = [
        Op::store(305, 0),
        Op::store(293, 12),
        Op::store(319, 4),
        Op::add(8, 1),
    ];
    let parts: [&[Op]; 5] = [&new_node(5), &way(), &on_to_5(), &three_owners(), &last];
    assert_rebind(&rt, (5, 8), &[], &parts, (Reply::Rebound, Some(3)));
    let none = [Op::store(319, 4), Op::add(8, 1), Op::or(280, 32)];
    let parts: [&[Op]; 5] = [&new_node(5), &way(), &on_to_5(), &three_owners(), &none];
    assert_rebind(&rt, (5, 6), &[], &parts, (Reply::Absent, None));
}

#[test]
fn rebinds_that_are_not_made(rt: HostRuntime) {
    let absent = (Reply::Absent, None);
    let other = [
        Op::load(288),
        Op::load(289),
        Op::store(319, 4),
        Op::add(8, 1),
        Op::or(280, 32),
    ];
    let parts: [&[Op]; 3] = [&new_node(69), &way(), &other];
    assert_rebind(&rt, (69, 3), &[], &parts, absent);
    let given = [Op::add(8, 1), Op::or(280, 32)];
    let parts: [&[Op]; 5] = [
        &new_node(197),
        &way(),
        &on_to_133(),
        &on_to_the_end(),
        &given,
    ];
    assert_rebind(&rt, (197, 3), &[], &parts, absent);
    let parts: [&[Op]; 3] = [&new_node(197), &way_to_entry(), &given];
    assert_rebind(&rt, (197, 3), &[NESTED], &parts, absent);
    // No node is free, so that no read section is opened.
    let none = [Op::load(280)];
    let parts: [&[Op]; 1] = [&none];
    assert_rebind(&rt, (69, 1), &[(280, 0)], &parts, (Reply::NoNode, None));
}

/// A listing of the port makes these steps, and the owners are these.
fn assert_all(
    rt: &impl Abort,
    room: Room<u32>,
    port: u64,
    changes: &[(usize, u64)],
    parts: &[&[Op]],
    owners: &[u32],
) -> Room<u32> {
    assert!(rt; CONFIG.is_settled());
    let machine = All::<Low>::new(Env::new(CONFIG), 0, port_of(port), room);
    assert!(rt; owners.len() < 9);
    let len = owners.len() as u32;
    let machine = assert_steps(rt, machine, changes, parts, (Reply::Listed { len }, None));
    let room = machine.into_parts();
    assert_same(rt, (port, room.as_slice()), (port, owners));
    room
}

#[test]
fn listings_keep_the_owners(rt: HostRuntime) -> Result<(), Fail> {
    let room = Room::with_limit(rt.alloc(), 8)?;
    let unlock = [Op::store(319, 4), Op::add(8, 1)];
    let parts: [&[Op]; 4] = [&way(), &on_to_5(), &three_owners(), &unlock];
    let room = assert_all(&rt, room, 5, &[], &parts, &[9, 7, 8]);
    // A room for two is full before the third.
    let two = Room::with_limit(rt.alloc(), 2)?;
    assert_all(&rt, two, 5, &[], &parts, &[9, 7]);
    // What was in the room goes.
    let one = [
        Op::load(300),
        Op::load(301),
        Op::store(319, 4),
        Op::add(8, 1),
    ];
    let parts: [&[Op]; 3] = [&way(), &on_to_133(), &one];
    let room = assert_all(&rt, room, 133, &[], &parts, &[2]);
    let parts: [&[Op]; 4] = [&way(), &on_to_133(), &on_to_the_end(), &turn()];
    let room = assert_all(&rt, room, 197, &[], &parts, &[]);
    let parts: [&[Op]; 2] = [&way_to_entry(), &turn()];
    let room = assert_all(&rt, room, 5, &[NESTED], &parts, &[]);
    let one = [
        Op::load(288),
        Op::load(289),
        Op::store(511, 4),
        Op::add(8, 1),
    ];
    let parts: [&[Op]; 2] = [&way_behind(), &one];
    assert_all(&rt, room, 69, &BEHIND, &parts, &[1]);
    Ok(())
}
