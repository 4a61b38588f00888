//! The walk alone, told old values by hand. Its caller is 3, whose section word is at 11. Node n is from
//! 282 + 4 * n on, slot t from 24 + 32 * t on, and the pages are behind the nodes: of 8 from 314 on, and
//! of 2 from 290 on. The marker of the bucket at a place is twice that + 1. The tables here have 4
//! buckets from page 0 on, at 314 to 317, where nothing else is said.

use crate::asserts::{Machine, assert_same, said_behind};
use rht_model::{Cursor, Reply, Room};
use rht_walk::Walk;
use rht_words::{Config, Env, Hash, Kind, Next, Op, Port, word_of};
use std::process::Abort;
use std::test::Fail;

impl Machine for Walk {
    type Answer = Reply;

    fn plan(&self) -> Op {
        self.plan()
    }

    fn take(&mut self, old: u64) -> Next<Reply> {
        self.take(old)
    }
}

/// What a walk is asked, what it performs with what each operation finds, its reply, and its pairs.
#[derive(Clone, Copy)]
struct Case<'a> {
    from: Option<Cursor>,
    limit: u32,
    steps: &'a [(Op, u64)],
    reply: Reply,
    pairs: &'a [(u64, u32)],
}

/// The reply of a walk that has come to the end of the table.
fn ended(len: u32) -> Reply {
    Reply::Walked { len, next: None }
}

/// These are the pairs of these ports.
fn assert_pairs(rt: &impl Abort, found: &[(Port, u32)], want: &[(u64, u32)]) {
    assert_same(rt, found.len(), want.len());
    for i in 0..want.len() {
        assert!(rt; i < found.len());
        let (port, owner) = found[i];
        assert_same(rt, (word_of(port), owner), want[i]);
    }
}

/// Walks go so, in a table of so many nodes. Each takes the room of the one before, as it was left.
fn assert_walks(
    rt: &impl Abort,
    nodes: u32,
    room: Room<(Port, u32)>,
    cases: &[Case],
) -> Room<(Port, u32)> {
    let config = Config {
        kind: Kind::Single,
        nodes,
        pages: 4,
        hash: Hash::Low,
        ..Config::plain()
    };
    assert!(rt; config.is_settled());
    let mut room = room;
    for case in cases {
        let reply = case.reply;
        let mut walk = Walk::new(Env::new(config), 3, case.from, case.limit, room);
        let next = said_behind(rt, &mut walk, Next::Go, case.steps, reply);
        assert!(rt;
            next == Next::Done(reply),
            "{reply:?} is behind the last one"
        );
        room = walk.into_parts();
        assert_pairs(rt, room.as_slice(), case.pairs);
    }
    room
}

#[test]
fn a_walk_shows_each_bucket_in_order(rt: HostRuntime) -> Result<(), Fail> {
    let room = Room::with_limit(rt.alloc(), 8)?;
    let cases = [
        // Buckets 0 and 2 are empty, the second one locked. Bucket 1 has nodes 0 and 1, and bucket 3 node
        // 2, locked. No lock is waited for.
        Case {
            from: None,
            limit: 8,
            steps: &[
                (Op::add(11, 1), 0),
                (Op::load(0), 0),
                (Op::load(27), 0),
                (Op::load(24), 2),
                (Op::load(314), 0),
                (Op::load(315), 2),
                (Op::load(283), 5),
                (Op::load(284), 9),
                (Op::load(282), 4),
                (Op::load(287), 1),
                (Op::load(288), 7),
                (Op::load(286), 631),
                (Op::load(316), 1),
                (Op::load(317), 7),
                (Op::load(291), 3),
                (Op::load(292), 8),
                (Op::load(290), 635),
                (Op::load(26), 0),
                (Op::add(11, 1), 1),
            ],
            reply: ended(3),
            pairs: &[(5, 9), (1, 7), (3, 8)],
        },
        // the same table without ports; what was in the room goes
        Case {
            from: None,
            limit: 8,
            steps: &[
                (Op::add(11, 1), 2),
                (Op::load(0), 0),
                (Op::load(27), 0),
                (Op::load(24), 2),
                (Op::load(314), 0),
                (Op::load(315), 0),
                (Op::load(316), 0),
                (Op::load(317), 0),
                (Op::load(26), 0),
                (Op::add(11, 1), 3),
            ],
            reply: ended(0),
            pairs: &[],
        },
    ];
    assert_walks(&rt, 8, room, &cases);
    Ok(())
}

#[test]
fn a_walk_goes_on_from_its_cursor(rt: HostRuntime) -> Result<(), Fail> {
    let room = Room::with_limit(rt.alloc(), 8)?;
    let next = Some(Cursor {
        serial: 6,
        bucket: 2,
    });
    let cases = [
        // One pair is enough, and bucket 1 has two: both are shown. The table is in slot 2.
        Case {
            from: None,
            limit: 1,
            steps: &[
                (Op::add(11, 1), 0),
                (Op::load(0), 2),
                (Op::load(91), 6),
                (Op::load(88), 2),
                (Op::load(314), 0),
                (Op::load(315), 2),
                (Op::load(283), 5),
                (Op::load(284), 9),
                (Op::load(282), 4),
                (Op::load(287), 1),
                (Op::load(288), 7),
                (Op::load(286), 631),
                (Op::add(11, 1), 1),
            ],
            reply: Reply::Walked { len: 2, next },
            pairs: &[(5, 9), (1, 7)],
        },
        // The last bucket ends with enough, and it is the table's end all the same.
        Case {
            from: next,
            limit: 1,
            steps: &[
                (Op::add(11, 1), 2),
                (Op::load(0), 2),
                (Op::load(91), 6),
                (Op::load(88), 2),
                (Op::load(316), 0),
                (Op::load(317), 6),
                (Op::load(291), 3),
                (Op::load(292), 8),
                (Op::load(290), 635),
                (Op::load(90), 0),
                (Op::add(11, 1), 3),
            ],
            reply: ended(1),
            pairs: &[(3, 8)],
        },
        // A chain that ends elsewhere, with no table behind: its bucket ends. The next one is enough.
        Case {
            from: None,
            limit: 1,
            steps: &[
                (Op::add(11, 1), 4),
                (Op::load(0), 2),
                (Op::load(91), 6),
                (Op::load(88), 2),
                (Op::load(314), 631),
                (Op::load(90), 0),
                (Op::load(315), 2),
                (Op::load(283), 5),
                (Op::load(284), 9),
                (Op::load(282), 631),
                (Op::add(11, 1), 5),
            ],
            reply: Reply::Walked { len: 1, next },
            pairs: &[(5, 9)],
        },
    ];
    assert_walks(&rt, 8, room, &cases);
    Ok(())
}

#[test]
fn a_walk_begins_anew_where_a_table_is_behind(rt: HostRuntime) -> Result<(), Fail> {
    let room = Room::with_limit(rt.alloc(), 8)?;
    let cases = [
        // behind the last bucket
        Case {
            from: None,
            limit: 8,
            steps: &[
                (Op::add(11, 1), 0),
                (Op::load(0), 0),
                (Op::load(27), 0),
                (Op::load(24), 2),
                (Op::load(314), 2),
                (Op::load(283), 5),
                (Op::load(284), 9),
                (Op::load(282), 629),
                (Op::load(315), 0),
                (Op::load(316), 0),
                (Op::load(317), 0),
                (Op::load(26), 3),
                (Op::add(11, 1), 1),
            ],
            reply: Reply::Again { table: 2 },
            pairs: &[],
        },
        // node 0 has come to the bucket at 378, with the marker 757
        Case {
            from: None,
            limit: 8,
            steps: &[
                (Op::add(11, 1), 2),
                (Op::load(0), 0),
                (Op::load(27), 0),
                (Op::load(24), 2),
                (Op::load(314), 2),
                (Op::load(283), 5),
                (Op::load(284), 9),
                (Op::load(282), 757),
                (Op::load(26), 2),
                (Op::add(11, 1), 3),
            ],
            reply: Reply::Again { table: 1 },
            pairs: &[],
        },
    ];
    assert_walks(&rt, 8, room, &cases);
    Ok(())
}

#[test]
fn a_cursor_has_to_fit_the_current_table(rt: HostRuntime) -> Result<(), Fail> {
    let room = Room::with_limit(rt.alloc(), 8)?;
    let steps = [
        (Op::add(11, 1), 0),
        (Op::load(0), 2),
        (Op::load(91), 6),
        (Op::load(88), 2),
        (Op::add(11, 1), 1),
    ];
    let reply = Reply::Again { table: 2 };
    let cursors = [(5, 1), (7, 1), (6, 4), (6, u32::MAX)];
    let mut room = room;
    for (serial, bucket) in cursors {
        let case = Case {
            from: Some(Cursor { serial, bucket }),
            limit: 8,
            steps: &steps,
            reply,
            pairs: &[],
        };
        room = assert_walks(&rt, 8, room, &[case]);
    }
    Ok(())
}

#[test]
fn a_missing_page_has_no_ports(rt: HostRuntime) -> Result<(), Fail> {
    let room = Room::with_limit(rt.alloc(), 8)?;
    // 128 buckets behind the entries of page 0: 7 + 32. The walk goes on at the last but one, whose entry
    // is the first and leads to page 2. That of the last one leads to no page.
    let cases = [Case {
        from: Some(Cursor {
            serial: 0,
            bucket: 126,
        }),
        limit: 8,
        steps: &[
            (Op::add(11, 1), 0),
            (Op::load(0), 0),
            (Op::load(27), 0),
            (Op::load(24), 39),
            (Op::load(314), 3),
            (Op::load(505), 2), // 314 + 64 * 2 + 63
            (Op::load(283), 5),
            (Op::load(284), 9),
            (Op::load(282), 1_011),
            (Op::load(315), 0),
            (Op::load(26), 0),
            (Op::add(11, 1), 1),
        ],
        reply: ended(1),
        pairs: &[(5, 9)],
    }];
    assert_walks(&rt, 8, room, &cases);
    Ok(())
}

#[test]
fn a_walk_visits_as_many_nodes_as_there_are(rt: HostRuntime) -> Result<(), Fail> {
    let room = Room::with_limit(rt.alloc(), 2)?;
    // The chain leads from node 0 to node 1 and back: behind two nodes that is a strange end. The room is
    // full by then, so that a third pair isn't kept.
    let cases = [Case {
        from: Some(Cursor {
            serial: 0,
            bucket: 2,
        }),
        limit: 3,
        steps: &[
            (Op::add(11, 1), 0),
            (Op::load(0), 0),
            (Op::load(27), 0),
            (Op::load(24), 2),
            (Op::load(292), 2), // 290 + 2
            (Op::load(283), 5),
            (Op::load(284), 9),
            (Op::load(282), 4),
            (Op::load(287), 1),
            (Op::load(288), 7),
            (Op::load(286), 2),
            (Op::load(26), 0),
            (Op::load(293), 4),
            (Op::load(287), 3),
            (Op::load(288), 8),
            (Op::load(286), 587), // the marker of 293
            (Op::load(26), 0),
            (Op::add(11, 1), 1),
        ],
        reply: ended(2),
        pairs: &[(5, 9), (1, 7)],
    }];
    assert_walks(&rt, 2, room, &cases);
    Ok(())
}
