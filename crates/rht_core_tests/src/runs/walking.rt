//! Walks of the first caller, operation by operation, while caller 1 changes what is bound. With 16 nodes the pages begin
//! at 346: there are the 4 buckets of the first table, and from 410 on the 8 of one that is attached to it. The
//! section words are at 8 and 9.

use super::asked::Asked;
use super::resizing::{counted, first_moved, made, one_table};
use super::{
    BOUND, RELEASED, assert_run, begins, bind, ends, enrolls, finishes, for_two, release, replies,
    replies_to, shows, steps,
};
use rht_model::{Cursor, Reply};
use rht_policy::Low;
use rht_words::{Config, Op};
use std::test::Fail;

const WHOLE: Asked = Asked::Walk {
    from: None,
    limit: 16,
};

const AGAIN: Reply = Reply::Again { table: 1 };

const MOVED: Reply = Reply::Moved { again: false };

fn walk(from: Option<Cursor>, limit: u32) -> Asked {
    Asked::Walk { from, limit }
}

fn walked(len: u32, next: Option<Cursor>) -> Reply {
    Reply::Walked { len, next }
}

/// A bucket of the first table, whose serial is 0.
fn cursor(bucket: u32) -> Option<Cursor> {
    Some(Cursor { serial: 0, bucket })
}

/// A table of 4 buckets and 16 nodes, for two callers.
fn four() -> Config {
    Config {
        nodes: 16,
        min: 4,
        hint: 3,
        ..for_two()
    }
}

/// The first caller opens its section, whose word was this, and comes to the first table.
fn opened(section: u64) -> [(Op, u64); 4] {
    [
        (Op::add(8, 1), section),
        (Op::load(0), 0),
        (Op::load(27), 0),
        (Op::load(24), 2),
    ]
}

/// The four ports are in the nodes 0 to 3. Node 2, with port 5, is before node 1, with port 1. The first walk stands
/// there when the worker moves node 1: so it is led into the other table, and meets the marker of a bucket that isn't its
/// own. The second walk begins when nothing leads there any more, and sees the other table at the end alone.
#[test]
fn walks_beside_a_move(rt: HostRuntime) -> Result<(), Fail> {
    let to_node_2 = [
        (Op::load(346), 2),
        (Op::load(283), 0),
        (Op::load(284), 1),
        (Op::load(282), 693),
        (Op::load(347), 6),
        (Op::load(291), 5),
        (Op::load(292), 3),
    ];
    let emptied = [
        (Op::load(26), 2),
        (Op::load(58), 0),
        (Op::load(56), 1027),
        (Op::load(57), 2),
        (Op::load(346), 1),
        (Op::store(346, 0), 1),
    ];
    // Node 1 is in both chains then.
    let linked = [
        (Op::load(347), 6),
        (Op::exchange(347, 6, 7), 6),
        (Op::load(26), 2),
        (Op::load(58), 0),
        (Op::load(56), 1027),
        (Op::load(57), 2),
        (Op::load(347), 7),
        (Op::load(290), 4),
        (Op::load(286), 695),
        (Op::load(287), 1),
        (Op::load(411), 0),
        (Op::exchange(411, 0, 1), 0),
        (Op::store(286, 823), 695),
        (Op::store(411, 4), 1),
    ];
    let led_out = [
        (Op::load(290), 4),
        (Op::load(287), 1),
        (Op::load(288), 2),
        (Op::load(286), 823),
        (Op::load(26), 2),
        (Op::add(8, 1), 1),
    ];
    let past_what_moved = [
        (Op::load(346), 0),
        (Op::load(347), 7),
        (Op::load(291), 5),
        (Op::load(292), 3),
        (Op::load(290), 695),
        (Op::load(348), 8),
        (Op::load(295), 6),
        (Op::load(296), 4),
        (Op::load(294), 697),
        (Op::load(349), 0),
        (Op::load(26), 2),
        (Op::add(8, 1), 3),
    ];
    let in_the_second = [
        (Op::add(8, 1), 4),
        (Op::load(0), 1),
        (Op::load(59), 1),
        (Op::load(56), 1027),
        (Op::load(410), 2),
        (Op::load(283), 0),
        (Op::load(284), 1),
        (Op::load(282), 821),
        (Op::load(411), 4),
        (Op::load(287), 1),
        (Op::load(288), 2),
        (Op::load(286), 823),
        (Op::load(412), 0),
        (Op::load(413), 0),
        (Op::load(414), 0),
        (Op::load(415), 6),
        (Op::load(291), 5),
        (Op::load(292), 3),
        (Op::load(290), 831),
        (Op::load(416), 8),
        (Op::load(295), 6),
        (Op::load(296), 4),
        (Op::load(294), 833),
        (Op::load(417), 0),
        (Op::load(58), 0),
        (Op::add(8, 1), 5),
    ];
    assert_run::<Low>(
        &rt,
        rt.alloc(),
        four(),
        &[
            enrolls(0),
            enrolls(1),
            replies_to(1, bind(0, 1), BOUND),
            replies_to(1, bind(1, 2), BOUND),
            replies_to(1, bind(5, 3), BOUND),
            replies_to(1, bind(6, 4), Reply::Bound { kick: true }),
            begins(0, WHOLE),
            steps(0, &opened(0)),
            steps(0, &to_node_2),
            begins(1, Asked::Work),
            steps(1, &[(Op::exchange(1, 0, 1), 0)]),
            steps(1, &one_table()),
            // Four binds have opened and closed this section.
            steps(1, &counted(8)),
            steps(1, &made()),
            steps(1, &first_moved()),
            steps(1, &emptied),
            steps(1, &linked),
            ends(0, &led_out, WHOLE, AGAIN),
            shows(&[]),
            // Node 2 ends the chain in the first table from here on.
            steps(1, &[(Op::store(290, 695), 4)]),
            begins(0, WHOLE),
            steps(0, &opened(2)),
            ends(0, &past_what_moved, WHOLE, AGAIN),
            shows(&[]),
            finishes(1, Asked::Work, MOVED),
            begins(0, WHOLE),
            ends(0, &in_the_second, WHOLE, walked(4, None)),
            shows(&[(0, 1), (1, 2), (5, 3), (6, 4)]),
        ],
    )
}

/// Node 1, with port 5, is before node 0, with port 1. The walk stands at it when it is taken out, and when the port is
/// bound anew, in node 3. The walk still shows the owner that the port had, and comes to no node twice. Node 1 waits for it.
#[test]
fn a_walk_beside_a_release(rt: HostRuntime) -> Result<(), Fail> {
    let to_node_1 = [(Op::load(346), 0), (Op::load(347), 4), (Op::load(287), 5)];
    let from_node_1 = [(Op::load(288), 3), (Op::load(286), 2)];
    let onwards = [
        (Op::load(283), 1),
        (Op::load(284), 2),
        (Op::load(282), 695),
        (Op::load(348), 6),
        (Op::load(291), 6),
        (Op::load(292), 4),
        (Op::load(290), 697),
        (Op::load(349), 0),
        (Op::load(26), 0),
    ];
    let to_node_3 = [
        (Op::load(346), 0),
        (Op::load(347), 8),
        (Op::load(295), 5),
        (Op::load(296), 7),
        (Op::load(294), 2),
    ];
    // Three binds, a release and a bind have opened and closed the section of caller 1.
    let waits = [(Op::load(8), 1), (Op::load(9), 10), (Op::load(8), 1)];
    let pending = Reply::Pending {
        caller: 0,
        section: 1,
    };
    let comes_back = [(Op::load(8), 2), (Op::or(280, 2), 65_520)];
    assert_run::<Low>(
        &rt,
        rt.alloc(),
        four(),
        &[
            enrolls(0),
            enrolls(1),
            replies_to(1, bind(1, 2), BOUND),
            replies_to(1, bind(5, 3), BOUND),
            replies_to(1, bind(6, 4), BOUND),
            begins(0, WHOLE),
            steps(0, &opened(0)),
            steps(0, &to_node_1),
            replies_to(1, release(5, 3), RELEASED),
            replies_to(1, bind(5, 7), BOUND),
            begins(1, Asked::Tidy),
            ends(1, &waits, Asked::Tidy, pending),
            steps(0, &from_node_1),
            steps(0, &onwards),
            ends(0, &[(Op::add(8, 1), 1)], WHOLE, walked(3, None)),
            shows(&[(5, 3), (1, 2), (6, 4)]),
            begins(1, Asked::Tidy),
            ends(1, &comes_back, Asked::Tidy, Reply::Clear { returned: 1 }),
            begins(0, WHOLE),
            steps(0, &opened(2)),
            steps(0, &to_node_3),
            steps(0, &onwards),
            ends(0, &[(Op::add(8, 1), 3)], WHOLE, walked(3, None)),
            shows(&[(5, 7), (1, 2), (6, 4)]),
        ],
    )
}

/// A walk in pieces, each from the cursor of the one before. After the second piece a table is attached: the third one
/// ends at a bucket and doesn't see it, the fourth one comes to the end and does. Then all ports are moved, and the cursor is
/// of a table that isn't the current one.
#[test]
fn a_cursor_over_a_growth(rt: HostRuntime) -> Result<(), Fail> {
    let first = [
        (Op::load(346), 2),
        (Op::load(283), 0),
        (Op::load(284), 1),
        (Op::load(282), 693),
        (Op::add(8, 1), 1),
    ];
    let second = [
        (Op::load(347), 6),
        (Op::load(291), 5),
        (Op::load(292), 3),
        (Op::load(290), 4),
        (Op::load(287), 1),
        (Op::load(288), 2),
        (Op::load(286), 695),
        (Op::add(8, 1), 3),
    ];
    let third = [
        (Op::load(348), 8),
        (Op::load(295), 6),
        (Op::load(296), 4),
        (Op::load(294), 697),
        (Op::add(8, 1), 5),
    ];
    let fourth = [(Op::load(349), 0), (Op::load(26), 2), (Op::add(8, 1), 7)];
    let fits_no_more = [
        (Op::add(8, 1), 8),
        (Op::load(0), 1),
        (Op::load(59), 1),
        (Op::load(56), 1027),
        (Op::add(8, 1), 9),
    ];
    assert_run::<Low>(
        &rt,
        rt.alloc(),
        four(),
        &[
            enrolls(0),
            enrolls(1),
            replies_to(1, bind(0, 1), BOUND),
            replies_to(1, bind(1, 2), BOUND),
            replies_to(1, bind(5, 3), BOUND),
            begins(0, walk(None, 1)),
            steps(0, &opened(0)),
            ends(0, &first, walk(None, 1), walked(1, cursor(1))),
            shows(&[(0, 1)]),
            replies_to(1, bind(6, 4), Reply::Bound { kick: true }),
            begins(0, walk(cursor(1), 1)),
            steps(0, &opened(2)),
            ends(0, &second, walk(cursor(1), 1), walked(2, cursor(2))),
            shows(&[(5, 3), (1, 2)]),
            begins(1, Asked::Work),
            steps(1, &[(Op::exchange(1, 0, 1), 0)]),
            steps(1, &one_table()),
            steps(1, &counted(8)),
            steps(1, &made()),
            begins(0, walk(cursor(2), 1)),
            steps(0, &opened(4)),
            ends(0, &third, walk(cursor(2), 1), walked(1, cursor(3))),
            shows(&[(6, 4)]),
            begins(0, walk(cursor(3), 1)),
            steps(0, &opened(6)),
            ends(0, &fourth, walk(cursor(3), 1), AGAIN),
            shows(&[]),
            finishes(1, Asked::Work, MOVED),
            begins(0, walk(cursor(3), 1)),
            ends(0, &fits_no_more, walk(cursor(3), 1), AGAIN),
            shows(&[]),
            replies(WHOLE, walked(4, None)),
            shows(&[(0, 1), (1, 2), (5, 3), (6, 4)]),
        ],
    )
}
