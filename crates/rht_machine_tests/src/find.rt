//! The look-up without locks alone, told old values by hand. Its caller is 3, whose section word is at
//! 11. Node n is from 282 + 4 * n on, slot t from 24 + 32 * t on, and the pages are behind the nodes:
//! of 8 from 314 on, and of 2 from 290 on. The marker of the bucket at a place is twice that + 1.

use crate::asserts::{Machine, assert_performs};
use rht_find::Find;
use rht_model::Reply;
use rht_policy::Low;
use rht_words::{Config, Env, Hash, Kind, Next, Op, port_of};
use std::process::Abort;

/// The key word of port 5 of net 3.
const NET_3_PORT_5: u64 = 3 * (1 << 32) + 5;

/// What a look-up performs, with what each operation finds, and its reply.
type Case<'a> = (&'a [(Op, u64)], Reply);

impl Machine for Find<Low> {
    type Answer = Reply;

    fn plan(&self) -> Op {
        self.plan()
    }

    fn take(&mut self, old: u64) -> Next<Reply> {
        self.take(old)
    }
}

/// Look-ups of port 5 go so, in a table of so many nodes that walks a bucket anew so often.
fn assert_looks(rt: &impl Abort, nodes: u32, rewalks: u32, cases: &[Case]) {
    assert_looks_for(rt, 5, nodes, rewalks, cases);
}

/// The same of the port with this key word.
fn assert_looks_for(rt: &impl Abort, port: u64, nodes: u32, rewalks: u32, cases: &[Case]) {
    let config = Config {
        kind: Kind::Single,
        nodes,
        pages: 4,
        hash: Hash::Low,
        rewalks,
        ..Config::plain()
    };
    assert!(rt; config.is_settled());
    for (steps, reply) in cases {
        let find = Find::<Low>::new(Env::new(config), 3, port_of(port));
        assert_performs(rt, find, steps, *reply);
    }
}

#[test]
fn a_look_up_goes_through_its_states_without_a_lock(rt: HostRuntime) {
    let cases: [Case; 3] = [
        // The bucket is locked, and isn't waited for. Node 1 has another key, and node 0 the port's.
        (
            &[
                (Op::add(11, 1), 0),
                (Op::load(0), 0),
                (Op::load(24), 6), // 64 buckets from page 0 on
                (Op::load(25), 1),
                (Op::load(319), 5), // 314 + 5
                (Op::load(287), 69),
                (Op::load(286), 2),
                (Op::load(283), 5),
                (Op::load(284), 9),
                (Op::add(11, 1), 1),
            ],
            Reply::Found { owner: 9 },
        ),
        // The first bucket is empty. The table behind is in slot 2, where node 0 has another key.
        (
            &[
                (Op::add(11, 1), 4),
                (Op::load(0), 0),
                (Op::load(24), 6),
                (Op::load(25), 1),
                (Op::load(319), 0),
                (Op::load(26), 3),
                (Op::load(88), 2_055), // 7 + 1024 * 2: 128 buckets from page 2 on
                (Op::load(89), 2),
                (Op::load(447), 2), // 314 + 64 * 2 + 5
                (Op::load(283), 69),
                (Op::load(282), 895), // the marker of 447
                (Op::load(90), 0),
                (Op::add(11, 1), 5),
            ],
            Reply::Missing,
        ),
        // 128 buckets behind the entries of page 0: 7 + 32. That of bucket 5 leads to no page.
        (
            &[
                (Op::add(11, 1), 0),
                (Op::load(0), 0),
                (Op::load(24), 39),
                (Op::load(25), 1),
                (Op::load(315), 0),
                (Op::load(26), 0),
                (Op::add(11, 1), 1),
            ],
            Reply::Missing,
        ),
    ];
    assert_looks(&rt, 8, 0, &cases);
}

#[test]
fn a_look_up_tells_nets_apart(rt: HostRuntime) {
    // Node 1 has port 5 of net 3, and node 0 has port 5. With the low hash both are in bucket 5.
    let second: Case = (
        &[
            (Op::add(11, 1), 0),
            (Op::load(0), 0),
            (Op::load(24), 6),
            (Op::load(25), 1),
            (Op::load(319), 4),
            (Op::load(287), NET_3_PORT_5),
            (Op::load(286), 2),
            (Op::load(283), 5),
            (Op::load(284), 9),
            (Op::add(11, 1), 1),
        ],
        Reply::Found { owner: 9 },
    );
    assert_looks(&rt, 8, 0, &[second]);
    let net_3: [Case; 2] = [
        (
            &[
                (Op::add(11, 1), 2),
                (Op::load(0), 0),
                (Op::load(24), 6),
                (Op::load(25), 1),
                (Op::load(319), 4),
                (Op::load(287), NET_3_PORT_5),
                (Op::load(288), 7),
                (Op::add(11, 1), 3),
            ],
            Reply::Found { owner: 7 },
        ),
        // Node 0 is alone there.
        (
            &[
                (Op::add(11, 1), 4),
                (Op::load(0), 0),
                (Op::load(24), 6),
                (Op::load(25), 1),
                (Op::load(319), 2),
                (Op::load(283), 5),
                (Op::load(282), 639),
                (Op::load(26), 0),
                (Op::add(11, 1), 5),
            ],
            Reply::Missing,
        ),
    ];
    assert_looks_for(&rt, NET_3_PORT_5, 8, 0, &net_3);
}

#[test]
fn a_look_up_walks_anew_behind_a_strange_end(rt: HostRuntime) {
    let cases: [Case; 2] = [
        // Node 0 has come to the bucket at 320, with the marker 641. Node 1 is in its place by then.
        (
            &[
                (Op::add(11, 1), 0),
                (Op::load(0), 0),
                (Op::load(24), 6),
                (Op::load(25), 1),
                (Op::load(319), 2),
                (Op::load(283), 69),
                (Op::load(282), 641),
                (Op::load(319), 4),
                (Op::load(287), 5),
                (Op::load(288), 7),
                (Op::add(11, 1), 1),
            ],
            Reply::Found { owner: 7 },
        ),
        // Both walks end so, the second one at the link to a ninth node, and there is no third.
        (
            &[
                (Op::add(11, 1), 0),
                (Op::load(0), 0),
                (Op::load(24), 6),
                (Op::load(25), 1),
                (Op::load(319), 2),
                (Op::load(283), 69),
                (Op::load(282), 641),
                (Op::load(319), 2),
                (Op::load(283), 69),
                (Op::load(282), 18),
                (Op::load(26), 0),
                (Op::add(11, 1), 1),
            ],
            Reply::Missing,
        ),
    ];
    assert_looks(&rt, 8, 1, &cases);
}

#[test]
fn a_look_up_visits_as_many_nodes_as_there_are(rt: HostRuntime) {
    // The chain leads from node 0 to node 1 and back: behind two nodes that is a strange end.
    let cases: [Case; 1] = [(
        &[
            (Op::add(11, 1), 0),
            (Op::load(0), 0),
            (Op::load(24), 6),
            (Op::load(25), 1),
            (Op::load(295), 2), // 290 + 5
            (Op::load(283), 69),
            (Op::load(282), 4),
            (Op::load(287), 69),
            (Op::load(286), 2),
            (Op::load(26), 0),
            (Op::add(11, 1), 1),
        ],
        Reply::Missing,
    )];
    assert_looks(&rt, 2, 0, &cases);
}
