//! Nodes that releases took out, and that tidyings give back. The node map is at 280, and the section words of
//! the callers 0 and 1 are at 8 and 9.

use super::asked::Asked;
use super::{
    BOUND, FIND_5, RELEASED, assert_run, begins, bind, ends, enrolls, finishes, for_two, release,
    replies, small, steps,
};
use rht_model::Reply;
use rht_policy::Low;
use rht_words::Op;
use std::test::Fail;

const CLEAR: Reply = Reply::Clear { returned: 1 };

/// A bind and a release have left the caller's section word at 4.
#[test]
fn a_tidying_gives_a_node_back(rt: HostRuntime) -> Result<(), Fail> {
    let nothing = Reply::Clear { returned: 0 };
    assert_run::<Low>(
        &rt,
        rt.alloc(),
        small(),
        &[
            enrolls(0),
            replies(Asked::Tidy, nothing),
            replies(bind(5, 9), BOUND),
            replies(release(5, 9), RELEASED),
            begins(0, Asked::Tidy),
            ends(
                0,
                &[(Op::load(8), 4), (Op::or(280, 1), 254)],
                Asked::Tidy,
                CLEAR,
            ),
            replies(Asked::Tidy, nothing),
            begins(0, bind(5, 9)),
            steps(0, &[(Op::load(280), 255)]),
            finishes(0, bind(5, 9), BOUND),
        ],
    )
}

/// The other caller is in a look-up, so the node waits until that has closed its section.
#[test]
fn a_node_waits_for_an_open_section(rt: HostRuntime) -> Result<(), Fail> {
    let pending = Reply::Pending {
        caller: 1,
        section: 1,
    };
    assert_run::<Low>(
        &rt,
        rt.alloc(),
        for_two(),
        &[
            enrolls(0),
            enrolls(1),
            replies(bind(5, 9), BOUND),
            begins(1, FIND_5),
            steps(1, &[(Op::add(9, 1), 0)]),
            replies(release(5, 9), RELEASED),
            begins(0, Asked::Tidy),
            ends(
                0,
                &[(Op::load(8), 4), (Op::load(9), 1), (Op::load(9), 1)],
                Asked::Tidy,
                pending,
            ),
            begins(0, Asked::Tidy),
            ends(0, &[(Op::load(9), 1)], Asked::Tidy, pending),
            finishes(1, FIND_5, Reply::Missing),
            begins(1, FIND_5),
            steps(1, &[(Op::add(9, 1), 2)]),
            begins(0, Asked::Tidy),
            ends(
                0,
                &[(Op::load(9), 3), (Op::or(280, 1), 254)],
                Asked::Tidy,
                CLEAR,
            ),
            finishes(1, FIND_5, Reply::Missing),
        ],
    )
}
