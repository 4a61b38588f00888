//! A table of a list of owners for each port.

use super::asked::Asked;
use super::{
    BOUND, FIND_5, RELEASED, assert_run, assert_same, begin, begins, bind, ends, enrolls, filled,
    linked, located, opened, rebind, release, replies, reply_to, small, steps,
};
use rht_core::{Event, State};
use rht_model::Reply;
use rht_policy::Low;
use rht_words::{Config, Kind, Op};
use std::test::Fail;

#[test]
fn a_list_grows_at_its_front(rt: HostRuntime) -> Result<(), Fail> {
    let locked = [(Op::load(319), 0), (Op::exchange(319, 0, 1), 0)];
    // Node 1 comes into the place of node 0, which is behind it in the list.
    let in_front = [
        (Op::load(319), 2),
        (Op::exchange(319, 2, 3), 2),
        (Op::load(283), 5),
        (Op::store(289, 2), 0),
        (Op::load(282), 639),
        (Op::store(286, 639), 0),
        (Op::store(319, 4), 3),
        (Op::add(8, 1), 3),
    ];
    // The look-up loads the owner of the first node alone.
    let found = [
        (Op::load(319), 4),
        (Op::load(287), 5),
        (Op::load(288), 3),
        (Op::add(8, 1), 5),
    ];
    let config = Config {
        kind: Kind::Listed,
        ..small()
    };
    assert_run::<Low>(
        &rt,
        rt.alloc(),
        config,
        &[
            enrolls(0),
            begins(0, bind(5, 9)),
            steps(0, &filled(255, 0, 5, 9)),
            steps(0, &opened(0, 0)),
            steps(0, &located(1)),
            steps(0, &locked),
            ends(0, &linked(), bind(5, 9), BOUND),
            begins(0, bind(5, 3)),
            steps(0, &filled(254, 1, 5, 3)),
            steps(0, &opened(0, 2)),
            steps(0, &located(1)),
            ends(0, &in_front, bind(5, 3), BOUND),
            begins(0, FIND_5),
            steps(0, &opened(0, 4)),
            steps(0, &located(1)),
            ends(0, &found, FIND_5, Reply::Found { owner: 3 }),
            // The node of port 69 is before those of port 5 in the chain; one owner may come twice.
            replies(bind(69, 7), BOUND),
            replies(bind(5, 3), BOUND),
            replies(FIND_5, Reply::Found { owner: 3 }),
        ],
    )
}

#[test]
fn releases_from_lists(rt: HostRuntime) -> Result<(), Fail> {
    let config = Config {
        kind: Kind::Listed,
        ..small()
    };
    assert_run::<Low>(
        &rt,
        rt.alloc(),
        config,
        &[
            enrolls(0),
            replies(bind(69, 7), BOUND),
            replies(bind(5, 9), BOUND),
            replies(bind(5, 3), BOUND),
            replies(bind(5, 9), BOUND),
            replies(bind(5, 4), BOUND),
            replies(Asked::Count, Reply::Counted { count: 2 }),
            // The second of the list, the first, the last and the only one.
            replies(release(5, 9), RELEASED),
            replies(release(5, 4), RELEASED),
            replies(release(5, 9), RELEASED),
            replies(release(5, 9), Reply::Absent),
            replies(FIND_5, Reply::Found { owner: 3 }),
            replies(release(5, 3), RELEASED),
            replies(FIND_5, Reply::Missing),
            replies(Asked::Count, Reply::Counted { count: 1 }),
        ],
    )
}

#[test]
fn rebinds_in_lists(rt: HostRuntime) -> Result<(), Fail> {
    let config = Config {
        kind: Kind::Listed,
        ..small()
    };
    assert_run::<Low>(
        &rt,
        rt.alloc(),
        config,
        &[
            enrolls(0),
            replies(bind(69, 7), BOUND),
            replies(bind(5, 9), BOUND),
            replies(bind(5, 3), BOUND),
            replies(bind(5, 9), BOUND),
            // The first of the list, the last and the second. One that isn't there gives its node back.
            replies(rebind(5, 9, 4), Reply::Rebound),
            replies(rebind(5, 9, 2), Reply::Rebound),
            replies(rebind(5, 3, 8), Reply::Rebound),
            replies(rebind(5, 3, 1), Reply::Absent),
            replies(FIND_5, Reply::Found { owner: 4 }),
            // An owner takes its own place, and with that each of the eight nodes is bound or out.
            replies(rebind(5, 8, 8), Reply::Rebound),
            replies(rebind(69, 7, 6), Reply::NoNode),
            replies(Asked::Count, Reply::Counted { count: 2 }),
        ],
    )
}

#[test]
fn a_port_lists_its_owners(rt: HostRuntime) -> Result<(), Fail> {
    let config = Config {
        kind: Kind::Listed,
        ..small()
    };
    assert!(rt; config.is_settled());
    assert!(rt; config.callers == 1);
    let mut state = State::<Low>::open(rt.alloc(), config)?;
    state.step(Event::Enroll);
    reply_to(&rt, &mut state, 0, bind(5, 9));
    reply_to(&rt, &mut state, 0, bind(5, 3));
    reply_to(&rt, &mut state, 0, bind(5, 7));
    // The latest owner comes first.
    let listed = reply_to(&rt, &mut state, 0, Asked::All { port: 5 });
    assert_same(&rt, listed, Some(Reply::Listed { len: 3 }));
    assert_same(&rt, state.local(0).owners(), &[7, 3, 9]);
    // A port that isn't bound has none, and those of the call before have gone.
    let unbound = reply_to(&rt, &mut state, 0, Asked::All { port: 6 });
    assert_same(&rt, unbound, Some(Reply::Listed { len: 0 }));
    assert!(rt; state.local(0).owners().is_empty());
    // The room has come back each time, so there is one for a further listing.
    let again = reply_to(&rt, &mut state, 0, Asked::All { port: 5 });
    assert_same(&rt, again, Some(Reply::Listed { len: 3 }));
    assert_same(&rt, state.local(0).owners(), &[7, 3, 9]);
    // Once a call begins that has no list, the owners have gone.
    begin(&rt, &mut state, 0, FIND_5);
    assert!(rt; state.local(0).owners().is_empty());
    Ok(())
}
