//! The batch of a caller, into which the nodes go that its calls take out.

use super::{BOUND, RELEASED, assert_same, bind, release, reply_to, small};
use rht_core::{Event, Local, State};
use rht_model::Reply;
use rht_policy::{Low, Mix};
use std::test::Fail;

/// The nodes that the caller's calls took out, in the order in which they did.
fn taken_out<M: Mix>(local: &Local<M>) -> &[u32] {
    match &local.batch {
        Some(batch) => batch.fresh(),
        None => &[],
    }
}

/// The binds take the nodes 0, 1, 2 and then 3, since a node that was taken out isn't free.
#[test]
fn a_released_node_lies_in_its_callers_batch(rt: HostRuntime) -> Result<(), Fail> {
    let config = small();
    assert!(rt; config.is_settled());
    let mut state = State::<Low>::open(rt.alloc(), config)?;
    state.step(Event::Enroll);
    for port in [5, 6, 7] {
        let reply = reply_to(&rt, &mut state, 0, bind(port, 9));
        assert_same(&rt, reply, Some(BOUND));
        assert!(rt; taken_out(state.local(0)).is_empty());
    }
    let reply = reply_to(&rt, &mut state, 0, release(6, 9));
    assert_same(&rt, reply, Some(RELEASED));
    assert_same(&rt, taken_out(state.local(0)), &[1]);
    let reply = reply_to(&rt, &mut state, 0, release(6, 9));
    assert_same(&rt, reply, Some(Reply::Absent));
    let reply = reply_to(&rt, &mut state, 0, release(5, 9));
    assert_same(&rt, reply, Some(RELEASED));
    assert_same(&rt, taken_out(state.local(0)), &[1, 0]);
    let reply = reply_to(&rt, &mut state, 0, bind(6, 9));
    assert_same(&rt, reply, Some(BOUND));
    let reply = reply_to(&rt, &mut state, 0, release(6, 9));
    assert_same(&rt, reply, Some(RELEASED));
    assert_same(&rt, taken_out(state.local(0)), &[1, 0, 3]);
    Ok(())
}
