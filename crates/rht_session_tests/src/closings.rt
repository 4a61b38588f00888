//! Handles that are closed with nodes that aren't tidied, and by two threads at the same time.

ghost use Rattle.rht_session.specs.Handles.{IsFitHandle};

use crate::asserts::assert_same;
use crate::sessions::{SMALL, bind, made, opened};
use rht_model::{Call, Reply};
use rht_session::{Handle, Refused};
use rht_words::Port;
use std::alloc::Global;
use std::sync::atomic::{AtomicU64, Ordering};
use std::test::Fail;
use std::thread::{Threads, join};

/// How many tables two threads close.
const TABLES: u32 = 2_000;

/// Takes the binding of the port to owner 7 out.
fn release(port: Port) -> Call {
    Call::Release { port, owner: 7 }
}

#[test]
fn nodes_that_are_not_tidied_are_given_up_by_a_closing_alone(rt: HostRuntime) -> Result<(), Fail> {
    let alloc = rt.alloc();
    let port = Port::plain(1);
    let (mut first, mut second) = opened(alloc, SMALL)?;
    made(&mut first, bind(port, 7))?;
    made(&mut first, release(port))?;
    assert_same(&rt, first.close(alloc), Err(Refused::Waiting));
    // nothing was done: it binds, and tidies what it has released
    made(&mut first, bind(port, 7))?;
    assert_same(&rt, first.tidy(), Ok(Reply::Clear { returned: 1 }));
    // one waits while the other handle is in a call, and one doesn't yet
    made(&mut first, release(port))?;
    assert_same(&rt, second.begin(Call::All { port }), Ok(None));
    first.tidy().ok().ok_or("not tidied")?;
    made(&mut first, bind(port, 7))?;
    made(&mut first, release(port))?;
    assert_same(&rt, first.close(alloc), Err(Refused::Waiting));
    assert_same(&rt, second.close(alloc), Err(Refused::InCall));
    assert_same(&rt, second.close_now(alloc), Err(Refused::InCall));
    assert_same(&rt, first.close_now(alloc), Ok(2));
    assert_same(&rt, first.close_now(alloc), Err(Refused::NotOpen));
    let listed = Some(Reply::Listed { len: 0 });
    assert_same(&rt, second.go_on(1_000), Ok(listed));
    assert_same(&rt, second.close(alloc), Ok(()));
    Ok(())
}

/// Waits until both threads are here, for some time.
fn meet(here: &AtomicU64) {
    here.fetch_add(1, Ordering::SeqCst);
    for _ in 0..10_000_000 {
        if here.load(Ordering::SeqCst) == 2 {
            return;
        }
    }
}

/// Closes the handle, and says whether that ended its table with the one port that is bound.
fn ends(alloc: Global, handle: Handle) -> bool
    requires { IsFitHandle handle }
{
    let mut one = [handle];
    let Ok(Some(closed)) = Handle::close_all(alloc, &mut one) else {
        return false;
    };
    closed.keys == 1
}

/// Two threads close a handle each at the same time. How many ended the table.
fn ended_by<R: Threads + Sync>(rt: &R, alloc: Global, first: Handle, second: Handle) -> u32
    requires first { IsFitHandle first }
    requires second { IsFitHandle second }
{
    let here = AtomicU64::new(0);
    let (one, other) = join(
        rt,
        || {
            meet(&here);
            ends(alloc, first)
        },
        || {
            meet(&here);
            ends(alloc, second)
        },
    );
    u32::from(one) + u32::from(other)
}

#[test]
fn of_two_closings_at_the_same_time_one_ends_the_table(rt: HostRuntime) -> Result<(), Fail> {
    let alloc = rt.alloc();
    for _ in 0..TABLES {
        let (mut first, second) = opened(alloc, SMALL)?;
        made(&mut first, bind(Port::plain(1), 7))?;
        assert_same(&rt, ended_by(&rt, alloc, first, second), 1);
    }
    Ok(())
}
