//! What words stand for at a closing, and in words that no run gives. What is nested stands in `nested`.

mod nested;

ghost use Rattle.std.specs.Prelude.{◌≡◌};

use super::asked::Asked;
use super::{FIND_5, NET_3_PORT_5, assert_owners, assert_same, bind, reply_to, small};
use rht_core::{Event, State};
use rht_model::Closed;
use rht_policy::Low;
use rht_words::{Config, Geometry, word_of};
use std::alloc::Global;
use std::process::Abort;
use std::test::Fail;

/// What the table of one caller, who is idle, holds at its closing. The table behind the first one has this
/// shape.
fn closed_at(rt: &impl Abort, state: &State<Low>, shape: u64) -> Result<Closed, Fail>
    requires { state.now.env.geometry.callers ≡ 1 }
{
    assert!(rt; state.local(0).is_idle());
    assert_same(rt, state.words().get(56).copied(), Some(shape));
    let closed = state.closed()?;
    assert_same(rt, state.size(), closed.size);
    Ok(closed)
}

/// What a table of this config holds at its closing, when its caller has made these calls. The table behind the
/// first one has this shape then, which is 0 where there is none.
fn closed_after(
    rt: &impl Abort,
    alloc: Global,
    config: Config,
    calls: &[Asked],
    shape: u64,
) -> Result<Closed, Fail> {
    assert!(rt; config.is_settled());
    assert!(rt; config.callers == 1);
    let mut state = State::<Low>::open(alloc, config)?;
    state.step(Event::Enroll);
    for asked in calls {
        reply_to(rt, &mut state, 0, *asked);
    }
    closed_at(rt, &state, shape)
}

/// A table of so many buckets was closed with so many ports, which are these, with their owners.
fn assert_closed<'a>(
    rt: &impl Abort,
    closed: &Closed,
    (size, keys): (u32, u32),
    want: &'a [(u64, &'a [u32])],
) {
    assert_same(rt, (closed.size, closed.keys), (size, keys));
    assert_same(rt, closed.bindings.len(), want.len());
    for i in 0..want.len() {
        let (port, owners) = want[i];
        assert!(rt; i < closed.bindings.len());
        assert_same(rt, (i, word_of(closed.bindings.port(i))), (i, port));
        assert_same(rt, (i, closed.bindings.owners(i)), (i, owners));
    }
}

#[test]
fn a_closed_table_lists_what_is_bound(rt: HostRuntime) -> Result<(), Fail> {
    let nothing = closed_after(&rt, rt.alloc(), small(), &[], 0)?;
    assert_closed(&rt, &nothing, (64, 0), &[]);
    // Ports 69 and 5 are in bucket 5, and so is 5 of net 3, port 1000 in bucket 40, and port 2 in bucket 2.
    // Net 3 is behind net 0, whatever the numbers.
    let calls = [
        bind(1000, 9),
        bind(NET_3_PORT_5, 8),
        bind(5, 9),
        bind(69, 7),
        bind(5, 3),
        FIND_5,
        bind(2, 1),
    ];
    let closed = closed_after(&rt, rt.alloc(), small(), &calls, 0)?;
    let want: [(u64, &[u32]); 5] = [
        (2, &[1]),
        (5, &[9]),
        (69, &[7]),
        (1000, &[9]),
        (NET_3_PORT_5, &[8]),
    ];
    assert_closed(&rt, &closed, (64, 5), &want);
    Ok(())
}

/// All words of a table of this geometry: these words, and zeros.
fn words_with(
    alloc: Global,
    geometry: Geometry,
    parts: &[&[(usize, u64)]],
) -> Result<Vec<u64>, Fail> {
    let mut words = Vec::new(alloc);
    for _ in 0..geometry.words() {
        words.push(0)?;
    }
    for part in parts {
        for (place, value) in *part {
            let word = words.get_mut(*place).ok_or("within the words")?;
            *word = *value;
        }
    }
    Ok(words)
}

#[test]
fn owners_in_words_that_no_run_gives(rt: HostRuntime) -> Result<(), Fail> {
    let geometry = Geometry::new(8, 4, 1).ok_or("within limits")?;
    // Two tables of 4 buckets, which are each other's future.
    let tables = [(24, 2), (26, 2), (56, 2 + 1_024), (58, 1)];
    // Node 0 stands in the first table, and behind it on its list nodes 2 and 1.
    let first = [
        (315, 2),
        (283, 5),
        (284, 9),
        (285, 6),
        (292, 7),
        (293, 4),
        (288, 3),
    ];
    // Nodes 3 and 4 stand in a ring in the second table, and node 4 is behind itself on its list.
    let second = [
        (378, 8), // 314 + 64
        (294, 10),
        (295, 5),
        (296, 1),
        (298, 8),
        (299, 6),
        (300, 2),
        (301, 10),
    ];
    let words = words_with(rt.alloc(), geometry, &[&tables, &first, &second])?;
    let cases: [(u64, &[u32]); 3] = [(5, &[9, 7, 3]), (6, &[2; 8]), (7, &[])];
    for (port, want) in cases {
        assert_owners(&rt, rt.alloc(), geometry, words.as_slice(), port, want)?;
    }
    Ok(())
}
