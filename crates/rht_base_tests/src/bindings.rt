//! The calls with ample memory, against pairs worked out by hand. In the rows a port is its key word, which
//! is its number where it is of net 0.

use rht_model::{Bindings, Owners, Replies, Reply, Room};
use rht_words::{Port, port_of, word_of};
use std::alloc::{AllocError, Global};
use std::fmt::Debug;
use std::process::Abort;
use std::test::Fail;

/// The port of net 3 with the number 80.
pub const NET_3_PORT_80: u64 = 3 * (1 << 32) + 80;

/// Asserts that a value is this one in this row of a table.
pub fn assert_row<R, T>(rt: &impl Abort, row: R, found: T, want: T)
where
    R: Copy + Debug,
    T: Copy + Debug + PartialEq,
{
    assert_eq!(rt; found, want, "at {row:?}");
}

/// Asserts that a list is this one.
fn assert_list<T: Debug + PartialEq>(rt: &impl Abort, found: &[T], want: &[T]) {
    assert_eq!(rt; found, want);
}

#[test]
fn owners_stand_in_the_order_in_which_they_came(rt: HostRuntime) -> Result<(), Fail> {
    let mut owners = Owners::new(rt.alloc());
    assert_list(&rt, owners.as_slice(), &[]);
    owners.push(7)?;
    owners.push(3)?;
    owners.push(7)?;
    assert_list(&rt, owners.as_slice(), &[7, 3, 7]);
    Ok(())
}

#[test]
fn a_room_is_used_again_once_it_is_cleared(rt: HostRuntime) -> Result<(), Fail> {
    let mut room: Room<(u32, u32)> = Room::with_limit(rt.alloc(), 2)?;
    assert_list(&rt, room.as_slice(), &[]);
    room.push((80, 1));
    room.push((81, 7));
    assert_list(&rt, room.as_slice(), &[(80, 1), (81, 7)]);
    room.clear();
    assert_list(&rt, room.as_slice(), &[]);
    room.push((5, 3));
    assert_list(&rt, room.as_slice(), &[(5, 3)]);
    // The second item is kept, and the third finds the room full.
    room.keep((6, 2));
    room.keep((7, 1));
    assert_list(&rt, room.as_slice(), &[(5, 3), (6, 2)]);
    assert!(rt; room.len() == 2);
    Ok(())
}

/// The pairs of these ports.
fn pairs_of(alloc: Global, list: &[(u64, u32)]) -> Result<Vec<(Port, u32)>, AllocError> {
    let mut pairs = Vec::new(alloc);
    for (port, owner) in list {
        pairs.push((port_of(*port), *owner))?;
    }
    Ok(pairs)
}

#[test]
fn each_reply_keeps_the_lists_beside_it(rt: HostRuntime) -> Result<(), Fail> {
    let mut replies = Replies::new(rt.alloc());
    assert!(rt; replies.is_empty());
    let walked = Reply::Walked { len: 2, next: None };
    let cases: [(Reply, &[u32], &[(u64, u32)]); 4] = [
        (Reply::Missing, &[], &[]),
        (Reply::Listed { len: 2 }, &[7, 5], &[]),
        (walked, &[], &[(80, 1), (NET_3_PORT_80, 2)]),
        (Reply::Bound { kick: true }, &[], &[]),
    ];
    for (reply, owners, pairs) in cases {
        let pairs = pairs_of(rt.alloc(), pairs)?;
        replies.push(reply, owners, pairs.as_slice())?;
    }
    assert!(rt; replies.len() == 4);
    for i in 0..4 {
        let (reply, owners, pairs) = cases[i];
        let pairs = pairs_of(rt.alloc(), pairs)?;
        assert_row(&rt, i, replies.reply(i), reply);
        assert_list(&rt, replies.owners(i), owners);
        assert_list(&rt, replies.pairs(i), pairs.as_slice());
    }
    Ok(())
}

/// Compares the pairs with those that are wanted.
fn assert_pairs(rt: &impl Abort, bindings: &Bindings, want: &[(u64, &[u32])]) {
    assert!(rt; bindings.len() == want.len() && bindings.is_empty() == want.is_empty());
    for i in 0..want.len() {
        let (port, owners) = want[i];
        assert_row(rt, i, word_of(bindings.port(i)), port);
        assert_list(rt, bindings.owners(i), owners);
    }
}

#[test]
fn owners_join_the_last_pair_of_their_port(rt: HostRuntime) -> Result<(), Fail> {
    let cases: [([(u64, u32); 3], &[(u64, &[u32])]); 5] = [
        ([(80, 1), (80, 2), (81, 7)], &[(80, &[1, 2]), (81, &[7])]),
        (
            [(80, 1), (81, 7), (80, 2)],
            &[(80, &[1]), (81, &[7]), (80, &[2])],
        ),
        ([(81, 7), (80, 2), (80, 2)], &[(81, &[7]), (80, &[2, 2])]),
        (
            [(0, 5), (0, 4_294_967_295), (0, 0)],
            &[(0, &[5, 4_294_967_295, 0])],
        ),
        // These share a number, and not a net.
        (
            [(80, 1), (NET_3_PORT_80, 2), (NET_3_PORT_80, 1)],
            &[(80, &[1]), (NET_3_PORT_80, &[2, 1])],
        ),
    ];
    for (adds, want) in cases {
        let mut bindings = Bindings::with_room(rt.alloc(), 3)?;
        assert_pairs(&rt, &bindings, &[]);
        bindings.add(port_of(adds[0].0), adds[0].1);
        bindings.add(port_of(adds[1].0), adds[1].1);
        bindings.add(port_of(adds[2].0), adds[2].1);
        assert_pairs(&rt, &bindings, want);
    }
    Ok(())
}

#[test]
fn bindings_without_room_are_empty(rt: HostRuntime) -> Result<(), Fail> {
    let bindings = Bindings::with_room(rt.alloc(), 0)?;
    assert_pairs(&rt, &bindings, &[]);
    Ok(())
}
