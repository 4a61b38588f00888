//! The lock, the walk and the links of a chain, with operations and old values by hand. With 8 nodes and
//! 4 pages the chain link of node n is at `282 + 4 * n` and its key behind it, the first bucket's
//! word is at 314, the link to n is `2 * n + 2`, and the marker of 314 is 629.

use crate::asserts::{Machine, assert_performs, assert_same};
use rht_chain::{Lock, Locked, LockedWalk, Probe, Probed, Relink, Seen, Unlock, seen_in};
use rht_words::{Geometry, Next, Op, Start};
use std::test::Fail;

impl Machine for Lock {
    type Answer = u64;

    fn plan(&self) -> Op {
        self.plan()
    }

    fn take(&mut self, old: u64) -> Next<u64> {
        self.take(old)
    }
}

impl Machine for LockedWalk {
    type Answer = Seen;

    fn plan(&self) -> Op {
        self.plan()
    }

    fn take(&mut self, old: u64) -> Next<Seen> {
        self.take(old)
    }
}

impl Machine for Relink {
    type Answer = ();

    fn plan(&self) -> Op {
        self.plan()
    }

    fn take(&mut self, old: u64) -> Next<()> {
        self.take(old)
    }
}

impl Machine for Unlock {
    type Answer = ();

    fn plan(&self) -> Op {
        self.plan()
    }

    fn take(&mut self, old: u64) -> Next<()> {
        self.take(old)
    }
}

impl Machine for Probe {
    type Answer = Probed;

    fn plan(&self) -> Op {
        self.plan()
    }

    fn take(&mut self, old: u64) -> Next<Probed> {
        self.take(old)
    }
}

#[test]
fn a_lock_waits_and_tries_again(rt: HostRuntime) {
    // another caller links node 3 before the exchange
    let lock = Lock::new(314);
    assert_same(&rt, lock.place(), 314);
    let steps = [
        (Op::load(314), 6),
        (Op::exchange(314, 6, 7), 8),
        (Op::load(314), 8),
        (Op::exchange(314, 8, 9), 8),
    ];
    assert_performs(&rt, lock, &steps, 8);
}

#[test]
fn a_walk_sees_the_first_node_with_its_key(rt: HostRuntime) -> Result<(), Fail> {
    let geometry = Geometry::new(8, 4, 1).ok_or("within limits")?;
    // Nodes 2, 0 and 7 stand in the first bucket, and the third of them has the key.
    let seen = Seen {
        found: Some(7),
        before: Some(0),
        length: 3,
        end: 16,
    };
    let keys = [9, 0, 1, 5, 0, 0, 0, 5];
    assert_same(&rt, seen_in(&keys, &[2, 0, 7], 5, 629), seen);
    let Start::Running(walk) = LockedWalk::new(geometry, 314, 6, 5) else {
        return Err("the chain has a node".into());
    };
    let steps = [
        (Op::load(291), 1),
        (Op::load(290), 2),
        (Op::load(283), 9),
        (Op::load(282), 16),
        (Op::load(311), 5),
    ];
    assert_performs(&rt, walk, &steps, seen);
    Ok(())
}

#[test]
fn a_link_is_stored_and_the_bucket_unlocked(rt: HostRuntime) -> Result<(), Fail> {
    let geometry = Geometry::new(8, 4, 1).ok_or("within limits")?;
    // behind node 2, in a bucket that had the word 6
    let relink = Relink::new(geometry, 314, 6, Some(2), 2);
    let stores = [(Op::store(290, 2), 0), (Op::store(314, 6), 0)];
    assert_performs(&rt, relink, &stores, ());
    let store = [(Op::store(314, 6), 7)];
    assert_performs(&rt, Unlock::new(314, 6), &store, ());
    Ok(())
}

#[test]
fn a_probe_locks_and_walks(rt: HostRuntime) -> Result<(), Fail> {
    let geometry = Geometry::new(8, 4, 1).ok_or("within limits")?;
    // another caller has the lock at first; node 2 has another key, and node 3 this one
    let steps = [
        (Op::load(314), 7),
        (Op::load(314), 6),
        (Op::exchange(314, 6, 7), 6),
        (Op::load(291), 1),
        (Op::load(290), 8),
        (Op::load(295), 5),
    ];
    let want = Probed {
        bucket: Locked {
            place: 314,
            word: 6,
        },
        seen: Seen {
            found: Some(3),
            before: Some(2),
            length: 2,
            end: 8,
        },
    };
    let probe = Probe::new(geometry, geometry.page_word(0, 0), 5);
    assert_performs(&rt, probe, &steps, want);
    Ok(())
}
