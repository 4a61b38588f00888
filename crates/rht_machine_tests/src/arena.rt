//! Nodes and runs of pages, with operations and old values by hand from the map: bit `n % 64` of the
//! word at `280 + n / 64` is set where node n is free. With 8 nodes the words of the page map stand
//! from place 281 on.

use crate::asserts::{Machine, assert_performs};
use rht_arena::{GiveNode, GiveRun, NewNode, TakeNode, TakeRun};
use rht_words::{Geometry, Next, Op, Start};
use std::test::Fail;

/// All bits of a word.
const ALL: u64 = 18_446_744_073_709_551_615;

impl Machine for TakeNode {
    type Answer = Option<u32>;

    fn plan(&self) -> Op {
        self.plan()
    }

    fn take(&mut self, old: u64) -> Next<Option<u32>> {
        self.take(old)
    }
}

impl Machine for GiveNode {
    type Answer = ();

    fn plan(&self) -> Op {
        self.plan()
    }

    fn take(&mut self, old: u64) -> Next<()> {
        self.take(old)
    }
}

impl Machine for NewNode {
    type Answer = Option<u32>;

    fn plan(&self) -> Op {
        self.plan()
    }

    fn take(&mut self, old: u64) -> Next<Option<u32>> {
        self.take(old)
    }
}

impl Machine for TakeRun {
    type Answer = Option<u32>;

    fn plan(&self) -> Op {
        self.plan()
    }

    fn take(&mut self, old: u64) -> Next<Option<u32>> {
        self.take(old)
    }
}

impl Machine for GiveRun {
    type Answer = ();

    fn plan(&self) -> Op {
        self.plan()
    }

    fn take(&mut self, old: u64) -> Next<()> {
        self.take(old)
    }
}

#[test]
fn a_node_is_taken_that_is_free_still(rt: HostRuntime) -> Result<(), Fail> {
    // node 1 is lost to another caller after the load, and node 2 is taken
    let taken = [
        (Op::load(280), 6),
        (Op::and(280, ALL - 2), 4),
        (Op::and(280, ALL - 4), 4),
    ];
    let geometry = Geometry::new(8, 4, 1).ok_or("within limits")?;
    assert_performs(&rt, TakeNode::new(geometry), &taken, Some(2));
    Ok(())
}

#[test]
fn a_node_is_given_back_by_its_bit(rt: HostRuntime) -> Result<(), Fail> {
    let geometry = Geometry::new(65, 4, 1).ok_or("within limits")?;
    let given = [(Op::or(281, 1), 0)];
    assert_performs(&rt, GiveNode::new(geometry, 64), &given, ());
    Ok(())
}

#[test]
fn a_new_node_is_taken_and_filled(rt: HostRuntime) -> Result<(), Fail> {
    let geometry = Geometry::new(8, 4, 1).ok_or("within limits")?;
    // Node 3 is from 282 + 4 * 3 on.
    let filled = [
        (Op::load(280), 8),
        (Op::and(280, ALL - 8), 8),
        (Op::store(295, 5), 0),
        (Op::store(296, 9), 0),
        (Op::store(297, 0), 0),
    ];
    assert_performs(&rt, NewNode::new(geometry, 5, 9), &filled, Some(3));
    Ok(())
}

#[test]
fn a_run_is_taken_whole(rt: HostRuntime) -> Result<(), Fail> {
    // Page 0 is lost between the load and the and, so page 1 is given back. The run from page 2 on is free.
    let taken = [
        (Op::load(281), 15),
        (Op::and(281, ALL - 3), 14),
        (Op::or(281, 2), 12),
        (Op::load(281), 14),
        (Op::and(281, ALL - 12), 12),
    ];
    let geometry = Geometry::new(8, 4, 1).ok_or("within limits")?;
    let Start::Running(machine) = TakeRun::new(geometry, 2) else {
        return Err("there is such a run".into());
    };
    assert_performs(&rt, machine, &taken, Some(2));
    Ok(())
}

#[test]
fn one_page_is_a_run(rt: HostRuntime) -> Result<(), Fail> {
    let geometry = Geometry::new(8, 4, 1).ok_or("within limits")?;
    // page 0 is taken
    let steps = [
        (Op::load(281), 14),
        (Op::load(281), 14),
        (Op::and(281, ALL - 2), 14),
    ];
    assert_performs(&rt, TakeRun::of_one_page(geometry), &steps, Some(1));
    Ok(())
}

#[test]
fn a_run_is_given_back_word_by_word(rt: HostRuntime) -> Result<(), Fail> {
    let geometry = Geometry::new(8, 256, 1).ok_or("within limits")?;
    let given = [(Op::or(283, ALL), 0), (Op::or(284, ALL), 0)];
    assert_performs(&rt, GiveRun::new(geometry, 128, 128), &given, ());
    Ok(())
}
