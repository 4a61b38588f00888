//! Retired tables, by hand from the layout. With 8 nodes, 4 pages and 2 callers the page map's word is at
//! 281, and the pages' 256 words stand from place 314 on. Slot t begins at 24 + 32 * t: its shape is there,
//! its state 4 behind, and the word that was kept for caller c at 8 + c behind. Caller c's section word is
//! at 8 + c.

use crate::asserts::{Machine, assert_parts, assert_performs};
use rht_reclaim::{GiveTable, KeepSections, ReturnTables};
use rht_words::{Geometry, Next, Op};
use std::process::Abort;
use std::test::Fail;

impl Machine for KeepSections {
    type Answer = ();

    fn plan(&self) -> Op {
        self.plan()
    }

    fn take(&mut self, old: u64) -> Next<()> {
        self.take(old)
    }
}

impl Machine for GiveTable {
    type Answer = ();

    fn plan(&self) -> Op {
        self.plan()
    }

    fn take(&mut self, old: u64) -> Next<()> {
        self.take(old)
    }
}

impl Machine for ReturnTables {
    type Answer = ();

    fn plan(&self) -> Op {
        self.plan()
    }

    fn take(&mut self, old: u64) -> Next<()> {
        self.take(old)
    }
}

/// The table's geometry.
fn geometry(rt: &impl Abort) -> Geometry {
    let Some(geometry) = Geometry::new(8, 4, 2) else {
        panic!(rt; "not within limits");
    };
    geometry
}

#[test]
fn each_callers_section_word_is_kept_in_the_slot(rt: HostRuntime) -> Result<(), Fail> {
    let keep = KeepSections::new(geometry(&rt), 1);
    let steps = [
        (Op::load(8), 3),
        (Op::store(64, 3), 0),
        (Op::load(9), 6),
        (Op::store(65, 6), 5),
    ];
    assert_performs(&rt, keep, &steps, ());
    Ok(())
}

#[test]
fn a_nested_tables_pages_go_before_its_top_page(rt: HostRuntime) -> Result<(), Fail> {
    // 128 buckets, two entries in use in page 0: 7 + 32 * 1. The second one leads to page 2.
    let give = GiveTable::new(geometry(&rt), 1);
    let steps = [
        (Op::load(56), 39),
        (Op::load(314), 0),
        (Op::load(315), 3),
        (Op::store(315, 0), 3),
        (Op::or(281, 4), 8),
        (Op::or(281, 1), 12),
        (Op::store(60, 0), 2),
    ];
    assert_performs(&rt, give, &steps, ());
    Ok(())
}

#[test]
fn a_table_comes_back_once_each_section_was_left(rt: HostRuntime) -> Result<(), Fail> {
    // Slot 1 stays: caller 0 is still in the section in which it was. Slot 2 comes back: caller 0 was in
    // none, and caller 1 is in another one now.
    let returns = ReturnTables::new(geometry(&rt));
    let kept = [
        (Op::load(28), 1),
        (Op::load(60), 2),
        (Op::load(64), 3),
        (Op::load(8), 3),
    ];
    let given = [
        (Op::load(92), 2),
        (Op::load(96), 4),
        (Op::load(97), 5),
        (Op::load(9), 7),
        (Op::load(88), 2_055),
        (Op::or(281, 12), 1),
        (Op::store(92, 0), 2),
    ];
    let free = [
        (Op::load(124), 0),
        (Op::load(156), 0),
        (Op::load(188), 0),
        (Op::load(220), 0),
        (Op::load(252), 0),
    ];
    assert_parts(&rt, returns, &[&kept, &given, &free], ());
    Ok(())
}
