//! Tables made and given back.

use super::ALL;
use crate::asserts::assert_performs;
use rht_nest::{Make, Unmake};
use rht_words::{Geometry, Op};
use std::test::Fail;

#[test]
fn a_table_is_made_of_a_slot_and_a_run(rt: HostRuntime) -> Result<(), Fail> {
    let geometry = Geometry::new(8, 4, 1).ok_or("within limits")?;
    // slot 0 is taken, and so is page 0: four buckets in page 1, and the serial is 1
    let steps = [
        (Op::exchange(28, 0, 1), 1),
        (Op::exchange(60, 0, 1), 0),
        (Op::load(281), 14),
        (Op::load(281), 14),
        (Op::and(281, ALL - 2), 14),
        (Op::add(3, 1), 1),
        (Op::store(56, 1_026), 0),
        (Op::store(57, 8), 0),
        (Op::store(58, 0), 9),
        (Op::store(59, 1), 0),
    ];
    let make = Make::new(geometry, 4, 7, false);
    assert_performs(&rt, make, &steps, Some((1, 1_026)));
    Ok(())
}

#[test]
fn a_nested_table_is_made_where_there_is_no_run(rt: HostRuntime) -> Result<(), Fail> {
    let geometry = Geometry::new(8, 4, 1).ok_or("within limits")?;
    // 128 buckets: no run of two pages is free, and page 1 becomes the top page, with one bit for its
    // entries
    let steps = [
        (Op::exchange(28, 0, 1), 0),
        (Op::load(281), 10),
        (Op::load(281), 10),
        (Op::load(281), 10),
        (Op::load(281), 10),
        (Op::and(281, ALL - 2), 10),
        (Op::add(3, 1), 5),
        (Op::store(24, 1_063), 0),
        (Op::store(25, 12), 0),
        (Op::store(26, 0), 0),
        (Op::store(27, 5), 0),
    ];
    let make = Make::new(geometry, 128, 7, true);
    assert_performs(&rt, make, &steps, Some((0, 1_063)));
    Ok(())
}

#[test]
fn a_table_is_given_back_with_its_slot_last(rt: HostRuntime) -> Result<(), Fail> {
    let geometry = Geometry::new(8, 256, 1).ok_or("within limits")?;
    // 8,192 buckets from page 128 on
    let steps = [
        (Op::or(283, ALL), 0),
        (Op::or(284, ALL), 0),
        (Op::store(252, 0), 1),
    ];
    assert_performs(&rt, Unmake::new(geometry, 7, 131_085), &steps, ());
    Ok(())
}
