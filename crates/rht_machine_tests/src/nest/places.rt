//! Where buckets are, and pages that are entered on the way to them.

use super::ALL;
use crate::asserts::{assert_performs, assert_same};
use rht_nest::{Bucket, Grow, Locate, Located, LocatedBucket, Place, Reach};
use rht_policy::Low;
use rht_words::{Geometry, Next, Op, Port, Start};
use std::test::Fail;

/// The shape of a nested table of 8,192 buckets, whose top page is page 0 and has two entries. Bucket 5,000 is
/// 39 times 128 and 8, and 8 is 4 times 2: so the way to it leads over the words at 314 and, where that leads to
/// page 5, at 638. With eight pages, too, their words stand from place 314 on.
const TWO_LEVELS: u64 = 45;

#[test]
fn a_flat_tables_bucket_stands_behind_its_first_page(rt: HostRuntime) -> Result<(), Fail> {
    let geometry = Geometry::new(8, 4, 1).ok_or("within limits")?;
    // bucket 127 of 128 from page 2 on, in two pages
    let found = Place::new(geometry, 2_055, 127);
    assert_same(&rt, found, Start::Done(Bucket::At(569)));
    Ok(())
}

#[test]
fn a_nested_tables_bucket_stands_behind_entries(rt: HostRuntime) -> Result<(), Fail> {
    let geometry = Geometry::new(8, 8, 1).ok_or("within limits")?;
    let Start::Running(place) = Place::new(geometry, TWO_LEVELS, 5_000) else {
        return Err("the table is nested".into());
    };
    let entries = [(Op::load(314), 6), (Op::load(638), 8)];
    assert_performs(&rt, place, &entries, Bucket::At(801));
    Ok(())
}

#[test]
fn an_entry_leads_to_its_page(rt: HostRuntime) -> Result<(), Fail> {
    let geometry = Geometry::new(8, 8, 1).ok_or("within limits")?;
    // the way on, once the entry leads to page 5
    let first = Place::nested(geometry, TWO_LEVELS, 5_000);
    let Start::Running(second) = first.entered(5) else {
        return Err("there is a second level".into());
    };
    assert_same(&rt, (first.entry(), second.entry()), (314, 638));
    Ok(())
}

#[test]
fn a_ports_bucket_is_located(rt: HostRuntime) -> Result<(), Fail> {
    let geometry = Geometry::new(8, 8, 1).ok_or("within limits")?;
    let mut locate = Locate::new(geometry, 2);
    let mut next = Next::Go;
    assert_same(&rt, locate.table(), 2);
    // Slot 2 is from 24 + 64 on. The future is loaded before the entries.
    for (place, old) in [(88, TWO_LEVELS), (89, 1), (90, 1), (314, 6), (638, 8)] {
        assert_same(&rt, (locate.plan(), next), (Op::load(place), Next::Go));
        (locate, next) = locate.after::<Low>(Port::plain(5_000), old);
    }
    let want = Located {
        shape: TWO_LEVELS,
        bucket: LocatedBucket::At(801),
    };
    assert_same(&rt, next, Next::Done(want));
    Ok(())
}

#[test]
fn a_bucket_is_reached_by_loads_of_its_table_alone(rt: HostRuntime) -> Result<(), Fail> {
    let geometry = Geometry::new(8, 8, 1).ok_or("within limits")?;
    let mut reach = Reach::new(geometry, 2);
    let mut next = Next::Go;
    assert_same(&rt, reach.table(), 2);
    for (place, old) in [(88, TWO_LEVELS), (89, 1), (314, 6), (638, 8)] {
        assert_same(&rt, (reach.plan(), next), (Op::load(place), Next::Go));
        (reach, next) = reach.after::<Low>(Port::plain(5_000), old);
    }
    assert_same(&rt, next, Next::Done(Bucket::At(801)));
    Ok(())
}

#[test]
fn a_missing_page_is_entered(rt: HostRuntime) -> Result<(), Fail> {
    let geometry = Geometry::new(8, 8, 1).ok_or("within limits")?;
    // the entry at 443; page 0 is taken, and page 1 is entered
    let entry = Place::nested(geometry, 2_087, 77).entry();
    let steps = [
        (Op::load(281), 254),
        (Op::load(281), 254),
        (Op::and(281, ALL - 2), 254),
        (Op::exchange(443, 0, 2), 0),
    ];
    assert_performs(&rt, Grow::new(geometry, entry), &steps, Some(1));
    Ok(())
}
