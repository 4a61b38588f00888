//! Replays in which tables are moved while others are in a call: what each prints, by hand from the
//! operations of each call.

use crate::asserts::{WHOLE, add_lines, assert_left, run_on};
use std::test::Fail;

#[test]
fn an_entry_is_found_that_is_moved_meanwhile(rt: HostRuntime) -> Result<(), Fail> {
    // With its fifty-third operation worker 2 has moved port 4, and has stored port 0 into its new bucket
    // but not yet taken it out of the old one. Of these 1 takes the lock of resizing, and 8 load the states
    // of the slots. Worker 1 meets the end of another bucket twice, and goes on to the table behind.
    let script = "table single nodes 8 pages 4 workers 2 hint 1 hash low work manual rewalks 1\n\
        1 bind 4 40\n\
        1 bind 0 10\n\
        1 bind 1 11\n\
        1 bind 2 12\n\
        1 find 4\n\
        2 work\n\
        finish 1 4\n\
        step 1 6\n\
        skip 2 53\n\
        step 1 11\n\
        finish 2 1\n";
    let text = "1: bound\n\
        1: bound\n\
        1: bound\n\
        1: bound kick\n\
        1 add 8 1 8\n\
        1 load 0 0\n\
        1 load 24 2\n\
        1 load 25 1\n\
        1 load 314 4\n\
        1 load 287 0\n\
        1 load 286 757\n\
        1 load 314 5\n\
        1 load 287 0\n\
        1 load 286 757\n\
        1 load 26 2\n\
        1 load 56 1027\n\
        1 load 57 2\n\
        1 load 382 2\n\
        1 load 283 4\n\
        1 load 284 40\n\
        1 add 8 1 9\n\
        1: found 40\n\
        2: moved\n\
        port 0: 10\n\
        port 1: 11\n\
        port 2: 12\n\
        port 4: 40\n\
        size 8 keys 4\n";
    let left = run_on(&rt, rt.alloc(), &["replay"], script, WHOLE)?;
    assert_left(&rt, &left, 0, text, "", script);
    Ok(())
}

#[test]
fn a_table_is_attached_while_the_one_before_is_moved(rt: HostRuntime) -> Result<(), Fail> {
    // The sixth bind attaches a table of 8. With its twenty-first operation worker 2 has found that to be
    // the last one, to which the first entry goes. Then the tenth bind attaches a table of 16 behind it.
    // Worker 3 has loaded which table was the current one, and comes to port 0 through futures.
    let script = "table single nodes 16 pages 4 workers 3 hint 1 hash low\n\
        1 bind 0 100\n\
        1 bind 1 101\n\
        1 bind 2 102\n\
        1 bind 3 103\n\
        1 bind 4 104\n\
        1 bind 5 105\n\
        1 bind 6 106\n\
        1 bind 7 107\n\
        1 bind 9 109\n\
        1 bind 10 110\n\
        2 work\n\
        3 bind 0 999\n\
        finish 1 6\n\
        skip 3 7\n\
        skip 2 21\n\
        finish 1 4\n\
        finish 2 1\n\
        finish 3 1\n";
    let text = "1: bound\n\
        1: bound\n\
        1: bound\n\
        1: bound kick\n\
        1: bound kick\n\
        1: bound kick\n\
        1: bound kick\n\
        1: bound kick\n\
        1: bound kick\n\
        1: bound kick\n\
        2: moved again\n\
        3: exists 100\n\
        port 0: 100\n\
        port 1: 101\n\
        port 2: 102\n\
        port 3: 103\n\
        port 4: 104\n\
        port 5: 105\n\
        port 6: 106\n\
        port 7: 107\n\
        port 9: 109\n\
        port 10: 110\n\
        size 8 keys 10\n";
    let left = run_on(&rt, rt.alloc(), &["replay"], script, WHOLE)?;
    assert_left(&rt, &left, 0, text, "", script);
    Ok(())
}

#[test]
fn an_open_section_keeps_seven_tables(rt: HostRuntime) -> Result<(), Fail> {
    // Worker 1 opens its section, loads the current table, and stops. Worker 2 makes a table larger and
    // smaller again, four times, and finds no slot the last time: the section keeps the seven tables that
    // were left behind. Then worker 1 goes through eight tables, and they come back.
    let mut script = String::from_str(
        rt.alloc(),
        "table single workers 2 hint 1 shrink on hash low\n1 find 0\n2 bind 0 10\n",
    )?;
    add_lines(
        &mut script,
        4,
        "2 bind 1 10\n2 bind 2 10\n2 bind 3 10\n2 work\n2 release 1 10\n2 release 2 10\n2 release 3 10\n2 work\n",
    )?;
    script.push_str("2 work\nfinish 2 4\nskip 1 2\nfinish 2 29\nfinish 1 1\nfinish 2 1\n")?;
    let moved =
        "2: bound\n2: bound\n2: bound kick\n2: moved\n2: released\n2: released\n2: released kick\n";
    let mut text = String::from_str(rt.alloc(), "2: bound\n")?;
    for last in ["2: moved\n", "2: moved\n", "2: moved\n", "2: notable 4\n"] {
        text.push_str(moved)?;
        text.push_str(last)?;
    }
    text.push_str("1: found 10\n2: moved\nport 0: 10\nsize 4 keys 1\n")?;
    let left = run_on(&rt, rt.alloc(), &["replay"], &script, WHOLE)?;
    assert_left(&rt, &left, 0, &text, "", &script);
    Ok(())
}
