//! The text of each operation, by hand from the rules of the printed text.

use crate::asserts::{assert_same, assert_text};
use rht_io::MemSink;
use rht_script::{write_open, write_operation, write_size};
use rht_words::Op;
use std::test::Fail;

#[test]
fn each_operation_has_its_text(rt: HostRuntime) -> Result<(), Fail> {
    let cases = [
        (Op::load(280), 255, "16 load 280 255\n"),
        (Op::store(282, 639), 7, "16 store 282 639\n"),
        (Op::exchange(319, 0, 1), 2, "16 cas 319 0 1 2\n"),
        (Op::add(2, 1), 0, "16 add 2 1 0\n"),
        (Op::sub(2, 1), 3, "16 sub 2 1 3\n"),
        (
            Op::and(280, !1),
            255,
            "16 and 280 18446744073709551614 255\n",
        ),
        (
            Op::or(280, 128),
            u64::MAX,
            "16 or 280 128 18446744073709551615\n",
        ),
    ];
    for (op, old, line) in cases {
        let mut sink = MemSink::new(rt.alloc(), 64, Vec::new(rt.alloc()))?;
        let written = write_operation(&mut sink, 16, op, old);
        assert_same(&rt, &written, &Ok(()), line);
        assert_text(&rt, &sink, line);
    }
    Ok(())
}

#[test]
fn what_is_left_open_has_its_text(rt: HostRuntime) -> Result<(), Fail> {
    let mut sink = MemSink::new(rt.alloc(), 64, Vec::new(rt.alloc()))?;
    let one = write_open(&mut sink, 1);
    let other = write_open(&mut sink, 12);
    let size = write_size(&mut sink, 64);
    assert_same(&rt, &[one, other, size], &[Ok(()), Ok(()), Ok(())], "");
    assert_text(&rt, &sink, "open 1\nopen 12\nsize 64\n");
    Ok(())
}
