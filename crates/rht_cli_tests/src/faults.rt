//! Takes and puts that fail: the status, and what was written before.

use crate::asserts::{Outside, SCRIPT, WHOLE, add_lines, assert_left, assert_same, run_on};
use std::test::Fail;

#[test]
fn a_failed_take_leaves_nothing_written(rt: HostRuntime) -> Result<(), Fail> {
    // Four takes of 16 bytes and one that finds the end.
    for form in ["run", "replay"] {
        for take in 1..=6 {
            let outside = Outside {
                piece: 16,
                take,
                ..WHOLE
            };
            let left = run_on(&rt, rt.alloc(), &[form], SCRIPT, outside)?;
            if take < 6 {
                assert_left(&rt, &left, 3, "", "rht: read failed\n", form);
            } else {
                assert!(rt; left.status == 0, "{form}");
            }
        }
    }
    Ok(())
}

#[test]
fn a_failed_put_leaves_the_lines_before_it(rt: HostRuntime) -> Result<(), Fail> {
    // A replay puts each line by itself, and the last two lines together.
    let script = "table single\n1 bind 80 100\n1 find 80\nfinish 1 2\n";
    let texts = [
        "",
        "1: bound\n",
        "1: bound\n1: found 100\n",
        "1: bound\n1: found 100\nport 80: 100\nsize 64 keys 1\n",
    ];
    for i in 0..4 {
        let outside = Outside {
            piece: 4096,
            take: 0,
            put: i as u64 + 1,
            err: 0,
        };
        let left = run_on(&rt, rt.alloc(), &["replay"], script, outside)?;
        let (status, line) = if i < 3 {
            (4, "rht: write failed\n")
        } else {
            (0, "")
        };
        assert_left(&rt, &left, status, texts[i], line, script);
    }
    Ok(())
}

#[test]
fn a_failed_put_leaves_a_prefix(rt: HostRuntime) -> Result<(), Fail> {
    // 1,000 look-ups print 11 bytes each, and the last line has 15: three buffers of 4,096 bytes.
    let mut script = String::from_str(rt.alloc(), "table single\n")?;
    add_lines(&mut script, 1000, "1 find 80\n")?;
    let mut text = String::new(rt.alloc());
    add_lines(&mut text, 1000, "1: missing\n")?;
    text.push_str("size 64 keys 0\n")?;
    for put in 1..=4 {
        let outside = Outside {
            piece: 4096,
            take: 0,
            put,
            err: 0,
        };
        let left = run_on(&rt, rt.alloc(), &["run"], script.as_str(), outside)?;
        let (status, line) = if put < 4 {
            (4, "rht: write failed\n")
        } else {
            (0, "")
        };
        let out = left.out.bytes();
        let begins = text.as_bytes().starts_with(out);
        let found = (
            left.status,
            left.err.bytes(),
            begins,
            out.is_empty(),
            out.len() == text.len(),
        );
        let want = (status, line.as_bytes(), true, put == 1, put == 4);
        assert_same(&rt, (put, found), (put, want));
    }
    Ok(())
}

#[test]
fn a_failing_err_changes_no_status(rt: HostRuntime) -> Result<(), Fail> {
    for (word, script, status) in [("x", "", 1), ("run", "", 2)] {
        let outside = Outside {
            piece: 1,
            take: 0,
            put: 0,
            err: 1,
        };
        let left = run_on(&rt, rt.alloc(), &[word], script, outside)?;
        assert_left(&rt, &left, status, "", "", word);
    }
    Ok(())
}
