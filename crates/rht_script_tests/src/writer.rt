//! The text of each reply and of last bindings, by hand from the rules of the printed text, and
//! how many puts it costs.

use crate::asserts::{assert_same, assert_text};
use rht_io::MemSink;
use rht_model::{Bindings, Closed, Cursor, Reply};
use rht_script::{ScriptFault, write_closed, write_fault, write_reply};
use rht_words::Port;
use std::alloc::{AllocError, Global};
use std::process::Abort;
use std::test::Fail;

/// Asserts that the line of worker 16 has this text, beside whose reply lie some owners and pairs.
fn assert_reply(
    rt: &impl Abort,
    alloc: Global,
    reply: Reply,
    kicks: bool,
    text: &str,
) -> Result<(), Fail> {
    let mut sink = MemSink::new(alloc, 64, Vec::new(alloc))?;
    let first = Port::plain(0);
    let second = Port { net: 7, number: 5 };
    let pairs = [(first, 10), (second, 15)];
    let written = write_reply(&mut sink, 16, reply, &[3, 2, 1], &pairs, kicks);
    assert_same(rt, &written, &Ok(()), text);
    assert_text(rt, &sink, &format!(in alloc; "16: {text}\n")?);
    Ok(())
}

#[test]
fn each_reply_has_its_text(rt: HostRuntime) -> Result<(), Fail> {
    // Beside each reply lie the owners 3 2 1 and the pairs 0=10 7.5=15; two replies show them.
    let next = Some(Cursor {
        serial: 1,
        bucket: 8,
    });
    let cases = [
        (Reply::Bound { kick: false }, true, "bound"),
        (Reply::Bound { kick: true }, true, "bound kick"),
        (Reply::Bound { kick: true }, false, "bound"),
        (Reply::Exists { owner: 100 }, true, "exists 100"),
        (Reply::Found { owner: 0 }, false, "found 0"),
        (Reply::Missing, true, "missing"),
        (Reply::Listed { len: 3 }, false, "list 3 2 1"),
        (Reply::Released { kick: false }, true, "released"),
        (Reply::Released { kick: true }, true, "released kick"),
        (Reply::Released { kick: true }, false, "released"),
        (Reply::Absent, false, "absent"),
        (Reply::Rebound, false, "rebound"),
        (
            Reply::TooBig { count: u64::MAX },
            true,
            "toobig 18446744073709551615",
        ),
        (Reply::Again { table: 1 }, false, "walk again 1"),
        (Reply::Busy { root: 0, last: 7 }, true, "busy 0 7"),
        (Reply::NoTable { size: 128 }, false, "notable 128"),
        (Reply::NoNode, true, "nonode"),
        (
            Reply::Pending {
                caller: 0,
                section: 1,
            },
            true,
            "pending 0 1",
        ),
        (Reply::Elsewhere, false, "elsewhere"),
        (
            Reply::Walked { len: 2, next: None },
            true,
            "walk 0=10 7.5=15 end",
        ),
        (
            Reply::Walked { len: 2, next },
            false,
            "walk 0=10 7.5=15 more",
        ),
        (Reply::Moved { again: true }, false, "moved again"),
        (Reply::Moved { again: false }, true, "moved"),
        (Reply::Idle, false, "idle"),
        (
            Reply::Clear { returned: u32::MAX },
            true,
            "clear 4294967295",
        ),
        (Reply::Counted { count: 4 }, false, "count 4"),
    ];
    for (reply, kicks, text) in cases {
        assert_reply(&rt, rt.alloc(), reply, kicks, text)?;
    }
    Ok(())
}

#[test]
fn short_lists_have_no_space_too_many(rt: HostRuntime) -> Result<(), Fail> {
    let empty = Reply::Listed { len: 0 };
    let one = Reply::Listed { len: 1 };
    let walked = Reply::Walked { len: 0, next: None };
    let mut sink = MemSink::new(rt.alloc(), 64, Vec::new(rt.alloc()))?;
    let empty = write_reply(&mut sink, 1, empty, &[], &[], false);
    let one = write_reply(&mut sink, 1, one, &[2], &[], false);
    let walked = write_reply(&mut sink, 1, walked, &[], &[], false);
    assert_same(&rt, &[empty, one, walked], &[Ok(()), Ok(()), Ok(())], "");
    assert_text(&rt, &sink, "1: list\n1: list 2\n1: walk end\n");
    Ok(())
}

/// Two owners of port 7, and one of port 80.
fn three_bindings(alloc: Global) -> Result<Closed, AllocError> {
    let mut bindings = Bindings::with_room(alloc, 3)?;
    bindings.add(Port::plain(7), 5);
    bindings.add(Port::plain(7), 4);
    bindings.add(Port::plain(80), 1);
    Ok(Closed {
        bindings,
        size: 64,
        keys: 2,
    })
}

#[test]
fn text_that_fits_costs_one_put(rt: HostRuntime) -> Result<(), Fail> {
    // The put that fails, and what is held then: the texts before it.
    let cases = [
        (1, ""),
        (2, "port 7: 5 4\nport 80: 1\nsize 64 keys 2\n"),
        (
            3,
            "port 7: 5 4\nport 80: 1\nsize 64 keys 2\n2: pending 0 1\n",
        ),
    ];
    let closed = three_bindings(rt.alloc())?;
    let pending = Reply::Pending {
        caller: 0,
        section: 1,
    };
    for (put, held) in cases {
        let mut sink = MemSink::new(rt.alloc(), 128, vec![in rt.alloc(); put]?)?;
        let written = write_closed(&mut sink, &closed);
        assert_same(&rt, &written.is_ok(), &(put > 1), put);
        if put > 1 {
            let written = write_reply(&mut sink, 2, pending, &[], &[], true);
            assert_same(&rt, &written.is_ok(), &(put > 2), put);
        }
        assert_text(&rt, &sink, held);
    }
    Ok(())
}

/// The line of a list of 1,000 owners.
fn long_line(alloc: Global) -> Result<String, AllocError> {
    let mut line = String::from_str(alloc, "1: list")?;
    for _ in 0..1000 {
        line.push_str(" 4294967295")?;
    }
    line.push('\n')?;
    Ok(line)
}

#[test]
fn a_long_line_goes_in_pieces(rt: HostRuntime) -> Result<(), Fail> {
    // 7 bytes, 1,000 times 11 and a line feed: more than two buffers of 4,096.
    let line = long_line(rt.alloc())?;
    let owners = vec![in rt.alloc(); u32::MAX; 1000]?;
    for put in 1..6 {
        let mut sink = MemSink::new(rt.alloc(), 16_384, vec![in rt.alloc(); put]?)?;
        let listed = Reply::Listed { len: 1000 };
        let written = write_reply(&mut sink, 1, listed, &owners, &[], false);
        let found = sink.bytes();
        let whole = found == line.as_bytes();
        let begins = line.as_bytes().starts_with(found);
        let want = (put > 3, put > 3, true);
        assert_same(&rt, &(written.is_ok(), whole, begins), &want, put);
    }
    Ok(())
}

#[test]
fn each_fault_has_its_line(rt: HostRuntime) -> Result<(), Fail> {
    let cases = [
        (1, "no table line"),
        (2, "unknown or missing word"),
        (3, "bad number"),
        (4, "number out of range"),
        (5, "too many lines"),
        (6, "line too long"),
        (8, "options do not agree"),
        (9, "script too long"),
    ];
    for (cause, text) in cases {
        let mut sink = MemSink::new(rt.alloc(), 64, Vec::new(rt.alloc()))?;
        let fault = ScriptFault { line: 40, cause };
        assert_same(&rt, &write_fault(&mut sink, fault), &Ok(()), text);
        let line = format!(in rt.alloc(); "rht: line 40: {text}\n")?;
        assert_text(&rt, &sink, &line);
    }
    Ok(())
}
