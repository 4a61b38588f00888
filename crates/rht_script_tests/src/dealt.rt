//! Dealt scripts: what is read of them, and the first fault of what is none.

use crate::asserts::assert_same;
use rht_model::Call;
use rht_script::{ReadError, ScriptFault, read_dealt};
use rht_words::Port;
use std::test::Fail;

/// Inputs that are no dealt script: the line of the first fault, and its cause.
const FAULTS: &[(&str, u32, u8)] = &[
    ("", 1, 1),
    ("any find 80\n", 1, 1),
    ("# a\ntable single\n1 find 80\n", 3, 2),
    // The word in a worker's place is looked at first, whatever stands behind it.
    ("table single\nx bind x\n", 2, 2),
    ("table single\n0 find 80\n", 2, 2),
    ("table single\nAny find 80\n", 2, 2),
    ("table single\nanyone find 80\n", 2, 2),
    ("table single\nstep 1 1\n", 2, 2),
    ("table single\nskip any 1\n", 2, 2),
    ("table single\nfinish 1 1\n", 2, 2),
    ("table single\nany step 1\n", 2, 2),
    ("table single\nany\n", 2, 2),
    ("table single\nany any find 80\n", 2, 2),
    ("table single\nany 1 find 80\n", 2, 2),
    ("table single\nany walk\n", 2, 2),
    ("table single\nany walk 1\n", 2, 2),
    ("table single\nany work\n", 2, 2),
    ("table single\nany tidy\n", 2, 2),
    ("table single\nany lookup 80\n", 2, 2),
    ("table single\nany bind 80\n", 2, 2),
    ("table single\nany find 80 1\n", 2, 2),
    ("table single\nany count 1\n", 2, 2),
    ("table single\nany rebind 80 1\n", 2, 2),
    ("table single\nany bind x 1\n", 2, 3),
    ("table single\nany find 3.80\n", 2, 3),
    ("table single\nany release 80 4294967296\n", 2, 4),
    ("table single form 2\nany all 65536.80\n", 2, 4),
    ("table single workers 17\nany find 80\n", 1, 4),
    ("table single hint 3 hint 3\nany find 80\n", 1, 8),
    // The first line at fault, of two.
    ("table single\nany find x\nany walk\n", 2, 3),
];

#[test]
fn finds_the_first_fault(rt: HostRuntime) {
    for (text, line, cause) in FAULTS {
        let fault = Some(ReadError::Fault(ScriptFault {
            line: *line,
            cause: *cause,
        }));
        assert_same(
            &rt,
            &read_dealt(rt.alloc(), text.as_bytes()).err(),
            &fault,
            text,
        );
    }
}

#[test]
fn reads_what_any_worker_may_do(rt: HostRuntime) -> Result<(), Fail> {
    let text =
        "# six commands\ntable listed workers 3 form 2\nany bind 80 1\n\nany find 2.80\nany all 80\n any release 80 1\nany rebind 80 1 2\nany count";
    let script = read_dealt(rt.alloc(), text.as_bytes())?;
    let port = Port::plain(80);
    let want = [
        (
            0,
            Call::Bind {
                port,
                owner: 1,
                once: false,
            },
        ),
        (
            0,
            Call::Find {
                port: Port { net: 2, number: 80 },
            },
        ),
        (0, Call::All { port }),
        (0, Call::Release { port, owner: 1 }),
        (
            0,
            Call::Rebind {
                port,
                owner: 1,
                new: 2,
            },
        ),
        (0, Call::Count),
    ];
    assert_same(
        &rt,
        &script.commands.as_slice(),
        &want.as_slice(),
        "commands",
    );
    assert!(rt; script.schedule.is_empty());
    assert!(rt; script.config.callers == 3 && script.form == 2 && script.auto);
    assert!(rt; script.is_dealt() && !script.is_sound());
    Ok(())
}
