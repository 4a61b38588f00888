//! What no clause says: that lease scripts are read at all, and answers kept. What is wanted was worked out by hand
//! from the rules of lines.

use crate::asserts::assert_same;
use rht_lease::{Lease, LeaseCall, LeaseReplies, LeaseReply, Swept, read_leases};
use rht_model::{Call, Reply};
use rht_words::Port;
use std::alloc::Global;
use std::process::Abort;
use std::test::Fail;

/// Asserts that a line behind a table line of form 2 with two workers is read as this command.
fn assert_read(
    rt: &impl Abort,
    alloc: Global,
    line: &str,
    want: (u32, LeaseCall),
) -> Result<(), Fail> {
    let text = format!(in alloc; "table single workers 2 form 2\n{line}\n")?;
    let script = read_leases(alloc, text.as_bytes())?;
    assert!(rt; script.is_sound());
    assert_same(rt, script.commands.len(), 1);
    assert!(rt; 0 < script.commands.len());
    assert_same(rt, script.commands[0], want);
    Ok(())
}

#[test]
fn commands_are_read(rt: HostRuntime) -> Result<(), Fail> {
    let port = Port::plain(80);
    let other = Port { net: 3, number: 80 };
    let cases = [
        (
            "1 lease 80 7 0",
            (
                1,
                LeaseCall::Lease(Lease {
                    port,
                    owner: 7,
                    last: 0,
                }),
            ),
        ),
        (
            "2 renew 3.80 7 18446744073709551615",
            (
                2,
                LeaseCall::Renew(Lease {
                    port: other,
                    owner: 7,
                    last: u64::MAX,
                }),
            ),
        ),
        (
            "1 cancel 3.80 4294967295",
            (
                1,
                LeaseCall::Cancel {
                    port: other,
                    owner: u32::MAX,
                },
            ),
        ),
        (
            "2 sweep 18446744073709551615",
            (2, LeaseCall::Sweep { now: u64::MAX }),
        ),
        (
            "1 bind 80 7",
            (
                1,
                LeaseCall::Plain(Call::Bind {
                    port,
                    owner: 7,
                    once: false,
                }),
            ),
        ),
        ("2 find 80", (2, LeaseCall::Plain(Call::Find { port }))),
        ("1 all 80", (1, LeaseCall::Plain(Call::All { port }))),
        (
            "1 release 80 7",
            (1, LeaseCall::Plain(Call::Release { port, owner: 7 })),
        ),
        (
            "1 rebind 80 7 8",
            (
                1,
                LeaseCall::Plain(Call::Rebind {
                    port,
                    owner: 7,
                    new: 8,
                }),
            ),
        ),
        ("1 count", (1, LeaseCall::Plain(Call::Count))),
    ];
    for (line, want) in cases {
        assert_read(&rt, rt.alloc(), line, want)?;
    }
    Ok(())
}

#[test]
fn answers_are_kept(rt: HostRuntime) -> Result<(), Fail> {
    let mut replies = LeaseReplies::new(rt.alloc());
    assert!(rt; replies.is_empty());
    let swept = Swept {
        released: 2,
        absent: 1,
    };
    replies.push(Reply::Listed { len: 2 }, &[7, 9])?;
    replies.push_bare(LeaseReply::Renewed)?;
    replies.push(Reply::Bound { kick: false }, &[])?;
    replies.push_bare(LeaseReply::Swept(swept))?;
    replies.push_bare(LeaseReply::NoLease)?;
    replies.push_bare(LeaseReply::Plain(Reply::Missing))?;
    let want = [
        LeaseReply::Plain(Reply::Listed { len: 2 }),
        LeaseReply::Renewed,
        LeaseReply::Plain(Reply::Bound { kick: false }),
        LeaseReply::Swept(swept),
        LeaseReply::NoLease,
        LeaseReply::Plain(Reply::Missing),
    ];
    assert_same(&rt, replies.len(), want.len());
    for i in 0..want.len() {
        assert!(rt; i < replies.len());
        assert_same(&rt, (i, replies.reply(i)), (i, want[i]));
    }
    assert!(rt; 1 < replies.len());
    assert_same(&rt, replies.owners(0), &[7, 9]);
    assert_same(&rt, replies.owners(1), &[]);
    Ok(())
}
