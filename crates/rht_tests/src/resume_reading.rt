//! What no clause says: that resume scripts are read at all, and answers kept. What is wanted was worked out by hand
//! from the rules of lines.

use crate::asserts::assert_same;
use rht_model::{Call, Reply};
use rht_resume::{Piece, ResumeCall, ResumeReplies, ResumeReply, read_resume};
use rht_words::Port;
use std::alloc::Global;
use std::process::Abort;
use std::test::Fail;

/// Asserts that a line behind a table line of form 2 with two workers and 8 nodes is read as this command.
fn assert_read(
    rt: &impl Abort,
    alloc: Global,
    line: &str,
    want: (u32, ResumeCall),
) -> Result<(), Fail> {
    let text = format!(in alloc; "table single workers 2 nodes 8 form 2\n{line}\n")?;
    let script = read_resume(alloc, text.as_bytes())?;
    assert!(rt; script.is_sound());
    assert_same(rt, script.commands.len(), 1);
    assert!(rt; 0 < script.commands.len());
    assert_same(rt, script.commands[0], want);
    Ok(())
}

#[test]
fn commands_are_read(rt: HostRuntime) -> Result<(), Fail> {
    let port = Port { net: 3, number: 80 };
    let whole = Call::Walk {
        from: None,
        limit: 8,
    };
    let bind = Call::Bind {
        port,
        owner: 7,
        once: false,
    };
    let cases = [
        ("1 next 1", (1, ResumeCall::Next { limit: 1 })),
        ("2 next 008", (2, ResumeCall::Next { limit: 8 })),
        ("1 bind 3.80 7", (1, ResumeCall::Plain(bind))),
        ("2 find 3.80", (2, ResumeCall::Plain(Call::Find { port }))),
        ("1 walk", (1, ResumeCall::Plain(whole))),
        ("1 work", (1, ResumeCall::Plain(Call::Work))),
        ("1 tidy", (1, ResumeCall::Plain(Call::Tidy))),
        ("1 count", (1, ResumeCall::Plain(Call::Count))),
    ];
    for (line, want) in cases {
        assert_read(&rt, rt.alloc(), line, want)?;
    }
    Ok(())
}

#[test]
fn answers_are_kept(rt: HostRuntime) -> Result<(), Fail> {
    let mut replies = ResumeReplies::new(rt.alloc());
    assert!(rt; replies.is_empty());
    let pairs = [(Port::plain(80), 7)];
    let walked = Reply::Walked { len: 1, next: None };
    replies.push(Reply::Listed { len: 2 }, &[7, 9], &[])?;
    replies.push_piece(Piece::Part, &pairs)?;
    replies.push(walked, &[], &pairs)?;
    replies.push_piece(Piece::Again { table: 1 }, &[])?;
    let want = [
        ResumeReply::Plain(Reply::Listed { len: 2 }),
        ResumeReply::Next(Piece::Part),
        ResumeReply::Plain(walked),
        ResumeReply::Next(Piece::Again { table: 1 }),
    ];
    assert_same(&rt, replies.len(), want.len());
    for i in 0..want.len() {
        assert!(rt; i < replies.len());
        assert_same(&rt, (i, replies.reply(i)), (i, want[i]));
    }
    assert!(rt; 3 < replies.len());
    assert_same(&rt, replies.owners(0), &[7, 9]);
    assert_same(&rt, replies.owners(1), &[]);
    assert_same(&rt, replies.pairs(1), &pairs);
    assert_same(&rt, replies.pairs(2), &pairs);
    assert_same(&rt, replies.pairs(3), &[]);
    Ok(())
}
