//! Claimed histories with ample memory, against verdicts and texts worked out by hand.

use rht_check::{check, read_claim, write_verdict};
use rht_io::MemSink;
use rht_script::{ReadError, ScriptFault};
use std::alloc::Global;
use std::process::Abort;
use std::test::Fail;

/// Asserts that this claimed history has this text as its verdict.
fn assert_judged<R: Abort>(rt: &R, alloc: Global, claim: &str, want: &str) {
    let claim = read_claim(alloc, claim.as_bytes()).expect(rt, "a claim");
    let verdict = check(alloc, &claim).expect(rt, "memory");
    let mut sink = MemSink::new(alloc, 64, Vec::new(alloc)).expect(rt, "memory");
    assert!(rt; write_verdict(&mut sink, &verdict).is_ok());
    assert_eq!(rt; sink.bytes(), want.as_bytes(), "of {want}");
}

/// Two workers, of whom the second comes between the two commands of the first.
const CROSSING: &str = "table single workers 2\n1 bind 80 100\n1 find 80\n2 bind 80 7\n";

#[test]
fn each_verdict_is_told(rt: HostRuntime) -> Result<(), Fail> {
    let cases: [(&str, &str); 6] = [
        (
            "1: bound\n2: exists 100\n1: found 100\n",
            "legal\nport 80: 100\nkeys 1\n",
        ),
        ("1: bound\n2: bound\n1: found 100\n", "claim 2: wrong\n"),
        ("1: bound\n2: exists 100\n", "worker 1: unfinished\n"),
        ("1: bound\n2: exists 100\n1: nonode\n", "claim 3: wrong\n"),
        (
            "1: bound\n2: exists 100\n1: found 100\n2: missing\n",
            "claim 4: extra\n",
        ),
        // The second worker's bind comes first, so the first one's finds the other owner.
        (
            "2: bound\n1: exists 7\n1: found 7\n",
            "legal\nport 80: 7\nkeys 1\n",
        ),
    ];
    for (claims, want) in cases {
        let text = format!(in rt.alloc(); "{CROSSING}history\n{claims}")?;
        assert_judged(&rt, rt.alloc(), &text, want);
    }
    Ok(())
}

#[test]
fn each_reply_is_read(rt: HostRuntime) -> Result<(), Fail> {
    // In a table of lists: two binds, a list, and rebinds and releases of an owner that is there and
    // of one that isn't.
    let commands = "table listed\n1 bind 80 1\n1 bind 80 2\n1 all 80\n";
    let changes = "1 rebind 80 1 3\n1 rebind 80 1 4\n1 release 80 3\n1 release 80 9\n";
    let claims = "history\n1: bound\n1: bound\n1: list 2 1\n";
    let changed = "1: rebound\n1: absent\n1: released\n1: absent\n";
    let text = format!(in rt.alloc(); "{commands}{changes}{claims}{changed}")?;
    assert_judged(&rt, rt.alloc(), &text, "legal\nport 80: 2\nkeys 1\n");
    // A refusal is right wherever the call has it, and changes nothing.
    let refusals: [&str; 4] = [
        "toobig 18446744073709551615",
        "busy 0 7",
        "notable 4",
        "nonode",
    ];
    for refusal in refusals {
        let text = format!(in rt.alloc(); "table single\n1 bind 80 1\nhistory\n1: {refusal}\n")?;
        assert_judged(&rt, rt.alloc(), &text, "legal\nkeys 0\n");
    }
    Ok(())
}

#[test]
fn each_fault_is_told(rt: HostRuntime) -> Result<(), Fail> {
    let cases: [(&str, u32, u8); 13] = [
        // Without `history` the fault is behind the last line.
        ("", 5, 2),
        ("history\n1: bound\nhistory\n", 7, 2),
        ("history again\n", 5, 2),
        ("history\n: bound\n", 6, 3),
        ("history\n1:: bound\n", 6, 3),
        ("history\n1:bound\n", 6, 2),
        ("history\n3: bound\n", 6, 4),
        ("history\n1: bound 80\n", 6, 2),
        ("history\n1: found 4294967296\n", 6, 4),
        ("history\n1: toobig 18446744073709551616\n", 6, 4),
        ("1 work\nhistory\n", 5, 2),
        ("2 walk\nhistory\n", 5, 2),
        ("step 1 1\nhistory\n", 5, 2),
    ];
    for (behind, line, cause) in cases {
        let text = format!(in rt.alloc(); "{CROSSING}{behind}")?;
        let fault = ReadError::Fault(ScriptFault { line, cause });
        match read_claim(rt.alloc(), text.as_bytes()) {
            Ok(_) => assert!(&rt; false, "{text}"),
            Err(error) => assert_eq!(rt; error, fault, "{text}"),
        }
    }
    Ok(())
}
