//! What no clause says: that calls succeed at all, and what the adapters do at the outside.

ghost use Rattle.std.specs.Prelude.{◌≤◌, IfOk};

use rht_io::*;
use std::fmt::Debug;
use std::io;
use std::process::Abort;
use std::test::Fail;

/// Asserts that a value is this one.
fn assert_same<T: Copy + Debug + PartialEq>(rt: &impl Abort, found: T, want: T) {
    assert_eq!(rt; found, want);
}

/// Asserts that these are the bytes of the text.
fn assert_text(rt: &impl Abort, found: &[u8], want: &str) {
    assert!(rt; found == want.as_bytes(), "{found:?} for {want:?}");
}

/// Takes once for each wanted piece, with a room of this many bytes.
fn assert_takes<S: Source>(
    rt: &impl Abort,
    source: &mut S,
    room: usize,
    wanted: &[Result<&str, Failed>],
) {
    let mut bytes = [0; 8];
    assert!(rt; room <= bytes.len());
    for i in 0..wanted.len() {
        let taken = source.take(&mut bytes[..room]);
        let as_wanted = match (taken, &wanted[i]) {
            (Ok(n), Ok(text)) => &bytes[..n] == text.as_bytes(),
            (Err(Failed), Err(Failed)) => true,
            _ => false,
        };
        assert!(rt; as_wanted, "take {i} is {taken:?}");
    }
}

/// Puts these pieces, one after another, and compares the answers.
fn assert_puts<O: Sink>(rt: &impl Abort, sink: &mut O, puts: &[(&str, Result<usize, Failed>)]) {
    for (piece, want) in puts {
        assert_eq!(rt; sink.put(piece.as_bytes()), *want, "put {piece}");
    }
}

#[test]
fn a_source_gives_pieces_and_fails_as_planned(rt: HostRuntime) -> Result<(), Fail> {
    const END: Result<&str, Failed> = Ok("");
    const BAD: Result<&str, Failed> = Err(Failed);
    let cases = [
        (1, 2, [Ok("a"), BAD, Ok("b"), Ok("c"), END, END]),
        (3, 2, [Ok("ab"), BAD, Ok("c"), END, END, END]),
        (3, 0, [END, BAD, END, END, END, END]),
        (9, 8, [Ok("abc"), BAD, END, END, END, END]),
    ];
    for (piece, room, wanted) in cases {
        assert!(rt; piece > 0);
        let bytes = b"abc".to_vec(rt.alloc())?;
        let mut source = MemSource::new(bytes, piece, vec![in rt.alloc(); 2]?);
        assert_takes(&rt, &mut source, room, &wanted);
    }
    Ok(())
}

#[test]
fn a_sink_fills_and_fails_as_planned(rt: HostRuntime) -> Result<(), Fail> {
    let mut sink = MemSink::new(rt.alloc(), 4, vec![in rt.alloc(); 2]?)?;
    let puts = [
        ("abc", Ok(3)),
        ("de", Err(Failed)),
        ("de", Ok(1)),
        ("e", Err(Failed)),
        ("", Ok(0)),
    ];
    assert_puts(&rt, &mut sink, &puts);
    assert_text(&rt, sink.bytes(), "abcd");
    Ok(())
}

#[test]
fn a_failed_text_is_a_prefix(rt: HostRuntime) -> Result<(), Fail> {
    // Two texts, into a room of 4: the put that fails, and what is held at the end.
    for (fails, held) in [(1, "de"), (2, "ab"), (3, "abde"), (9, "abde")] {
        let mut sink = MemSink::new(rt.alloc(), 4, vec![in rt.alloc(); fails]?)?;
        let first = put_all(&mut sink, b"ab");
        let second = put_all(&mut sink, b"de");
        let failed = (first.is_err(), second.is_err());
        assert_same(&rt, (fails, failed), (fails, (fails == 1, fails == 2)));
        assert_text(&rt, sink.bytes(), held);
    }
    let mut sink = MemSink::new(rt.alloc(), 4, vec![in rt.alloc()]?)?;
    assert_same(&rt, put_all(&mut sink, b"abcdef"), Err(Failed));
    assert_text(&rt, sink.bytes(), "abcd");
    Ok(())
}

#[test]
fn the_sure_ones_never_fail(rt: HostRuntime) -> Result<(), Fail> {
    let mut source = SureSource::new(b"abc".to_vec(rt.alloc())?);
    assert_takes(&rt, &mut source, 2, &[Ok("ab"), Ok("c"), Ok("")]);
    let mut sink = SureSink::new();
    assert_puts(&rt, &mut sink, &[("ab", Ok(2)), ("", Ok(0))]);
    assert_same(&rt, put_all(&mut sink, b"abc"), Ok(()));
    NoGate.before(1, 1);
    NoGate.after(1, 1);
    Ok(())
}

/// What the outside does at a call.
#[derive(Clone, Copy)]
enum Step {
    Moves(usize),
    Interrupts,
    Breaks,
}

/// A reader or a writer of letters that does these steps, and whose flush breaks once.
#[derive(Drop)]
struct Outside {
    steps: &'static [Step],
    flushes: usize,
    bad_flush: usize,
}

impl Outside {
    fn new(steps: &'static [Step], bad_flush: usize) -> Outside {
        Outside {
            steps,
            flushes: 0,
            bad_flush,
        }
    }

    fn step(&mut self, most: usize) -> io::Result<usize>
        ensures { IfOk result (λ n. n ≤ most) }
    {
        let [step, rest @ ..] = self.steps else {
            return Ok(0);
        };
        self.steps = rest;
        match step {
            Step::Moves(n) => Ok(most.min(*n)),
            Step::Interrupts => Err(io::ErrorKind::Interrupted.into()),
            Step::Breaks => Err(io::ErrorKind::BrokenPipe.into()),
        }
    }
}

impl io::Read for Outside {
    fn read(&mut self, buf: &mut [u8]) -> io::Result<usize> {
        let n = self.step(buf.len())?;
        buf[..n].fill(b'a');
        Ok(n)
    }
}

impl io::Write for Outside {
    fn write(&mut self, buf: &[u8]) -> io::Result<usize> {
        self.step(buf.len())
    }

    fn flush(&mut self) -> io::Result<()> {
        self.flushes = self.flushes.saturating_add(1);
        if self.flushes == self.bad_flush {
            return Err(io::ErrorKind::BrokenPipe.into());
        }
        Ok(())
    }
}

#[test]
fn a_reader_is_a_source(rt: HostRuntime) {
    const STEPS: &[Step] = &[
        Step::Moves(2),
        Step::Interrupts,
        Step::Moves(1),
        Step::Breaks,
        Step::Moves(3),
    ];
    let mut source = InputSource::new(Outside::new(STEPS, 0));
    let wanted = [Ok("aa"), Ok("a"), Err(Failed), Ok("aaa"), Ok("")];
    assert_takes(&rt, &mut source, 8, &wanted);
    let mut slice = InputSource::new(b"abc".as_slice());
    assert_takes(&rt, &mut slice, 2, &[Ok("ab"), Ok("c"), Ok("")]);
}

#[test]
fn a_writer_is_a_sink(rt: HostRuntime) -> Result<(), Fail> {
    // The fourth flush breaks: the puts of "abc", of nothing and of "c" flush before it.
    const STEPS: &[Step] = &[
        Step::Moves(2),
        Step::Interrupts,
        Step::Moves(1),
        Step::Moves(0),
        Step::Breaks,
        Step::Moves(9),
        Step::Moves(9),
    ];
    let mut sink = OutputSink::new(Outside::new(STEPS, 4));
    let puts = [
        ("abc", Ok(2)),
        ("", Ok(0)),
        ("c", Ok(1)),
        ("no room", Err(Failed)),
        ("broken", Err(Failed)),
        ("no flush", Err(Failed)),
        ("de", Ok(2)),
    ];
    assert_puts(&rt, &mut sink, &puts);
    let mut held = Vec::new(rt.alloc());
    let put = put_all(&mut OutputSink::new(&mut held), b"abc");
    assert_same(&rt, put, Ok(()));
    assert_text(&rt, held.as_slice(), "abc");
    Ok(())
}
