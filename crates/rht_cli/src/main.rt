//! `rht`, a registry of ports: it reads a script and prints what its commands are answered, and
//! then the last bindings. It also replays a script's schedule, operation by operation, runs a script
//! that it generates from a number, deals a script's commands to whichever worker is free, does a script
//! of leases with a book for each worker, judges a claimed history, and does a script whose walks come in
//! pieces.
//!
//! Stands on `rht_forms`, which serves all these forms. Its `program` has the top call and its theorem, and its `laws` what
//! follows for a run that nothing outside can fail; both are passed on by their names. `main` here only makes the real
//! source, sinks and gate.
#![tactic(auto)]

pub use rht_forms::{laws, program};
use rht_forms::{Ending, Failure};
use rht_io::{InputSource, NoGate, OutputSink};
use std::alloc::AllocError;
use std::env;
use std::io::ErrorKind;
use std::process::ExitCode;
use std::rt::Env;

fn main(rt: HostRuntime) -> ExitCode {
    let mut err = OutputSink::new(rt.stderr());
    let words = match words_of(&rt) {
        Ok(Some(words)) => words,
        Ok(None) => return ExitCode::from(Ending::Usage.end(&mut err)),
        Err(AllocError) => return ExitCode::from(Ending::Unserved(Failure::Memory).end(&mut err)),
    };
    let mut source = InputSource::new(rt.stdin());
    let mut out = OutputSink::new(rt.stdout());
    ExitCode::from(program::run(
        &rt,
        rt.alloc(),
        &words,
        &mut source,
        &mut out,
        &mut err,
        &NoGate,
    ))
}

/// The words after the program's name, or none where one of them isn't text.
fn words_of(rt: &(impl Env + AllocGlobal)) -> Result<Option<Vec<String>>, AllocError> {
    match env::args(rt) {
        Ok(args) => Ok(Some(args.skip(1).collect(rt.alloc())?)),
        Err(error) if error.kind() == ErrorKind::InvalidData => Ok(None),
        Err(_) => Err(AllocError),
    }
}
