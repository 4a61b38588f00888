//! The text of a verdict.

ghost use Rattle.std.specs.Prelude.{◌≡◌, ◌++◌, length, codes, decimal};
ghost use Rattle.rht_io.specs.Told.{Puts};
ghost use Rattle.rht_script.specs.Text.{named};
ghost use Rattle.rht_check.specs.Text.{accepted_text, verdict_text};

use crate::claim::Verdict;
use rht_io::{Failed, Sink, put_all};
use rht_model::Bindings;
use rht_script::{write_number, write_ports};

/// Writes the text of a verdict. Of a history that is accepted it is `legal`, a line for each port
/// that is bound at the end, and their number; of any other one it is one line.
pub fn write_verdict<O: Sink>(out: &mut O, verdict: &Verdict) -> Result<(), Failed>
    ensures { Puts O.held O.faults out.old out.new result (verdict_text verdict.now) }
{
    match verdict {
        Verdict::Legal { bindings } => write_accepted(out, bindings),
        Verdict::Extra { claim } => write_named(out, b"claim ", (*claim).into(), b": extra\n"),
        Verdict::Wrong { claim } => write_named(out, b"claim ", (*claim).into(), b": wrong\n"),
        Verdict::Unfinished { worker } => write_named(
            out,
            b"worker ",
            (*worker).into(),
            b": unfinished\n",
        ),
    }
}

/// Writes what an accepted history leaves.
fn write_accepted<O: Sink>(out: &mut O, bindings: &Bindings) -> Result<(), Failed>
    ensures { Puts O.held O.faults out.old out.new result (accepted_text bindings.now.pairs) }
{
    put_all(out, b"legal\n")?;
    write_ports(out, bindings)?;
    write_named(out, b"keys ", bindings.len() as u64, b"\n")
}

/// Writes what a number is of, the number, and what is found of it.
fn write_named<O: Sink>(out: &mut O, name: &[u8], number: u64, found: &[u8]) -> Result<(), Failed>
    ensures { Puts O.held O.faults out.old out.new result (name.now ++ decimal number ++ found.now) }
{
    put_all(out, name)?;
    write_number(out, number)?;
    put_all(out, found)
}
