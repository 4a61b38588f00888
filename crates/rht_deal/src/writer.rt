//! The text of what was dealt.
//!
//! Stands on `rht_script`, which writes the lines of commands that were done, and closing lines.

ghost use Rattle.rht_io.specs.Told.{Puts};
ghost use Rattle.rht_script.specs.Text.{done_line, dones_text};

use crate::dealt::Dealt;
use rht_io::{Failed, Sink};
use rht_script::Done;

/// Writes the line of a command that was done: its number, its worker, and the reply, with the owners that
/// came with it. It takes no memory.
pub fn write_done<O: Sink>(out: &mut O, done: &Done) -> Result<(), Failed>
    ensures { Puts O.held O.faults out.old out.new result (done_line done.now) }
{
    rht_script::write_done(out, done)
}

/// Writes the lines of all commands, in the order of their numbers, and then those of what is bound at the
/// end. It takes no memory.
pub fn write_dealt<O: Sink>(out: &mut O, dealt: &Dealt) -> Result<(), Failed>
    ensures { Puts O.held O.faults out.old out.new result (dones_text dealt.now.done.items dealt.now.closed) }
{
    rht_script::write_dones(out, &dealt.done, &dealt.closed)
}
