//! The text of a replay's lines that are no replies: its operations, and what it leaves open.

ghost use Rattle.std.specs.Prelude.{◌≡◌, ◌++◌, ◌≤◌, codes, length};
ghost use Rattle.rht_io.specs.Told.{Puts};
ghost use Rattle.rht_script.specs.Text.{spaced, named};
ghost use Rattle.rht_script.specs.OperationText.{operation_text, operation_line, open_line, size_line};
ghost use Rattle.rht_script.specs.Writing.{Adds};

use super::pieces::Writer;
use rht_io::{Failed, Sink};
use rht_words::Op;

/// Writes the line of an operation: the worker, counted from 1, the operation with its place and its
/// numbers, and the word that it found there. The line of a store doesn't show that word.
pub fn write_operation<O: Sink>(out: &mut O, worker: u32, op: Op, old: u64) -> Result<(), Failed>
    ensures { Puts O.held O.faults out.old out.new result (operation_line worker op old) }
{
    let mut text = Writer::new(out);
    text.add_number(worker.into())?;
    text.add(b" ")?;
    add_operation(&mut text, op, old)?;
    text.end_line()?;
    text.put()
}

/// Adds an operation without its worker.
fn add_operation<O: Sink>(text: &mut Writer<'_, O>, op: Op, old: u64) -> Result<(), Failed>
    ensures text { Adds O.held O.faults text.old.out.now text.new.out.now result
        text.old.waiting text.new.waiting (operation_text op old) }
    ensures same_sink { text.new.out.ghost_name ≡ text.old.out.ghost_name }
{
    match op {
        Op::Load { place } => text.add_two(b"load", place as u64, old),
        Op::Store { place, value } => text.add_two(b"store", place as u64, value),
        Op::Exchange {
            place,
            old: from,
            new,
        } => add_exchange(text, place, from, new, old),
        Op::Add { place, by } => add_three(text, b"add", place, by, old),
        Op::Sub { place, by } => add_three(text, b"sub", place, by, old),
        Op::And { place, mask } => add_three(text, b"and", place, mask, old),
        Op::Or { place, mask } => add_three(text, b"or", place, mask, old),
    }
}

/// Adds an exchange without its worker.
fn add_exchange<O: Sink>(
    text: &mut Writer<'_, O>,
    place: usize,
    from: u64,
    to: u64,
    old: u64,
) -> Result<(), Failed>
    ensures text { Adds O.held O.faults text.old.out.now text.new.out.now result
        text.old.waiting text.new.waiting (named (codes "cas") place ++ spaced from ++ spaced to ++ spaced old) }
    ensures same_sink { text.new.out.ghost_name ≡ text.old.out.ghost_name }
{
    add_three(text, b"cas", place, from, to)?;
    text.add_spaced(old)
}

/// Adds an operation's name of at most 40 bytes, its place, its number, and a number behind that.
fn add_three<O: Sink>(
    text: &mut Writer<'_, O>,
    name: &[u8],
    place: usize,
    number: u64,
    last: u64,
) -> Result<(), Failed>
    requires { length name.now ≤ 40 }
    ensures text { Adds O.held O.faults text.old.out.now text.new.out.now result
        text.old.waiting text.new.waiting (named name.now place ++ spaced number ++ spaced last) }
    ensures same_sink { text.new.out.ghost_name ≡ text.old.out.ghost_name }
{
    text.add_two(name, place as u64, number)?;
    text.add_spaced(last)
}

/// Writes the line of a worker, counted from 1, that is in a call at the end.
pub fn write_open<O: Sink>(out: &mut O, worker: u32) -> Result<(), Failed>
    ensures { Puts O.held O.faults out.old out.new result (open_line worker) }
{
    write_named(out, b"open", worker)
}

/// Writes the line of the size of the current table, in buckets.
pub fn write_size<O: Sink>(out: &mut O, size: u32) -> Result<(), Failed>
    ensures { Puts O.held O.faults out.old out.new result (size_line size) }
{
    write_named(out, b"size", size)
}

/// Writes a line of a name of at most 40 bytes and its number.
fn write_named<O: Sink>(out: &mut O, name: &[u8], number: u32) -> Result<(), Failed>
    requires { length name.now ≤ 40 }
    ensures { Puts O.held O.faults out.old out.new result (named name.now number ++ codes "\n") }
{
    let mut text = Writer::new(out);
    text.add_named(name, number.into())?;
    text.end_line()?;
    text.put()
}
