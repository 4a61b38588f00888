//! The text of replies, of a table's last bindings, and of a whole run.
//!
//! Stands on `rht_io`'s sinks. Text is gathered in a buffer, which takes no memory, and is put
//! where it doesn't fit there. After a put that failed nothing more is put.

ghost use Rattle.std.specs.Prelude.{◌≡◌, ◌≤◌, ◌+◌, ◌++◌, length, codes, decimal, flat_map};
ghost use Rattle.std.specs.List.{enumerate_from};
ghost use Rattle.rht_io.specs.Told.{Puts};
ghost use Rattle.rht_script.specs.PortWords.{port_text};
ghost use Rattle.rht_script.specs.Text.{pair_text, owners_text, walk_end, reply_text, reply_line, done_line, dones_text, port_line, last_line, closed_text, worker_text, ending_line, run_text, cause_text, fault_line};
ghost use Rattle.rht_script.specs.Writing.{Adds};

mod buffer;
mod operations;
mod pieces;
mod summary;

pub use self::operations::{write_open, write_operation, write_size};
pub use self::pieces::Writer;
pub use self::summary::write_summary;
use crate::done::Done;
use crate::script::ScriptFault;
use itoa::Buffer;
use rht_io::{Failed, Sink, put_all};
use rht_model::{Bindings, Closed, Cursor, Replies, Reply};
use rht_words::Port;

/// Writes a reply line: the worker, counted from 1, and the reply with the list that comes beside
/// it. A kick is shown only where `kicks` is set, as in a replay.
///
/// `Again` always has the text of a walk's, since no script makes a bind that answers it.
pub fn write_reply<O: Sink>(
    out: &mut O,
    worker: u32,
    reply: Reply,
    owners: &[u32],
    pairs: &[(Port, u32)],
    kicks: bool,
) -> Result<(), Failed>
    ensures { Puts O.held O.faults out.old out.new result
        (reply_line worker reply owners.now pairs.now kicks) }
{
    let mut text = Writer::new(out);
    add_reply(&mut text, worker.into(), reply, owners, pairs, kicks)?;
    text.put()
}

/// Writes the line of a command that was done: its number, its worker, and the reply, with the owners that
/// came with it. A kick isn't shown. It takes no memory.
pub fn write_done<O: Sink>(out: &mut O, done: &Done) -> Result<(), Failed>
    ensures { Puts O.held O.faults out.old out.new result (done_line done.now) }
{
    let mut text = Writer::new(out);
    add_done(&mut text, done)?;
    text.put()
}

/// Writes the lines of commands that were done, in this order, and then those of what is bound at the end.
/// It takes no memory.
pub fn write_dones<O: Sink>(out: &mut O, dones: &[Done], closed: &Closed) -> Result<(), Failed>
    ensures { Puts O.held O.faults out.old out.new result (dones_text dones.now closed.now) }
{
    let mut text = Writer::new(out);
    add_dones(&mut text, dones)?;
    add_closed(&mut text, closed)?;
    text.put()
}

/// Adds the lines of commands that were done.
fn add_dones<O: Sink>(text: &mut Writer<'_, O>, dones: &[Done]) -> Result<(), Failed>
    ensures text { Adds O.held O.faults text.old.out.now text.new.out.now result
        text.old.waiting text.new.waiting (flat_map done_line dones.now) }
    ensures same_sink { text.new.out.ghost_name ≡ text.old.out.ghost_name }
{
    for i in 0..dones.len() {
        add_done(text, &dones[i])?;
    }
    Ok(())
}

/// Adds the line of a command that was done.
fn add_done<O: Sink>(text: &mut Writer<'_, O>, done: &Done) -> Result<(), Failed>
    ensures text { Adds O.held O.faults text.old.out.now text.new.out.now result
        text.old.waiting text.new.waiting (done_line done.now) }
    ensures same_sink { text.new.out.ghost_name ≡ text.old.out.ghost_name }
{
    text.add_number(done.number.into())?;
    text.add(b" ")?;
    add_reply(
        text,
        done.worker.into(),
        done.reply,
        done.owners.as_slice(),
        &[],
        false,
    )
}

/// Adds a reply line, as `write_reply` writes it.
pub fn add_reply<O: Sink>(
    text: &mut Writer<'_, O>,
    worker: u64,
    reply: Reply,
    owners: &[u32],
    pairs: &[(Port, u32)],
    kicks: bool,
) -> Result<(), Failed>
    ensures text { Adds O.held O.faults text.old.out.now text.new.out.now result
        text.old.waiting text.new.waiting (reply_line worker reply owners.now pairs.now kicks) }
    ensures same_sink { text.new.out.ghost_name ≡ text.old.out.ghost_name }
{
    text.add_number(worker)?;
    text.add(b": ")?;
    add_answer(text, reply, owners, pairs, kicks)?;
    text.end_line()
}

/// Adds a reply without its worker.
fn add_answer<O: Sink>(
    text: &mut Writer<'_, O>,
    reply: Reply,
    owners: &[u32],
    pairs: &[(Port, u32)],
    kicks: bool,
) -> Result<(), Failed>
    ensures text { Adds O.held O.faults text.old.out.now text.new.out.now result
        text.old.waiting text.new.waiting (reply_text reply owners.now pairs.now kicks) }
    ensures same_sink { text.new.out.ghost_name ≡ text.old.out.ghost_name }
{
    match reply {
        Reply::Bound { kick } if kick && kicks => text.add(b"bound kick"),
        Reply::Bound { .. } => text.add(b"bound"),
        Reply::Exists { owner } => text.add_named(b"exists", owner.into()),
        Reply::Found { owner } => text.add_named(b"found", owner.into()),
        Reply::Missing => text.add(b"missing"),
        Reply::Listed { .. } => add_list(text, owners),
        Reply::Released { kick } if kick && kicks => text.add(b"released kick"),
        Reply::Released { .. } => text.add(b"released"),
        Reply::Absent => text.add(b"absent"),
        Reply::Rebound => text.add(b"rebound"),
        Reply::TooBig { count } => text.add_named(b"toobig", count),
        Reply::Again { table } => text.add_named(b"walk again", table.into()),
        Reply::Busy { root, last } => text.add_two(b"busy", root.into(), last.into()),
        Reply::NoTable { size } => text.add_named(b"notable", size.into()),
        Reply::NoNode => text.add(b"nonode"),
        Reply::Pending { caller, section } => text.add_two(b"pending", caller.into(), section),
        Reply::Elsewhere => text.add(b"elsewhere"),
        Reply::Walked { next, .. } => add_walk(text, pairs, next),
        Reply::Moved { again: true } => text.add(b"moved again"),
        Reply::Moved { again: false } => text.add(b"moved"),
        Reply::Idle => text.add(b"idle"),
        Reply::Clear { returned } => text.add_named(b"clear", returned.into()),
        Reply::Counted { count } => text.add_named(b"count", count),
    }
}

/// Adds the list of a port's owners.
fn add_list<O: Sink>(text: &mut Writer<'_, O>, owners: &[u32]) -> Result<(), Failed>
    ensures text { Adds O.held O.faults text.old.out.now text.new.out.now result
        text.old.waiting text.new.waiting (codes "list" ++ owners_text owners.now) }
    ensures same_sink { text.new.out.ghost_name ≡ text.old.out.ghost_name }
{
    text.add(b"list")?;
    text.add_owners(owners)
}

/// Adds what a walk showed, and whether there is more.
fn add_walk<O: Sink>(
    text: &mut Writer<'_, O>,
    pairs: &[(Port, u32)],
    next: Option<Cursor>,
) -> Result<(), Failed>
    ensures text { Adds O.held O.faults text.old.out.now text.new.out.now result
        text.old.waiting text.new.waiting (codes "walk" ++ flat_map pair_text pairs.now ++ walk_end next) }
    ensures same_sink { text.new.out.ghost_name ≡ text.old.out.ghost_name }
{
    text.add(b"walk")?;
    text.add_pairs(pairs)?;
    match next {
        None => text.add(b" end"),
        Some(_) => text.add(b" more"),
    }
}

/// Writes a table's last bindings: a line for each pair, in their order, and then a line with the
/// table's size in buckets and the number of bound ports that it names.
pub fn write_closed<O: Sink>(out: &mut O, closed: &Closed) -> Result<(), Failed>
    ensures { Puts O.held O.faults out.old out.new result (closed_text closed.now) }
{
    let mut text = Writer::new(out);
    add_closed(&mut text, closed)?;
    text.put()
}

/// Adds the lines of a table's last bindings, as `write_closed` writes them.
pub fn add_closed<O: Sink>(text: &mut Writer<'_, O>, closed: &Closed) -> Result<(), Failed>
    ensures text { Adds O.held O.faults text.old.out.now text.new.out.now result
        text.old.waiting text.new.waiting (closed_text closed.now) }
    ensures same_sink { text.new.out.ghost_name ≡ text.old.out.ghost_name }
{
    add_ports(text, &closed.bindings)?;
    add_last_line(text, closed.size, closed.keys)
}

/// Writes the text of a run: the reply lines of the first worker in the order of its commands, then
/// those of the second, and so on, and then the last bindings.
pub fn write_run<O: Sink>(out: &mut O, workers: &[Replies], closed: &Closed) -> Result<(), Failed>
    requires { closed.now.keys ≡ length closed.now.bindings.pairs }
    ensures { Puts O.held O.faults out.old out.new result
        (run_text workers.now closed.now.bindings.pairs closed.now.size) }
{
    let mut text = Writer::new(out);
    add_workers(&mut text, workers)?;
    add_closed(&mut text, closed)?;
    text.put()
}

/// Adds the reply lines of each worker in turn.
fn add_workers<O: Sink>(text: &mut Writer<'_, O>, workers: &[Replies]) -> Result<(), Failed>
    ensures text { Adds O.held O.faults text.old.out.now text.new.out.now result
        text.old.waiting text.new.waiting (flat_map worker_text (enumerate_from 1 workers.now)) }
    ensures same_sink { text.new.out.ghost_name ≡ text.old.out.ghost_name }
{
    for i in 0..workers.len() {
        add_replies(text, i as u64 + 1, &workers[i])?;
    }
    Ok(())
}

/// Adds the reply lines of a worker.
fn add_replies<O: Sink>(
    text: &mut Writer<'_, O>,
    worker: u64,
    replies: &Replies,
) -> Result<(), Failed>
    ensures text { Adds O.held O.faults text.old.out.now text.new.out.now result
        text.old.waiting text.new.waiting (flat_map (ending_line worker) replies.now) }
    ensures same_sink { text.new.out.ghost_name ≡ text.old.out.ghost_name }
{
    for i in 0..replies.len() {
        add_reply(
            text,
            worker,
            replies.reply(i),
            replies.owners(i),
            replies.pairs(i),
            false,
        )?;
    }
    Ok(())
}

/// Writes the lines of what is bound: for each port its owners, the first one first.
pub fn write_ports<O: Sink>(out: &mut O, bindings: &Bindings) -> Result<(), Failed>
    ensures { Puts O.held O.faults out.old out.new result (flat_map port_line bindings.now.pairs) }
{
    let mut text = Writer::new(out);
    add_ports(&mut text, bindings)?;
    text.put()
}

/// Adds a line for each port.
fn add_ports<O: Sink>(text: &mut Writer<'_, O>, bindings: &Bindings) -> Result<(), Failed>
    ensures text { Adds O.held O.faults text.old.out.now text.new.out.now result
        text.old.waiting text.new.waiting (flat_map port_line bindings.now.pairs) }
    ensures same_sink { text.new.out.ghost_name ≡ text.old.out.ghost_name }
{
    for i in 0..bindings.len() {
        add_port_line(text, bindings.port(i), bindings.owners(i))?;
    }
    Ok(())
}

/// Adds the line of a port.
fn add_port_line<O: Sink>(
    text: &mut Writer<'_, O>,
    port: Port,
    owners: &[u32],
) -> Result<(), Failed>
    ensures text { Adds O.held O.faults text.old.out.now text.new.out.now result
        text.old.waiting text.new.waiting (port_line (port, owners.now)) }
    ensures same_sink { text.new.out.ghost_name ≡ text.old.out.ghost_name }
{
    text.add(b"port ")?;
    text.add_port(port)?;
    text.add(b":")?;
    text.add_owners(owners)?;
    text.end_line()
}

/// Adds the last line.
fn add_last_line<O: Sink>(text: &mut Writer<'_, O>, size: u32, keys: u32) -> Result<(), Failed>
    ensures text { Adds O.held O.faults text.old.out.now text.new.out.now result
        text.old.waiting text.new.waiting (last_line size keys) }
    ensures same_sink { text.new.out.ghost_name ≡ text.old.out.ghost_name }
{
    text.add_named(b"size", size.into())?;
    text.add_named(b" keys", keys.into())?;
    text.end_line()
}

/// Writes a number in decimal, without leading zeros.
pub fn write_number<O: Sink>(out: &mut O, number: u64) -> Result<(), Failed>
    ensures { Puts O.held O.faults out.old out.new result (decimal number) }
{
    let mut digits = Buffer::new();
    put_all(out, digits.format(number).as_bytes())
}

/// Writes a port: its number where its net is 0, and else its net, a dot and its number. Scripts of
/// form 2 read each port so, and those of form 1 each port of net 0.
pub fn write_port<O: Sink>(out: &mut O, port: Port) -> Result<(), Failed>
    ensures { Puts O.held O.faults out.old out.new result (port_text port) }
{
    let mut text = Writer::new(out);
    text.add_port(port)?;
    text.put()
}

/// Writes the line that tells of a script's first fault: `rht: line`, the line's number, and what
/// is wrong there. Causes are numbered from 1 to 9.
pub fn write_fault<O: Sink>(out: &mut O, fault: ScriptFault) -> Result<(), Failed>
    ensures { Puts O.held O.faults out.old out.new result (fault_line fault) }
{
    let mut text = Writer::new(out);
    text.add_named(b"rht: line", fault.line.into())?;
    text.add(b": ")?;
    text.add(cause_text(fault.cause))?;
    text.end_line()?;
    text.put()
}

/// What is wrong, in words.
fn cause_text(cause: u8) -> &'static [u8]
    ensures text { result.now ≡ cause_text cause }
    ensures short { length result.now ≤ 40 }
{
    match cause {
        1 => b"no table line",
        2 => b"unknown or missing word",
        3 => b"bad number",
        4 => b"number out of range",
        5 => b"too many lines",
        6 => b"line too long",
        8 => b"options do not agree",
        _ => b"script too long",
    }
}
