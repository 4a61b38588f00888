//! The text of what a lease script leaves.
//!
//! Stands on `rht_script`, by whose writer, reply lines and closing lines it is written.

ghost use Rattle.std.specs.Prelude.{◌≡◌, ◌≤◌, ◌++◌, [], codes, decimal, length};
ghost use Rattle.std.specs.List.{flat_map, enumerate_from};
ghost use Rattle.rht_io.specs.Told.{Puts};
ghost use Rattle.rht_script.specs.Writing.{Adds};
ghost use Rattle.rht_lease.specs.declared.lease.LeaseReply.TheVariants.{Swept as SweptBy};
ghost use Rattle.rht_lease.specs.Text.{answer_line, worker_text, lease_text};

use crate::lease::{LeaseReply, Swept};
use crate::outcome::LeaseOutcome;
use crate::replies::LeaseReplies;
use rht_io::{Failed, Sink};
use rht_script::{Writer, add_closed, add_reply};

/// Writes the answers to the commands of each worker in their order, the first worker's before the second's,
/// and then what is bound at the end. It takes no memory.
pub fn write_leases<O: Sink>(out: &mut O, outcome: &LeaseOutcome) -> Result<(), Failed>
    ensures { Puts O.held O.faults out.old out.new result (lease_text outcome.now.replies.items outcome.now.closed) }
{
    let mut text = Writer::new(out);
    add_workers(&mut text, &outcome.replies)?;
    add_closed(&mut text, &outcome.closed)?;
    text.put()
}

/// Adds the answers of each worker in turn.
fn add_workers<O: Sink>(text: &mut Writer<'_, O>, workers: &[LeaseReplies]) -> Result<(), Failed>
    ensures text { Adds O.held O.faults text.old.out.now text.new.out.now result
        text.old.waiting text.new.waiting (flat_map worker_text (enumerate_from 1 workers.now)) }
    ensures same_sink { text.new.out.ghost_name ≡ text.old.out.ghost_name }
{
    for i in 0..workers.len() {
        add_answers(text, i as u64 + 1, &workers[i])?;
    }
    Ok(())
}

/// Adds the answers of a worker.
fn add_answers<O: Sink>(
    text: &mut Writer<'_, O>,
    worker: u64,
    answers: &LeaseReplies,
) -> Result<(), Failed>
    ensures text { Adds O.held O.faults text.old.out.now text.new.out.now result
        text.old.waiting text.new.waiting (worker_text (worker, answers.now)) }
    ensures same_sink { text.new.out.ghost_name ≡ text.old.out.ghost_name }
{
    for i in 0..answers.len() {
        add_answer(text, worker, answers.reply(i), answers.owners(i))?;
    }
    Ok(())
}

/// Adds the line of an answer.
fn add_answer<O: Sink>(
    text: &mut Writer<'_, O>,
    worker: u64,
    reply: LeaseReply,
    owners: &[u32],
) -> Result<(), Failed>
    ensures text { Adds O.held O.faults text.old.out.now text.new.out.now result
        text.old.waiting text.new.waiting (answer_line worker (reply, owners.now)) }
    ensures same_sink { text.new.out.ghost_name ≡ text.old.out.ghost_name }
{
    match reply {
        LeaseReply::Plain(reply) => add_reply(text, worker, reply, owners, &[], false),
        LeaseReply::Renewed => add_word(text, worker, b"renewed"),
        LeaseReply::NoLease => add_word(text, worker, b"nolease"),
        LeaseReply::Swept(swept) => add_swept(text, worker, swept),
    }
}

/// Adds a line of a word of at most 40 bytes.
fn add_word<O: Sink>(text: &mut Writer<'_, O>, worker: u64, word: &[u8]) -> Result<(), Failed>
    requires { length word.now ≤ 40 }
    ensures text { Adds O.held O.faults text.old.out.now text.new.out.now result
        text.old.waiting text.new.waiting (decimal worker ++ codes ": " ++ word.now ++ codes "\n") }
    ensures same_sink { text.new.out.ghost_name ≡ text.old.out.ghost_name }
{
    text.add_number(worker)?;
    text.add(b": ")?;
    text.add(word)?;
    text.end_line()
}

/// Adds the line of a sweep.
fn add_swept<O: Sink>(text: &mut Writer<'_, O>, worker: u64, swept: Swept) -> Result<(), Failed>
    ensures text { Adds O.held O.faults text.old.out.now text.new.out.now result
        text.old.waiting text.new.waiting (answer_line worker (SweptBy swept, [])) }
    ensures same_sink { text.new.out.ghost_name ≡ text.old.out.ghost_name }
{
    text.add_number(worker)?;
    text.add(b": ")?;
    text.add_two(b"swept", swept.released.into(), swept.absent.into())?;
    text.end_line()
}
