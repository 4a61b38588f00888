//! The text of what a resume script leaves.
//!
//! Stands on `rht_script`, by whose writer, reply lines and closing lines it is written.

ghost use Rattle.std.specs.Prelude.{◌≡◌, ◌≤◌, ◌++◌, [], codes, decimal, length};
ghost use Rattle.std.specs.List.{flat_map, enumerate_from};
ghost use Rattle.rht_io.specs.Told.{Puts};
ghost use Rattle.rht_script.specs.Text.{pair_text};
ghost use Rattle.rht_script.specs.Writing.{Adds};
ghost use Rattle.rht_resume.specs.Answers.{next_answer};
ghost use Rattle.rht_resume.specs.Text.{piece_text, answer_line, worker_text, resume_text};

use crate::outcome::ResumeOutcome;
use crate::replies::ResumeReplies;
use crate::resume::{Piece, ResumeReply};
use rht_io::{Failed, Sink};
use rht_script::{Writer, add_closed, add_reply};
use rht_words::Port;

/// Writes the answers to the commands of each worker in their order, the first worker's before the second's,
/// and then what is bound at the end. It takes no memory.
pub fn write_resumed<O: Sink>(out: &mut O, outcome: &ResumeOutcome) -> Result<(), Failed>
    ensures { Puts O.held O.faults out.old out.new result (resume_text outcome.now.replies.items outcome.now.closed) }
{
    let mut text = Writer::new(out);
    add_workers(&mut text, &outcome.replies)?;
    add_closed(&mut text, &outcome.closed)?;
    text.put()
}

/// Adds the answers of each worker in turn.
fn add_workers<O: Sink>(text: &mut Writer<'_, O>, workers: &[ResumeReplies]) -> Result<(), Failed>
    ensures text { Adds O.held O.faults text.old.out.now text.new.out.now result
        text.old.waiting text.new.waiting (flat_map worker_text (enumerate_from 1 workers.now)) }
    ensures same_sink { text.new.out.ghost_name ≡ text.old.out.ghost_name }
{
    for i in 0..workers.len() {
        add_answers(text, i as u64 + 1, &workers[i])?;
    }
    Ok(())
}

/// Adds the answers of a worker.
fn add_answers<O: Sink>(
    text: &mut Writer<'_, O>,
    worker: u64,
    answers: &ResumeReplies,
) -> Result<(), Failed>
    ensures text { Adds O.held O.faults text.old.out.now text.new.out.now result
        text.old.waiting text.new.waiting (worker_text (worker, answers.now)) }
    ensures same_sink { text.new.out.ghost_name ≡ text.old.out.ghost_name }
{
    for i in 0..answers.len() {
        add_answer(
            text,
            worker,
            answers.reply(i),
            answers.owners(i),
            answers.pairs(i),
        )?;
    }
    Ok(())
}

/// Adds the line of an answer.
fn add_answer<O: Sink>(
    text: &mut Writer<'_, O>,
    worker: u64,
    reply: ResumeReply,
    owners: &[u32],
    pairs: &[(Port, u32)],
) -> Result<(), Failed>
    ensures text { Adds O.held O.faults text.old.out.now text.new.out.now result
        text.old.waiting text.new.waiting
        (answer_line worker (record { reply = reply; owners = owners.now; pairs = pairs.now })) }
    ensures same_sink { text.new.out.ghost_name ≡ text.old.out.ghost_name }
{
    match reply {
        ResumeReply::Plain(reply) => add_reply(text, worker, reply, owners, pairs, false),
        ResumeReply::Next(piece) => add_next(text, worker, piece, pairs),
    }
}

/// Adds the line of a piece.
fn add_next<O: Sink>(
    text: &mut Writer<'_, O>,
    worker: u64,
    piece: Piece,
    pairs: &[(Port, u32)],
) -> Result<(), Failed>
    ensures text { Adds O.held O.faults text.old.out.now text.new.out.now result
        text.old.waiting text.new.waiting (answer_line worker (next_answer piece pairs.now)) }
    ensures same_sink { text.new.out.ghost_name ≡ text.old.out.ghost_name }
{
    text.add_number(worker)?;
    text.add(b": ")?;
    add_piece(text, piece, pairs)?;
    text.end_line()
}

/// Adds a piece without its worker.
fn add_piece<O: Sink>(
    text: &mut Writer<'_, O>,
    piece: Piece,
    pairs: &[(Port, u32)],
) -> Result<(), Failed>
    ensures text { Adds O.held O.faults text.old.out.now text.new.out.now result
        text.old.waiting text.new.waiting (piece_text piece pairs.now) }
    ensures same_sink { text.new.out.ghost_name ≡ text.old.out.ghost_name }
{
    match piece {
        Piece::Part => add_shown(text, pairs, b" more"),
        Piece::End { .. } => add_shown(text, pairs, b" end"),
        Piece::Again { table } => text.add_named(b"next again", table.into()),
    }
}

/// Adds the pairs of a piece, and behind them a word of at most 40 bytes.
fn add_shown<O: Sink>(
    text: &mut Writer<'_, O>,
    pairs: &[(Port, u32)],
    last: &[u8],
) -> Result<(), Failed>
    requires { length last.now ≤ 40 }
    ensures text { Adds O.held O.faults text.old.out.now text.new.out.now result
        text.old.waiting text.new.waiting (codes "next" ++ flat_map pair_text pairs.now ++ last.now) }
    ensures same_sink { text.new.out.ghost_name ≡ text.old.out.ghost_name }
{
    text.add(b"next")?;
    text.add_pairs(pairs)?;
    text.add(last)
}
