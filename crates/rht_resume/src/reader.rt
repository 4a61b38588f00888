//! Reading a resume script: a table line, and commands.
//!
//! Stands on the cursors of `rht_script`, and reads table lines and plain commands as scripts have them.

ghost use Rattle.std.specs.Prelude.{◌≡◌, Ok, IfOk, IfErr};
ghost use Rattle.rht_script.specs.Grammar.{lines_by};
ghost use Rattle.rht_script.specs.Reading.{IsReasonFor};
ghost use Rattle.rht_resume.specs.ResumeLines.{piece_of, ask_of, resume_line_of};
ghost use Rattle.rht_resume.specs.Reading.{IsResumeScript, IsResumeReason};
ghost use Rattle.rht_resume.specs.Scripts.{IsSoundResume};

use crate::resume::{ResumeCall, ResumeScript, pieces};
use rht_script::{Cause, Lines, ReadError, TableLine, Words, at_line, call_of_verb, first_table};
use std::alloc::Global;

const NEXT: &[u8] = b"next";

/// Reads the whole input as a resume script. Below the table line each line that isn't skipped is a command:
/// one that scripts have, or `W next N`, of which N is 1 to the number of nodes. The word of another command is
/// an unknown one, and so is the first word of a line of a schedule. Faults are told as of a script: too many
/// bytes before all others, then the first line at fault, and in a line the first of its words.
pub fn read_resume(alloc: Global, bytes: &[u8]) -> Result<ResumeScript, ReadError>
    ensures script { IfOk result (IsResumeScript bytes.now) }
    ensures sound { IfOk result IsSoundResume }
    ensures reason { IfErr result (IsResumeReason bytes.now) }
{
    let (table, lines) = first_table(bytes)?;
    let commands = commands_below(alloc, &table, lines)?;
    Ok(ResumeScript {
        config: table.config,
        auto: table.auto,
        commands,
    })
}

/// The commands of the lines that are left.
fn commands_below(
    alloc: Global,
    table: &TableLine,
    mut lines: Lines,
) -> Result<Vec<(u32, ResumeCall)>, ReadError>
    ensures commands { IfOk result
        (λ commands. lines_by resume_line_of lines.entry.number table.now lines.entry.lines ≡ Ok commands.items) }
    ensures reason { IfErr result
        (IsReasonFor (lines_by resume_line_of lines.entry.number table.now lines.entry.lines)) }
{
    let mut commands = Vec::new(alloc);
    while let Some(next) = lines.next() {
        let (number, line) = next?;
        let words = Words::new(line);
        if !words.is_skipped() {
            commands.extend_from_slice(&[at_line(number, command(table, words))?])?;
        }
    }
    Ok(commands)
}

/// The command of a line of these words: its worker, and what that asks.
#[tactic(auto, unfolding(crate::specs::ResumeLines::resume_line_of))]
fn command(table: &TableLine, mut words: Words) -> Result<(u32, ResumeCall), Cause>
    ensures { result ≡ resume_line_of table.now words.entry }
{
    let worker = words.worker(&table.config)?;
    let ask = ask(table, words)?;
    Ok((worker, ask))
}

/// What these words ask, of which the first is the verb that only resume scripts have, or one that scripts have.
#[tactic(auto, unfolding(crate::specs::ResumeLines::ask_of))]
fn ask(table: &TableLine, mut words: Words) -> Result<ResumeCall, Cause>
    ensures { result ≡ ask_of table.now words.entry }
{
    let verb = words.next().ok_or(Cause::UnknownWord)?;
    if verb == NEXT {
        piece(table, words)
    } else {
        let call = call_of_verb(table, verb, words)?;
        Ok(ResumeCall::Plain(call))
    }
}

/// A piece of so many pairs as these words say.
#[tactic(auto, unfolding(crate::specs::ResumeLines::piece_of))]
fn piece(table: &TableLine, mut words: Words) -> Result<ResumeCall, Cause>
    ensures { result ≡ piece_of table.now.config words.entry }
{
    let limit = words.number(pieces(&table.config))?;
    words.end()?;
    Ok(ResumeCall::Next { limit })
}
