//! Reading a claimed history: a script without a schedule, a line `history`, and the claims.
//!
//! Stands on the cursors of `rht_script`, and reads table lines and commands as scripts have them.

ghost use Rattle.std.specs.Prelude.{◌≡◌, Ok, IfOk, IfErr, is_some};
ghost use Rattle.rht_model.specs.Answers.{port_of};
ghost use Rattle.rht_script.specs.Grammar.{at_line, lines_by};
ghost use Rattle.rht_script.specs.Spelling.{between};
ghost use Rattle.rht_script.specs.CommandLines.{owner_limits};
ghost use Rattle.rht_script.specs.Reading.{IsReasonFor};
ghost use Rattle.rht_check.specs.Claims.{IsSoundClaim};
ghost use Rattle.rht_check.specs.ClaimLines.{history_of, about_bindings, asked_of, worker_of, ends_with_colon, plain_of, bare_reply, busy_of, last_number, owners_of, list_of, reply_of, told_of};
ghost use Rattle.rht_check.specs.Reading.{IsClaim, IsClaimReason, asked_from};

use crate::claim::Claim;
use rht_model::{Call, Owners, Reply};
use rht_script::{
    Cause, Lines, ReadError, Script, TableLine, Words, at_line, command, first_table,
    number_within, worker_limits,
};
use rht_words::Limits;
use std::alloc::Global;

/// The line that ends the commands.
const HISTORY: &[u8] = b"history";

const BOUND: &[u8] = b"bound";

const EXISTS: &[u8] = b"exists";

const FOUND: &[u8] = b"found";

const MISSING: &[u8] = b"missing";

const LIST: &[u8] = b"list";

const RELEASED: &[u8] = b"released";

const ABSENT: &[u8] = b"absent";

const REBOUND: &[u8] = b"rebound";

const TOO_BIG: &[u8] = b"toobig";

const BUSY: &[u8] = b"busy";

const NO_TABLE: &[u8] = b"notable";

const NO_NODE: &[u8] = b"nonode";

/// The owners and the other numbers of a reply are any of 32 bits.
const NUMBER: Limits = Limits {
    least: 0,
    greatest: u32::MAX,
};

/// What a line above the claims says.
#[derive(Clone, Copy, Debug)]
pub(crate) enum AskedLine {
    /// A command, with its worker.
    Command((u32, Call)),
    /// The claims come behind this line.
    History,
}

/// Reads the whole input as a claimed history. A fault is the first one, as of a script: too many
/// bytes before all others, then the first line at fault, and in a line the first of its words.
pub fn read_claim(alloc: Global, bytes: &[u8]) -> Result<Claim, ReadError>
    ensures claim { IfOk result (IsClaim bytes.now) }
    ensures sound { IfOk result IsSoundClaim }
    ensures reason { IfErr result (IsClaimReason bytes.now) }
{
    let (table, mut lines) = first_table(bytes)?;
    let commands = commands_above(alloc, &table, &mut lines)?;
    let claims = claims_below(alloc, &table, lines)?;
    Ok(Claim {
        script: Script {
            config: table.config,
            auto: table.auto,
            form: table.form,
            commands,
            schedule: Vec::new(alloc),
        },
        claims,
    })
}

/// The commands of the lines above the claims. The lines that are left are those of the claims.
fn commands_above(
    alloc: Global,
    table: &TableLine,
    lines: &mut Lines,
) -> Result<Vec<(u32, Call)>, ReadError>
    ensures asked { IfOk result (λ commands. asked_from lines.old.number table.now lines.old.lines
        ≡ Ok (record { commands = commands.items; behind = lines.new })) }
    ensures reason { IfErr result (IsReasonFor (asked_from lines.old.number table.now lines.old.lines)) }
{
    let mut commands = Vec::new(alloc);
    while let Some(next) = lines.next() {
        let (number, line) = next?;
        let words = Words::new(line);
        if !words.is_skipped() {
            match at_line(number, asked(table, words))? {
                AskedLine::Command(command) => commands.push(command)?,
                AskedLine::History => return Ok(commands),
            }
        }
    }
    Err(ReadError::Fault(Cause::UnknownWord.at(lines.number())))
}

/// The claims of the lines that are left.
fn claims_below(
    alloc: Global,
    table: &TableLine,
    mut lines: Lines,
) -> Result<Vec<(u32, Reply, Owners)>, ReadError>
    ensures told { IfOk result (λ claims. lines_by told_of lines.entry.number table.now lines.entry.lines ≡ Ok claims.items) }
    ensures reason { IfErr result (IsReasonFor (lines_by told_of lines.entry.number table.now lines.entry.lines)) }
{
    let mut claims = Vec::new(alloc);
    while let Some(next) = lines.next() {
        let (number, line) = next?;
        let words = Words::new(line);
        if !words.is_skipped() {
            claims.push(told(alloc, number, table, words)?)?;
        }
    }
    Ok(claims)
}

/// What a line of these words says, below the table line and above the claims.
#[tactic(auto, unfolding(crate::specs::ClaimLines::asked_of))]
fn asked(table: &TableLine, mut words: Words) -> Result<AskedLine, Cause>
    ensures { result ≡ asked_of table.now words.entry }
{
    let first = words.next().ok_or(Cause::UnknownWord)?;
    if first == HISTORY {
        return history(words);
    }
    about_bindings(command(table, first, words)?)
}

/// The line that ends the commands, behind whose word no other stands.
fn history(mut words: Words) -> Result<AskedLine, Cause>
    ensures { result ≡ history_of words.entry }
{
    words.end()?;
    Ok(AskedLine::History)
}

/// The command, where its call is about bindings.
fn about_bindings(command: (u32, Call)) -> Result<AskedLine, Cause>
    ensures { result ≡ about_bindings command }
{
    if is_about_bindings(command.1) {
        Ok(AskedLine::Command(command))
    } else {
        Err(Cause::UnknownWord)
    }
}

/// Whether the call is about bindings.
fn is_about_bindings(call: Call) -> bool
    ensures { result ≡ is_some (port_of call) }
{
    matches!(
        call,
        Call::Bind { .. }
            | Call::Find { .. }
            | Call::All { .. }
            | Call::Release { .. }
            | Call::Rebind { .. }
    )
}

/// What a line of these words claims.
fn told(
    alloc: Global,
    number: u32,
    table: &TableLine,
    mut words: Words,
) -> Result<(u32, Reply, Owners), ReadError>
    ensures told { IfOk result (λ told. at_line number (told_of table.now words.entry) ≡ Ok told) }
    ensures reason { IfErr result (IsReasonFor (at_line number (told_of table.now words.entry))) }
{
    let Some(word) = words.next() else {
        return Err(ReadError::Fault(Cause::UnknownWord.at(number)));
    };
    let worker = at_line(number, worker(table, word))?;
    reply(alloc, number, worker, words)
}

/// The worker of a claim's first word, which ends with a colon.
#[tactic(auto, unfolding(crate::specs::ClaimLines::worker_of))]
fn worker(table: &TableLine, word: &[u8]) -> Result<u32, Cause>
    ensures { result ≡ worker_of table.now word.now }
{
    if !ends_with_colon(word) {
        return Err(Cause::UnknownWord);
    }
    number_within(
        worker_limits(&table.config),
        &word[..word.len().saturating_sub(1)],
    )
}

/// Whether the word ends with a colon.
fn ends_with_colon(word: &[u8]) -> bool
    ensures { result ≡ ends_with_colon word.now }
{
    !word.is_empty() && word[word.len() - 1] == b':'
}

/// A worker's reply, and the owners beside it.
fn reply(
    alloc: Global,
    number: u32,
    worker: u32,
    mut words: Words,
) -> Result<(u32, Reply, Owners), ReadError>
    ensures told { IfOk result (λ told. at_line number (reply_of worker words.entry) ≡ Ok told) }
    ensures reason { IfErr result (IsReasonFor (at_line number (reply_of worker words.entry))) }
{
    let Some(name) = words.next() else {
        return Err(ReadError::Fault(Cause::UnknownWord.at(number)));
    };
    if name == LIST {
        return list(alloc, number, worker, words);
    }
    let reply = at_line(number, plain(name, words))?;
    Ok((worker, reply, Owners::new(alloc)))
}

/// A list of owners. More of them than a number can count are want of memory.
fn list(
    alloc: Global,
    number: u32,
    worker: u32,
    words: Words,
) -> Result<(u32, Reply, Owners), ReadError>
    ensures told { IfOk result (λ told. at_line number (list_of worker words.entry) ≡ Ok told) }
    ensures reason { IfErr result (IsReasonFor (at_line number (list_of worker words.entry))) }
{
    let owners = owners(alloc, number, words)?;
    match u32::try_from(owners.as_slice().len()) {
        Ok(len) => Ok((worker, Reply::Listed { len }, owners)),
        Err(_) => Err(ReadError::Memory),
    }
}

/// The owners of these words.
fn owners(alloc: Global, number: u32, mut words: Words) -> Result<Owners, ReadError>
    ensures owners { IfOk result (λ owners. at_line number (owners_of words.entry) ≡ Ok owners) }
    ensures reason { IfErr result (IsReasonFor (at_line number (owners_of words.entry))) }
{
    let mut owners = Owners::new(alloc);
    while let Some(word) = words.next() {
        let owner = at_line(number, number_within(NUMBER, word))?;
        owners.push(owner)?;
    }
    Ok(owners)
}

/// The reply of this name without a list, with the words behind its name.
#[tactic(auto, unfolding(crate::specs::ClaimLines::plain_of))]
fn plain(name: &[u8], words: Words) -> Result<Reply, Cause>
    ensures { result ≡ plain_of name.now words.entry }
{
    if name == BOUND {
        bare(Reply::Bound { kick: false }, words)
    } else if name == EXISTS {
        let owner = last_number(words)?;
        Ok(Reply::Exists { owner })
    } else if name == FOUND {
        let owner = last_number(words)?;
        Ok(Reply::Found { owner })
    } else if name == MISSING {
        bare(Reply::Missing, words)
    } else if name == RELEASED {
        bare(Reply::Released { kick: false }, words)
    } else if name == ABSENT {
        bare(Reply::Absent, words)
    } else if name == REBOUND {
        bare(Reply::Rebound, words)
    } else if name == TOO_BIG {
        let count = last_long_number(words)?;
        Ok(Reply::TooBig { count })
    } else if name == BUSY {
        busy(words)
    } else if name == NO_TABLE {
        let size = last_number(words)?;
        Ok(Reply::NoTable { size })
    } else if name == NO_NODE {
        bare(Reply::NoNode, words)
    } else {
        Err(Cause::UnknownWord)
    }
}

/// A reply that its name says alone: no word stands behind it.
fn bare(reply: Reply, mut words: Words) -> Result<Reply, Cause>
    ensures { result ≡ bare_reply reply words.entry }
{
    words.end()?;
    Ok(reply)
}

/// That a resize has to end first, with its two tables.
#[tactic(auto, unfolding(crate::specs::ClaimLines::busy_of))]
fn busy(mut words: Words) -> Result<Reply, Cause>
    ensures { result ≡ busy_of words.entry }
{
    let root = words.number(NUMBER)?;
    let last = words.number(NUMBER)?;
    words.end()?;
    Ok(Reply::Busy { root, last })
}

/// The number of 32 bits that is the only word.
fn last_number(mut words: Words) -> Result<u32, Cause>
    ensures { result ≡ last_number owner_limits words.entry }
{
    let number = words.number(NUMBER)?;
    words.end()?;
    Ok(number)
}

/// The number of 64 bits that is the only word.
fn last_long_number(mut words: Words) -> Result<u64, Cause>
    ensures { result ≡ last_number (between 0 u64.MAX) words.entry }
{
    let number = words.long_number()?;
    words.end()?;
    Ok(number)
}
