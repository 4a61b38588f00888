//! Reading a lease script: a table line, and commands.
//!
//! Stands on the cursors of `rht_script`, and reads table lines and plain commands as scripts have them.

ghost use Rattle.std.specs.Prelude.{◌≡◌, Ok, IfOk, IfErr};
ghost use Rattle.rht_script.specs.Grammar.{lines_by};
ghost use Rattle.rht_script.specs.Reading.{IsReasonFor};
ghost use Rattle.rht_lease.specs.LeaseLines.{lease_of_words, grant_of, renew_of, cancel_of, sweep_of, plain_of, ask_of, lease_line_of};
ghost use Rattle.rht_lease.specs.Reading.{IsLeaseScript, IsLeaseReason};
ghost use Rattle.rht_lease.specs.Scripts.{IsSoundLeases};

use crate::lease::{Lease, LeaseCall, LeaseScript, is_plain_call};
use rht_model::Call;
use rht_script::{Cause, Lines, ReadError, TableLine, Words, at_line, call_of_verb, first_table};
use rht_words::Limits;
use std::alloc::Global;

const LEASE: &[u8] = b"lease";

const RENEW: &[u8] = b"renew";

const CANCEL: &[u8] = b"cancel";

const SWEEP: &[u8] = b"sweep";

/// An owner is any number of 32 bits.
const OWNER: Limits = Limits {
    least: 0,
    greatest: u32::MAX,
};

/// Reads the whole input as a lease script. Below the table line each line that isn't skipped is a command:
/// `bind`, `find`, `all`, `release`, `rebind` or `count`, as scripts have them, or `W lease PORT OWNER LAST`,
/// `W renew PORT OWNER LAST`, `W cancel PORT OWNER` or `W sweep NOW`, of which the last tick and the moment
/// are any numbers of 64 bits. The word of another command is an unknown one, and so is the first word of a
/// line of a schedule. Faults are told as of a script: too many bytes before all others, then the first line
/// at fault, and in a line the first of its words.
pub fn read_leases(alloc: Global, bytes: &[u8]) -> Result<LeaseScript, ReadError>
    ensures script { IfOk result (IsLeaseScript bytes.now) }
    ensures sound { IfOk result IsSoundLeases }
    ensures reason { IfErr result (IsLeaseReason bytes.now) }
{
    let (table, lines) = first_table(bytes)?;
    let commands = commands_below(alloc, &table, lines)?;
    Ok(LeaseScript {
        config: table.config,
        auto: table.auto,
        commands,
    })
}

/// The commands of the lines that are left.
fn commands_below(
    alloc: Global,
    table: &TableLine,
    mut lines: Lines,
) -> Result<Vec<(u32, LeaseCall)>, ReadError>
    ensures commands { IfOk result
        (λ commands. lines_by lease_line_of lines.entry.number table.now lines.entry.lines ≡ Ok commands.items) }
    ensures reason { IfErr result
        (IsReasonFor (lines_by lease_line_of lines.entry.number table.now lines.entry.lines)) }
{
    let mut commands = Vec::new(alloc);
    while let Some(next) = lines.next() {
        let (number, line) = next?;
        let words = Words::new(line);
        if !words.is_skipped() {
            commands.extend_from_slice(&[at_line(number, command(table, words))?])?;
        }
    }
    Ok(commands)
}

/// The command of a line of these words: its worker, and what that asks.
#[tactic(auto, unfolding(crate::specs::LeaseLines::lease_line_of))]
fn command(table: &TableLine, mut words: Words) -> Result<(u32, LeaseCall), Cause>
    ensures { result ≡ lease_line_of table.now words.entry }
{
    let worker = words.worker(&table.config)?;
    let ask = ask(table, words)?;
    Ok((worker, ask))
}

/// What these words ask, of which the first is a verb that only lease scripts have, or one that scripts have.
#[tactic(auto, unfolding(crate::specs::LeaseLines::ask_of))]
fn ask(table: &TableLine, mut words: Words) -> Result<LeaseCall, Cause>
    ensures { result ≡ ask_of table.now words.entry }
{
    let verb = words.next().ok_or(Cause::UnknownWord)?;
    if verb == LEASE {
        grant(table.form, words)
    } else if verb == RENEW {
        renew(table.form, words)
    } else if verb == CANCEL {
        cancel(table.form, words)
    } else if verb == SWEEP {
        sweep(words)
    } else {
        plain(call_of_verb(table, verb, words)?)
    }
}

/// A lease of these words is granted.
fn grant(form: u32, words: Words) -> Result<LeaseCall, Cause>
    ensures { result ≡ grant_of form words.entry }
{
    let lease = lease(form, words)?;
    Ok(LeaseCall::Lease(lease))
}

/// A lease of these words is renewed.
fn renew(form: u32, words: Words) -> Result<LeaseCall, Cause>
    ensures { result ≡ renew_of form words.entry }
{
    let lease = lease(form, words)?;
    Ok(LeaseCall::Renew(lease))
}

/// The lease that these words name.
#[tactic(auto, unfolding(crate::specs::LeaseLines::lease_of_words))]
fn lease(form: u32, mut words: Words) -> Result<Lease, Cause>
    ensures { result ≡ lease_of_words form words.entry }
{
    let port = words.port(form)?;
    let owner = words.number(OWNER)?;
    let last = words.long_number()?;
    words.end()?;
    Ok(Lease { port, owner, last })
}

/// A lease of these words is cancelled.
#[tactic(auto, unfolding(crate::specs::LeaseLines::cancel_of))]
fn cancel(form: u32, mut words: Words) -> Result<LeaseCall, Cause>
    ensures { result ≡ cancel_of form words.entry }
{
    let port = words.port(form)?;
    let owner = words.number(OWNER)?;
    words.end()?;
    Ok(LeaseCall::Cancel { port, owner })
}

/// A sweep of these words.
#[tactic(auto, unfolding(crate::specs::LeaseLines::sweep_of))]
fn sweep(mut words: Words) -> Result<LeaseCall, Cause>
    ensures { result ≡ sweep_of words.entry }
{
    let now = words.long_number()?;
    words.end()?;
    Ok(LeaseCall::Sweep { now })
}

/// A call that scripts have, where lease scripts have it too.
fn plain(call: Call) -> Result<LeaseCall, Cause>
    ensures { result ≡ plain_of call }
{
    let same = call;
    if is_plain_call(same) {
        Ok(LeaseCall::Plain(call))
    } else {
        Err(Cause::UnknownWord)
    }
}
