//! Reading a script's bytes.
//!
//! Stands on the cursors of `cursors`, which take a text apart line by line and word by word, and
//! on the options of a table line. Begin with `read`; `parts` and `places` have the calls by which
//! other programs read the same lines and words.

ghost use Rattle.std.specs.Prelude.{◌≡◌, ◌+◌, ◌<◌, ◌≤◌, ◌==◌, ◌∷◌, Ok, Err, IfOk, IfErr, MatchResult, MatchOption, count_by, length, take, fold};
ghost use Rattle.rht_script.specs.Grammar.{fault_at, below_by};
ghost use Rattle.rht_script.specs.Cursors.{table_from, table_reading_of};
ghost use Rattle.rht_script.specs.TableLines.{no_options, table_of, kind_of, hash_of, switch_of, auto_of, setting_of, options_from};
ghost use Rattle.rht_script.specs.CommandLines.{command_of, worker_of, call_of, bind_of, find_of, all_of, release_of, rebind_of, bare_of, whole_walk};
ghost use Rattle.rht_script.specs.ScheduleLines.{events_of};
ghost use Rattle.rht_script.specs.ScriptLines.{line_of};
ghost use Rattle.rht_script.specs.Dealt.{dealt_line, dealt_of, dealing_of, line_as, reading_as, SaysDealt, IsDealtScript};
ghost use Rattle.rht_script.specs.Reading.{IsScript, IsReason, IsReasonFor, said_by};
ghost use Rattle.rht_script.specs.Allowed.{IsAllowed, AreAllowed};
ghost use Rattle.rht_script.specs.Sound.{IsSoundScript};
ghost use Rattle.rht_script.specs.declared.cause.Cause.TheVariants.{ScriptTooLong};

mod cursors;
mod names;
mod numbers;
mod parts;
mod places;
mod ports;

pub use self::cursors::{Lines, Words};
pub use self::numbers::number_within;
pub use self::parts::{command_line, number_of, port_word, table_line};
pub use self::places::{line_end, word_at};
use crate::cause::{Cause, at_line};
use crate::options::{Options, Setting};
use crate::script::{
    Below, EVENTS, FORMS, NOBODY, ONE_NUMBER, ReadError, Sched, Script, ScriptFault, ScriptLine,
    TableLine, is_dealt_call, worker_limits,
};
use names::{
    ALL, ANY, AUTO, BIND, COUNT, FIND, FINISH, FORM, HASH, HINT, LISTED, LOW, MANUAL, MAX, MIN,
    MIX, NODES, OFF, ON, PAGES, REBIND, RELEASE, REWALKS, SEED, SHRINK, SINGLE, SKIP, STEP, TABLE,
    TIDY, WALK, WORK, WORKERS,
};
use numbers::OWNER;
use rht_model::Call;
use rht_words::{Config, Hash, Kind, limits};
use std::alloc::Global;

/// The greatest number of bytes of a script.
pub const MOST_BYTES: usize = 16_777_216;

/// Reads the whole input as a script. A fault is the first one: a script that is too long before
/// all others, then the first line at fault, and in a line the first of its words, from the left.
///
/// Each byte is looked at a few times, and no memory is taken but that of the commands and of the
/// schedule.
pub fn read(alloc: Global, bytes: &[u8]) -> Result<Script, ReadError>
    ensures script { IfOk result (IsScript bytes.now) }
    ensures sound { IfOk result IsSoundScript }
    ensures reason { IfErr result (IsReason bytes.now) }
{
    read_as(alloc, Below::Workers, bytes)
}

/// Reads the whole input as a dealt script, whose commands any worker may do: each has the number 0
/// in the place of its worker's, and there is no schedule. Below the table line each line that isn't
/// skipped is the word `any` and a command `bind`, `find`, `all`, `release`, `rebind` or `count`; another first
/// word, or the word of another command, is an unknown one. Faults are told as `read` tells them.
pub fn read_dealt(alloc: Global, bytes: &[u8]) -> Result<Script, ReadError>
    ensures script { IfOk result (SaysDealt bytes.now) }
    ensures dealt { IfOk result IsDealtScript }
    ensures reason { IfErr result (IsReasonFor (dealing_of bytes.now)) }
{
    read_as(alloc, Below::Any, bytes)
}

/// Reads the whole input as a script of such lines.
fn read_as(alloc: Global, below: Below, bytes: &[u8]) -> Result<Script, ReadError>
    ensures script { IfOk result (λ script. reading_as below bytes.now ≡ Ok (said_by script)) }
    ensures reason { IfErr result (IsReasonFor (reading_as below bytes.now)) }
{
    let (table, lines) = first_table(bytes)?;
    script_below(alloc, below, &table, lines)
}

/// What the table line of these bytes says, which is their first line that isn't skipped, and the lines
/// below it. Too many bytes are a fault before all others.
pub fn first_table<'a>(bytes: &'a [u8]) -> Result<(TableLine, Lines<'a>), ScriptFault>
    ensures { result ≡ table_reading_of bytes.now }
{
    if bytes.len() > MOST_BYTES {
        return Err(too_long(bytes));
    }
    let mut lines = Lines::new(bytes);
    let table = table_in(&mut lines)?;
    Ok((table, lines))
}

/// The fault of too many bytes, at the line of the first byte that is one too many.
fn too_long(bytes: &[u8]) -> ScriptFault
    requires { MOST_BYTES < length bytes.now }
    ensures { result ≡ fault_at (1 + count_by (λ byte. byte == 10) (take MOST_BYTES bytes.now)) ScriptTooLong }
{
    Cause::ScriptTooLong.at(1 + line_feeds(&bytes[..MOST_BYTES]))
}

/// How many line feeds the bytes have.
fn line_feeds(bytes: &[u8]) -> u32
    requires { length bytes.now ≤ MOST_BYTES }
    ensures value { result ≡ count_by (λ byte. byte == 10) bytes.now }
    ensures few { result ≤ MOST_BYTES }
{
    bytes.iter().filter(|byte| **byte == b'\n').count() as u32
}

/// What the table line says, which is the first line that isn't skipped. The lines that are left are those
/// below it.
fn table_in(lines: &mut Lines) -> Result<TableLine, ScriptFault>
    ensures { MatchResult result
        (λ table. table_from lines.old.number lines.old.lines ≡ Ok (table, lines.new))
        (λ fault. table_from lines.old.number lines.old.lines ≡ Err fault) }
{
    while let Some(next) = lines.next() {
        let (number, line) = next?;
        let words = Words::new(line);
        if !words.is_skipped() {
            return at_line(number, table(words));
        }
    }
    Err(Cause::NoTableLine.at(lines.number()))
}

/// The script that begins with this table line and goes on with the lines that are left.
fn script_below(
    alloc: Global,
    below: Below,
    table: &TableLine,
    mut lines: Lines,
) -> Result<Script, ReadError>
    ensures script { IfOk result
        (λ script. below_by (line_as below) table.now lines.entry.number lines.entry.lines ≡ Ok (said_by script)) }
    ensures reason { IfErr result
        (IsReasonFor (below_by (line_as below) table.now lines.entry.number lines.entry.lines)) }
{
    let mut script = Script {
        config: table.config,
        auto: table.auto,
        form: table.form,
        commands: Vec::new(alloc),
        schedule: Vec::new(alloc),
    };
    while let Some(next) = lines.next() {
        let (number, line) = next?;
        let words = Words::new(line);
        if !words.is_skipped() {
            match at_line(number, line_below(below, table, words))? {
                ScriptLine::Command(command) => script.commands.push(command)?,
                ScriptLine::Schedule(sched) => script.schedule.push(sched)?,
            }
        }
    }
    Ok(script)
}

/// What a table line of these words says.
#[tactic(auto, unfolding(crate::specs::TableLines::table_of))]
fn table(mut words: Words) -> Result<TableLine, Cause>
    ensures { result ≡ table_of words.entry }
{
    if words.next() != Some(TABLE) {
        return Err(Cause::NoTableLine);
    }
    let kind = kind(words.next().ok_or(Cause::UnknownWord)?)?;
    let options = options(words)?;
    Ok(TableLine {
        config: options.config(kind)?,
        auto: options.auto.unwrap_or(true),
        form: options.form.unwrap_or(ONE_NUMBER),
    })
}

/// The kind of table of this name.
fn kind(word: &[u8]) -> Result<Kind, Cause>
    ensures { result ≡ kind_of word.now }
{
    if word == SINGLE {
        Ok(Kind::Single)
    } else if word == LISTED {
        Ok(Kind::Listed)
    } else {
        Err(Cause::UnknownWord)
    }
}

/// The options of the words behind the kind, which are names each with its value.
fn options(mut words: Words) -> Result<Options, Cause>
    ensures value { result ≡ options_from no_options words.entry }
    ensures allowed { IfOk result AreAllowed }
{
    let mut options = Options::new();
    while let Some(name) = words.next() {
        let Some(value) = words.next() else {
            return Err(Cause::UnknownWord);
        };
        options = options.with(setting(name, value)?);
    }
    Ok(options)
}

/// What the option of this name is set to by its value.
#[tactic(auto, unfolding(crate::specs::TableLines::setting_of))]
fn setting(name: &[u8], value: &[u8]) -> Result<Setting, Cause>
    ensures value { result ≡ setting_of name.now value.now }
    ensures allowed { IfOk result IsAllowed }
{
    if name == NODES {
        Ok(Setting::Nodes(number_within(limits::NODES, value)?))
    } else if name == HINT {
        Ok(Setting::Hint(number_within(limits::HINT, value)?))
    } else if name == MIN {
        Ok(Setting::Min(number_within(limits::MIN, value)?))
    } else if name == MAX {
        Ok(Setting::Max(number_within(limits::MAX, value)?))
    } else if name == PAGES {
        Ok(Setting::Pages(number_within(limits::PAGES, value)?))
    } else if name == WORKERS {
        Ok(Setting::Workers(number_within(limits::CALLERS, value)?))
    } else if name == SEED {
        Ok(Setting::Seed(number_within(limits::SEED, value)?))
    } else if name == REWALKS {
        Ok(Setting::Rewalks(number_within(limits::REWALKS, value)?))
    } else if name == FORM {
        Ok(Setting::Form(number_within(FORMS, value)?))
    } else if name == HASH {
        Ok(Setting::Hashing(hash(value)?))
    } else if name == SHRINK {
        Ok(Setting::Shrink(switch(value)?))
    } else if name == WORK {
        Ok(Setting::Auto(auto(value)?))
    } else {
        Err(Cause::UnknownWord)
    }
}

/// The hash of this name.
fn hash(value: &[u8]) -> Result<Hash, Cause>
    ensures { result ≡ hash_of value.now }
{
    if value == MIX {
        Ok(Hash::Mix)
    } else if value == LOW {
        Ok(Hash::Low)
    } else {
        Err(Cause::UnknownWord)
    }
}

/// Whether something is on.
fn switch(value: &[u8]) -> Result<bool, Cause>
    ensures { result ≡ switch_of value.now }
{
    if value == ON {
        Ok(true)
    } else if value == OFF {
        Ok(false)
    } else {
        Err(Cause::UnknownWord)
    }
}

/// Whether a worker runs `work` by itself.
fn auto(value: &[u8]) -> Result<bool, Cause>
    ensures { result ≡ auto_of value.now }
{
    if value == AUTO {
        Ok(true)
    } else if value == MANUAL {
        Ok(false)
    } else {
        Err(Cause::UnknownWord)
    }
}

/// What the words of a line below the table line say, of such lines.
fn line_below(below: Below, table: &TableLine, words: Words) -> Result<ScriptLine, Cause>
    ensures { result ≡ line_as below table.now words.entry }
{
    match below {
        Below::Workers => script_line(table, words),
        Below::Any => dealt_line(table, words),
    }
}

/// What the words of a line say that is a command of a worker, or a line of the schedule. Any first
/// word that begins no line of the schedule stands at the place of a command's worker.
#[tactic(auto, unfolding(crate::specs::ScriptLines::line_of))]
fn script_line(table: &TableLine, mut words: Words) -> Result<ScriptLine, Cause>
    ensures { result ≡ line_of table.now words.entry }
{
    let first = words.next().ok_or(Cause::UnknownWord)?;
    if first == STEP {
        let (worker, number) = events(&table.config, words)?;
        Ok(ScriptLine::Schedule(Sched::Step { worker, number }))
    } else if first == SKIP {
        let (worker, number) = events(&table.config, words)?;
        Ok(ScriptLine::Schedule(Sched::Skip { worker, number }))
    } else if first == FINISH {
        let (worker, number) = events(&table.config, words)?;
        Ok(ScriptLine::Schedule(Sched::Finish { worker, number }))
    } else {
        Ok(ScriptLine::Command(command(table, first, words)?))
    }
}

/// The worker and the number of a line of the schedule, which are its other words.
#[tactic(auto, unfolding(crate::specs::ScheduleLines::events_of))]
fn events(config: &Config, mut words: Words) -> Result<(u32, u32), Cause>
    ensures { result ≡ events_of config.now words.entry }
{
    let worker = words.number(worker_limits(config))?;
    let number = words.number(EVENTS)?;
    words.end()?;
    Ok((worker, number))
}

/// The command of a line that begins with this word: its worker, and what that asks.
#[tactic(auto, unfolding(crate::specs::CommandLines::command_of))]
pub fn command(table: &TableLine, first: &[u8], words: Words) -> Result<(u32, Call), Cause>
    ensures { result ≡ command_of table.now (first.now ∷ words.entry) }
{
    let worker = worker(&table.config, first)?;
    Ok((worker, call(table, words)?))
}

/// The worker that the first word of a line names. A word that begins a line of the schedule is an unknown
/// word there.
#[tactic(auto, unfolding(crate::specs::CommandLines::worker_of))]
fn worker(config: &Config, word: &[u8]) -> Result<u32, Cause>
    ensures { result ≡ worker_of config.now word.now }
{
    if word == STEP || word == SKIP || word == FINISH {
        return Err(Cause::UnknownWord);
    }
    number_within(worker_limits(config), word)
}

/// What the words of a line say that is a command which any worker may do.
#[tactic(auto, unfolding(crate::specs::Dealt::dealt_of))]
fn dealt_line(table: &TableLine, mut words: Words) -> Result<ScriptLine, Cause>
    ensures { result ≡ dealt_of table.now words.entry }
{
    if words.next() != Some(ANY) {
        return Err(Cause::UnknownWord);
    }
    dealt_command((NOBODY, call(table, words)?))
}

/// The line of a command, where any worker may do it.
fn dealt_command(command: (u32, Call)) -> Result<ScriptLine, Cause>
    ensures { result ≡ dealt_line command }
{
    if is_dealt_call(command.1) {
        Ok(ScriptLine::Command(command))
    } else {
        Err(Cause::UnknownWord)
    }
}

/// What these words ask below this table line, of which the first is a verb.
#[tactic(auto, unfolding(crate::specs::CommandLines::call_of))]
fn call(table: &TableLine, mut words: Words) -> Result<Call, Cause>
    ensures { result ≡ call_of table.now words.entry }
{
    let verb = words.next().ok_or(Cause::UnknownWord)?;
    call_of_verb(table, verb, words)
}

/// What this verb asks below this table line with the words behind it.
#[tactic(auto, unfolding(crate::specs::CommandLines::call_of))]
pub fn call_of_verb(table: &TableLine, verb: &[u8], words: Words) -> Result<Call, Cause>
    ensures { result ≡ call_of table.now (verb.now ∷ words.entry) }
{
    if verb == BIND {
        bind(table.form, words)
    } else if verb == FIND {
        find(table.form, words)
    } else if verb == ALL {
        all(table.form, words)
    } else if verb == RELEASE {
        release(table.form, words)
    } else if verb == REBIND {
        rebind(table.form, words)
    } else if verb == WALK {
        bare(whole_walk(&table.config), words)
    } else if verb == WORK {
        bare(Call::Work, words)
    } else if verb == TIDY {
        bare(Call::Tidy, words)
    } else if verb == COUNT {
        bare(Call::Count, words)
    } else {
        Err(Cause::UnknownWord)
    }
}

/// A bind of these words.
#[tactic(auto, unfolding(crate::specs::CommandLines::bind_of))]
fn bind(form: u32, mut words: Words) -> Result<Call, Cause>
    ensures { result ≡ bind_of form words.entry }
{
    let port = words.port(form)?;
    let owner = words.number(OWNER)?;
    words.end()?;
    Ok(Call::Bind {
        port,
        owner,
        once: false,
    })
}

/// A look-up of these words.
#[tactic(auto, unfolding(crate::specs::CommandLines::find_of))]
fn find(form: u32, mut words: Words) -> Result<Call, Cause>
    ensures { result ≡ find_of form words.entry }
{
    let port = words.port(form)?;
    words.end()?;
    Ok(Call::Find { port })
}

/// A listing of these words.
#[tactic(auto, unfolding(crate::specs::CommandLines::all_of))]
fn all(form: u32, mut words: Words) -> Result<Call, Cause>
    ensures { result ≡ all_of form words.entry }
{
    let port = words.port(form)?;
    words.end()?;
    Ok(Call::All { port })
}

/// A release of these words.
#[tactic(auto, unfolding(crate::specs::CommandLines::release_of))]
fn release(form: u32, mut words: Words) -> Result<Call, Cause>
    ensures { result ≡ release_of form words.entry }
{
    let port = words.port(form)?;
    let owner = words.number(OWNER)?;
    words.end()?;
    Ok(Call::Release { port, owner })
}

/// A rebind of these words.
#[tactic(auto, unfolding(crate::specs::CommandLines::rebind_of))]
fn rebind(form: u32, mut words: Words) -> Result<Call, Cause>
    ensures { result ≡ rebind_of form words.entry }
{
    let port = words.port(form)?;
    let owner = words.number(OWNER)?;
    let new = words.number(OWNER)?;
    words.end()?;
    Ok(Call::Rebind { port, owner, new })
}

/// A walk over the whole table: it begins at the first bucket, and may show as many pairs as there
/// are nodes.
fn whole_walk(config: &Config) -> Call
    ensures { result ≡ whole_walk config.now }
{
    Call::Walk {
        from: None,
        limit: config.nodes,
    }
}

/// A call that its verb says alone: no word stands behind it.
#[tactic(auto, unfolding(crate::specs::CommandLines::bare_of))]
fn bare(call: Call, mut words: Words) -> Result<Call, Cause>
    ensures { result ≡ bare_of call words.entry }
{
    words.end()?;
    Ok(call)
}
