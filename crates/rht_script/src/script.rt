//! What a script says, as plain data.

ghost use Rattle.std.specs.Prelude.{◌≡◌, ◌↔◌, IsTrue};
ghost use Rattle.rht_script.specs.declared.script.ReadError.TheVariants.{Fault, Memory};
ghost use Rattle.std.specs.List.{list_all};
ghost use Rattle.rht_script.specs.Sound.{IsSoundScript, has_sound_numbers, is_sound_command, is_sound_call, is_sound_line};
ghost use Rattle.rht_script.specs.PortWords.{is_port_in};
ghost use Rattle.rht_script.specs.Dealt.{is_dealt_call, is_dealt_command, IsDealtScript};
ghost use Rattle.rht_script.specs.CommandLines.{worker_limits};

use rht_model::Call;
use rht_words::{Config, Limits, Port};
use std::alloc::{AllocError, AllocFailed};

/// What a table line says.
#[derive(Clone, Copy, Debug, PartialEq, Eq)]
pub struct TableLine {
    /// What the table is opened with.
    pub config: Config,
    /// Whether a worker runs `work` by itself where a reply asks for it.
    pub auto: bool,
    /// How ports are written: 1, as one number; 2, as one number or with a net too.
    pub form: u32,
}

/// The form in which a port is one number, which is so where a table line says nothing of it.
pub(crate) const ONE_NUMBER: u32 = 1;

/// The form in which a port may have a net too.
pub(crate) const NET_AND_NUMBER: u32 = 2;

/// The forms.
pub(crate) const FORMS: Limits = Limits {
    least: ONE_NUMBER,
    greatest: NET_AND_NUMBER,
};

/// A script: what the table is opened with, and what the workers do.
#[derive(Debug, Drop)]
pub struct Script {
    /// What the table is opened with.
    pub config: Config,
    /// Whether a worker runs `work` by itself where a reply asks for it.
    pub auto: bool,
    /// How ports are written: 1, as one number; 2, as one number or with a net too.
    pub form: u32,
    /// The commands in the order of their lines, each with its worker, counted from 1; in a dealt script
    /// with 0, since they are nobody's yet.
    pub commands: Vec<(u32, Call)>,
    /// The schedule that a replay follows, in the order of its lines.
    pub schedule: Vec<Sched>,
}

/// The greatest number of lines of a script, and of its commands.
pub(crate) const MOST_LINES: usize = 1_000_000;

/// What stands in the place of a worker's number where a command is nobody's yet.
pub(crate) const NOBODY: u32 = 0;

/// The events of a line of a schedule, and at `finish` the calls that end.
pub(crate) const EVENTS: Limits = Limits {
    least: 1,
    greatest: 1_000_000,
};

impl Script {
    /// Whether the script can be run: a table can be opened with its config, there is such a form,
    /// and each command and each line of its schedule fits that table, its workers and the form.
    pub fn is_sound(&self) -> bool
        ensures { IsTrue result ↔ IsSoundScript self.now }
    {
        self.config.is_settled()
            && FORMS.allow(self.form)
            && self.commands.len() <= MOST_LINES
            && are_sound_commands(self.form, &self.config, &self.commands)
            && are_sound_lines(&self.config, &self.schedule)
    }
}

impl Script {
    /// Whether the script can be dealt: a table can be opened with its config, there is such a form,
    /// each command fits them and is for any worker, and there is no schedule.
    pub fn is_dealt(&self) -> bool
        ensures { IsTrue result ↔ IsDealtScript self.now }
    {
        self.config.is_settled()
            && FORMS.allow(self.form)
            && self.commands.len() <= MOST_LINES
            && are_dealt_commands(self.form, &self.config, &self.commands)
            && self.schedule.is_empty()
    }
}

/// Whether each command is for any worker, its port can be named in this form, and its call can be run.
fn are_dealt_commands(form: u32, config: &Config, commands: &[(u32, Call)]) -> bool
    ensures { result ≡ list_all (is_dealt_command form config.now) commands.now }
{
    commands
        .iter()
        .all(|command| is_dealt_command(form, config, *command))
}

/// Whether the command is for any worker, its port can be named in this form, and its call can be run.
fn is_dealt_command(form: u32, config: &Config, command: (u32, Call)) -> bool
    ensures { result ≡ is_dealt_command form config.now command }
{
    command.0 == NOBODY
        && has_sound_numbers(form, command.1)
        && is_dealt_call(command.1)
        && is_sound_call(config, command.1)
}

/// Whether each command is a worker's, its port can be named in this form, and its call can be run.
fn are_sound_commands(form: u32, config: &Config, commands: &[(u32, Call)]) -> bool
    ensures { result ≡ list_all (is_sound_command form config.now) commands.now }
{
    commands
        .iter()
        .all(|command| is_sound_command(form, config, *command))
}

/// Whether each line of the schedule is a worker's, and its number is within its limits.
fn are_sound_lines(config: &Config, schedule: &[Sched]) -> bool
    ensures { result ≡ list_all (is_sound_line config.now) schedule.now }
{
    schedule.iter().all(|line| is_sound_line(config, *line))
}

/// Whether the command is a worker's, its port can be named in this form, and its call can be run.
fn is_sound_command(form: u32, config: &Config, command: (u32, Call)) -> bool
    ensures { result ≡ is_sound_command form config.now command }
{
    worker_limits(config).allow(command.0)
        && has_sound_numbers(form, command.1)
        && is_sound_call(config, command.1)
}

/// Whether scripts of this form can name the call's port. That its owners are within their limits is
/// so by their types.
fn has_sound_numbers(form: u32, call: Call) -> bool
    ensures { result ≡ has_sound_numbers form call }
{
    match call {
        Call::Bind { port, .. }
        | Call::Find { port }
        | Call::All { port }
        | Call::Release { port, .. }
        | Call::Rebind { port, .. } => is_port_in(form, port),
        Call::Walk { .. } | Call::Work | Call::Tidy | Call::Count => true,
    }
}

/// Whether scripts of this form can name the port: in form 1 its net is 0.
fn is_port_in(form: u32, port: Port) -> bool
    ensures { result ≡ is_port_in form port }
{
    form == NET_AND_NUMBER || port.net == 0
}

/// Whether a table of this config serves the call.
pub fn is_sound_call(config: &Config, call: Call) -> bool
    ensures { result ≡ is_sound_call config.now call }
{
    match call {
        Call::Bind { once, .. } => !once,
        Call::Walk { from, limit } => from.is_none() && limit == config.nodes,
        _ => true,
    }
}

/// Whether the line of a schedule is a worker's, and its number is within its limits.
fn is_sound_line(config: &Config, line: Sched) -> bool
    ensures { result ≡ is_sound_line config.now line }
{
    let (Sched::Step { worker, number }
    | Sched::Skip { worker, number }
    | Sched::Finish { worker, number }) = line;
    worker_limits(config).allow(worker) && EVENTS.allow(number)
}

/// The numbers of workers, which are the callers of the table, counted from 1.
pub fn worker_limits(config: &Config) -> Limits
    ensures { result ≡ worker_limits config.now }
{
    Limits {
        least: 1,
        greatest: config.callers,
    }
}

/// Whether any worker may do the call: it is about a port, or reads the count.
pub(crate) fn is_dealt_call(call: Call) -> bool
    ensures { result ≡ is_dealt_call call }
{
    match call {
        Call::Bind { .. }
        | Call::Find { .. }
        | Call::All { .. }
        | Call::Release { .. }
        | Call::Rebind { .. }
        | Call::Count => true,
        Call::Walk { .. } | Call::Work | Call::Tidy => false,
    }
}

/// A line of a schedule, of a worker counted from 1. Its number is from 1 to 1,000,000.
#[derive(Clone, Copy, Debug, PartialEq, Eq)]
pub enum Sched {
    /// So many events of the worker, each with a line that shows its operation.
    Step { worker: u32, number: u32 },
    /// So many events of the worker, without these lines.
    Skip { worker: u32, number: u32 },
    /// Events of the worker until so many more of its calls have ended.
    Finish { worker: u32, number: u32 },
}

/// What the lines below a table line are.
#[derive(Clone, Copy, Debug, PartialEq, Eq)]
pub(crate) enum Below {
    /// Commands, each of the worker that it names, and lines of the schedule.
    Workers,
    /// Commands that any worker may do.
    Any,
}

/// What a line below the table line says.
#[derive(Clone, Copy, Debug, PartialEq, Eq)]
pub(crate) enum ScriptLine {
    /// A command, with its worker.
    Command((u32, Call)),
    /// A line of the schedule.
    Schedule(Sched),
}

/// The first fault of bytes that are no script.
#[derive(Clone, Copy, Debug, PartialEq, Eq)]
pub struct ScriptFault {
    /// The line at fault, counted from 1.
    pub line: u32,
    /// The cause: 1, no table line; 2, a word that is unknown, missing or one too many; 3, no
    /// number where one has to stand; 4, a number out of range; 5, too many lines; 6, a line too
    /// long; 8, options that disagree; 9, too many bytes.
    pub cause: u8,
}

/// Why bytes weren't read as a script.
#[derive(Clone, Copy, Debug, PartialEq, Eq)]
pub enum ReadError {
    /// They are no script.
    Fault(ScriptFault),
    /// Memory ran out.
    Memory,
}

impl From<ScriptFault> for ReadError {
    ghost from_gives = { λ fault error. error ≡ Fault fault };

    fn from(fault: ScriptFault) -> ReadError {
        ReadError::Fault(fault)
    }
}

impl From<AllocError> for ReadError {
    ghost from_gives = { λ _ error. error ≡ Memory };

    fn from(_error: AllocError) -> ReadError {
        ReadError::Memory
    }
}

impl<T: Drop> From<AllocFailed<T>> for ReadError {
    ghost from_gives = { λ _ error. error ≡ Memory };

    fn from(_error: AllocFailed<T>) -> ReadError {
        ReadError::Memory
    }
}
