//! Replays: a script's schedule followed on plain words, event by event, and printed.
//!
//! Stands on `rht_core`'s `State`, which performs the events, and on `rht_script`'s writer. Each
//! line costs at most one put, and an event takes no memory.
//! Read `specs/Replays.antt` first.

ghost use Rattle.std.specs.Prelude.{◌≡◌, ◌+◌, ◌-◌, ◌≤◌, ◌==◌, ◌||◌, ℕ, List, [], OnOk, true, false, flat_map, codes, if◌then◌else◌};
ghost use Rattle.std.specs.List.{AllByRecursion, list_all, range_with_len};
ghost use Rattle.rht_policy.specs.Mix.{mix_named};
ghost use Rattle.rht_io.specs.Told.{Puts};
ghost use Rattle.rht_core.specs.Locals.{is_idle};
ghost use Rattle.rht_core.specs.Runs.{local_of, IsReached};
ghost use Rattle.rht_script.specs.Sound.{IsSoundScript};
ghost use Rattle.rht_script.specs.OperationText.{open_line};
ghost use Rattle.rht_registry.specs.declared.replaying.ReplayError.TheVariants.{Write, Memory};
ghost use Rattle.rht_registry.specs.Replays.{did_text, ended_text, event_text, still_to_end, times, stepping, is_through, finishing, line_played, schedule_played, callers_of, open_text, end_text};
ghost use Rattle.rht_registry.specs.Players.{playing_of, CanPlay, Plays, IsLineFor, Writes, IsReplayed};

mod player;

use self::player::{MOST_EVENTS, Player};
use rht_core::{Local, State, Stepped};
use rht_io::{Failed, Sink, put_all};
use rht_model::{Call, Reply};
use rht_policy::Mix;
use rht_script::{
    Sched, Script, write_closed, write_open, write_operation, write_reply, write_size,
};
use rht_words::Op;
use std::alloc::{AllocError, Global};

/// Why a replay wasn't written to its end.
#[derive(Clone, Copy, Debug, PartialEq, Eq)]
pub enum ReplayError {
    /// The sink had a fault.
    Write,
    /// Memory ran out.
    Memory,
}

impl From<Failed> for ReplayError {
    ghost from_gives = { λ _ error. error ≡ Write };

    fn from(_error: Failed) -> ReplayError {
        ReplayError::Write
    }
}

impl From<AllocError> for ReplayError {
    ghost from_gives = { λ _ error. error ≡ Memory };

    fn from(_error: AllocError) -> ReplayError {
        ReplayError::Memory
    }
}

/// Follows the schedule of a script and prints what that does: the lines of its operations, the
/// reply lines, and at the end what is bound, or who is still in a call. Memory is taken for the
/// table and for a place a worker, and at the end for what is bound.
pub fn replay<M: Mix, O: Sink>(
    alloc: Global,
    script: &Script,
    out: &mut O,
) -> Result<(), ReplayError>
    requires sound { IsSoundScript script.now }
    requires mix { M.mix_of ≡ mix_named script.now.config }
    ensures { IsReplayed M (mix_named script.now.config) script.now O.held O.faults out.old out.new result }
{
    let mut player = Player::<M>::new(alloc, script.config)?;
    play_schedule(out, &mut player, &script.commands, &script.schedule)?;
    write_end(out, &player.state, script.config.callers)
}

/// Plays a schedule, line by line.
fn play_schedule<M: Mix, O: Sink>(
    out: &mut O,
    player: &mut Player<M>,
    commands: &[(u32, Call)],
    schedule: &[Sched],
) -> Result<(), Failed>
    requires can { CanPlay player.old }
    requires lines { AllByRecursion (IsLineFor player.old.state.env.geometry.callers) schedule.now }
    ensures { Plays O.held O.faults out.old out.new result commands.now
        (schedule_played M.mix_of schedule.now (playing_of commands.now player.old)) player.old player.new }
{
    for line in schedule {
        play_line(out, player, commands, *line)?;
    }
    Ok(())
}

/// Plays a line of a schedule.
fn play_line<M: Mix, O: Sink>(
    out: &mut O,
    player: &mut Player<M>,
    commands: &[(u32, Call)],
    line: Sched,
) -> Result<(), Failed>
    requires can { CanPlay player.old }
    requires line { IsLineFor player.old.state.env.geometry.callers line }
    ensures { Plays O.held O.faults out.old out.new result commands.now
        (line_played M.mix_of line (playing_of commands.now player.old)) player.old player.new }
{
    match line {
        Sched::Step { worker, number } => play_steps(out, player, commands, worker, number, true),
        Sched::Skip { worker, number } => play_steps(out, player, commands, worker, number, false),
        Sched::Finish { worker, number } => play_finish(out, player, commands, worker, number),
    }
}

/// Plays so many events of a worker. Where the limit is met the others are passed over.
fn play_steps<M: Mix, O: Sink>(
    out: &mut O,
    player: &mut Player<M>,
    commands: &[(u32, Call)],
    worker: u32,
    number: u32,
    shown: bool,
) -> Result<(), Failed>
    requires can { CanPlay player.old }
    requires first { 1 ≤ worker }
    requires last { worker ≤ player.old.state.env.geometry.callers }
    ensures { Plays O.held O.faults out.old out.new result commands.now
        (times number (stepping M.mix_of shown (worker - 1)) (playing_of commands.now player.old)) player.old player.new }
{
    for _ in 0..number {
        if player.over {
            return Ok(());
        }
        let event = player.event(commands, worker - 1);
        write_event(out, worker, shown, event, player.state.local(worker - 1))?;
    }
    Ok(())
}

/// Plays events of a worker until so many more of its calls have ended, or it has nothing left, or
/// the limit is met.
fn play_finish<M: Mix, O: Sink>(
    out: &mut O,
    player: &mut Player<M>,
    commands: &[(u32, Call)],
    worker: u32,
    number: u32,
) -> Result<(), Failed>
    requires can { CanPlay player.old }
    requires first { 1 ≤ worker }
    requires last { worker ≤ player.old.state.env.geometry.callers }
    ensures { Plays O.held O.faults out.old out.new result commands.now
        (line_played M.mix_of (Sched.Finish worker number) (playing_of commands.now player.old)) player.old player.new }
{
    let mut calls = number;
    for _ in 0..MOST_EVENTS + 1 {
        if is_finished(player, commands, worker - 1, calls) {
            return Ok(());
        }
        let event = player.event(commands, worker - 1);
        write_event(out, worker, false, event, player.state.local(worker - 1))?;
        calls = still_to_end(calls, event);
    }
    Ok(())
}

/// Whether no further event is made of a line that is to end so many more calls of a caller.
fn is_finished<M: Mix>(
    player: &mut Player<M>,
    commands: &[(u32, Call)],
    caller: u32,
    calls: u32,
) -> bool
    requires can { CanPlay player.old }
    requires caller { caller + 1 ≤ player.old.state.env.geometry.callers }
    ensures finished { result ≡ (calls == 0 || (playing_of commands.now player.old).over
        || is_through (playing_of commands.now player.old) caller) }
    ensures playing { playing_of commands.now player.new ≡ playing_of commands.now player.old }
    ensures can { CanPlay player.new }
{
    if calls == 0 || player.over {
        return true;
    }
    player.is_through(commands, caller)
}

/// How many of so many calls are still to end behind an event.
fn still_to_end(calls: u32, event: Option<Stepped>) -> u32
    ensures { result ≡ still_to_end calls event }
{
    match event {
        Some(stepped) if stepped.reply.is_some() => calls.saturating_sub(1),
        Some(_) | None => calls,
    }
}

/// Writes the lines of an event, of which `None` says that the limit stands in its place.
fn write_event<M: Mix, O: Sink>(
    out: &mut O,
    worker: u32,
    shown: bool,
    event: Option<Stepped>,
    local: &Local<M>,
) -> Result<(), Failed>
    ensures { Puts O.held O.faults out.old out.new result (event_text shown worker local.now event) }
{
    let Some(stepped) = event else {
        return put_all(out, b"limit\n");
    };
    write_did(out, worker, shown, stepped.did)?;
    write_ended(out, worker, stepped.reply, local)
}

/// Writes the line of an operation, where there is one and operations are shown.
fn write_did<O: Sink>(
    out: &mut O,
    worker: u32,
    shown: bool,
    did: Option<(Op, u64)>,
) -> Result<(), Failed>
    ensures { Puts O.held O.faults out.old out.new result (did_text shown worker did) }
{
    match did {
        Some((op, old)) if shown => write_operation(out, worker, op, old),
        _ => Ok(()),
    }
}

/// Writes the reply line, where a call has ended.
fn write_ended<M: Mix, O: Sink>(
    out: &mut O,
    worker: u32,
    reply: Option<Reply>,
    local: &Local<M>,
) -> Result<(), Failed>
    ensures { Puts O.held O.faults out.old out.new result (ended_text worker local.now reply) }
{
    match reply {
        Some(reply) => write_reply(out, worker, reply, local.owners(), local.pairs(), true),
        None => Ok(()),
    }
}

/// Writes the lines at the end.
fn write_end<M: Mix, O: Sink>(
    out: &mut O,
    state: &State<M>,
    callers: u32,
) -> Result<(), ReplayError>
    requires { callers ≡ state.now.env.geometry.callers }
    ensures { Writes O.held O.faults out.old out.new result (end_text state.now) }
{
    if are_idle(state, callers) {
        let closed = state.closed()?;
        write_closed(out, &closed)?;
        return Ok(());
    }
    write_calls(out, state, callers)?;
    write_size(out, state.size())?;
    Ok(())
}

/// Whether no caller is in a call.
fn are_idle<M: Mix>(state: &State<M>, callers: u32) -> bool
    requires { callers ≡ state.now.env.geometry.callers }
    ensures { result ≡ list_all (λ c. is_idle (local_of state.now c)) (callers_of state.now) }
{
    for caller in 0..callers {
        if !state.local(caller).is_idle() {
            return false;
        }
    }
    true
}

/// Writes a line for each caller that is in a call.
fn write_calls<M: Mix, O: Sink>(out: &mut O, state: &State<M>, callers: u32) -> Result<(), Failed>
    requires { callers ≡ state.now.env.geometry.callers }
    ensures { Puts O.held O.faults out.old out.new result (flat_map (open_text state.now) (callers_of state.now)) }
{
    for caller in 0..callers {
        write_call(out, caller + 1, state.local(caller).is_idle())?;
    }
    Ok(())
}

/// Writes the line of a worker, unless it is idle.
fn write_call<O: Sink>(out: &mut O, worker: u32, idle: bool) -> Result<(), Failed>
    ensures { Puts O.held O.faults out.old out.new result (if idle then [] else open_line worker) }
{
    if idle {
        return Ok(());
    }
    write_open(out, worker)
}
