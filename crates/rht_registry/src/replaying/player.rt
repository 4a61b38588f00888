//! How far a replay has come: the table, and where each worker's next command is looked for.

ghost use Rattle.std.specs.Prelude.{◌≡◌, ◌+◌, ◌^◌, ◌<◌, ◌≤◌, ℕ, List, Some, drop, length, IfOk, IfSome, slice_get, slice_index, slice_set, vec_len};
ghost use Rattle.rht_words.specs.Settled.{IsSettled, plain_ways};
ghost use Rattle.rht_model.specs.declared.history.Call.{Call};
ghost use Rattle.rht_core.specs.Serving.{calls_of};
ghost use Rattle.rht_registry.specs.Replays.{playing_from, readied, event_of, is_through};
ghost use Rattle.rht_registry.specs.Players.{playing_of, CanPlay, Takes, AreEnrolled};

use rht_core::{Event, State, Stepped};
use rht_model::Call;
use rht_policy::Mix;
use rht_words::Config;
use std::alloc::{AllocError, Global};

/// The events that a replay makes at most.
pub(super) const MOST_EVENTS: u32 = 1_000_000;

/// How far a replay has come. Worker W is caller W - 1.
#[derive(Drop)]
pub(super) struct Player<M: Mix> {
    /// The table.
    pub state: State<M>,
    /// For each caller, the place among all commands from which on its next one is looked for.
    pub next: Vec<usize>,
    /// How many events were made.
    pub made: u32,
    /// Whether the limit has ended the replay.
    pub over: bool,
}

impl<M: Mix> Player<M> {
    /// A replay that has made no event. All workers have enrolled, in their order. The one refusal
    /// is want of memory.
    pub fn new(alloc: Global, config: Config) -> Result<Player<M>, AllocError>
        requires { IsSettled config }
        ensures config { IfOk result (λ player. player.state.env.config ≡ config) }
        ensures ways { IfOk result (λ player. player.state.env.ways ≡ plain_ways) }
        ensures places { IfOk result (λ player. length player.next.items ≡ player.state.env.geometry.callers) }
        ensures playing { IfOk result (λ player. (commands : List (ℕ × Call))
            → playing_of commands player ≡ playing_from M.mix_of player.state.env commands) }
    {
        Ok(Player {
            state: enrolled(alloc, config)?,
            next: vec![in alloc; 0; config.callers as usize]?,
            made: 0,
            over: false,
        })
    }

    /// An event of a caller: where that is in no call it takes its next command; then it performs
    /// one operation. `None` where the limit stands in the event's place, which ends the replay.
    pub fn event(&mut self, commands: &[(u32, Call)], caller: u32) -> Option<Stepped>
        requires can { CanPlay self.old }
        requires caller { caller < self.old.state.env.geometry.callers }
        ensures event { (playing_of commands.now self.new, result) ≡ event_of M.mix_of (playing_of commands.now self.old) caller }
        ensures can { CanPlay self.new }
        ensures env { self.new.state.env ≡ self.old.state.env }
    {
        if self.made >= MOST_EVENTS {
            self.over = true;
            return None;
        }
        self.ready(commands, caller);
        self.made += 1;
        Some(self.state.step(Event::Step { caller }))
    }

    /// Whether the caller is in no call and has no command left.
    pub fn is_through(&mut self, commands: &[(u32, Call)], caller: u32) -> bool
        requires can { CanPlay self.old }
        requires caller { caller < self.old.state.env.geometry.callers }
        ensures through { result ≡ is_through (playing_of commands.now self.old) caller }
        ensures playing { playing_of commands.now self.new ≡ playing_of commands.now self.old }
        ensures can { CanPlay self.new }
    {
        if !self.state.local(caller).is_idle() {
            return false;
        }
        self.look(commands, caller) >= commands.len()
    }

    /// Gives the caller its next command, where it is in no call and has one.
    fn ready(&mut self, commands: &[(u32, Call)], caller: u32)
        requires can { CanPlay self.old }
        requires caller { caller < self.old.state.env.geometry.callers }
        ensures playing { playing_of commands.now self.new ≡ readied M.mix_of (playing_of commands.now self.old) caller }
        ensures can { CanPlay self.new }
        ensures env { self.new.state.env ≡ self.old.state.env }
        ensures made { self.new.made ≡ self.old.made }
    {
        if !self.state.local(caller).is_idle() {
            return;
        }
        if let Some(call) = self.take(commands, caller) {
            self.state.step(Event::Begin {
                caller,
                call,
                start: 0,
            });
        }
    }

    /// The caller's next command, where it has one. From now on it isn't left any longer.
    fn take(&mut self, commands: &[(u32, Call)], caller: u32) -> Option<Call>
        requires can { CanPlay self.old }
        requires caller { caller < self.old.state.env.geometry.callers }
        ensures taken { Takes (playing_of commands.now self.old) (playing_of commands.now self.new) caller result }
        ensures state { self.new.state ≡ self.old.state }
        ensures made { self.new.made ≡ self.old.made }
        ensures can { CanPlay self.new }
    {
        let place = self.look(commands, caller);
        if place >= commands.len() {
            return None;
        }
        self.next[caller as usize] = place + 1;
        Some(commands[place].1)
    }

    /// The place of the caller's next command, or one past all commands where it has none. From now
    /// on it is looked for from there.
    fn look(&mut self, commands: &[(u32, Call)], caller: u32) -> usize
        requires can { CanPlay self.old }
        requires caller { caller < self.old.state.env.geometry.callers }
        ensures next { self.new.next.items ≡ slice_set self.old.next.items caller result }
        ensures left { calls_of (caller + 1) (drop (slice_index self.old.next.items caller) commands.now)
            ≡ calls_of (caller + 1) (drop result commands.now) }
        ensures here { IfSome (slice_get commands.now result) (λ command. command.0 ≡ caller + 1) }
        ensures state { self.new.state ≡ self.old.state }
        ensures made { self.new.made ≡ self.old.made }
        ensures over { self.new.over ≡ self.old.over }
    {
        let place = place_of_next(commands, caller + 1, self.next[caller as usize]);
        self.next[caller as usize] = place;
        place
    }
}

/// The place of the worker's next command from this place on, or one past all commands where there
/// is none.
fn place_of_next(commands: &[(u32, Call)], worker: u32, from: usize) -> usize
    ensures left { calls_of worker (drop from commands.now) ≡ calls_of worker (drop result commands.now) }
    ensures here { IfSome (slice_get commands.now result) (λ command. command.0 ≡ worker) }
{
    for place in from..commands.len() {
        if commands[place].0 == worker {
            return place;
        }
    }
    commands.len()
}

/// A table whose callers have all enrolled.
fn enrolled<M: Mix>(alloc: Global, config: Config) -> Result<State<M>, AllocError>
    requires { IsSettled config }
    ensures config { IfOk result (λ state. state.env.config ≡ config) }
    ensures ways { IfOk result (λ state. state.env.ways ≡ plain_ways) }
    ensures enrolled { IfOk result (AreEnrolled M.mix_of) }
{
    let mut state = State::open(alloc, config)?;
    for _ in 0..config.callers {
        state.step(Event::Enroll);
    }
    Ok(state)
}
