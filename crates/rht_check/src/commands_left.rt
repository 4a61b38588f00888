//! The commands that each worker of a script has left.

ghost use Rattle.std.specs.Prelude.{◌≡◌, ◌==◌, ℕ, [], All, IfOk, MatchOption, position};
ghost use Rattle.rht_check.specs.Claims.{commands_of};
ghost use Rattle.rht_check.specs.CommandsLeft.{left_of, IsNextAt, TakesCommand, IsWorkerOf, IsFirstLeft};

use rht_model::Call;
use std::alloc::{AllocError, Global};
use std::marker::Model;

/// The commands that each worker has left, of those of all workers. Contracts see the list of each
/// worker, counted from 1.
#[derive(Debug, Drop)]
pub struct CommandsLeft<'a> {
    commands: &'a [(u32, Call)],
    /// Where the first command may stand that each worker has left.
    places: Vec<usize>,
}

impl<'a> Model for CommandsLeft<'a> {
    ghost use Rattle.std.specs.Prelude.{◌^◌, ◌<◌, ◌≤◌, All, length};
    ghost use Rattle.rht_check.specs.CommandsLeft.{Left, IsWorkerOf};

    ghost Value = { Left };

    ghost view = { λ left. record { commands = left.commands.now; places = left.places.items } };

    ghost invariant = { λ left. record {
      workers : All (IsWorkerOf (length left.places.items)) left.commands.now;
      within : All (λ place. place ≤ length left.commands.now) left.places.items;
      few : length left.places.items < 2 ^ 32;
    } };
}

impl<'a> CommandsLeft<'a> {
    /// All commands, which are of so many workers.
    pub fn new(
        alloc: Global,
        workers: u32,
        commands: &'a [(u32, Call)],
    ) -> Result<CommandsLeft<'a>, AllocError>
        requires { All (IsWorkerOf workers) commands.now }
        ensures { IfOk result (λ left. (worker : ℕ) → left_of left worker ≡ commands_of worker commands.now) }
    {
        Ok(CommandsLeft {
            commands,
            places: vec![in alloc; 0; workers as usize]?,
        })
    }

    /// Takes the worker's next command. `None` where it has none left.
    pub fn next(&mut self, worker: u32) -> Option<Call>
        ensures { MatchOption result
            ((left_of self.old worker ≡ []) × (self.new ≡ self.old))
            (TakesCommand self.old self.new worker) }
    {
        let place = self.next_place(worker)?;
        self.places[worker as usize - 1] = place + 1;
        Some(self.commands[place].1)
    }

    /// Where the worker's next command stands. `None` where it has none left.
    fn next_place(&self, worker: u32) -> Option<usize>
        ensures { MatchOption result (left_of self.now worker ≡ []) (IsNextAt self.now worker) }
    {
        if worker == 0 || worker as usize > self.places.len() {
            return None;
        }
        let from = self.places[worker as usize - 1];
        match place_of(worker, &self.commands[from..]) {
            Some(steps) => Some(from + steps),
            None => None,
        }
    }

    /// The first worker that has commands left.
    pub fn unfinished(&self) -> Option<u32>
        ensures { MatchOption result
            ((worker : ℕ) → left_of self.now worker ≡ [])
            (IsFirstLeft self.now) }
    {
        for number in 0..self.places.len() {
            let worker = number as u32 + 1;
            if self.next_place(worker).is_some() {
                return Some(worker);
            }
        }
        None
    }
}

/// Where the first command of the worker stands.
fn place_of(worker: u32, commands: &[(u32, Call)]) -> Option<usize>
    ensures { result ≡ position (λ command. command.0 == worker) commands.now }
{
    commands.iter().position(|command| command.0 == worker)
}
