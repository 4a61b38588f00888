//! What lease scripts say, and what their commands are answered, as plain data.

ghost use Rattle.std.specs.Prelude.{◌≡◌, ◌↔◌, IsTrue};
ghost use Rattle.std.specs.List.{list_all};
ghost use Rattle.rht_lease.specs.Scripts.{is_plain_call, is_sound_ask, is_sound_command, IsSoundLeases};

use rht_model::{Call, Reply};
use rht_script::worker_limits;
use rht_words::{Config, Port};

/// A binding that ends, of a port to an owner.
#[derive(Clone, Copy, Debug, PartialEq, Eq)]
pub struct Lease {
    /// What is bound.
    pub port: Port,
    /// To whom it is bound.
    pub owner: u32,
    /// Its last tick, which is any number of 64 bits. The lease ends at a moment later than that.
    pub last: u64,
}

/// What a command of a lease script asks of its worker. Moments are handed in; there is no clock.
#[derive(Clone, Copy, Debug, PartialEq, Eq)]
pub enum LeaseCall {
    /// A call about a port, or a reading of the count.
    Plain(Call),
    /// Binds the port to the owner, and keeps the lease in the book where that is answered `Bound`.
    Lease(Lease),
    /// Gives this last tick, earlier or later, to the first lease of the port and the owner.
    Renew(Lease),
    /// Releases the port by the owner where the book has a lease of both, and takes the first such lease out.
    Cancel { port: Port, owner: u32 },
    /// Releases a port by its owner for each lease of them that has ended at this moment, and takes these
    /// leases out.
    Sweep { now: u64 },
}

/// A lease script: what the table is opened with, and what the workers do.
#[derive(Debug, Drop)]
pub struct LeaseScript {
    /// What the table is opened with.
    pub config: Config,
    /// Whether a worker runs `work` by itself where a reply asks for it.
    pub auto: bool,
    /// The commands in the order of their lines, each with its worker, counted from 1.
    pub commands: Vec<(u32, LeaseCall)>,
}

/// What a sweep came to: so many of its releases took a binding out, and so many found none.
#[derive(Clone, Copy, Debug, PartialEq, Eq)]
pub struct Swept {
    /// How many were answered `Released`.
    pub released: u32,
    /// How many were answered `Absent`: the binding had been taken out or rebound before.
    pub absent: u32,
}

/// What a command of a lease script is answered.
#[derive(Clone, Copy, Debug, PartialEq, Eq)]
pub enum LeaseReply {
    /// The reply to the call that the command stands for.
    Plain(Reply),
    /// The lease has the new last tick.
    Renewed,
    /// Refused: the worker's book has no lease of the port and the owner.
    NoLease,
    /// The ended leases were swept.
    Swept(Swept),
}

/// The greatest number of commands.
const MOST_COMMANDS: usize = 1_000_000;

impl LeaseScript {
    /// Whether the script can be run: a table can be opened with its config, there are at most 1,000,000
    /// commands, each is one of the workers', and its plain calls are such as lease scripts have.
    pub fn is_sound(&self) -> bool
        ensures { IsTrue result ↔ IsSoundLeases self.now }
    {
        self.config.is_settled()
            && self.commands.len() <= MOST_COMMANDS
            && are_sound(&self.config, &self.commands)
    }
}

/// Whether each command is one of the workers', and its plain call is such as lease scripts have.
fn are_sound(config: &Config, commands: &[(u32, LeaseCall)]) -> bool
    ensures { result ≡ list_all (is_sound_command config.now) commands.now }
{
    commands
        .iter()
        .all(|command| is_sound_command(config, *command))
}

/// Whether the command is one of the workers', and its plain call is such as lease scripts have.
fn is_sound_command(config: &Config, command: (u32, LeaseCall)) -> bool
    ensures { result ≡ is_sound_command config.now command }
{
    worker_limits(config).allow(command.0) && is_sound_ask(command.1)
}

/// Whether a plain call is such as lease scripts have.
fn is_sound_ask(ask: LeaseCall) -> bool
    ensures { result ≡ is_sound_ask ask }
{
    match ask {
        LeaseCall::Plain(call) => is_plain_call(call),
        _ => true,
    }
}

/// Whether lease scripts have the call: it is about a port, and a bind is tried until it ends; or it
/// reads the count.
pub(crate) fn is_plain_call(call: Call) -> bool
    ensures { result ≡ is_plain_call call }
{
    match call {
        Call::Bind { once, .. } => !once,
        Call::Find { .. }
        | Call::All { .. }
        | Call::Release { .. }
        | Call::Rebind { .. }
        | Call::Count => true,
        Call::Walk { .. } | Call::Work | Call::Tidy => false,
    }
}
