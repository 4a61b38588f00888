//! What resume scripts say, and what their commands are answered, as plain data.

ghost use Rattle.std.specs.Prelude.{◌≡◌, ◌↔◌, IsTrue};
ghost use Rattle.std.specs.List.{list_all};
ghost use Rattle.rht_resume.specs.Scripts.{limits_of_pieces, is_sound_ask, is_sound_command, IsSoundResume};

use rht_model::{Call, Reply};
use rht_script::{is_sound_call, worker_limits};
use rht_words::{Config, Limits};

/// What a `next` is answered. The pairs of the piece come beside it.
#[derive(Clone, Copy, Debug, PartialEq, Eq)]
pub enum Piece {
    /// The piece has as many pairs as were wanted, and the walk goes on behind them.
    Part,
    /// The walk has come to the table's end, with so many pairs in this piece.
    End { len: u32 },
    /// Refused: the walk has to begin anew, since a table lies behind the walked one, in this slot, from 0 to 7; or
    /// this is the current one, which the cursor doesn't fit. The piece has no pairs.
    Again { table: u32 },
}

/// What a command of a resume script asks of its worker.
#[derive(Clone, Copy, Debug, PartialEq, Eq)]
pub enum ResumeCall {
    /// A call such as scripts have.
    Plain(Call),
    /// The next piece of the worker's resumed walk, of so many pairs at most: from 1 to the number of nodes.
    Next { limit: u32 },
}

/// What a command of a resume script is answered.
#[derive(Clone, Copy, Debug, PartialEq, Eq)]
pub enum ResumeReply {
    /// The reply to the call that the command stands for.
    Plain(Reply),
    /// The piece of the worker's resumed walk.
    Next(Piece),
}

/// A resume script: what the table is opened with, and what the workers do.
#[derive(Debug, Drop)]
pub struct ResumeScript {
    /// What the table is opened with.
    pub config: Config,
    /// Whether a worker runs `work` by itself where a reply asks for it.
    pub auto: bool,
    /// The commands in the order of their lines, each with its worker, counted from 1.
    pub commands: Vec<(u32, ResumeCall)>,
}

/// The greatest number of commands.
const MOST_COMMANDS: usize = 1_000_000;

impl ResumeScript {
    /// Whether the script can be run: a table can be opened with its config, there are at most 1,000,000
    /// commands, each is one of the workers', its plain calls are such as scripts have, and its pieces are of 1
    /// pair to as many as the table has nodes.
    pub fn is_sound(&self) -> bool
        ensures { IsTrue result ↔ IsSoundResume self.now }
    {
        self.config.is_settled()
            && self.commands.len() <= MOST_COMMANDS
            && are_sound(&self.config, &self.commands)
    }
}

/// Whether each command is one of the workers', and what it asks is such as resume scripts have.
fn are_sound(config: &Config, commands: &[(u32, ResumeCall)]) -> bool
    ensures { result ≡ list_all (is_sound_command config.now) commands.now }
{
    commands
        .iter()
        .all(|command| is_sound_command(config, *command))
}

/// Whether the command is one of the workers', and what it asks is such as resume scripts have.
fn is_sound_command(config: &Config, command: (u32, ResumeCall)) -> bool
    ensures { result ≡ is_sound_command config.now command }
{
    worker_limits(config).allow(command.0) && is_sound_ask(config, command.1)
}

/// Whether a plain call is such as scripts have, and a piece has a size that may be asked for.
fn is_sound_ask(config: &Config, ask: ResumeCall) -> bool
    ensures { result ≡ is_sound_ask config.now ask }
{
    match ask {
        ResumeCall::Plain(call) => is_sound_call(config, call),
        ResumeCall::Next { limit } => pieces(config).allow(limit),
    }
}

/// How many pairs a piece may be asked for.
pub(crate) fn pieces(config: &Config) -> Limits
    ensures { result ≡ limits_of_pieces config.now }
{
    Limits {
        least: 1,
        greatest: config.nodes,
    }
}
