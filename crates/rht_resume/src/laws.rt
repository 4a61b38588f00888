//! What follows for resumed walks, for the calls that commands stand for, and for what workers leave. Each function
//! is empty, and its clause is the law. What else is so of the run that they leave, is said of every run that
//! serves commands (the laws of `rht_core`, and `HasRun` of `rht_run`).

ghost use Rattle.rht_resume.specs.Laws.{CutsRightly, BeginsAnewByWalk, DecidesAnswers, WalksRise, PiecesShowBound, ShowsAllOnce, OutnumbersByCommands, TakesAllWhereRoomy, AnswersAsModel, HistoryFits};

use rht_policy::Mix;

/// A part has as many pairs as were wanted, and an end tells how many it has.
pub fn pieces()
    ensures { CutsRightly }
{}

/// A walk has to begin anew exactly where one of the calls that it made was answered so.
pub fn begun_anew()
    ensures { BeginsAnewByWalk }
{}

/// A worker's finished calls decide what its commands were answered.
pub fn decided()
    ensures { DecidesAnswers }
{}

/// In every run the walks of a `next` go on from bucket to later bucket of one table, by its serial, and there are
/// no more of them than the table that one of them found has buckets.
pub fn few_walks<M: Mix>()
    ensures { WalksRise M M.mix_of }
{}

/// In every run each pair that a `next` shows is a port and its first owner behind some event of that call.
pub fn bound<M: Mix>()
    ensures { PiecesShowBound M M.mix_of }
{}

/// In every run a resumed walk over words that stay, but for section words, shows each port that these stand for,
/// once and with its first owner, and nothing else.
pub fn quiet<M: Mix>()
    ensures { ShowsAllOnce M M.mix_of }
{}

/// Where the calls that bind or rebind outnumber the nodes, the commands do: a `next` wants no node.
pub fn nodes()
    ensures { OutnumbersByCommands }
{}

/// Where the table is roomy for the script's commands, no bind and no rebind is refused.
pub fn roomy()
    ensures { TakesAllWhereRoomy }
{}

/// Where the plain calls of one worker leave few ports bound at a time, each of its calls about bindings is answered
/// as the model answers it.
pub fn small()
    ensures { AnswersAsModel }
{}

/// A legal history fits the run that the workers leave.
pub fn history_fits<M: Mix>()
    ensures { HistoryFits M }
{}
