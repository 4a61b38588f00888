//! What follows for books, for the calls that commands stand for, and for what workers leave. Each function is
//! empty, and its clause is the law. What else is so of the run that they leave, is said of every run that
//! serves commands (the laws of `rht_core`, and `HasRun` of `rht_run`).

ghost use Rattle.rht_lease.specs.Laws.{AnswersByOwnCalls, MissesWhereNoneIs, HoldsWhatIsAsked, SweepsEachEnded, LeavesNoneEnded, OutnumbersByCommands, TakesAllWhereRoomy, AnswersAsModel, HistoryFits};

use rht_policy::Mix;

/// A command is answered by how the calls ended that it stands for, and by what the book was then.
pub fn own_calls()
    ensures { AnswersByOwnCalls }
{}

/// A command finds no lease exactly where the book has none.
pub fn missed()
    ensures { MissesWhereNoneIs }
{}

/// A book never has more leases than were asked for.
pub fn held()
    ensures { HoldsWhatIsAsked }
{}

/// A sweep releases for each lease that has ended, and for no other.
pub fn swept()
    ensures { SweepsEachEnded }
{}

/// No lease that a sweep leaves has ended.
pub fn left()
    ensures { LeavesNoneEnded }
{}

/// How many nodes are wanted at most, the script says.
pub fn nodes()
    ensures { OutnumbersByCommands }
{}

/// Where the table is roomy for the script's commands, no bind and no rebind is refused.
pub fn roomy()
    ensures { TakesAllWhereRoomy }
{}

/// Where the table is enough for one worker's commands, its calls are those that the model makes of them. Each about
/// bindings is answered as the model answers it.
pub fn small()
    ensures { AnswersAsModel }
{}

/// A legal history fits the run that the workers leave.
pub fn history_fits<M: Mix>()
    ensures { HistoryFits M }
{}
