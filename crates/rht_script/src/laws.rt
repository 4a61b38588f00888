//! What follows from the grammar alone, in the words of scripts, and what the script of a number has.
//! Each function is empty, and its clause is the law.

ghost use Rattle.rht_script.specs.Generated.{GeneratedCounts, GeneratedSayable};
ghost use Rattle.rht_script.specs.Laws.{FaultsAreFirst, PlainPorts, ReadsBack, SaysSayable, WordsDecide};

/// A fault in a line is that of the lines up to it alone, whatever comes behind them, and the lines
/// before it have none. Which lines are at fault the law doesn't say.
pub fn faults_are_first()
    ensures { FaultsAreFirst }
{}

/// What today's words can say, be it any config that the options set and any commands, is read back
/// from its plain spelling. The law says nothing of other spellings, and nothing of faults.
pub fn reads_back()
    ensures { ReadsBack }
{}

/// Whatever is read, today's words can say, so `reads_back` leaves nothing out that is ever said.
/// Which inputs say it the law doesn't say.
pub fn says_sayable()
    ensures { SaysSayable }
{}

/// A script of form 1, as each is whose table line names no form, has ports of net 0 alone. Which
/// scripts there are the law doesn't say.
pub fn plain_ports()
    ensures { PlainPorts }
{}

/// Blank lines, comments, and which blanks stand between words change nothing but the line of a
/// fault. What the words mean the law doesn't say.
pub fn words_decide()
    ensures { WordsDecide }
{}

/// The script of a number has 20,000 commands: 6,000 binds, 12,000 look-ups and 2,000 releases. How
/// they are answered the law doesn't say.
pub fn generated_counts()
    ensures { GeneratedCounts }
{}

/// The script of a number of 32 bits can be said: a table line can say its config, and a line each of
/// its commands. How long its plain spelling is the law doesn't say.
pub fn generated_sayable()
    ensures { GeneratedSayable }
{}
