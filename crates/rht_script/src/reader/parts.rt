//! The parts of a script, read one by one: words as numbers and ports, and whole lines. Programs
//! with lines of their own read these by the same rules as `read` does.
//!
//! None of these calls takes memory. A cause is told by its number, as in a `ScriptFault`.

ghost use Rattle.std.specs.Prelude.{◌≡◌, IfOk, IsTrue};
ghost use Rattle.rht_words.specs.Settled.{IsSettled};
ghost use Rattle.rht_script.specs.CommandLines.{command_of};
ghost use Rattle.rht_script.specs.Grammar.{coded};
ghost use Rattle.rht_script.specs.PortWords.{IsForm, port_of_word};
ghost use Rattle.rht_script.specs.Sound.{is_sound_command};
ghost use Rattle.rht_script.specs.Spelling.{between, number_of, words_of};
ghost use Rattle.rht_script.specs.TableLines.{table_of};

use super::cursors::Words;
use super::numbers::number_between;
use super::ports::port;
use super::{command, table};
use crate::cause::{Cause, coded};
use crate::script::TableLine;
use rht_model::Call;
use rht_words::Port;

/// The number that the word stands for: 1 to 20 digits, with leading zeros allowed. Cause 3: the
/// word is no number. Cause 4: the number is below the least or above the greatest.
pub fn number_of(word: &[u8], least: u64, greatest: u64) -> Result<u64, u8>
    ensures { result ≡ coded (number_of (between least greatest) word.now) }
{
    coded(number_between(word, least, greatest))
}

/// The port that the word stands for in a script of this form, which is 1 or 2. In form 1 the word is
/// a number of at most 4,294,967,295, and the port's net is 0. In form 2 it may also be a net, a dot
/// and such a number: it is cut at its first dot, and the net is at most 65,535. Causes 3 and 4 come
/// as for numbers, first of the net and then of the number. So `3.`, `.3` and `1.2.3` have cause 3,
/// and `65536.x` has cause 4.
pub fn port_word(word: &[u8], form: u32) -> Result<Port, u8>
    requires { IsForm form }
    ensures { result ≡ coded (port_of_word form word.now) }
{
    coded(port(form, word))
}

/// What a table line says, or its first cause, of 1 to 4 and 8. A line is never skipped: without
/// words it has cause 1, and a first word that begins with `#` is a word like any other.
pub fn table_line(line: &[u8]) -> Result<TableLine, u8>
    ensures value { result ≡ coded (table_of (words_of line.now)) }
    ensures settled { IfOk result (λ table. IsSettled table.config) }
    ensures form { IfOk result (λ table. IsForm table.form) }
{
    coded(table(Words::new(line)))
}

/// The worker of a command line, counted from 1, and what it asks, or the line's first cause, of
/// 2 to 4. A line without words, and a line of a schedule, have cause 2. A line is never
/// skipped.
pub fn command_line(line: &[u8], table: &TableLine) -> Result<(u32, Call), u8>
    requires settled { IsSettled table.now.config }
    requires form { IsForm table.now.form }
    ensures value { result ≡ coded (command_of table.now (words_of line.now)) }
    ensures sound { IfOk result (λ command. IsTrue (is_sound_command table.now.form table.now.config command)) }
{
    coded(first_command(table, Words::new(line)))
}

/// The command of a line of these words.
#[tactic(auto, unfolding(crate::specs::CommandLines::command_of))]
fn first_command(table: &TableLine, mut words: Words) -> Result<(u32, Call), Cause>
    ensures { result ≡ command_of table.now words.entry }
{
    let worker = words.next().ok_or(Cause::UnknownWord)?;
    command(table, worker, words)
}
