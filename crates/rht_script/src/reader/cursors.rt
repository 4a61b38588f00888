//! The two cursors that a script is taken apart by: over the lines of its bytes, and over the words
//! of a line.
//!
//! Stands on `places`, which finds where a line ends and where the next word stands.

ghost use Rattle.std.specs.Prelude.{◌≡◌, ◌≢◌, ◌+◌, [], ◌∷◌, MatchOption, Ok, Err};
ghost use Rattle.rht_script.specs.CommandLines.{number_first, worker_first, port_first, end_of};
ghost use Rattle.rht_script.specs.Spelling.{between, lines_of, words_of, is_skipped};
ghost use Rattle.rht_script.specs.Cursors.{TakesNext, Reads};

use super::numbers::{number_between, number_within};
use super::places::{letter_at, line_end, word_at};
use super::{ports, worker};
use crate::cause::Cause;
use crate::script::{MOST_LINES, ScriptFault};
use rht_words::{Config, Limits, Port};
use std::marker::Model;

/// The greatest number of bytes of a line without its line feed.
const MOST_IN_LINE: usize = 256;

/// The lines of a text that are left.
#[derive(Debug, Drop)]
pub struct Lines<'a> {
    rest: &'a [u8],
    /// How many lines were taken.
    taken: u32,
}

impl<'a> Model for Lines<'a> {
    ghost use Rattle.std.specs.Prelude.{◌+◌, ◌≤◌};
    ghost use Rattle.rht_script.specs.Spelling.{lines_of};
    ghost use Rattle.rht_script.specs.Cursors.{Unread};

    ghost Value = { Unread };

    ghost view = { λ lines. record { number = lines.taken + 1; lines = lines_of lines.rest.now } };

    ghost invariant = { λ lines. lines.taken ≤ 1000000 };
}

impl<'a> Lines<'a> {
    /// The lines of these bytes.
    pub fn new(bytes: &'a [u8]) -> Self
        ensures { result ≡ record { number = 1; lines = lines_of bytes.now } }
    {
        Lines {
            rest: bytes,
            taken: 0,
        }
    }

    /// The number of the next line.
    pub fn number(&self) -> u32
        ensures { result ≡ self.now.number }
    {
        self.taken + 1
    }

    /// The next line without its line feed, with its number. `None` where no line is left. A line
    /// that is one too many, or too long, is a fault, and isn't taken.
    pub fn next(&mut self) -> Option<Result<(u32, &'a [u8]), ScriptFault>>
        ensures { TakesNext self.old self.new result }
    {
        if self.rest.is_empty() {
            return None;
        }
        let number = self.number();
        let (line, rest) = first_line(self.rest);
        if number as usize > MOST_LINES {
            return Some(Err(Cause::TooManyLines.at(number)));
        }
        if line.len() > MOST_IN_LINE {
            return Some(Err(Cause::LineTooLong.at(number)));
        }
        self.rest = rest;
        self.taken = number;
        Some(Ok((number, line)))
    }
}

/// The words of a line that are left.
#[derive(Debug, Drop)]
pub struct Words<'a> {
    rest: &'a [u8],
}

impl<'a> Model for Words<'a> {
    ghost use Rattle.std.specs.Prelude.{ℕ, List};
    ghost use Rattle.rht_script.specs.Spelling.{words_of};

    ghost Value = { List (List ℕ) };

    ghost view = { λ words. words_of words.rest.now };
}

impl<'a> Words<'a> {
    /// The words of this line.
    pub fn new(line: &'a [u8]) -> Self
        ensures { result ≡ words_of line.now }
    {
        Words { rest: line }
    }

    /// Whether the line is skipped: it has no words, or is a comment.
    pub fn is_skipped(&self) -> bool
        ensures { result ≡ is_skipped self.now }
    {
        match letter_at(self.rest) {
            Some(start) => self.rest[start] == b'#',
            None => true,
        }
    }

    /// The next word. `None` where there is none left.
    pub fn next(&mut self) -> Option<&'a [u8]>
        ensures { MatchOption result
            ((self.old ≡ []) × (self.new ≡ []))
            (λ word. self.old ≡ word.now ∷ self.new) }
    {
        let (word, rest) = first_word(self.rest)?;
        self.rest = rest;
        Some(word)
    }

    /// The next word's number, which is within the limits. After an `Err` the words are of no more
    /// use.
    pub fn number(&mut self, limits: Limits) -> Result<u32, Cause>
        ensures { Reads result self.new (number_first limits self.old) }
    {
        match self.next() {
            Some(word) => number_within(limits, word),
            None => Err(Cause::UnknownWord),
        }
    }

    /// The next word's number, which is any of 64 bits. After an `Err` the words are of no more use.
    pub fn long_number(&mut self) -> Result<u64, Cause>
        ensures { Reads result self.new (number_first (between 0 u64.MAX) self.old) }
    {
        match self.next() {
            Some(word) => number_between(word, 0, u64::MAX),
            None => Err(Cause::UnknownWord),
        }
    }

    /// The worker that the next word names, of a table of this config, where it is the first of a line. A word
    /// that begins a line of the schedule is an unknown one. After an `Err` the words are of no more use.
    pub fn worker(&mut self, config: &Config) -> Result<u32, Cause>
        ensures { Reads result self.new (worker_first config.now self.old) }
    {
        match self.next() {
            Some(word) => worker(config, word),
            None => Err(Cause::UnknownWord),
        }
    }

    /// The next word's port, in a script of this form. Causes come as for `port_word`, and any form but
    /// 2 is read as form 1. After an `Err` the words are of no more use.
    pub fn port(&mut self, form: u32) -> Result<Port, Cause>
        ensures { Reads result self.new (port_first form self.old) }
    {
        match self.next() {
            Some(word) => ports::port(form, word),
            None => Err(Cause::UnknownWord),
        }
    }

    /// Whether no word is left over.
    pub fn end(&mut self) -> Result<(), Cause>
        ensures { result ≡ end_of self.old }
    {
        match self.next() {
            None => Ok(()),
            Some(_) => Err(Cause::UnknownWord),
        }
    }
}

/// The first line, and what stands behind its line feed.
fn first_line(text: &[u8]) -> (&[u8], &[u8])
    requires { text.now ≢ [] }
    ensures { lines_of text.now ≡ result.0.now ∷ lines_of result.1.now }
{
    let end = line_end(text, 0);
    if end < text.len() {
        (&text[..end], &text[end + 1..])
    } else {
        (text, &[])
    }
}

/// The first word, and what stands behind it.
fn first_word(line: &[u8]) -> Option<(&[u8], &[u8])>
    ensures { MatchOption result
        (words_of line.now ≡ [])
        (λ parts. words_of line.now ≡ parts.0.now ∷ words_of parts.1.now) }
{
    let (start, end) = word_at(line, 0)?;
    Some((&line[start..end], &line[end..]))
}
