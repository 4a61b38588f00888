//! Why a line is no line of a script.

ghost use Rattle.std.specs.Prelude.{◌≡◌};
ghost use Rattle.rht_script.specs.Grammar.{code_of, coded, fault_at, at_line};

use crate::script::ScriptFault;

/// Why a line is no line of a script, by the number that a fault tells. No cause has the number 7.
#[derive(Clone, Copy, Debug, PartialEq, Eq)]
pub enum Cause {
    /// The first line that isn't skipped doesn't begin with `table`, or there is none.
    NoTableLine = 1,
    /// A word can't stand where it does, is missing, or is one too many.
    UnknownWord = 2,
    /// A word is no number where one has to stand.
    BadNumber = 3,
    /// A number isn't one of those that are allowed there.
    OutOfRange = 4,
    /// The script has too many lines.
    TooManyLines = 5,
    /// The line has too many bytes.
    LineTooLong = 6,
    /// An option stands twice, the least size is above the greatest, or the first table has no room.
    OptionsDisagree = 8,
    /// The script has too many bytes.
    ScriptTooLong = 9,
}

impl Cause {
    /// The fault of this cause at a line, counted from 1.
    pub fn at(self, line: u32) -> ScriptFault
        ensures { result ≡ fault_at line self }
    {
        ScriptFault {
            line,
            cause: self.code(),
        }
    }

    /// The number by which a fault tells the cause.
    fn code(self) -> u8
        ensures { result ≡ code_of self }
    {
        self as u8
    }
}

/// What was read, with the cause told by its number.
pub(crate) fn coded<T>(read: Result<T, Cause>) -> Result<T, u8>
    ensures { result ≡ coded read }
{
    match read {
        Ok(value) => Ok(value),
        Err(cause) => Err(cause.code()),
    }
}

/// What was read at a line, counted from 1.
pub fn at_line<T>(line: u32, read: Result<T, Cause>) -> Result<T, ScriptFault>
    ensures { result ≡ at_line line read }
{
    match read {
        Ok(value) => Ok(value),
        Err(cause) => Err(cause.at(line)),
    }
}
