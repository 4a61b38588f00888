//! How a run can end: its status, and the line that it writes of it.

ghost use Rattle.std.specs.Prelude.{◌≡◌};
ghost use Rattle.rht_io.specs.Told.{Puts, PutsLine};
ghost use Rattle.rht_forms.specs.declared.ending.Failure.TheVariants.{Memory};
ghost use Rattle.rht_forms.specs.Endings.{failure_status, failure_line, status_of, ending_line, of_read_error};

use rht_io::{Failed, Sink, put_all};
use rht_script::{ReadError, ScriptFault, write_fault};
use std::alloc::AllocError;

/// Why a form wasn't served.
#[derive(Clone, Copy, Debug, PartialEq, Eq)]
pub enum Failure {
    /// The input is no script.
    Fault(ScriptFault),
    /// The source had a fault.
    Read,
    /// The sink had a fault.
    Write,
    /// Memory ran out.
    Memory,
}

/// How a run ended.
#[derive(Clone, Copy, Debug, PartialEq, Eq)]
pub enum Ending {
    /// The whole text was written.
    Done,
    /// The words are no command form.
    Usage,
    /// They are one, and it wasn't served.
    Unserved(Failure),
}

impl Failure {
    /// The exit status, from 2 to 5.
    fn status(self) -> u8
        ensures { result ≡ failure_status self }
    {
        match self {
            Failure::Fault(_) => 2,
            Failure::Read => 3,
            Failure::Write => 4,
            Failure::Memory => 5,
        }
    }

    /// Writes the line of the failure.
    fn write<E: Sink>(self, err: &mut E) -> Result<(), Failed>
        ensures { Puts E.held E.faults err.old err.new result (failure_line self) }
    {
        match self {
            Failure::Fault(fault) => write_fault(err, fault),
            Failure::Read => put_all(err, b"rht: read failed\n"),
            Failure::Write => put_all(err, b"rht: write failed\n"),
            Failure::Memory => put_all(err, b"rht: out of memory\n"),
        }
    }
}

impl Ending {
    /// The exit status, from 0 to 5.
    fn status(self) -> u8
        ensures { result ≡ status_of self }
    {
        match self {
            Ending::Done => 0,
            Ending::Usage => 1,
            Ending::Unserved(failure) => failure.status(),
        }
    }

    /// Writes the line of the ending, whatever becomes of it, and answers the exit status.
    pub fn end<E: Sink>(self, err: &mut E) -> u8
        ensures status { result ≡ status_of self }
        ensures line { PutsLine (E.held err.old) (E.held err.new) (E.faults err.old) (E.faults err.new)
            (ending_line self) }
    {
        let _ = self.write(err);
        self.status()
    }

    /// Writes the line of the ending: none where all is well.
    fn write<E: Sink>(self, err: &mut E) -> Result<(), Failed>
        ensures { Puts E.held E.faults err.old err.new result (ending_line self) }
    {
        match self {
            Ending::Done => Ok(()),
            Ending::Usage => put_all(
                err,
                b"rht: usage: rht run | rht replay | rht gen NUMBER | rht deal | rht lease | rht check | rht resume\n",
            ),
            Ending::Unserved(failure) => failure.write(err),
        }
    }
}

impl From<AllocError> for Failure {
    ghost from_gives = { λ _ failure. failure ≡ Memory };

    fn from(_error: AllocError) -> Failure {
        Failure::Memory
    }
}

impl From<ReadError> for Failure {
    ghost from_gives = { λ error failure. failure ≡ of_read_error error };

    fn from(error: ReadError) -> Failure {
        match error {
            ReadError::Fault(fault) => Failure::Fault(fault),
            ReadError::Memory => Failure::Memory,
        }
    }
}
