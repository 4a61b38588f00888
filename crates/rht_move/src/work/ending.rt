//! How a worker ends: its read section is closed, and then the table that it has emptied is retired, or
//! the work lock let go of.

ghost use Rattle.std.specs.Prelude.{◌≡◌};
ghost use Rattle.rht_move.specs.Work.{letting_go, closed};

use crate::work::{Outcome, WorkAt};

/// What comes behind the closing of the section.
#[derive(Clone, Copy, Debug, PartialEq, Eq)]
pub enum Ending {
    /// The table in this slot is retired: all its entries are moved.
    Retiring { root: u32, again: bool },
    /// The work lock is let go of, and the call ends so.
    LettingGo { outcome: Outcome },
}

/// The closing of the section, behind which the work lock is let go of.
#[inline(always)]
pub fn letting_go(outcome: Outcome) -> WorkAt
    ensures { result ≡ letting_go outcome }
{
    let ending = Ending::LettingGo { outcome };
    WorkAt::Closing { ending }
}

/// After the section was closed.
#[inline(always)]
pub fn closed(ending: Ending) -> WorkAt
    ensures { result ≡ closed ending }
{
    match ending {
        Ending::Retiring { root, again } => WorkAt::Retiring { root, again },
        Ending::LettingGo { outcome } => WorkAt::LettingGo { outcome },
    }
}
