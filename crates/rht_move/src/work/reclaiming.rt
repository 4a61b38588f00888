//! The functions between the states in which a worker gives retired tables back, and in which it keeps
//! the section words for the table that it has retired.

ghost use Rattle.std.specs.Prelude.{◌≡◌, ◌<◌};
ghost use Rattle.rht_reclaim.specs.ReturnTables.{return_tables_after};
ghost use Rattle.rht_reclaim.specs.KeepSections.{keep_sections_after};
ghost use Rattle.rht_move.specs.Work.{returning, returned, keeping, kept};

use crate::work::{Outcome, WorkAt};
use rht_reclaim::{KeepSections, ReturnTables};
use rht_words::{Geometry, Next};

/// The going through all slots, from the first one on.
#[inline(always)]
pub fn returning(geometry: Geometry) -> WorkAt
    ensures { result ≡ returning geometry }
{
    WorkAt::Returning {
        returns: ReturnTables::new(geometry),
    }
}

/// After an operation of that: once it has ended the section is opened.
#[inline(always)]
pub fn returned(returns: ReturnTables, old: u64) -> WorkAt
    ensures { result ≡ returned (return_tables_after returns old).0 (return_tables_after returns old).1 }
{
    let (returns, next) = returns.after(old);
    match next {
        Next::Go => WorkAt::Returning { returns },
        Next::Done(()) => WorkAt::Opening,
    }
}

/// After the table in this slot was retired: the section words are kept in the slot.
#[inline(always)]
pub fn keeping(geometry: Geometry, root: u32, again: bool) -> WorkAt
    requires { root < 8 }
    ensures { result ≡ keeping geometry root again }
{
    WorkAt::KeepingSections {
        keep: KeepSections::new(geometry, root),
        again,
    }
}

/// After an operation of that: once it has ended the work lock is let go of.
#[inline(always)]
pub fn kept(keep: KeepSections, again: bool, old: u64) -> WorkAt
    ensures { result ≡ kept (keep_sections_after keep old).0 again (keep_sections_after keep old).1 }
{
    let (keep, next) = keep.after(old);
    match next {
        Next::Go => WorkAt::KeepingSections { keep, again },
        Next::Done(()) => WorkAt::LettingGo {
            outcome: Outcome::Moved { again },
        },
    }
}
