//! Keeping the section words of all callers in the words of a slot, whose table was just retired.

ghost use Rattle.std.specs.Prelude.{◌≡◌, ◌<◌};
ghost use Rattle.rht_words.specs.Operations.{op_place};
ghost use Rattle.rht_words.specs.Places.{words_in};
ghost use Rattle.rht_reclaim.specs.KeepSections.{keep_sections_new, keep_sections_plan, keep_sections_after, keep_sections_after_at, next_section, IsKeepSectionsAtIn};

use rht_words::{Geometry, Next, Op, places};
use std::marker::Model;

/// Where the keeping of section words stands. Each state has one operation. Callers open and leave
/// sections meanwhile; one that opens a section behind the load of its word can't reach the table.
#[derive(Clone, Copy)]
pub enum KeepSectionsAt {
    /// Loads the section word of a caller.
    Section { caller: u32 },
    /// Stores that word in the slot.
    Word { caller: u32, word: u64 },
}

/// Loads the section word of each caller in order and stores it in the slot's word for that caller. From
/// these words it is told later whether each section has been left that was open when the table was
/// retired. The kernel's counterpart is the beginning of a grace period, by `call_rcu`.
#[derive(Clone, Copy)]
pub struct KeepSections {
    geometry: Geometry,
    slot: u32,
    at: KeepSectionsAt,
}

impl Model for KeepSections {
    ghost use Rattle.std.specs.Prelude.{◌<◌};
    ghost use Rattle.rht_reclaim.specs.KeepSections.{KeepSectionsModel, IsKeepSectionsAtIn};

    ghost Value = { KeepSectionsModel };

    ghost view = { λ m. record { geometry = m.geometry; slot = m.slot; at = m.at } };

    ghost inverse = { λ m. record { geometry = m.geometry; slot = m.slot; at = m.at } };

    ghost invariant = { λ m. (m.slot < 8) × IsKeepSectionsAtIn m.geometry m.at };
}

impl KeepSections {
    /// Before the load of the first caller's section word.
    #[inline(always)]
    pub fn new(geometry: Geometry, slot: u32) -> KeepSections
        requires { slot < 8 }
        ensures { result ≡ keep_sections_new geometry slot }
    {
        KeepSections {
            geometry,
            slot,
            at: KeepSectionsAt::Section { caller: 0 },
        }
    }

    /// The machine in another state.
    #[inline(always)]
    pub fn with(&self, at: KeepSectionsAt) -> KeepSections
        requires { IsKeepSectionsAtIn self.now.geometry at }
        ensures { result ≡ record self.now { at = at } }
    {
        KeepSections {
            geometry: self.geometry,
            slot: self.slot,
            at,
        }
    }

    /// The next operation.
    #[inline(always)]
    pub fn plan(&self) -> Op
        ensures plan { result ≡ keep_sections_plan self.now }
        ensures place { op_place result < words_in self.now.geometry }
    {
        match self.at {
            KeepSectionsAt::Section { caller } => Op::load(places::section(caller)),
            KeepSectionsAt::Word { caller, word } => {
                Op::store(places::loaded_section(self.slot, caller), word)
            }
        }
    }

    /// Takes in the word's old value.
    #[inline(always)]
    pub fn take(&mut self, old: u64) -> Next<()>
        ensures { (self.new, result) ≡ keep_sections_after self.old old }
    {
        let (machine, next) = self.after(old);
        *self = machine;
        next
    }

    /// As `take`, but by value: for a machine that has this one in a state.
    #[inline(always)]
    pub fn after(self, old: u64) -> (KeepSections, Next<()>)
        ensures after { result ≡ keep_sections_after self old }
        ensures at { IsKeepSectionsAtIn self.geometry result.0.at }
    {
        let (at, next) = after_at(self.geometry, self.at, old);
        (self.with(at), next)
    }
}

/// Where the keeping stands after a state that found this word, and what it says.
#[inline(always)]
fn after_at(geometry: Geometry, at: KeepSectionsAt, old: u64) -> (KeepSectionsAt, Next<()>)
    requires { IsKeepSectionsAtIn geometry at }
    ensures after { result ≡ keep_sections_after_at geometry at old }
    ensures at { IsKeepSectionsAtIn geometry result.0 }
{
    match at {
        KeepSectionsAt::Section { caller } => {
            (KeepSectionsAt::Word { caller, word: old }, Next::Go)
        }
        KeepSectionsAt::Word { caller, .. } => next_section(geometry, at, caller + 1),
    }
}

/// Behind a caller comes the next one, and behind the last one the machine ends.
#[inline(always)]
fn next_section(geometry: Geometry, at: KeepSectionsAt, caller: u32) -> (KeepSectionsAt, Next<()>)
    requires { IsKeepSectionsAtIn geometry at }
    ensures after { result ≡ next_section geometry at caller }
    ensures at { IsKeepSectionsAtIn geometry result.0 }
{
    if caller < geometry.callers {
        (KeepSectionsAt::Section { caller }, Next::Go)
    } else {
        (at, Next::Done(()))
    }
}
