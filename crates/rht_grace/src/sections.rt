//! Entering a caller's read section, and leaving it. The section word of a caller is odd while it is
//! in one, and only the caller itself changes it.

ghost use Rattle.std.specs.Prelude.{◌≡◌, ◌<◌};
ghost use Rattle.rht_words.specs.Operations.{op_place};
ghost use Rattle.rht_words.specs.Places.{words_in};
ghost use Rattle.rht_words.specs.declared.geometry.Geometry.{Geometry};
ghost use Rattle.rht_words.specs.declared.machine.Next.TheVariants.{Done};
ghost use Rattle.rht_grace.specs.Sections.{turning, enter_plan, leave_plan};

use rht_words::{Next, Op, places};

/// Enters the read section of a caller that is in none, by one operation. The kernel's counterpart is
/// `rcu_read_lock`.
#[derive(Clone, Copy)]
pub struct Enter {
    /// The caller whose section it is.
    pub caller: u32,
}

/// Leaves the read section that the caller is in, by one operation. The kernel's counterpart is
/// `rcu_read_unlock`.
#[derive(Clone, Copy)]
pub struct Leave {
    /// The caller whose section it is.
    pub caller: u32,
}

impl Enter {
    /// Before its operation.
    #[inline(always)]
    pub fn new(caller: u32) -> Enter
        ensures { result ≡ record { caller = caller } }
    {
        Enter { caller }
    }

    /// Makes the caller's section word odd.
    #[inline(always)]
    pub fn plan(&self) -> Op
        ensures plan { result ≡ enter_plan self.now }
        ensures place { (g : Geometry) → self.now.caller < 16 → op_place result < words_in g }
    {
        turning(self.caller)
    }

    /// The section is entered, whatever its word was.
    #[inline(always)]
    pub fn take(&mut self, _old: u64) -> Next<()>
        ensures machine { self.new ≡ self.old }
        ensures next { result ≡ Done tt }
    {
        Next::Done(())
    }
}

impl Leave {
    /// Before its operation.
    #[inline(always)]
    pub fn new(caller: u32) -> Leave
        ensures { result ≡ record { caller = caller } }
    {
        Leave { caller }
    }

    /// Makes the caller's section word even.
    #[inline(always)]
    pub fn plan(&self) -> Op
        ensures plan { result ≡ leave_plan self.now }
        ensures place { (g : Geometry) → self.now.caller < 16 → op_place result < words_in g }
    {
        turning(self.caller)
    }

    /// The section is left, whatever its word was.
    #[inline(always)]
    pub fn take(&mut self, _old: u64) -> Next<()>
        ensures machine { self.new ≡ self.old }
        ensures next { result ≡ Done tt }
    {
        Next::Done(())
    }
}

/// An addition of 1, which makes an even word odd and an odd one even.
#[inline(always)]
fn turning(caller: u32) -> Op
    ensures plan { result ≡ turning caller }
    ensures place { (g : Geometry) → caller < 16 → op_place result < words_in g }
{
    Op::add(places::section(caller), 1)
}
