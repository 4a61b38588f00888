//! Letting go of a bucket's lock.

ghost use Rattle.std.specs.Prelude.{◌≡◌};
ghost use Rattle.rht_words.specs.declared.machine.Next.TheVariants.{Done};
ghost use Rattle.rht_chain.specs.Unlock.{unlock_plan};

use rht_words::{Next, Op};

/// Unlocks a bucket that this call has locked, by one operation. The kernel's counterpart is
/// `rht_unlock`.
#[derive(Clone, Copy)]
pub struct Unlock {
    /// The place of the bucket's word.
    pub place: usize,
    /// The word that is to stand there.
    pub word: u64,
}

impl Unlock {
    /// Before its operation.
    #[inline(always)]
    pub fn new(place: usize, word: u64) -> Unlock
        ensures { result ≡ record { place = place; word = word } }
    {
        Unlock { place, word }
    }

    /// Stores the word.
    #[inline(always)]
    pub fn plan(&self) -> Op
        ensures { result ≡ unlock_plan self.now }
    {
        Op::store(self.place, self.word)
    }

    /// The bucket is unlocked, whatever its word was.
    #[inline(always)]
    pub fn take(&mut self, _old: u64) -> Next<()>
        ensures machine { self.new ≡ self.old }
        ensures next { result ≡ Done tt }
    {
        Next::Done(())
    }
}
