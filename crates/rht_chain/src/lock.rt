//! Taking the lock of a bucket, which is the lowest bit of its word.

ghost use Rattle.std.specs.Prelude.{◌≡◌};
ghost use Rattle.rht_chain.specs.Lock.{lock_new, lock_plan, lock_after, IsLocking, IsEven};

use rht_words::{Next, Op, is_locked};
use std::marker::Model;

/// Where the taking of a lock stands. Each state has one operation.
#[derive(Clone, Copy)]
pub enum LockAt {
    /// Loads the bucket's word, until it is found unlocked.
    Word,
    /// Locks the bucket, where its word is still the one that was found. Others may have changed
    /// it or locked it meanwhile.
    Exchange { word: u64 },
}

/// Takes the lock of a bucket. The answer is the word before, which is even. The kernel's
/// counterpart is `rht_lock`.
#[derive(Clone, Copy)]
pub struct Lock {
    place: usize,
    at: LockAt,
}

impl Model for Lock {
    ghost use Rattle.rht_chain.specs.Lock.{LockModel, IsEven};

    ghost Value = { LockModel };

    ghost view = { λ m. record { place = m.place; at = m.at } };

    ghost inverse = { λ m. record { place = m.place; at = m.at } };

    ghost invariant = { λ m. IsEven m.at };
}

impl Lock {
    /// Before the word at this place is loaded.
    #[inline(always)]
    pub fn new(place: usize) -> Lock
        ensures { result ≡ lock_new place }
    {
        Lock {
            place,
            at: LockAt::Word,
        }
    }

    /// The place of the bucket's word.
    #[inline(always)]
    pub fn place(&self) -> usize
        ensures { result ≡ self.now.place }
    {
        self.place
    }

    /// The next operation. It locks only a word that was found unlocked.
    #[inline(always)]
    pub fn plan(&self) -> Op
        ensures plan { result ≡ lock_plan self.now }
        ensures locks { IsLocking self.now.place result }
    {
        match self.at {
            LockAt::Word => Op::load(self.place),
            LockAt::Exchange { word } => Op::exchange(self.place, word, word + 1),
        }
    }

    /// Takes in the word's old value.
    #[inline(always)]
    pub fn take(&mut self, old: u64) -> Next<u64>
        ensures { (self.new, result) ≡ lock_after self.old old }
    {
        let (machine, next) = self.after(old);
        *self = machine;
        next
    }

    /// As `take`, but by value: for a machine that has this one in a state.
    #[inline(always)]
    pub fn after(self, old: u64) -> (Lock, Next<u64>)
        ensures { result ≡ lock_after self old }
    {
        match self.at {
            LockAt::Word if is_locked(old) => (self, Next::Go),
            LockAt::Word => (self.at(LockAt::Exchange { word: old }), Next::Go),
            LockAt::Exchange { word } if old == word => (self, Next::Done(word)),
            LockAt::Exchange { .. } => (self.at(LockAt::Word), Next::Go),
        }
    }

    /// The machine in another state.
    #[inline(always)]
    fn at(self, at: LockAt) -> Lock
        requires { IsEven at }
        ensures { result ≡ record self { at = at } }
    {
        Lock {
            place: self.place,
            at,
        }
    }
}
