//! The seven operations on one shared word, and what each does to a list of words.

ghost use Rattle.std.specs.Prelude.{◌≡◌};

/// An operation on one word. Each answers the word before it. All are sequentially consistent.
#[derive(Clone, Copy, Debug, PartialEq, Eq)]
pub enum Op {
    /// Changes nothing.
    Load { place: usize },
    /// The word becomes the value.
    Store { place: usize, value: u64 },
    /// Where the word is `old` it becomes `new`, and else stays.
    Exchange { place: usize, old: u64, new: u64 },
    /// A sum, which wraps at 2^64.
    Add { place: usize, by: u64 },
    /// A difference, which wraps at 2^64.
    Sub { place: usize, by: u64 },
    /// Keeps the bits of the mask.
    And { place: usize, mask: u64 },
    /// Sets the bits of the mask.
    Or { place: usize, mask: u64 },
}

impl Op {
    ghost use Rattle.rht_words.specs.Operations.{op_place, word_after};
    ghost use Rattle.rht_words.specs.declared.op.Op.TheVariants.{Load, Store, Exchange, Add, Sub, And, Or};

    /// A load of the word at this place.
    #[inline(always)]
    pub fn load(place: usize) -> Op
        ensures { result ≡ Load place }
    {
        Op::Load { place }
    }

    /// A store of this value.
    #[inline(always)]
    pub fn store(place: usize, value: u64) -> Op
        ensures { result ≡ Store place value }
    {
        Op::Store { place, value }
    }

    /// An exchange of `old` for `new`.
    #[inline(always)]
    pub fn exchange(place: usize, old: u64, new: u64) -> Op
        ensures { result ≡ Exchange place old new }
    {
        Op::Exchange { place, old, new }
    }

    /// An addition of this number.
    #[inline(always)]
    pub fn add(place: usize, by: u64) -> Op
        ensures { result ≡ Add place by }
    {
        Op::Add { place, by }
    }

    /// A subtraction of this number.
    #[inline(always)]
    pub fn sub(place: usize, by: u64) -> Op
        ensures { result ≡ Sub place by }
    {
        Op::Sub { place, by }
    }

    /// An `and` with this mask, which keeps its bits.
    #[inline(always)]
    pub fn and(place: usize, mask: u64) -> Op
        ensures { result ≡ And place mask }
    {
        Op::And { place, mask }
    }

    /// An `or` with this mask, which sets its bits.
    #[inline(always)]
    pub fn or(place: usize, mask: u64) -> Op
        ensures { result ≡ Or place mask }
    {
        Op::Or { place, mask }
    }

    /// The place of the word that the operation is on.
    #[inline(always)]
    pub fn place(self) -> usize
        ensures { result ≡ op_place self }
    {
        match self {
            Op::Load { place }
            | Op::Store { place, .. }
            | Op::Exchange { place, .. }
            | Op::Add { place, .. }
            | Op::Sub { place, .. }
            | Op::And { place, .. }
            | Op::Or { place, .. } => place,
        }
    }

    /// What the operation makes of a word.
    #[inline(always)]
    pub fn word_after(self, word: u64) -> u64
        ensures { result ≡ word_after word self }
    {
        match self {
            Op::Load { .. } => word,
            Op::Store { value, .. } => value,
            Op::Exchange { old, new, .. } => { if word == old { new } else { word } }
            Op::Add { by, .. } => word.wrapping_add(by),
            Op::Sub { by, .. } => word.wrapping_sub(by),
            Op::And { mask, .. } => word & mask,
            Op::Or { mask, .. } => word | mask,
        }
    }
}
