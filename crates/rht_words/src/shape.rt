//! The shape of a table, and the one word into which it is packed.

ghost use Rattle.std.specs.Prelude.{◌≡◌, ◌^◌};

/// What a slot says of its table, in one word.
#[derive(Clone, Copy, Debug, PartialEq, Eq)]
pub struct Shape {
    /// The binary exponent of the size in buckets.
    pub exponent: u32,
    /// How many low bits of a hash pick an entry of the top page of a nested table; 0 for a flat
    /// table.
    pub nest: u32,
    /// The first page; for a nested table its top page.
    pub page: u32,
}

impl Shape {
    ghost use Rattle.rht_words.specs.Shapes.{size_of};
    ghost use Rattle.rht_words.specs.Sizes.{IsSizeUpTo};

    /// How many buckets the table has. An exponent that no table has is read as the nearest one
    /// from 2 to 18.
    #[inline(always)]
    pub fn size(self) -> u32
        ensures size { result ≡ size_of self }
        ensures within { IsSizeUpTo (2 ^ 18) result }
    {
        1 << self.exponent.min(18).max(2)
    }
}

impl From<Shape> for u64 {
    ghost use Rattle.rht_words.specs.Shapes.{packed};

    ghost from_gives = { λ shape word. word ≡ packed shape };

    /// Packs a shape. One with an exponent or a nest of 32 or more doesn't come back.
    #[inline(always)]
    fn from(shape: Shape) -> u64 {
        shape.exponent as u64 + 32 * shape.nest as u64 + 1024 * shape.page as u64
    }
}

impl From<u64> for Shape {
    ghost use Rattle.rht_words.specs.Shapes.{unpacked};

    ghost from_gives = { λ word shape. shape ≡ unpacked word };

    /// Unpacks any word.
    #[inline(always)]
    fn from(word: u64) -> Shape {
        Shape {
            exponent: (word % 32) as u32,
            nest: (word / 32 % 32) as u32,
            page: (word / 1024 % (1 << 32)) as u32,
        }
    }
}
