//! Within which limits the numbers of a table lie. Settled configs and the options of a script are
//! tested against this one list.

ghost use Rattle.std.specs.Prelude.{◌↔◌, IsTrue};
ghost use Rattle.rht_words.specs.Limits.{IsWithinLimits};

/// The least and the greatest that a number may be.
#[derive(Clone, Copy, Debug, PartialEq, Eq)]
pub struct Limits {
    pub least: u32,
    pub greatest: u32,
}

impl Limits {
    /// Whether the number is one of those from the least to the greatest.
    pub fn allow(self, number: u32) -> bool
        ensures { IsTrue result ↔ IsWithinLimits self number }
    {
        self.least <= number && number <= self.greatest
    }
}

/// The objects that can be bound at one time.
pub const NODES: Limits = Limits {
    least: 1,
    greatest: 65_536,
};

/// The pages that buckets are kept in.
pub const PAGES: Limits = Limits {
    least: 4,
    greatest: 4_096,
};

/// The callers that can use a table at one time.
pub const CALLERS: Limits = Limits {
    least: 1,
    greatest: 16,
};

/// The ports that are expected, where something is said of them.
pub const HINT: Limits = Limits {
    least: 1,
    greatest: 65_536,
};

/// The least size before it is rounded.
pub const MIN: Limits = Limits {
    least: 1,
    greatest: 65_536,
};

/// The greatest size, where there is one.
pub const MAX: Limits = Limits {
    least: 4,
    greatest: 131_072,
};

/// The seed of the first table's hash.
pub const SEED: Limits = Limits {
    least: 0,
    greatest: u32::MAX,
};

/// How often a look-up walks one bucket again.
pub const REWALKS: Limits = Limits {
    least: 0,
    greatest: 255,
};

/// The least number of buckets that a table has.
pub const LEAST_SIZE: u32 = 4;

/// The words of a page, each of which is a bucket.
pub const PAGE_WORDS: u32 = 64;
