//! The config that a table is opened with. It is handed to the table once and never changes.

use crate::geometry::Geometry;
use crate::limits::{HINT, PAGE_WORDS, REWALKS};
use crate::sizes::{is_greatest_size, is_least_size, starting_size};

/// How many owners a port may have. The kernel's counterparts are `rhashtable` and `rhltable`.
#[derive(Clone, Copy, Debug, PartialEq, Eq)]
pub enum Kind {
    /// At most one owner for each port.
    Single,
    /// A list of owners for each port; the owner that came last is the first.
    Listed,
}

/// Which hash picks the bucket of a port.
#[derive(Clone, Copy, Debug, PartialEq, Eq)]
pub enum Hash {
    /// The final mix of the kernel's `jhash` over port, net and the table's seed.
    Mix,
    /// The port itself, so that a script can choose the buckets.
    Low,
}

/// What a table is opened with. The kernel's counterpart is `rhashtable_params`.
#[derive(Clone, Copy, Debug, PartialEq, Eq)]
pub struct Config {
    /// How many owners a port may have.
    pub kind: Kind,
    /// The objects that can be bound at one time, from 1 to 65,536.
    pub nodes: u32,
    /// The pages of 64 words that buckets are kept in, from 4 to 4,096.
    pub pages: u32,
    /// The callers that can use the table at one time, from 1 to 16.
    pub callers: u32,
    /// The ports that are expected, from 1 to 65,536; 0 where nothing is said.
    pub hint: u32,
    /// The least size in buckets, a power of two from 4 to 65,536.
    pub min: u32,
    /// The greatest size in buckets, a power of two from 4 to 131,072; 0 where there is none.
    pub max: u32,
    /// The seed of the first table's hash.
    pub seed: u32,
    /// How often a look-up walks one bucket again, from 0 to 255.
    pub rewalks: u32,
    /// Which hash picks the bucket of a port.
    pub hash: Hash,
    /// Whether the table gets smaller when it is nearly empty.
    pub shrink: bool,
}

impl Config {
    ghost use Rattle.std.specs.Prelude.{◌≡◌, ◌≤◌, ◌↔◌, IsTrue};
    ghost use Rattle.rht_words.specs.Limits.{hint_limits};
    ghost use Rattle.rht_words.specs.Settled.{IsSettled, plain_config};
    ghost use Rattle.rht_words.specs.Sizes.{first_size};

    /// What a table is opened with where nothing is said of it, as by a table line without options.
    pub fn plain() -> Config
        ensures value { result ≡ plain_config }
        ensures settled { IsSettled result }
    {
        Config {
            kind: Kind::Single,
            nodes: 4_096,
            pages: 256,
            callers: 1,
            hint: 0,
            min: 4,
            max: 0,
            seed: 1,
            rewalks: 8,
            hash: Hash::Mix,
            shrink: false,
        }
    }

    /// Whether a table can be opened with the config: each number is within its limits, `min` and
    /// `max` are rounded and agree, and the first table fits the pages.
    pub fn is_settled(&self) -> bool
        ensures { IsTrue result ↔ IsSettled self.now }
    {
        Geometry::new(self.nodes, self.pages, self.callers).is_some()
            && self.hint <= HINT.greatest
            && is_least_size(self.min)
            && is_greatest_size(self.max)
            && (self.max == 0 || self.min <= self.max)
            && self.rewalks <= REWALKS.greatest
            && self.starting_size() <= PAGE_WORDS * self.pages
    }

    /// How many buckets the first table has. The kernel's counterpart is `rounded_hashtable_size`,
    /// which doesn't cut to the greatest size.
    pub fn starting_size(&self) -> u32
        requires { self.now.hint ≤ hint_limits.greatest }
        ensures { result ≡ first_size self.now }
    {
        starting_size(self.hint, self.min, self.max)
    }
}
