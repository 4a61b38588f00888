//! In which ways a table does otherwise than scripts and replays do.

ghost use Rattle.std.specs.Prelude.{◌≡◌, ◌<◌};
ghost use Rattle.rht_words.specs.Places.{map_words};
ghost use Rattle.rht_words.specs.Settled.{plain_ways};
ghost use Rattle.rht_words.specs.Ways.{start_in};

use crate::env::Env;

/// What is left to whoever opens a table, beside its config. It never changes.
#[derive(Clone, Copy, Debug, PartialEq, Eq)]
pub struct Ways {
    /// Whether a caller may look for a free node from any word of the node map on. Otherwise each looks
    /// from the first word on.
    pub spread: bool,
}

impl Ways {
    /// Those of scripts and replays.
    pub fn plain() -> Ways
        ensures { result ≡ plain_ways }
    {
        Ways { spread: false }
    }
}

impl Env {
    /// The word of the node map from which on a caller looks for a free node that is given this one:
    /// the first word where callers don't look from any on, or where there is no such word.
    pub fn start_in(&self, start: u32) -> u32
        ensures start { result ≡ start_in self.now start }
        ensures within { result < map_words self.now.geometry.nodes }
    {
        let words = self.geometry.node_map_words();
        if self.ways.spread && start < words {
            start
        } else {
            0
        }
    }
}
