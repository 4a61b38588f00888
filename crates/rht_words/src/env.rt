//! What every machine of a table is told when it is made.

ghost use Rattle.std.specs.Prelude.{◌≡◌};
ghost use Rattle.rht_words.specs.Settled.{IsSettled, IsGeometryOf, plain_ways};

use crate::config::Config;
use crate::geometry::Geometry;
use crate::ways::Ways;

/// A table's numbers, its config, which passed the test of configs, and its ways. It never changes.
#[derive(Clone, Copy, Debug, PartialEq, Eq)]
pub struct Env {
    /// The numbers by which the words are laid out, which are the config's.
    pub geometry: Geometry,
    /// What the table was opened with.
    pub config: Config,
    /// In which ways it does otherwise than scripts and replays do.
    pub ways: Ways,
    pub ghost settled: { IsSettled config },
    pub ghost agrees: { IsGeometryOf config geometry },
}

impl Env {
    /// The numbers and the config of a table that is opened with this config, in the plain ways.
    pub fn new(config: Config) -> Env
        requires { IsSettled config }
        ensures config { result.config ≡ config }
        ensures ways { result.ways ≡ plain_ways }
    {
        Env::with(config, Ways::plain())
    }

    /// The same in these ways.
    pub fn with(config: Config, ways: Ways) -> Env
        requires { IsSettled config }
        ensures config { result.config ≡ config }
        ensures ways { result.ways ≡ ways }
    {
        Env {
            geometry: Geometry {
                nodes: config.nodes,
                pages: config.pages,
                callers: config.callers,
            },
            config,
            ways,
        }
    }
}
