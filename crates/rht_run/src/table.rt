//! The table: its words in one place, which all passes share.

ghost use Rattle.std.specs.Prelude.{◌≡◌, ◌+◌};
ghost use Rattle.rht_words.specs.Places.{words_in};
ghost use Rattle.rht_run.specs.Layout.{gaps, AreStarts};

use crate::plays::Runs;
use crate::seats::SeatView;
use crate::starts::Starts;
use rht_policy::Mix;
use rht_words::Env;
use std::alloc::Global;

/// A table that callers share by reference. The kernel's counterpart is `struct rhashtable`.
#[derive(Drop)]
pub struct Table<M: Mix> {
    pub(crate) words: atomic_table::Table<(), SeatView<M>, Env, Runs<M>, Global>,
    pub(crate) env: Env,
    // where nodes and pages begin, and the last word of all pages, as `Starts` has them
    pub(crate) nodes_start: u32,
    pub(crate) pages_start: u32,
    pub(crate) last_word: u32,
    ghost fit: { (words.shared.key ≡ env) × (words.shared.table_id.words ≡ words_in env.geometry + gaps) × (words.shared.table_id.slots ≡ 0) },
    ghost starts: { AreStarts env.geometry nodes_start pages_start last_word },
}

impl<M: Mix> Table<M> {
    /// Where the nodes and the pages begin. A call loads it once.
    #[inline(always)]
    pub(crate) fn starts(&self) -> Starts
        ensures { result.geometry ≡ self.now.env.geometry }
    {
        Starts {
            geometry: self.env.geometry,
            nodes: self.nodes_start,
            pages: self.pages_start,
            last: self.last_word,
        }
    }
}
