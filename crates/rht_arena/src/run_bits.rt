//! The bits of runs of pages in the words of the page map.

ghost use Rattle.std.specs.Prelude.{◌≡◌, ◌+◌, ◌^◌, ◌<◌};
ghost use Rattle.rht_arena.specs.PageRuns.{run_bits};

use rht_words::map_bits;

/// The bits of a word of the page map that stand for the pages of a run; none for a word in which
/// it has no page.
#[inline(always)]
#[tactic(auto, using(crate::proofs::RunBits::map_bits_rise))]
pub(crate) fn run_bits(first: u32, pages: u32, index: u32) -> u64
    requires { first + pages < 2 ^ 32 }
    ensures { result ≡ run_bits first pages index }
{
    map_bits(first + pages, index) - map_bits(first, index)
}
