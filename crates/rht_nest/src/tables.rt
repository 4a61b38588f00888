//! The shapes of tables, and the pages that they take when they are made.

ghost use Rattle.std.specs.Prelude.{◌≡◌};
ghost use Rattle.rht_arena.specs.PageRuns.{IsRunIn};
ghost use Rattle.rht_nest.specs.Tables.{is_nested, table_pages, run_first, run_pages};

use rht_words::{Geometry, Shape};

/// Whether the table whose shape is packed into this word is nested.
#[inline(always)]
pub fn is_nested(shape: u64) -> bool
    ensures { result ≡ is_nested shape }
{
    0 < Shape::from(shape).nest
}

/// How many pages a table takes when it is made: a flat one those of its buckets, a nested one its top
/// page.
#[inline(always)]
pub(crate) fn table_pages(shape: Shape) -> u32
    ensures { result ≡ table_pages shape }
{
    if 0 < shape.nest {
        1
    } else {
        (shape.size() / 64).max(1)
    }
}

/// The first page of the table whose shape is packed into this word, and how many pages it took when it
/// was made: those of its buckets, or the top page of a nested one. A page past the last one is read as
/// the last, and a run that goes past it as ending there.
#[inline(always)]
pub fn run_of(geometry: Geometry, shape: u64) -> (u32, u32)
    ensures run { result ≡ (run_first geometry shape, run_pages geometry shape) }
    ensures within { IsRunIn geometry result.0 result.1 }
{
    let shape = Shape::from(shape);
    let first = shape.page.min(geometry.pages - 1);
    let pages = table_pages(shape).min(geometry.pages - first);
    (first, pages)
}
