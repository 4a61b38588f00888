//! Whether a table is due behind the last one, and of which size: a function of what was loaded.

ghost use Rattle.std.specs.Prelude.{◌≡◌, ◌≤◌, ◌^◌};
ghost use Rattle.rht_policy.specs.Conditions.{IsSize};
ghost use Rattle.rht_move.specs.Choice.{choice_of, chosen, is_sparse};

use rht_nest::is_nested;
use rht_policy::{above_75, below_30, shrunk};
use rht_words::{Env, Shape};

/// What the numbers that were loaded make due.
#[derive(Clone, Copy, Debug, PartialEq, Eq)]
pub enum Choice {
    /// A table of this size is to be attached behind the last one.
    Attach { size: u32 },
    /// A smaller table is due, but not before the resize that has begun has ended.
    Later,
    /// No table is due.
    Nothing,
}

/// What is due where so many ports are bound and the last table has this shape. `alone` says
/// whether that one is the current table. The count is cut to the most ports that there can be,
/// which no run passes. The kernel's counterpart is `rht_deferred_worker`, with
/// `rhashtable_shrink`.
#[inline(always)]
pub fn choice_of(env: Env, count: u64, shape: u64, alone: bool) -> Choice
    ensures { result ≡ choice_of env count shape alone }
{
    let ports = count.min(65_536);
    let size = Shape::from(shape).size();
    let full = above_75(ports, size, env.config.max);
    let sparse = is_sparse(env, ports, size);
    let smaller = shrunk(ports, env.config.min);
    chosen(size, smaller, full, sparse, alone, is_nested(shape))
}

/// The first of the cases that holds: the table is full; it is nearly empty and the only one; it is
/// nested; it is nearly empty.
#[inline(always)]
fn chosen(size: u32, smaller: u32, full: bool, sparse: bool, alone: bool, nested: bool) -> Choice
    requires { size ≤ 2 ^ 18 }
    ensures { result ≡ chosen size smaller full sparse alone nested }
{
    if full {
        Choice::Attach { size: 2 * size }
    } else if sparse && alone {
        Choice::Attach { size: smaller }
    } else if nested {
        Choice::Attach { size }
    } else if sparse {
        Choice::Later
    } else {
        Choice::Nothing
    }
}

/// Whether shrinking is on, and so few ports are too few for a table of this size.
#[inline(always)]
fn is_sparse(env: Env, ports: u64, size: u32) -> bool
    requires ports { ports ≤ 65536 }
    requires size { IsSize size }
    ensures { result ≡ is_sparse env ports size }
{
    env.config.shrink && below_30(ports, size, env.config.min)
}
