//! When a table is too full, too empty, or as full as it may ever be.

ghost use Rattle.std.specs.Prelude.{◌≡◌, ◌≤◌};
ghost use Rattle.rht_words.specs.Sizes.{IsLeastSize, IsGreatestSize};
ghost use Rattle.rht_policy.specs.Conditions.{IsSize};
ghost use Rattle.rht_policy.specs.Thresholds.{is_above_75, is_above_100, is_above_max, is_below_30, may_grow};

use crate::sizes::max_elems;

/// Whether there are more ports than three quarters of the buckets, and the table may grow. A
/// `max` of 0 is none. The kernel's counterpart is `rht_grow_above_75`.
#[inline(always)]
pub fn above_75(count: u64, size: u32, max: u32) -> bool
    requires count { count ≤ 65536 }
    requires size { IsSize size }
    requires max { IsGreatestSize max }
    ensures { result ≡ is_above_75 count size max }
{
    count > u64::from(size / 4 * 3) && may_grow(size, max)
}

/// Whether there are more ports than buckets, and the table may grow. A `max` of 0 is none. The
/// kernel's counterpart is `rht_grow_above_100`.
#[inline(always)]
pub fn above_100(count: u64, size: u32, max: u32) -> bool
    requires count { count ≤ 65536 }
    requires size { IsSize size }
    requires max { IsGreatestSize max }
    ensures { result ≡ is_above_100 count size max }
{
    count > u64::from(size) && may_grow(size, max)
}

/// Whether there are fewer ports than three tenths of the buckets, and the table may shrink. The
/// kernel's counterpart is `rht_shrink_below_30`.
#[inline(always)]
pub fn below_30(count: u64, size: u32, min: u32) -> bool
    requires count { count ≤ 65536 }
    requires size { IsSize size }
    requires min { IsLeastSize min }
    ensures { result ≡ is_below_30 count size min }
{
    count < u64::from(size * 3 / 10) && size > min
}

/// Whether a table holds as many ports as it may. A `max` of 0 is none. The kernel's counterpart
/// is `rht_grow_above_max`.
#[inline(always)]
pub fn above_max(count: u64, max: u32) -> bool
    requires count { count ≤ 65536 }
    requires max { IsGreatestSize max }
    ensures { result ≡ is_above_max count max }
{
    count >= max_elems(max)
}

/// Whether a table of this size is below the greatest one; 0 is none.
#[inline(always)]
fn may_grow(size: u32, max: u32) -> bool
    ensures { result ≡ may_grow size max }
{
    max == 0 || size < max
}
