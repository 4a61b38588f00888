//! The size of a smaller table, the size of the first one, and how many ports a table may hold.

ghost use Rattle.std.specs.Prelude.{◌≡◌, ◌≤◌, ◌^◌};
ghost use Rattle.rht_words.specs.Sizes.{IsSizeUpTo};
ghost use Rattle.rht_policy.specs.Sizes.{most_ports, shrunk_size};
ghost use Rattle.rht_words.specs.Sizes.{IsLeastSize, IsGreatestSize, starting_size};

use rht_words::{rounded_up, starting_size};

/// How many buckets a table shrinks to. The kernel's counterpart is `rhashtable_shrink`.
#[inline(always)]
pub fn shrunk(count: u64, min: u32) -> u32
    requires count { count ≤ 65536 }
    requires min { IsLeastSize min }
    ensures formula { result ≡ shrunk_size count min }
    ensures size { IsSizeUpTo (2 ^ 17) result }
{
    rounded_up((count * 3 / 2) as u32).max(min)
}

/// How many buckets the first table has. A `hint` of 0 is none, and so is a `max` of 0. The
/// kernel's counterpart is `rounded_hashtable_size`, which doesn't cut to the greatest size.
#[inline(always)]
pub fn starting(hint: u32, min: u32, max: u32) -> u32
    requires hint { hint ≤ 65536 }
    requires min { IsLeastSize min }
    requires max { IsGreatestSize max }
    ensures formula { result ≡ starting_size hint min max }
    ensures size { IsSizeUpTo (2 ^ 17) result }
{
    starting_size(hint, min, max)
}

/// How many ports a table may hold. A `max` of 0 is none. The kernel's counterpart is `max_elems`
/// of `rhashtable`.
#[inline(always)]
pub fn max_elems(max: u32) -> u64
    requires { IsGreatestSize max }
    ensures { result ≡ most_ports max }
{
    if max == 0 {
        1 << 31
    } else {
        2 * u64::from(max)
    }
}
