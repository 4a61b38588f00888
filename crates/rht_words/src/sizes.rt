//! The sizes of tables: rounding to powers of two, and the size of the first table.

ghost use Rattle.std.specs.Prelude.{◌≡◌, ◌^◌, ◌<◌, ◌≤◌, ◌↔◌, IsTrue};
ghost use Rattle.rht_words.specs.Sizes.{rounded_up, rounded_down, starting_size, IsLeastSize, IsGreatestSize};

use crate::limits::{LEAST_SIZE, MAX, MIN};

/// The least power of two at or above the number. The kernel's counterpart is
/// `roundup_pow_of_two`, but for 0, which gives 1 here.
#[inline(always)]
pub fn rounded_up(number: u32) -> u32
    requires { number ≤ 2 ^ 31 }
    ensures { result ≡ rounded_up number }
{
    number.next_power_of_two()
}

/// The greatest power of two at or below the number; 0 for 0. The kernel's counterpart is
/// `rounddown_pow_of_two`.
#[inline(always)]
pub fn rounded_down(number: u32) -> u32
    ensures { result ≡ rounded_down number }
{
    if number == 0 { 0 } else { 1 << number.ilog2() }
}

/// Whether the number can be the least size of a table.
pub(crate) fn is_least_size(number: u32) -> bool
    ensures { IsTrue result ↔ IsLeastSize number }
{
    LEAST_SIZE <= number && number <= MIN.greatest && rounded_up(number) == number
}

/// Whether the number can be the greatest size of a table, or says that there is none.
pub(crate) fn is_greatest_size(number: u32) -> bool
    ensures { IsTrue result ↔ IsGreatestSize number }
{
    number == 0 || (MAX.allow(number) && rounded_down(number) == number)
}

/// How many buckets the first table has. A `hint` is how many ports are expected, `greatest` the
/// greatest size, and 0 says that there is none; `least` is the least size. The kernel's
/// counterpart is `rounded_hashtable_size`, which doesn't cut to the greatest size.
pub fn starting_size(hint: u32, least: u32, greatest: u32) -> u32
    requires { hint < 2 ^ 30 }
    ensures { result ≡ starting_size hint least greatest }
{
    let wished = if hint == 0 {
        64
    } else {
        rounded_up(hint * 4 / 3)
    };
    let size = wished.max(least);
    if greatest == 0 {
        size
    } else {
        size.min(greatest)
    }
}
