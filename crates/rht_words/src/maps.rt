//! The bits of a map's words. A map has a bit for each node or page, 64 in a word, and a bit that
//! is set says that its node or page is free.

ghost use Rattle.std.specs.Prelude.{◌≡◌, ◌<◌, IfSome};
ghost use Rattle.rht_words.specs.Maps.{map_bits, bit_of, bits_above, lowest_free, IsBitIn};

/// All bits of a word of the map that has so many bits; none for a word past the map.
#[inline(always)]
pub fn map_bits(count: u32, index: u32) -> u64
    ensures { result ≡ map_bits count index }
{
    let left = (count as u64).saturating_sub(64 * index as u64);
    if left < 64 { (1 << left) - 1 } else { u64::MAX }
}

/// The one bit at this place of a word, counted from the lowest.
#[inline(always)]
pub fn bit_of(bit: u32) -> u64
    requires { bit < 64 }
    ensures { result ≡ bit_of bit }
{
    1 << bit
}

/// All bits above this place of a word.
#[inline(always)]
pub fn bits_above(bit: u32) -> u64
    requires { bit < 64 }
    ensures { result ≡ bits_above bit }
{
    u64::MAX - ((1 << bit) - 1) - (1 << bit)
}

/// The lowest bit of the map's word that is set and stands for one of so many. `None` where no
/// bit of these is set.
#[inline(always)]
#[tactic(auto, using(crate::proofs::LowestBits::lowest_is_in))]
pub fn lowest_free(count: u32, index: u32, word: u64) -> Option<u32>
    ensures lowest { result ≡ lowest_free count index word }
    ensures within { IfSome result (IsBitIn count index) }
{
    let free = word & map_bits(count, index);
    if free == 0 {
        None
    } else {
        Some(free.trailing_zeros())
    }
}
