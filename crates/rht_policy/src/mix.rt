//! The mixes of a port's number, its net and a seed, of which a hash is made.

ghost use Rattle.std.specs.Prelude.{◌≡◌, ℕ, ◌<◌};
ghost use Rattle.rht_words.specs.Ports.{net_of, number_of};
ghost use Rattle.rht_policy.specs.Mix.{after_round, final_mix, low_mix, bucket_of};

use rht_words::{Port, Shape};

/// A way to mix three numbers into one. Its meaning is `mix_of`, a function of the three.
pub trait Mix {
    ghost mix_of: { ℕ → ℕ → ℕ → ℕ };

    /// Mixes the number of a port, its net and the seed of a table, all as plain numbers.
    fn mix(number: u32, net: u32, seed: u32) -> u32
        ensures { result ≡ mix_of number net seed };
}

/// The final mix of the kernel's `jhash`, of number, net and seed in this order.
#[derive(Clone, Copy, Debug, PartialEq, Eq)]
pub struct Lookup3;

impl Mix for Lookup3 {
    ghost mix_of = { final_mix };

    #[inline(always)]
    #[tactic(auto, unfolding(crate::specs::Mix::final_mix))]
    fn mix(number: u32, net: u32, seed: u32) -> u32 {
        let (mut a, mut b, mut c) = (number, net, seed);
        c = round(c, b, 14);
        a = round(a, c, 11);
        b = round(b, a, 25);
        c = round(c, b, 16);
        a = round(a, c, 4);
        b = round(b, a, 14);
        round(c, b, 24)
    }
}

/// The port's number itself, so that whoever chooses the ports chooses the buckets.
#[derive(Clone, Copy, Debug, PartialEq, Eq)]
pub struct Low;

impl Mix for Low {
    ghost mix_of = { low_mix };

    #[inline(always)]
    fn mix(number: u32, _net: u32, _seed: u32) -> u32 {
        number
    }
}

/// One round: the word, xor the other one, less the other one rotated to the left by `by` bits.
#[inline(always)]
pub(crate) fn round(word: u32, other: u32, by: u32) -> u32
    requires some { 0 < by }
    requires few { by < 32 }
    ensures { result ≡ after_round word other by }
{
    (word ^ other).wrapping_sub(other.rotate_left(by))
}

/// The hash of a port in a table with this seed. A bucket is this number modulo the size. The
/// kernel's counterpart is `rht_key_get_hash`.
#[inline(always)]
pub fn hash_of<M: Mix>(port: Port, seed: u32) -> u32
    ensures { result ≡ M.mix_of (number_of port) (net_of port) seed }
{
    M::mix(port.number, port.net as u32, seed)
}

/// The bucket of a port in a table whose slot has these words for its shape and its seed. Any
/// words give one of the table's buckets. The kernel's counterpart is `rht_bucket_index`.
#[inline(always)]
pub fn bucket_of<M: Mix>(port: Port, shape: u64, seed: u64) -> u32
    ensures { result ≡ bucket_of M.mix_of port shape seed }
{
    hash_of::<M>(port, (seed % (1 << 32)) as u32) % Shape::from(shape).size()
}
