//! Ports, the keys of a table, and the word that stands for one in a node.

ghost use Rattle.std.specs.Prelude.{◌≡◌, nat_eq, Some};
ghost use Rattle.std.specs.Cmp.Rules.{comparing};
ghost use Rattle.std.specs.Ordering.{nat_cmp};
ghost use Rattle.std.proofs.Common.{rules};
ghost use Rattle.rht_words.specs.Ports.{IsPort, net_of, number_of, word_of, port_of, owner_of};

use std::cmp::Ordering;
use std::marker::Model;

/// A key of the registry: a net, and a number in it. No socket is behind it. Contracts see a port as its key
/// word, which has both in it.
#[derive(Clone, Copy, Debug)]
pub struct Port {
    /// The net, from 0 to 65,535.
    pub net: u16,
    /// The number in this net, from 0 to 4,294,967,295.
    pub number: u32,
}

impl Model for Port {
    ghost use Rattle.std.specs.Prelude.{ℕ, ◌<◌, ◌^◌};
    ghost use Rattle.rht_words.specs.Ports.{port_at, net_of, number_of};

    ghost Value = { ℕ };

    ghost view = { λ p. port_at p.net p.number };

    ghost invariant = { λ p. (p.net < 2 ^ 16) × (p.number < 2 ^ 32) };

    ghost inverse = { λ port. record { net = net_of port; number = number_of port } };
}

impl Port {
    /// The port of net 0 with this number.
    #[inline(always)]
    pub const fn plain(number: u32) -> Port
        ensures { result ≡ number }
    {
        Port { net: 0, number }
    }
}

impl PartialEq for Port {
    ghost eq = { nat_eq };

    ghost laws = { Prim.search (comparing, rules) };

    fn eq(&self, other: &Port) -> bool {
        word_of(*self) == word_of(*other)
    }
}

impl Eq for Port {
    ghost laws = { Prim.search rules };
}

/// By net, and then by number.
impl PartialOrd for Port {
    ghost partial_cmp = { λ port other. Some (nat_cmp port other) };

    ghost laws = { Prim.search (comparing, rules) };

    fn partial_cmp(&self, other: &Port) -> Option<Ordering> {
        Some(self.cmp(other))
    }
}

impl Ord for Port {
    ghost cmp = { nat_cmp };

    ghost total = { Prim.search rules };

    ghost matches_partial_cmp = { Prim.search rules };

    ghost matches_eq = { Prim.search rules };

    fn cmp(&self, other: &Port) -> Ordering {
        word_of(*self).cmp(&word_of(*other))
    }
}

/// The key word of the node of a port.
#[inline(always)]
pub fn word_of(port: Port) -> u64
    ensures word { result ≡ word_of port }
    ensures within { IsPort port }
{
    port.net as u64 * (1 << 32) + port.number as u64
}

/// The port of which this is the key word. A word that is no port's reads as some port.
#[inline(always)]
pub fn port_of(word: u64) -> Port
    ensures { result ≡ port_of word }
{
    Port {
        net: (word / (1 << 32) % (1 << 16)) as u16,
        number: (word % (1 << 32)) as u32,
    }
}

/// The owner that the owner word of a node says. A word past 32 bits reads as some owner.
#[inline(always)]
pub fn owner_of(word: u64) -> u32
    ensures { result ≡ owner_of word }
{
    (word % (1 << 32)) as u32
}
