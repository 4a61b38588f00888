//! Ports in a text.
//!
//! Stands on `numbers`. Read `specs/PortWords.antt` first.

ghost use Rattle.std.specs.Prelude.{◌≡◌, ◌<◌, ◌==◌, IfSome, length, position};
ghost use Rattle.rht_script.specs.PortWords.{cut_of, port_in, port_of_word};

use super::numbers::number_within;
use crate::cause::Cause;
use crate::script::NET_AND_NUMBER;
use rht_words::{Limits, Port};

/// A net is any number of 16 bits.
const NET: Limits = Limits {
    least: 0,
    greatest: 65_535,
};

/// A number in a net is any of 32 bits.
const NUMBER: Limits = Limits {
    least: 0,
    greatest: u32::MAX,
};

/// The port that the word stands for in a script of this form.
#[tactic(auto, unfolding(crate::specs::PortWords::port_of_word))]
pub fn port(form: u32, word: &[u8]) -> Result<Port, Cause>
    ensures { result ≡ port_of_word form word.now }
{
    match cut(form, word) {
        None => port_in(0, word),
        Some(dot) => {
            let net = number_within(NET, &word[..dot])?;
            port_in(net as u16, &word[dot + 1..])
        }
    }
}

/// The place at which a word is cut in a script of this form.
fn cut(form: u32, word: &[u8]) -> Option<usize>
    ensures place { result ≡ cut_of form word.now }
    ensures within { IfSome result (λ dot. dot < length word.now) }
{
    if form == NET_AND_NUMBER {
        first_dot(word)
    } else {
        None
    }
}

/// The place of the first dot.
fn first_dot(word: &[u8]) -> Option<usize>
    ensures place { result ≡ position (λ byte. byte == 46) word.now }
    ensures within { IfSome result (λ dot. dot < length word.now) }
{
    word.iter().position(|byte| *byte == b'.')
}

/// The port of this net of which the word is the number.
fn port_in(net: u16, word: &[u8]) -> Result<Port, Cause>
    ensures { result ≡ port_in net word.now }
{
    let number = number_within(NUMBER, word)?;
    Ok(Port { net, number })
}
