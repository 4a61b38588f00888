//! Numbers in a text.

ghost use Rattle.std.specs.Prelude.{◌≡◌, ◌^◌, ◌<◌, ◌≤◌, IfOk, true};
ghost use Rattle.std.specs.Char.{is_ascii_digit};
ghost use Rattle.std.specs.List.{list_all};
ghost use Rattle.std.specs.Option.{SomeIff};
ghost use Rattle.rht_words.specs.Limits.{IsWithinLimits};
ghost use Rattle.rht_script.specs.Spelling.{between, number_of, is_number, value_of};

use crate::cause::Cause;
use rht_words::Limits;

/// The greatest number of digits of a number.
const MOST_DIGITS: usize = 20;

/// An owner is any number of 32 bits.
pub const OWNER: Limits = Limits {
    least: 0,
    greatest: u32::MAX,
};

/// The number that the word stands for, where it is within the limits.
pub fn number_within(limits: Limits, word: &[u8]) -> Result<u32, Cause>
    ensures value { result ≡ number_of limits word.now }
    ensures within { IfOk result (IsWithinLimits limits) }
{
    let number = number_between(word, limits.least.into(), limits.greatest.into())?;
    Ok(number as u32)
}

/// The number that the word stands for, where it is neither below the least nor above the greatest.
#[tactic(auto, unfolding(crate::specs::Spelling::number_of))]
pub fn number_between(word: &[u8], least: u64, greatest: u64) -> Result<u64, Cause>
    ensures value { result ≡ number_of (between least greatest) word.now }
    ensures least { IfOk result (λ number. least ≤ number) }
    ensures greatest { IfOk result (λ number. number ≤ greatest) }
{
    if !is_number(word) {
        return Err(Cause::BadNumber);
    }
    match value(word) {
        Some(number) if least <= number && number <= greatest => Ok(number),
        _ => Err(Cause::OutOfRange),
    }
}

/// Whether the word is 1 to 20 digits. Leading zeros are allowed.
fn is_number(word: &[u8]) -> bool
    ensures { result ≡ is_number word.now }
{
    !word.is_empty() && word.len() <= MOST_DIGITS && are_digits(word)
}

/// Whether all bytes are digits.
fn are_digits(word: &[u8]) -> bool
    ensures { result ≡ list_all is_ascii_digit word.now }
{
    word.iter().all(u8::is_ascii_digit)
}

/// What the digits stand for, where that is below 2^64.
fn value(digits: &[u8]) -> Option<u64>
    requires { list_all is_ascii_digit digits.now ≡ true }
    ensures { SomeIff result (value_of digits.now < 2 ^ 64) (value_of digits.now) }
{
    let mut value: u64 = 0;
    for digit in digits {
        value = value
            .checked_mul(10)?
            .checked_add(u64::from(*digit - b'0'))?;
    }
    Some(value)
}
