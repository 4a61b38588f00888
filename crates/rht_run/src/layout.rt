//! Where the words lie. Each of the first ones, which all callers share, has a cache line of its own.

ghost use Rattle.std.specs.Prelude.{◌≡◌, ◌+◌, ◌^◌, ◌<◌, length, IfOk};
ghost use Rattle.rht_words.specs.Opening.{opening_words};
ghost use Rattle.rht_words.specs.Places.{words_in};
ghost use Rattle.rht_run.specs.Layout.{gaps, physical, IsLaidOut};
ghost use Rattle.rht_words.specs.Places.{section_place};

use rht_words::{Env, opening_word};
use std::alloc::{AllocError, Global};

/// How many physical words are in no use.
const GAPS: usize = 168;

/// The physical place of the word at a place.
#[inline(always)]
#[tactic(auto, unfolding(crate::specs::Layout::physical))]
pub(crate) fn physical(place: usize) -> usize
    requires { place < 2 ^ 40 }
    ensures { result ≡ physical place }
{
    if place < 24 { 8 * place } else { place + GAPS }
}

/// The physical place of the section word of a caller.
#[inline(always)]
#[tactic(auto, unfolding(crate::specs::Layout::physical))]
pub(crate) fn section(caller: u32) -> usize
    requires { caller < 16 }
    ensures { result ≡ physical (section_place caller) }
{
    64 + 8 * caller as usize
}

/// All words at opening, where they lie. The one refusal is want of memory.
pub(crate) fn opening_laid(alloc: Global, env: Env) -> Result<Vec<u64>, AllocError>
    ensures laid { IfOk result (λ laid. IsLaidOut laid.items (opening_words env)) }
    ensures count { IfOk result (λ laid. length laid.items ≡ words_in env.geometry + gaps) }
{
    let count = env.geometry.words();
    let mut laid = Vec::from_elem(alloc, 0u64, count + GAPS)?;
    for place in 0..count {
        laid[physical(place)] = opening_word(env, place);
    }
    Ok(laid)
}
