//! What an operation does to the list of all words.

ghost use Rattle.std.specs.Prelude.{◌≡◌, ◌<◌, length};
ghost use Rattle.rht_words.specs.Operations.{op_place, old_of, applied};

use crate::op::Op;

/// Performs the operation, and answers the word as it was before.
#[inline(always)]
pub fn apply(words: &mut [u64], op: Op) -> u64
    requires { op_place op < length words.old }
    ensures old { result ≡ old_of words.old op }
    ensures words { words.new ≡ applied words.old op }
{
    let place = op.place();
    let old = words[place];
    words[place] = op.word_after(old);
    old
}
