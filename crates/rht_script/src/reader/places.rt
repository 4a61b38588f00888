//! Where a line ends, and where the next word stands. All that is known of places in the input
//! stands here.

ghost use Rattle.std.specs.Prelude.{◌≡◌, ◌≤◌, ◌==◌, [], MatchOption, drop, length, not, position};
ghost use Rattle.rht_script.specs.Parts.{IsLineEnd, IsNextWord};
ghost use Rattle.rht_script.specs.Spelling.{is_blank, words_of};

/// The place of the first line feed from this place on, or behind the last byte where there is none.
pub fn line_end(bytes: &[u8], at: usize) -> usize
    requires { at ≤ length bytes.now }
    ensures { IsLineEnd bytes.now at result }
{
    match line_feed_at(&bytes[at..]) {
        Some(len) => at + len,
        None => bytes.len(),
    }
}

/// The place of the next word from this place on, and the place behind its last byte. `None` where
/// only blanks are left.
pub fn word_at(line: &[u8], at: usize) -> Option<(usize, usize)>
    requires { at ≤ length line.now }
    ensures { MatchOption result (words_of (drop at line.now) ≡ []) (IsNextWord line.now at) }
{
    let start = at + letter_at(&line[at..])?;
    match blank_at(&line[start..]) {
        Some(len) => Some((start, start + len)),
        None => Some((start, line.len())),
    }
}

/// The place of the first line feed.
fn line_feed_at(text: &[u8]) -> Option<usize>
    ensures { result ≡ position (λ byte. byte == 10) text.now }
{
    text.iter().position(|byte| *byte == b'\n')
}

/// The place of the first byte that is no blank.
pub(super) fn letter_at(text: &[u8]) -> Option<usize>
    ensures { result ≡ position (λ byte. not (is_blank byte)) text.now }
{
    text.iter().position(|byte| !is_blank(*byte))
}

/// The place of the first blank.
fn blank_at(text: &[u8]) -> Option<usize>
    ensures { result ≡ position is_blank text.now }
{
    text.iter().position(|byte| is_blank(*byte))
}

/// Whether the byte parts words: a space, a tab or a carriage return.
fn is_blank(byte: u8) -> bool
    ensures { result ≡ is_blank byte }
{
    byte == b' ' || byte == b'\t' || byte == b'\r'
}
