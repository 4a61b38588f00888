//! The command forms: what the words after the program's name ask for.

ghost use Rattle.std.specs.Prelude.{◌≡◌, map, string_bytes, true};
ghost use Rattle.std.specs.Char.{is_ascii_digit};
ghost use Rattle.std.specs.List.{list_all};
ghost use Rattle.rht_forms.specs.Forms.{form_of, form_of_word, form_of_two, gen_of_word, gen_of_digits};

/// The greatest number of digits of the number of `gen`.
const MOST_DIGITS: usize = 10;

/// What the words after the program's name ask for.
#[derive(Clone, Copy, Debug, PartialEq, Eq)]
pub enum Form {
    /// `run`: reads a script, and prints what its commands are answered and the last bindings.
    Run,
    /// `replay`: reads a script, and prints what its schedule makes of its commands, event by event.
    Replay,
    /// `gen NUMBER`: reads nothing, does the commands of the script of this number, and sums up in
    /// a line what they are answered and what is bound at the end.
    Gen { number: u32 },
    /// `deal`: reads a dealt script, and prints who did each of its commands and what that was
    /// answered, and the last bindings.
    Deal,
    /// `lease`: reads a lease script, whose bindings end, and prints what its commands are answered and the
    /// last bindings.
    Lease,
    /// `check`: reads a claimed history, and prints whether it is legal, or what is wrong with it.
    Check,
    /// `resume`: reads a resume script, whose walks come in pieces, and prints what its commands are answered
    /// and the last bindings.
    Resume,
}

impl Form {
    /// The form that these words are, if they are one.
    pub fn of(words: &[String]) -> Option<Form>
        ensures { result ≡ form_of (map string_bytes words.now) }
    {
        match words {
            [word] => form_of_word(word.as_str()),
            [word, second] => form_of_two(word.as_str(), second.as_str()),
            _ => None,
        }
    }
}

/// The form that a single word is, if it is one.
fn form_of_word(word: &str) -> Option<Form>
    ensures { result ≡ form_of_word word.now }
{
    if word == "run" {
        Some(Form::Run)
    } else if word == "replay" {
        Some(Form::Replay)
    } else if word == "deal" {
        Some(Form::Deal)
    } else if word == "lease" {
        Some(Form::Lease)
    } else if word == "check" {
        Some(Form::Check)
    } else if word == "resume" {
        Some(Form::Resume)
    } else {
        None
    }
}

/// The form that two words are, if they are one.
fn form_of_two(word: &str, second: &str) -> Option<Form>
    ensures { result ≡ form_of_two word.now second.now }
{
    if word == "gen" {
        gen_of_word(second)
    } else {
        None
    }
}

/// The form `gen` of the number that a word is: 1 to 10 digits, of which the first ones may be 0.
fn gen_of_word(word: &str) -> Option<Form>
    ensures { result ≡ gen_of_word word.now }
{
    if word.len() <= MOST_DIGITS && are_digits(word.as_bytes()) {
        gen_of_digits(word)
    } else {
        None
    }
}

/// Whether all bytes are digits.
fn are_digits(bytes: &[u8]) -> bool
    ensures { result ≡ list_all is_ascii_digit bytes.now }
{
    bytes.iter().all(|byte| byte.is_ascii_digit())
}

/// The form `gen` of the number that these digits stand for, where it has 32 bits.
fn gen_of_digits(digits: &str) -> Option<Form>
    requires { list_all is_ascii_digit digits.now ≡ true }
    ensures { result ≡ gen_of_digits digits.now }
{
    match digits.parse::<u32>() {
        Ok(number) => Some(Form::Gen { number }),
        Err(_) => None,
    }
}
