//! The words behind the program's name.

ghost use Rattle.std.specs.Prelude.{◌≡◌, ◌∷◌, [], map, string_bytes};
ghost use Rattle.rc_shell.specs.Words.{run_of, words_of};

use rc_spelling::number;

/// The budget of memory where the words name none, in segments.
const USUAL_SEGMENTS: u32 = 32;

/// The least budget of memory.
const LEAST_SEGMENTS: u64 = 4;

/// The greatest budget of memory.
const MOST_SEGMENTS: u64 = 4096;

/// What the words ask for.
#[derive(Clone, Copy, Debug, PartialEq, Eq)]
pub enum Words {
    /// To serve the lines of the input, with a budget of memory in segments.
    Run { segments: u32 },
    /// Nothing that the program does.
    Refused,
}

/// What a list of words asks for: the word `run` is a run, alone, or with a budget behind `--segments` or `--segments=`.
pub(crate) fn words_of(words: &[String]) -> Words
    ensures { result ≡ words_of (map string_bytes words.now) }
{
    match words {
        [word] => with_usual(word.as_bytes()),
        [word, option] => with_joined(word.as_bytes(), option.as_bytes()),
        [word, option, number] => {
            with_option(word.as_bytes(), option.as_bytes(), number.as_bytes())
        }
        _ => Words::Refused,
    }
}

/// What one word asks for.
fn with_usual(word: &[u8]) -> Words
    ensures { result ≡ words_of (word.now ∷ []) }
{
    if word == b"run".as_slice() {
        Words::Run {
            segments: USUAL_SEGMENTS,
        }
    } else {
        Words::Refused
    }
}

/// What two words ask for: the second is the option with its number.
fn with_joined(word: &[u8], option: &[u8]) -> Words
    ensures { result ≡ words_of (word.now ∷ option.now ∷ []) }
{
    if word != b"run".as_slice() {
        return Words::Refused;
    }
    match option.strip_prefix(b"--segments=".as_slice()) {
        Some(number) => run_of(number),
        None => Words::Refused,
    }
}

/// What three words ask for: the second is the option, and the third its number.
fn with_option(word: &[u8], option: &[u8], number: &[u8]) -> Words
    ensures { result ≡ words_of (word.now ∷ option.now ∷ number.now ∷ []) }
{
    if word == b"run".as_slice() && option == b"--segments".as_slice() {
        run_of(number)
    } else {
        Words::Refused
    }
}

/// A run with a budget of so many segments.
fn run_of(word: &[u8]) -> Words
    ensures { result ≡ run_of word.now }
{
    match number(word, MOST_SEGMENTS) {
        Some(segments) => {
            if segments < LEAST_SEGMENTS {
                Words::Refused
            } else {
                Words::Run {
                    segments: segments as u32,
                }
            }
        }
        None => Words::Refused,
    }
}
