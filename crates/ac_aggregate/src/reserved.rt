//! The words that name nothing in a question.
ghost use Rattle.std.specs.Prelude.{◌≡◌};
ghost use Rattle.std.specs.List.{list_any};
ghost use Rattle.std.specs.Str.{bytes_eq};
ghost use Rattle.ac_aggregate.specs.Grammar as questions;

use ac_printer::{is_among, is_reserved};

/// Those that may be names in a script.
const QUESTION_WORDS: [&[u8]; 4] = [b"when", b"and", b"not", b"reduce"];

fn is_question_word(word: &[u8]) -> bool
    ensures { result ≡ list_any (bytes_eq word.now) questions.question_words }
{
    is_among(word, &QUESTION_WORDS)
}

/// Whether a word may be a name in a question.
#[tactic(auto, unfolding(crate::specs::Grammar::is_name))]
pub fn is_name(word: &[u8]) -> bool
    ensures { result ≡ questions.is_name word.now }
{
    !(is_reserved(word) || is_question_word(word))
}
