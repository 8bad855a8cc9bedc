//! The words that are reserved where exceptions propagate.
ghost use Rattle.std.specs.Prelude.{◌≡◌, ◌∷◌, []};
ghost use Rattle.ac_syntax.specs.Keywords as keywords;
ghost use Rattle.ac_syntax.specs.Keywords.{keyword_among};
ghost use Rattle.ac_syntax.specs.declared.token.Keyword.TheVariants.{ProgramError, ConstraintError, CapacityError};

use crate::reader::is;
use ac_syntax::{Keyword, Token};

/// The keyword that names an exception, if a word is one.
fn exception_keyword(word: &[u8]) -> Option<Keyword>
    ensures { result ≡ keyword_among (ProgramError ∷ ConstraintError ∷ CapacityError ∷ []) word.now }
{
    if is(b"program_error", word) {
        Some(Keyword::ProgramError)
    } else if is(b"constraint_error", word) {
        Some(Keyword::ConstraintError)
    } else if is(b"capacity_error", word) {
        Some(Keyword::CapacityError)
    } else {
        None
    }
}

/// The keyword that a word is, if it is one.
fn keyword_of(word: &[u8]) -> Option<Keyword>
    ensures { result ≡ keywords.keyword_of word.now }
{
    if is(b"pragma", word) {
        Some(Keyword::Pragma)
    } else if is(b"propagate", word) {
        Some(Keyword::Propagate)
    } else if is(b"exception", word) {
        Some(Keyword::Exception)
    } else if is(b"when", word) {
        Some(Keyword::When)
    } else if is(b"others", word) {
        Some(Keyword::Others)
    } else {
        exception_keyword(word)
    }
}

/// Whether a token is this keyword's word, not yet reserved.
pub fn is_keyword_text(own: Keyword, token: &Token) -> bool
    ensures { result ≡ keywords.is_keyword_text own token.now }
{
    match token {
        Token::Word(word) => is(own.text().as_bytes(), word.bytes()),
        _ => false,
    }
}

/// A token where the keywords are reserved.
pub fn reserved_token(token: Token) -> Token
    ensures { result ≡ keywords.reserved_token token }
{
    match token {
        Token::Word(word) => match keyword_of(word.bytes()) {
            Some(found) => Token::Keyword(found),
            None => Token::Word(word),
        },
        other => other,
    }
}
