//! Readers of one token: `find_` answers None where it isn't the one that is wanted, the others stop there.
ghost use Rattle.std.specs.Prelude.{◌≡◌};
ghost use Rattle.std.specs.Str.{bytes_eq};
ghost use Rattle.ac_script.specs.Outcomes.{Sees, Reads, Finds};
ghost use Rattle.ac_script.specs.Readers as readers;

use crate::stop::Stop;
use ac_printer::is_reserved;
use ac_syntax::{Ident, Keyword, Mark, Placed, Token};

/// Whether a word is the wanted one.
pub fn is(word: &[u8], wanted: &[u8]) -> bool
    ensures { result ≡ bytes_eq word.now wanted.now }
{
    word == wanted
}

/// What stands behind the wanted word.
pub fn find_word<'a>(tokens: &'a [Placed], wanted: &[u8]) -> Option<&'a [Placed]>
    ensures { Finds (λ rest. (tt, rest.now)) result tokens.now (readers.word wanted.now tokens.now) }
{
    match tokens {
        [
            Placed {
                token: Token::Word(found),
                ..
            },
            rest @ ..,
        ] if found.bytes() == wanted => Some(rest),
        _ => None,
    }
}

/// What stands behind the wanted mark.
pub fn find_mark(tokens: &[Placed], wanted: Mark) -> Option<&[Placed]>
    ensures { Finds (λ rest. (tt, rest.now)) result tokens.now (readers.mark wanted tokens.now) }
{
    match tokens {
        [
            Placed {
                token: Token::Mark(found),
                ..
            },
            rest @ ..,
        ] if *found == wanted => Some(rest),
        _ => None,
    }
}

/// What stands behind the wanted keyword.
pub fn find_keyword(tokens: &[Placed], wanted: Keyword) -> Option<&[Placed]>
    ensures { Finds (λ rest. (tt, rest.now)) result tokens.now (readers.keyword wanted tokens.now) }
{
    match tokens {
        [
            Placed {
                token: Token::Keyword(found),
                ..
            },
            rest @ ..,
        ] if *found == wanted => Some(rest),
        _ => None,
    }
}

/// A number, and what stands behind it.
pub fn find_number(tokens: &[Placed]) -> Option<(u64, &[Placed])>
    ensures { Finds (λ read. (read.0, read.1.now)) result tokens.now (readers.number tokens.now) }
{
    match tokens {
        [
            Placed {
                token: Token::Number(number),
                ..
            },
            rest @ ..,
        ] => Some((*number, rest)),
        _ => None,
    }
}

pub fn word<'a>(tokens: &'a [Placed], wanted: &[u8]) -> Result<&'a [Placed], Stop<'a>>
    ensures { Sees (λ rest. (tt, rest.now)) result (readers.word wanted.now tokens.now) }
{
    find_word(tokens, wanted).ok_or(Stop::At(tokens))
}

pub fn keyword(tokens: &[Placed], wanted: Keyword) -> Result<&[Placed], Stop<'_>>
    ensures { Sees (λ rest. (tt, rest.now)) result (readers.keyword wanted tokens.now) }
{
    find_keyword(tokens, wanted).ok_or(Stop::At(tokens))
}

pub fn mark(tokens: &[Placed], wanted: Mark) -> Result<&[Placed], Stop<'_>>
    ensures { Sees (λ rest. (tt, rest.now)) result (readers.mark wanted tokens.now) }
{
    find_mark(tokens, wanted).ok_or(Stop::At(tokens))
}

pub fn number(tokens: &[Placed]) -> Result<(u64, &[Placed]), Stop<'_>>
    ensures { Reads (λ value. value) result (readers.number tokens.now) }
{
    find_number(tokens).ok_or(Stop::At(tokens))
}

/// An identifier.
pub fn name(tokens: &[Placed]) -> Result<(&Ident, &[Placed]), Stop<'_>>
    ensures { Reads (λ value. value.now) result (readers.name tokens.now) }
{
    match tokens {
        [
            Placed {
                token: Token::Word(word),
                ..
            },
            rest @ ..,
        ] if !is_reserved(word.bytes()) => Ok((word, rest)),
        _ => Err(Stop::At(tokens)),
    }
}
