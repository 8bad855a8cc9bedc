//! Readers of a token or a few: each answers None where they aren't what is wanted.
ghost use Rattle.std.specs.Prelude.{◌≡◌};
ghost use Rattle.std.specs.Str.{bytes_eq};
ghost use Rattle.ac_aggregate.specs.Outcomes.{Finds, Passes};
ghost use Rattle.ac_aggregate.specs.Readers as readers;

use crate::oper::{Comparison, Oper};
use crate::reserved::is_name;
use ac_syntax::{Ident, Mark, Token};

/// Whether a word is the wanted one.
fn is(word: &[u8], wanted: &[u8]) -> bool
    ensures { result ≡ bytes_eq word.now wanted.now }
{
    word == wanted
}

pub fn mark(tokens: &[Token], wanted: Mark) -> Option<&[Token]>
    ensures { Passes result (readers.marked wanted tokens.now) }
{
    match tokens {
        [Token::Mark(found), rest @ ..] if *found == wanted => Some(rest),
        _ => None,
    }
}

pub fn word<'a>(tokens: &'a [Token], wanted: &[u8]) -> Option<&'a [Token]>
    ensures { Passes result (readers.word wanted.now tokens.now) }
{
    match tokens {
        [Token::Word(found), rest @ ..] if found.bytes() == wanted => Some(rest),
        _ => None,
    }
}

pub fn name(tokens: &[Token]) -> Option<(&Ident, &[Token])>
    ensures { Finds (λ name. name.now) result (readers.named tokens.now) }
{
    match tokens {
        [Token::Word(word), rest @ ..] if is_name(word.bytes()) => Some((word, rest)),
        _ => None,
    }
}

pub fn number(tokens: &[Token]) -> Option<(u64, &[Token])>
    ensures { Finds (λ number. number) result (readers.number tokens.now) }
{
    match tokens {
        [Token::Number(number), rest @ ..] => Some((*number, rest)),
        _ => None,
    }
}

/// Whether what follows is taken away.
pub fn sign(tokens: &[Token]) -> Option<(bool, &[Token])>
    ensures { Finds (λ minus. minus) result (readers.signs tokens.now) }
{
    match tokens {
        [Token::Mark(Mark::Plus), rest @ ..] => Some((false, rest)),
        [Token::Mark(Mark::Minus), rest @ ..] => Some((true, rest)),
        _ => None,
    }
}

fn comparison_of(mark: Mark) -> Option<Comparison>
    ensures { result ≡ readers.comparison_of mark }
{
    match mark {
        Mark::Equal => Some(Comparison::Equal),
        Mark::NotEqual => Some(Comparison::NotEqual),
        Mark::Less => Some(Comparison::Less),
        Mark::LessEqual => Some(Comparison::LessEqual),
        Mark::Greater => Some(Comparison::Greater),
        Mark::GreaterEqual => Some(Comparison::GreaterEqual),
        _ => None,
    }
}

pub fn comparison(tokens: &[Token]) -> Option<(Comparison, &[Token])>
    ensures { Finds (λ by. by) result (readers.comparing tokens.now) }
{
    match tokens {
        [Token::Mark(mark), rest @ ..] => match comparison_of(*mark) {
            Some(by) => Some((by, rest)),
            None => None,
        },
        _ => None,
    }
}

fn oper_of(bytes: &[u8]) -> Option<Oper>
    ensures { result ≡ readers.oper_of bytes.now }
{
    if is(bytes, b"+") {
        Some(Oper::Sum)
    } else if is(bytes, b"*") {
        Some(Oper::Product)
    } else if is(bytes, b"min") {
        Some(Oper::Least)
    } else if is(bytes, b"max") {
        Some(Oper::Greatest)
    } else {
        None
    }
}

fn oper(tokens: &[Token]) -> Option<(Oper, &[Token])>
    ensures { Finds (λ by. by) result (readers.operating tokens.now) }
{
    match tokens {
        [Token::Text(bytes), rest @ ..] => match oper_of(bytes.bytes()) {
            Some(by) => Some((by, rest)),
            None => None,
        },
        _ => None,
    }
}

/// A number that may have a minus.
#[tactic(auto, unfolding(crate::specs::Readers::signed_number))]
fn signed_number(tokens: &[Token]) -> Option<((bool, u64), &[Token])>
    ensures { Finds (λ read. (read.0, read.1)) result (readers.signed_number tokens.now) }
{
    if let Some(rest) = mark(tokens, Mark::Minus) {
        let (n, rest) = number(rest)?;
        return Some(((true, n), rest));
    }
    let (n, rest) = number(tokens)?;
    Some(((false, n), rest))
}

/// How a reduction reduces, and the number that it begins with.
#[derive(Drop)]
pub struct How {
    pub by: Oper,
    pub minus: bool,
    pub number: u64,
}

/// What stands behind the tick of a reduction.
#[tactic(auto, unfolding(crate::specs::Readers::reducing))]
pub fn reducing(tokens: &[Token]) -> Option<(How, &[Token])>
    ensures { Finds (λ read. (read.by, (read.minus, read.number))) result (readers.reducing tokens.now) }
{
    let rest = word(tokens, b"reduce")?;
    let rest = mark(rest, Mark::Open)?;
    let (by, rest) = oper(rest)?;
    let rest = mark(rest, Mark::Comma)?;
    let ((minus, number), rest) = signed_number(rest)?;
    let rest = mark(rest, Mark::Close)?;
    Some((How { by, minus, number }, rest))
}

/// What begins a negation.
#[tactic(auto, unfolding(crate::specs::Readers::negation))]
pub fn negation(tokens: &[Token]) -> Option<&[Token]>
    ensures { Passes result (readers.negation tokens.now) }
{
    let rest = word(tokens, b"not")?;
    mark(rest, Mark::Open)
}

/// The generator of an aggregate and its object.
#[derive(Drop)]
pub struct Head<'a> {
    pub generator: &'a Ident,
    pub object: &'a Ident,
}

/// What stands behind the bracket of an aggregate.
#[tactic(auto, unfolding(crate::specs::Readers::heading))]
pub fn heading(tokens: &[Token]) -> Option<(Head<'_>, &[Token])>
    ensures { Finds (λ read. (read.generator.now, read.object.now)) result (readers.heading tokens.now) }
{
    let rest = word(tokens, b"for")?;
    let (generator, rest) = name(rest)?;
    let rest = word(rest, b"of")?;
    let (object, rest) = name(rest)?;
    Some((Head { generator, object }, rest))
}
